//! The rows of a picture of a map: a row for each burst, or rows of equal time if there are many.

ghost use Rattle.std.specs.Prelude.{◌<◌, ◌^◌};
ghost use Rattle.pon_draw.specs.Pieces.{IsPieceAt};

use crate::drawing::FRAME_WORDS;

/// The greatest number of bursts that have a row each, and of structures that are told apart along a whole frame.
const MAX_BURST_ROWS: usize = 16;

const MAX_ROW_STRUCTURES: usize = 64;

/// Rows of equal time, and words of one of them: together a frame.
pub(crate) const TIME_ROWS: u64 = 12;

pub(crate) const TIME_ROW_WORDS: u64 = FRAME_WORDS / TIME_ROWS;

/// What a row has.
#[derive(Clone, Copy, PartialEq, Eq)]
pub(crate) enum Rows {
    /// A burst, along the whole frame.
    Bursts,
    /// A twelfth of the frame, with all that is in it.
    Times,
}

impl Rows {
    /// The rows of a map with these numbers of bursts and structures.
    pub(crate) fn of(bursts: usize, structures: usize) -> Rows {
        if bursts > MAX_BURST_ROWS || structures > MAX_ROW_STRUCTURES {
            Rows::Times
        } else {
            Rows::Bursts
        }
    }
}

/// A piece of a part of the frame in one row: its row, its first word there, and its words.
#[derive(Clone, Copy)]
pub(crate) struct Piece {
    pub(crate) row: u64,
    pub(crate) first: u64,
    pub(crate) words: u64,
}

/// Returns the piece at a word of a part that ends before the word `end`, in rows of equal time.
pub(crate) fn time_piece(at: u64, end: u64) -> Piece
    requires { at < end }
    ensures { IsPieceAt at end result }
{
    let first = at % TIME_ROW_WORDS;
    Piece {
        row: at / TIME_ROW_WORDS,
        first,
        words: (end - at).min(TIME_ROW_WORDS - first),
    }
}
