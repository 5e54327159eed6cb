//! Lines at a plant, each answered as its text.

ghost use Rattle.std.specs.Prelude.{◌≡◌, ◌||◌, IfOk, OnErr, OnOk, is_some, length};
ghost use Rattle.pon_plant.specs.Turning.{KeepsChapters};
ghost use Rattle.pon_text.specs.Giving.{AddsReply};
ghost use Rattle.pon_manage.specs.FirstBytes.{gives_first};
ghost use Rattle.pon_manage.specs.Paths.{keeps_path};
ghost use Rattle.pon_manage.specs.Refusals.{refusal_in};
ghost use Rattle.pon_manage.specs.Text.{Gives};
ghost use Rattle.pon_line.specs.Reading.{read_line};

use crate::answer::{answer, answer_frame_line};
use crate::notes::Notes;
use pon_dbru::Occupancies;
use pon_line::{LineRefusal, read_frame_line, read_line};
use pon_plant::Plant;
use pon_text::Answers;
use std::alloc::{AllocError, Global};

/// Notes the refusal of the line of this number, if it is refused.
pub(crate) fn note_refused<N: Notes>(
    notes: &mut N,
    number: u64,
    plant: &Plant,
    line: &[u8],
    refusal: Option<LineRefusal>,
)
    ensures { N.noted notes.new ≡ (is_some refusal || N.noted notes.old) }
{
    if let Some(refusal) = refusal {
        notes.note(number, plant, line, refusal);
    }
}

/// Answers lines at a plant, which is their state, and notes each refusal.
#[derive(Drop)]
pub(crate) struct AtPlant<'a, N> {
    // A buffer for the bytes of a map.
    pub(crate) room: Vec<u8>,
    pub(crate) notes: &'a mut N,
    // The number of lines so far, at most 2^64 - 1.
    lines: u64,
}

impl<'a, N: Notes> AtPlant<'a, N> {
    pub(crate) fn new(alloc: Global, notes: &'a mut N) -> Self {
        let room = Vec::new(alloc);
        AtPlant {
            room,
            notes,
            lines: 0,
        }
    }

    /// Counts a line, and notes its refusal if it is refused.
    pub(crate) fn note(&mut self, plant: &Plant, line: &[u8], refusal: Option<LineRefusal>) {
        self.lines = self.lines.saturating_add(1);
        note_refused(self.notes, self.lines, plant, line, refusal);
    }

    // Answers a line, and returns the refusal if it is refused. Notes nothing.
    fn answer_unnoted(
        &mut self,
        plant: &mut Plant,
        line: &[u8],
        replies: &mut Vec<u8>,
    ) -> Result<Option<LineRefusal>, AllocError>
        ensures ok { OnOk result (AddsReply Gives plant.old plant.new line.now
            replies.old.items replies.new.items) }
        ensures err { OnErr result (replies.new.items ≡ replies.old.items) }
        ensures refusal { IfOk result (λ told. told
            ≡ refusal_in plant.old (read_line (length plant.old) line.now)) }
        ensures path { KeepsChapters plant.old plant.new }
    {
        let ports = plant.count();
        let mut occ = Occupancies::new();
        match read_frame_line(ports, line, &mut occ) {
            Some(asked) => answer_frame_line(plant, asked, occ, &mut self.room, replies),
            None => answer(plant, read_line(ports, line), &mut self.room, replies),
        }
    }
}

impl<'a, N: Notes> Answers<Plant> for AtPlant<'a, N> {
    ghost gives = { Gives };

    ghost path = { KeepsChapters };

    fn answer_line(
        &mut self,
        plant: &mut Plant,
        line: &[u8],
        replies: &mut Vec<u8>,
    ) -> Result<(), AllocError> {
        let refusal = self.answer_unnoted(plant, line, replies)?;
        self.note(plant, line, refusal);
        Ok(())
    }

    ghost reads_first = { gives_first };

    ghost is_path = { keeps_path };
}
