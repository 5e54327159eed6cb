//! The loop over the lines of an input: each is answered, and its text is written.

ghost use Rattle.std.specs.Prelude.{◌≡◌, ◌==◌, ◌-◌, ◌∷◌, [], ◌++◌, ℕ, List, false, length, take, OnOk, OnErr};
ghost use Rattle.std.specs.List.{list_any};
ghost use Rattle.pon_device.specs.Device.{IsAtEnd};
ghost use Rattle.pon_device.specs.Streams.{TellsLine, TellsRead, TellsWrite};
ghost use Rattle.pon_text.specs.Planning.{Planned, PrintsLine};
ghost use Rattle.pon_text.specs.Progress.{AnswersPiece, Continues, PrintsPiece};

use crate::answers::Answers;
use crate::cuts::cut;
use pon_device::{DevRead, DevWrite, DeviceFault, write_all};
use std::alloc::{AllocError, Global};

/// The end of a session: the input ended, and all of its text is written.
#[derive(Clone, Copy, Debug, PartialEq, Eq)]
pub struct PlanEnd;

// The most bytes kept of a line: one more than the longest line has.
const KEPT: usize = 4097;

// The most bytes of one read.
const PIECE: usize = 16_384;

// Gathered replies are written when they have this length, and before the next read.
const FULL: usize = 65_536;

// Appends a part to the open line, up to `KEPT` bytes.
fn keep_part(line: &mut Vec<u8>, part: &[u8]) -> Result<(), AllocError>
    ensures { OnOk result (line.new.items ≡ line.old.items
        ++ take (KEPT - length line.old.items) part.now) }
{
    let room = KEPT.saturating_sub(line.len());
    line.extend_from_slice(&part[..room.min(part.len())])
}

// Ends the open line with this part, and answers it.
fn end_line<S, A: Answers<S>>(
    answers: &mut A,
    state: &mut S,
    line: &mut Vec<u8>,
    part: &[u8],
    replies: &mut Vec<u8>,
) -> Result<(), AllocError>
    requires no_feed { list_any (λ b. b == 10) part.now ≡ false }
    ensures ok { OnOk result ((text : List ℕ)
        × Continues A.gives state.old line.old.items state.new line.new.items
        (part.now ++ 10 ∷ []) text
        × (replies.new.items ≡ replies.old.items ++ text)) }
    ensures err { OnErr result (replies.new.items ≡ replies.old.items) }
    ensures path { A.path state.old state.new }
{
    if line.is_empty() {
        return answers.answer_line(state, part, replies);
    }
    keep_part(line, part)?;
    let answered = answers.answer_line(state, line.as_slice(), replies);
    line.clear();
    answered
}

// Writes the gathered replies.
fn send<W: DevWrite>(replies: &mut Vec<u8>, writer: &mut W) -> Result<(), DeviceFault>
    ensures text { TellsLine replies.old.items (W.contents writer.old)
        (W.contents writer.new) result }
    ensures failures { TellsWrite (W.failures writer.old) (W.failures writer.new) result }
    ensures empty { replies.new.items ≡ [] }
{
    let sent = write_all(writer, replies.as_slice());
    replies.clear();
    match sent {
        Ok(()) => Ok(()),
        Err(_) => Err(DeviceFault::Write),
    }
}

// Answers the lines that end in a piece, keeps the bytes after them, and gathers the replies.
fn answer_piece<S, A: Answers<S>, W: DevWrite>(
    answers: &mut A,
    state: &mut S,
    line: &mut Vec<u8>,
    piece: &[u8],
    replies: &mut Vec<u8>,
    writer: &mut W,
) -> Result<(), DeviceFault>
    requires empty { replies.old.items ≡ [] }
    ensures text { AnswersPiece A.gives state.old line.old.items
        state.new line.new.items piece.now replies.new.items (W.contents writer.old)
        (W.contents writer.new) result }
    ensures path { A.path state.old state.new }
    ensures failures { TellsWrite (W.failures writer.old) (W.failures writer.new) result }
{
    let mut rest = piece;
    'lines: while let Some((part, after)) = cut(rest, b'\n') {
        end_line(answers, state, line, part, replies)?;
        if replies.len() >= FULL {
            send(replies, writer)?;
        }
        rest = after;
    }
    Ok(keep_part(line, rest)?)
}

// Answers the lines that end in a piece, and writes their replies, also those before memory is refused.
fn print_piece<S, A: Answers<S>, W: DevWrite>(
    answers: &mut A,
    state: &mut S,
    line: &mut Vec<u8>,
    piece: &[u8],
    replies: &mut Vec<u8>,
    writer: &mut W,
) -> Result<(), DeviceFault>
    requires empty { replies.old.items ≡ [] }
    ensures text { PrintsPiece A.gives state.old line.old.items
        state.new line.new.items piece.now (W.contents writer.old)
        (W.contents writer.new) result }
    ensures path { A.path state.old state.new }
    ensures failures { TellsWrite (W.failures writer.old) (W.failures writer.new) result }
    ensures empty { OnOk result (replies.new.items ≡ []) }
{
    match answer_piece(answers, state, line, piece, replies, writer) {
        Ok(()) => send(replies, writer),
        Err(DeviceFault::Memory) => match send(replies, writer) {
            Ok(()) => Err(DeviceFault::Memory),
            Err(fault) => Err(fault),
        },
        Err(fault) => Err(fault),
    }
}

// Answers the last line, which has no line feed, and writes its text or a prefix of it.
fn print_line<S, A: Answers<S>, W: DevWrite>(
    answers: &mut A,
    state: &mut S,
    line: &[u8],
    replies: &mut Vec<u8>,
    writer: &mut W,
) -> Result<(), DeviceFault>
    requires empty { replies.old.items ≡ [] }
    ensures text { PrintsLine A.gives state.old state.new line.now (W.contents writer.old)
        (W.contents writer.new) result }
    ensures path { A.path state.old state.new }
    ensures failures { TellsWrite (W.failures writer.old) (W.failures writer.new) result }
{
    answers.answer_line(state, line, replies)?;
    send(replies, writer)
}

// Reads lines to the end of the input, and writes their replies before the next read. `line` and `replies` are memory
// for the open line and for the gathered replies.
fn answer_reads<S, A: Answers<S>, R: DevRead, W: DevWrite>(
    answers: &mut A,
    state: &mut S,
    line: &mut Vec<u8>,
    replies: &mut Vec<u8>,
    reader: &mut R,
    writer: &mut W,
) -> Result<(), DeviceFault>
    requires no_line { line.old.items ≡ [] }
    requires no_replies { replies.old.items ≡ [] }
    ensures text { Planned A.gives state.old state.new (R.remaining reader.old) (R.remaining reader.new)
        (W.contents writer.old) (W.contents writer.new) result }
    ensures path { A.path state.old state.new }
    ensures end { OnOk result (IsAtEnd (R.remaining reader.new)) }
    ensures read { TellsRead (R.calls reader.old) (R.calls reader.new) (R.failures reader.old)
        (R.failures reader.new) result }
    ensures write { TellsWrite (W.failures writer.old) (W.failures writer.new) result }
{
    let mut piece = [0u8; PIECE];
    for _turn in 0..u64::MAX {
        let Ok(len) = reader.read(&mut piece) else {
            return Err(DeviceFault::Read);
        };
        if len == 0 {
            if line.is_empty() {
                return Ok(());
            }
            return print_line(answers, state, line.as_slice(), replies, writer);
        }
        match print_piece(answers, state, line, &piece[..len], replies, writer) {
            Ok(()) => {}
            Err(fault) => return Err(fault),
        }
    }
    Err(DeviceFault::Read)
}

// Reads lines to the end of the input, and writes their replies before the next read.
fn answer_lines<S, A: Answers<S>, R: DevRead, W: DevWrite>(
    alloc: Global,
    answers: &mut A,
    state: &mut S,
    reader: &mut R,
    writer: &mut W,
) -> Result<(), DeviceFault>
    ensures text { Planned A.gives state.old state.new (R.remaining reader.old) (R.remaining reader.new)
        (W.contents writer.old) (W.contents writer.new) result }
    ensures path { A.path state.old state.new }
    ensures end { OnOk result (IsAtEnd (R.remaining reader.new)) }
    ensures read { TellsRead (R.calls reader.old) (R.calls reader.new) (R.failures reader.old)
        (R.failures reader.new) result }
    ensures write { TellsWrite (W.failures writer.old) (W.failures writer.new) result }
{
    let mut line = Vec::new(alloc);
    let mut replies = Vec::new(alloc);
    answer_reads(answers, state, &mut line, &mut replies, reader, writer)
}

/// Reads lines to the end of the input, answers each, writes its text, and flushes the writer.
///
/// What is written is the output text of what was read, from the state before. The replies to one read are written
/// before the next read. At the end of the input, the state is the state after the last line. The writer is flushed
/// once, at the end of the input.
///
/// # Errors
///
/// `Read` if the reader failed or 2^64 - 1 reads were made; then the text of all whole lines read is written. The state
/// is then the state after the last of these lines. `Write` if the writer failed; then a prefix of the text is written.
/// `Memory` if memory was refused; then the text of some first lines is written, and nothing of the next one.
///
/// A line without its line feed at a fault is not answered. After each fault the state is on the path.
pub fn answer_input<S, A: Answers<S>, R: DevRead, W: DevWrite>(
    alloc: Global,
    answers: &mut A,
    state: &mut S,
    reader: &mut R,
    writer: &mut W,
) -> Result<PlanEnd, DeviceFault>
    ensures text { Planned A.gives state.old state.new (R.remaining reader.old) (R.remaining reader.new)
        (W.contents writer.old) (W.contents writer.new) result }
    ensures path { A.path state.old state.new }
    ensures end { OnOk result (IsAtEnd (R.remaining reader.new)) }
    ensures read { TellsRead (R.calls reader.old) (R.calls reader.new) (R.failures reader.old)
        (R.failures reader.new) result }
    ensures write { TellsWrite (W.failures writer.old) (W.failures writer.new) result }
{
    match answer_lines(alloc, answers, state, reader, writer) {
        Ok(()) => match writer.flush() {
            Ok(()) => Ok(PlanEnd),
            Err(_) => Err(DeviceFault::Write),
        },
        Err(fault) => Err(fault),
    }
}
