ghost use Rattle.std.specs.Prelude.{◌<◌};

use pon_check_file::{MAX_LINE_BYTES, check_file};
use pon_device::{DevRead, DeviceFault, MemRead, MemWrite};
use std::alloc::{AllocError, Global};

// Makes a device that gives at most `most` of the bytes in a call, and fails in the given calls; `None` if memory is
// refused.
fn reader_of(alloc: Global, input: &[u8], most: usize, failures: &[u64]) -> Option<MemRead>
    requires { 0 < most }
{
    let failures = failures.to_vec(alloc).ok()?;
    let bytes = input.to_vec(alloc).ok()?;
    Some(MemRead::new(bytes, most, failures))
}

// The result of a run, and the device that it wrote to.
#[derive(Drop)]
struct Checked {
    result: Result<bool, DeviceFault>,
    writer: MemWrite,
}

// Checks the file over devices that give and take at most `most` bytes in a call, and fail in the given calls. `None`
// if memory is refused to the test itself.
fn check_over(
    alloc: Global,
    input: &[u8],
    most: usize,
    reads: &[u64],
    writes: &[u64],
) -> Option<Checked>
    requires { 0 < most }
{
    let mut reader = reader_of(alloc, input, most, reads)?;
    let mut writer = MemWrite::new(alloc, most, writes.to_vec(alloc).ok()?);
    let result = check_file(alloc, &mut reader, &mut writer);
    Some(Checked { result, writer })
}

// Returns whether the file is answered by this text, and accepted if the text is `yes`.
fn is_answered(alloc: Global, input: &[u8], most: usize, text: &[u8]) -> Option<bool>
    requires { 0 < most }
{
    let run = check_over(alloc, input, most, &[], &[])?;
    let accepted = text == b"yes\n".as_slice();
    Some(run.result == Ok(accepted) && run.writer.bytes() == text)
}

const ACCEPTED: &[u8] =
    b"surplus 100\nitem 1 10\nitem 1 100\nitem 2 100\nlevel 90/3\nsaturated 0\n";

static VERDICTS: [(&[u8], &[u8]); 17] = [
    (ACCEPTED, b"yes\n"),
    (
        b"surplus 100\nitem 1 100\nitem 2 100\nlevel 90/3\nsaturated -\n",
        b"no NotExhausted\n",
    ),
    (
        b"surplus 30\nitem 1 10\nitem 1 10\nitem 1 20\nlevel 10/1\nsaturated 0,1\n",
        b"yes\n",
    ),
    (
        b"surplus 30\nitem 1 10\nitem 1 10\nitem 1 20\nlevel 20/2\nsaturated 0\n",
        b"no Unsaturated 1\n",
    ),
    (
        b"surplus 30\nitem 1 10\nitem 1 10\nitem 1 20\nlevel 30/3\nsaturated -\n",
        b"no Unsaturated 0\n",
    ),
    (
        b"surplus 30\nitem 1 10\nitem 1 10\nitem 1 20\nlevel 11/1\nsaturated 0,1\n",
        b"no Overspent\n",
    ),
    (
        b"surplus 30\nitem 1 10\nitem 1 10\nitem 1 20\nlevel 9/1\nsaturated 0,1\n",
        b"no Saturated 0\n",
    ),
    (
        b"surplus 30\nitem 1 10\nitem 1 10\nitem 1 20\nlevel 10/2\nsaturated 0,1\n",
        b"no Denominator\n",
    ),
    (
        b"surplus 30\nitem 1 10\nitem 1 10\nitem 1 20\nlevel all\nsaturated 0,1\n",
        b"no Unsaturated 2\n",
    ),
    (
        b"surplus 30\nitem 1 10\nitem 1 10\nitem 1 20\nlevel all\nsaturated 0,1,2\n",
        b"no Overspent\n",
    ),
    (
        b"surplus 40\nitem 1 10\nitem 1 10\nitem 1 20\nlevel all\nsaturated 0,1,2\n",
        b"yes\n",
    ),
    (
        b"surplus 100\nitem 3 1000\nitem 4 1000\nlevel 100/7\nsaturated -\n",
        b"yes\n",
    ),
    (
        b"surplus 100\nitem 3 1000\nitem 4 1000\nlevel 98/7\nsaturated -\n",
        b"no NotExhausted\n",
    ),
    (
        b"surplus 100\nitem 3 1000\nitem 4 1000\nlevel 42/3\nsaturated -\n",
        b"no Denominator\n",
    ),
    (
        b"surplus 100\nitem 3 1000\nitem 4 1000\nlevel 57/4\nsaturated 0\n",
        b"no Saturated 0\n",
    ),
    (b"surplus 0\nlevel all\nsaturated -\n", b"yes\n"),
    (
        b"surplus 2488320\nitem 2488320 2488320\nlevel 18446744073709551615/18446744073709551615\nsaturated -\n",
        b"no Denominator\n",
    ),
];

// Files of various forms, and the first line that does not fit.
static FORMS: [(&[u8], &[u8]); 38] = [
    (b"surplus 0\r\nlevel all\r\nsaturated -\r\n", b"yes\n"),
    (b"surplus 0\nlevel all\nsaturated -", b"yes\n"),
    (b"surplus 0\nlevel all\nsaturated -\r", b"yes\n"),
    (b"surplus 0\nlevel all\nsaturated -\n\n\r\n\n", b"yes\n"),
    (
        b"surplus 00000000000000000000\nlevel all\nsaturated -\n",
        b"yes\n",
    ),
    (
        b"surplus 7\nitem 01 007\nlevel all\nsaturated 00\n",
        b"yes\n",
    ),
    (b"", b"no Syntax 1\n"),
    (b"\n", b"no Syntax 1\n"),
    (b"surplus 0", b"no Syntax 2\n"),
    (b"surplus 0\nlevel all\n", b"no Syntax 3\n"),
    (b"surplus 0\nitem 1 1\n", b"no Syntax 3\n"),
    (b"surplus 0\n\nlevel all\nsaturated -\n", b"no Syntax 2\n"),
    (
        b"surplus 0\nlevel all\nsaturated -\n\n\nx\n",
        b"no Syntax 6\n",
    ),
    (b"surplus 0\nlevel all\nsaturated -\n \n", b"no Syntax 4\n"),
    (b"surplus 0\nlevel all\nsaturated -\r\r\n", b"no Syntax 3\n"),
    (b"surplus  0\nlevel all\nsaturated -\n", b"no Syntax 1\n"),
    (b"surplus\t0\nlevel all\nsaturated -\n", b"no Syntax 1\n"),
    (b" surplus 0\nlevel all\nsaturated -\n", b"no Syntax 1\n"),
    (b"surplus 0 \nlevel all\nsaturated -\n", b"no Syntax 1\n"),
    (
        b"surplus 2488321\nlevel all\nsaturated -\n",
        b"no Syntax 1\n",
    ),
    (
        b"surplus 000000000000000000000\nlevel all\nsaturated -\n",
        b"no Syntax 1\n",
    ),
    (
        b"surplus 18446744073709551616\nlevel all\nsaturated -\n",
        b"no Syntax 1\n",
    ),
    (
        b"surplus 0\nitem 0 1\nlevel all\nsaturated -\n",
        b"no Syntax 2\n",
    ),
    (
        b"surplus 0\nitem 1 2488321\nlevel all\nsaturated -\n",
        b"no Syntax 2\n",
    ),
    (
        b"surplus 0\nitem 1\nlevel all\nsaturated -\n",
        b"no Syntax 2\n",
    ),
    (
        b"surplus 0\nitem 1 1 1\nlevel all\nsaturated -\n",
        b"no Syntax 2\n",
    ),
    (
        b"surplus 0\nitem 1  1\nlevel all\nsaturated -\n",
        b"no Syntax 2\n",
    ),
    (b"surplus 0\nlevel 1/0\nsaturated -\n", b"no Syntax 2\n"),
    (b"surplus 0\nlevel 1\nsaturated -\n", b"no Syntax 2\n"),
    (b"surplus 0\nlevel 1/1/1\nsaturated -\n", b"no Syntax 2\n"),
    (
        b"surplus 0\nlevel 18446744073709551616/1\nsaturated -\n",
        b"no Syntax 2\n",
    ),
    (
        b"surplus 0\nlevel all\nlevel all\nsaturated -\n",
        b"no Syntax 3\n",
    ),
    (b"surplus 0\nlevel all\nsaturated \n", b"no Syntax 3\n"),
    (
        b"surplus 30\nitem 1 10\nitem 1 10\nitem 1 20\nlevel 10/1\nsaturated 0,3\n",
        b"no Syntax 6\n",
    ),
    (
        b"surplus 30\nitem 1 10\nitem 1 10\nlevel 10/1\nsaturated 1,0\n",
        b"no Syntax 5\n",
    ),
    (
        b"surplus 30\nitem 1 10\nitem 1 10\nlevel 10/1\nsaturated 0,0\n",
        b"no Syntax 5\n",
    ),
    (
        b"surplus 30\nitem 1 10\nitem 1 10\nlevel 10/1\nsaturated 0,\n",
        b"no Syntax 5\n",
    ),
    (
        b"surplus x\nitem x\nlevel x\nsaturated x\n",
        b"no Syntax 1\n",
    ),
];

#[test]
fn verdicts_in_pieces(rt: HostRuntime) {
    for most in [1usize, 5, 4096] {
        for (row, (input, text)) in VERDICTS.iter().enumerate() {
            let answered = is_answered(rt.alloc(), input, most.max(1), text);
            assert!(rt; answered == Some(true), "row {row} in pieces of {most}");
        }
    }
}

#[test]
fn the_first_line_that_does_not_fit_is_told(rt: HostRuntime) {
    for (row, (input, text)) in FORMS.iter().enumerate() {
        let answered = is_answered(rt.alloc(), input, 4096, text);
        assert!(rt; answered == Some(true), "row {row}");
    }
}

// Appends a file of `count` items of weight 1 and cap 0.
fn push_many(input: &mut Vec<u8>, count: usize) -> Result<(), AllocError> {
    input.extend_from_slice(b"surplus 5\n")?;
    for _ in 0..count {
        input.extend_from_slice(b"item 1 0\n")?;
    }
    input.extend_from_slice(b"level 5/1\nsaturated -\n")
}

// Returns a file of `count` items of weight 1 and cap 0.
fn many_items(alloc: Global, count: usize) -> Option<Vec<u8>> {
    let mut input = Vec::new(alloc);
    push_many(&mut input, count).ok()?;
    Some(input)
}

// Returns whether a file of this number of items is answered by this text.
fn is_told_of_many(alloc: Global, count: usize, text: &[u8]) -> Option<bool> {
    let input = many_items(alloc, count)?;
    is_answered(alloc, &input, 4096, text)
}

#[test]
fn the_513th_item_does_not_fit(rt: HostRuntime) {
    for (count, text) in [
        (511usize, b"no Denominator\n".as_slice()),
        (512, b"no Denominator\n"),
        (513, b"no Syntax 514\n"),
        (600, b"no Syntax 514\n"),
    ] {
        assert!(rt;
            is_told_of_many(rt.alloc(), count, text) == Some(true),
            "{count}"
        );
    }
}

// Checks the file that a device gives.
fn check(alloc: Global, reader: &mut MemRead) -> Option<bool> {
    let mut writer = MemWrite::new(alloc, 4096, Vec::new(alloc));
    check_file(alloc, reader, &mut writer).ok()
}

// Returns the number of unread bytes of the file. `None` if memory is refused to the test itself.
fn unread(alloc: Global, input: &[u8]) -> Option<usize> {
    let mut rest = input.to_vec(alloc).ok()?;
    let mut reader = reader_of(alloc, input, usize::MAX, &[])?;
    check(alloc, &mut reader)?;
    reader.read(&mut rest).ok()
}

// The bytes of the longest line and its carriage return are kept, and one more byte is read.
#[test]
fn a_first_line_without_an_end_is_told(rt: HostRuntime) {
    let input = [0u8; 100_000];
    assert!(rt; is_answered(rt.alloc(), &input, 4096, b"no Syntax 1\n") == Some(true));
    assert!(rt; unread(rt.alloc(), &input) == Some(input.len() - MAX_LINE_BYTES - 2));
}

// Returns the number of unread bytes of a file of this number of items.
fn unread_of_many(alloc: Global, count: usize) -> Option<usize> {
    let input = many_items(alloc, count)?;
    unread(alloc, &input)
}

#[test]
fn nothing_is_read_after_a_513th_item(rt: HostRuntime) {
    let after = b"item 1 0\n".len() * 87 + b"level 5/1\nsaturated -\n".len();
    assert!(rt; unread_of_many(rt.alloc(), 600) == Some(after));
}

// Appends a whole file and 20,000 empty lines.
fn push_empty_lines(input: &mut Vec<u8>) -> Result<(), AllocError> {
    input.extend_from_slice(ACCEPTED)?;
    for _ in 0..20_000 {
        input.push(b'\n')?;
    }
    Ok(())
}

// Returns whether a file with many empty lines is accepted.
fn takes_empty_lines(alloc: Global) -> Option<bool> {
    let mut input = Vec::new(alloc);
    push_empty_lines(&mut input).ok()?;
    is_answered(alloc, &input, 4096, b"yes\n")
}

#[test]
fn many_empty_lines_may_follow(rt: HostRuntime) {
    assert!(rt; takes_empty_lines(rt.alloc()) == Some(true));
}

// Appends an index of 20 digits, after a comma if it is not the first.
fn push_index(alloc: Global, input: &mut Vec<u8>, index: u64) -> Result<(), AllocError> {
    if index > 0 {
        input.push(b',')?;
    }
    let digits = format!(in alloc; "{index:020}")?;
    input.extend_from_slice(digits.as_bytes())
}

// Appends a file whose set has 512 indexes of 20 digits, followed by `after`.
fn push_longest_set(alloc: Global, input: &mut Vec<u8>, after: &[u8]) -> Result<(), AllocError> {
    input.extend_from_slice(b"surplus 0\n")?;
    for _ in 0..512 {
        input.extend_from_slice(b"item 1 0\n")?;
    }
    input.extend_from_slice(b"level all\nsaturated ")?;
    for index in 0..512u64 {
        push_index(alloc, input, index)?;
    }
    input.extend_from_slice(after)
}

// Returns whether the file with the longest set is answered by this text.
fn is_told_of_longest(alloc: Global, after: &[u8], text: &[u8]) -> Option<bool> {
    let mut input = Vec::new(alloc);
    push_longest_set(alloc, &mut input, after).ok()?;
    is_answered(alloc, &input, 4096, text)
}

#[test]
fn the_longest_line_fits(rt: HostRuntime) {
    for (after, text) in [
        (b"\r\n".as_slice(), b"yes\n".as_slice()),
        (b"\r", b"yes\n"),
        (b"\r\r\n", b"no Syntax 515\n"),
        (b"0\n", b"no Syntax 515\n"),
    ] {
        assert!(rt;
            is_told_of_longest(rt.alloc(), after, text) == Some(true),
            "{after:?}"
        );
    }
}

// Returns the result of a run that accepts, with these failures, and the number of bytes written if they begin the
// answer.
fn accepted_with(
    alloc: Global,
    most: usize,
    reads: &[u64],
    writes: &[u64],
) -> Option<(Result<bool, DeviceFault>, Option<usize>)>
    requires { 0 < most }
{
    let run = check_over(alloc, ACCEPTED, most, reads, writes)?;
    let text = run.writer.bytes();
    if b"yes\n".starts_with(text) {
        Some((run.result, Some(text.len())))
    } else {
        Some((run.result, None))
    }
}

// Each read gives one byte, and the last one finds the end of the input; each fails in turn.
#[test]
fn a_failed_read_leaves_nothing(rt: HostRuntime) {
    for call in 0..ACCEPTED.len() as u64 + 1 {
        let ended = accepted_with(rt.alloc(), 5, &[call], &[]);
        assert!(rt;
            ended == Some((Err(DeviceFault::Read), Some(0))),
            "call {call}: {ended:?}"
        );
    }
}

// The writer takes one byte in a call: call b fails after b bytes, and call 4 is the flush.
#[test]
fn a_failed_write_leaves_a_beginning(rt: HostRuntime) {
    for (call, written) in [(0, 0), (1, 1), (2, 2), (3, 3), (4, 4)] {
        let ended = accepted_with(rt.alloc(), 1, &[], &[call]);
        let wanted = (Err(DeviceFault::Write), Some(written));
        assert!(rt; ended == Some(wanted), "call {call}: {ended:?}");
    }
}

// With each allocation refused in turn, the answer is the same, or there is none.
#[test]
fn refused_memory_leaves_nothing_wrong(rt: HostRuntime) {
    if let Some((result, written)) = accepted_with(rt.alloc(), 4096, &[], &[]) {
        let may_end = match result {
            Ok(accepted) => accepted && written == Some(4),
            Err(DeviceFault::Read) => false,
            Err(DeviceFault::Memory) => written == Some(0),
            Err(DeviceFault::Write) => written.is_some(),
        };
        assert!(rt; may_end, "{result:?}, {written:?}");
    }
}
