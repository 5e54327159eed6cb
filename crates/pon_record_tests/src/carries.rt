//! Verdicts on chapters under each rule: whether what whole words leave of a rate is carried to the next map.

use crate::audit;
use crate::recordings::bytes;
use std::alloc::Global;
use std::process::Abort;
use std::thread::Threads;

/// An entry of a port with one Alloc-ID at most, 1024 of ONU 5: its fixed rate in kbit/s, or its payload words.
#[derive(Clone, Copy)]
enum Step {
    Admit(u32),
    Change(u32),
    Remove,
    Fail,
    Restore,
    Map(usize),
}

// The structure of 0, 1 and 2 payload words.
static STRUCTURES: [&str; 3] = ["1002001000010cf0", "100200100002056c", "1002001000030218"];

const CERTIFICATE: &str = "
    00 0000000000000000 0000000000000000 0000 00 0000000000000000 0000000000000000 0000";

// A port just opened.
const FIRST: &str = "00 0000000000000000 0010 00 00 0000000000000000 0000000000000000 0000 00";

// The next chapter after an admission and three maps, up to the carry.
const SECOND: &str = "00 0000000000000001 0010 00 00 0000000000000003 0000000000000004
    0001 0005 0400 00000180 00000000 00000180 00 0000000000000000 00 0000000000000000 00000000";

const WINDOW: &str = "03
    0000000000000000 0001 0005 0400 0001 00
    0000000000000001 0001 0005 0400 0002 00
    0000000000000002 0001 0005 0400 0001 00";

fn extend(rt: &impl Abort, body: &mut Vec<u8>, more: &[u8]) {
    body.extend_from_slice(more).expect(rt, "memory");
}

fn add(rt: &impl Abort, alloc: Global, body: &mut Vec<u8>, text: &str) {
    extend(rt, body, &bytes(rt, alloc, text));
}

fn extend_by_length(rt: &impl Abort, body: &mut Vec<u8>, length: usize) {
    let length = u32::try_from(length).expect(rt, "a length");
    extend(rt, body, &length.to_be_bytes());
}

// Adds the descriptor of a fixed rate.
fn add_fixed(rt: &impl Abort, body: &mut Vec<u8>, rate: u32) {
    for number in [rate, 0, rate] {
        extend(rt, body, &number.to_be_bytes());
    }
    extend(rt, body, &[0]);
}

// Adds the map of a frame that grants this number of payload words.
fn add_map(rt: &impl Abort, alloc: Global, body: &mut Vec<u8>, frame: u64, words: usize) {
    let structure = *STRUCTURES.get(words).expect(rt, "a structure");
    extend(rt, body, &[5]);
    extend(rt, body, &frame.to_be_bytes());
    for part in ["002013ac", structure, CERTIFICATE] {
        add(rt, alloc, body, part);
    }
}

fn add_step(rt: &impl Abort, alloc: Global, body: &mut Vec<u8>, frame: u64, step: Step) {
    match step {
        Step::Admit(rate) => {
            add(rt, alloc, body, "01 0005 0400");
            add_fixed(rt, body, rate);
        }
        Step::Change(rate) => {
            add(rt, alloc, body, "02 0400");
            add_fixed(rt, body, rate);
        }
        Step::Remove => add(rt, alloc, body, "03 0400"),
        Step::Fail => add(rt, alloc, body, "06 01"),
        Step::Restore => add(rt, alloc, body, "07"),
        Step::Map(words) => add_map(rt, alloc, body, frame, words),
    }
}

// Makes a chapter under a rule from its opening, whose next frame is given, and its entries.
fn chapter(
    rt: &impl Abort,
    alloc: Global,
    rule: u8,
    opening: &[u8],
    next: u64,
    steps: &[Step],
) -> Vec<u8> {
    let mut body = Vec::new(alloc);
    extend(rt, &mut body, &[rule]);
    extend(rt, &mut body, opening);
    extend_by_length(rt, &mut body, steps.len());
    let mut frame = next;
    for step in steps {
        add_step(rt, alloc, &mut body, frame, *step);
        frame = frame.wrapping_add(u64::from(matches!(step, Step::Map(_))));
    }
    let mut chapter = bytes(rt, alloc, "43");
    extend_by_length(rt, &mut chapter, body.len());
    extend(rt, &mut chapter, &body);
    chapter
}

// Returns whether the verdict on a recording of these chapters is this text.
fn is_told(
    rt: &(impl Abort + Threads + Sync),
    alloc: Global,
    chapters: &[&[u8]],
    wanted: &str,
) -> bool {
    let mut recording = bytes(rt, alloc, "504f4e5245433032");
    for chapter in chapters {
        extend(rt, &mut recording, chapter);
    }
    audit::is_told(rt, alloc, &recording, wanted)
}

// 384 kbit/s are a word and a half, 128 kbit/s half a word. A change, a failure and a restoration keep what is left, and an
// admission leaves nothing.
static SCRIPTS: [(u8, &[Step], &str); 11] = [
    (
        2,
        &[
            Step::Admit(384),
            Step::Map(1),
            Step::Map(2),
            Step::Map(1),
            Step::Map(2),
        ],
        "good maps 4",
    ),
    (
        2,
        &[Step::Admit(384), Step::Map(1), Step::Map(1)],
        "bad port 0 chapter 0 entry 2 Words",
    ),
    (
        2,
        &[Step::Admit(384), Step::Map(2)],
        "bad port 0 chapter 0 entry 1 Words",
    ),
    (
        1,
        &[Step::Admit(384), Step::Map(1), Step::Map(1), Step::Map(1)],
        "good maps 3",
    ),
    (
        1,
        &[Step::Admit(384), Step::Map(1), Step::Map(2)],
        "bad port 0 chapter 0 entry 2 Words",
    ),
    (
        2,
        &[
            Step::Admit(384),
            Step::Map(1),
            Step::Change(128),
            Step::Map(1),
            Step::Map(0),
        ],
        "good maps 3",
    ),
    (
        2,
        &[
            Step::Admit(384),
            Step::Map(1),
            Step::Change(128),
            Step::Map(0),
        ],
        "bad port 0 chapter 0 entry 3 Words",
    ),
    (
        2,
        &[
            Step::Admit(384),
            Step::Map(1),
            Step::Fail,
            Step::Restore,
            Step::Map(2),
        ],
        "good maps 2",
    ),
    (
        2,
        &[
            Step::Admit(384),
            Step::Map(1),
            Step::Fail,
            Step::Restore,
            Step::Map(1),
        ],
        "bad port 0 chapter 0 entry 4 Words",
    ),
    (
        2,
        &[
            Step::Admit(384),
            Step::Map(1),
            Step::Remove,
            Step::Admit(384),
            Step::Map(1),
        ],
        "good maps 2",
    ),
    (
        2,
        &[
            Step::Admit(384),
            Step::Map(1),
            Step::Remove,
            Step::Admit(384),
            Step::Map(2),
        ],
        "bad port 0 chapter 0 entry 4 Words",
    ),
];

#[test]
fn judges_words_by_the_rule_of_the_chapter(rt: HostRuntime) {
    let alloc = rt.alloc();
    let opening = bytes(&rt, alloc, FIRST);
    for (index, (rule, steps, wanted)) in SCRIPTS.iter().enumerate() {
        let chapter = chapter(&rt, alloc, *rule, &opening, 0, steps);
        assert!(rt; is_told(&rt, alloc, &[&chapter], wanted), "{index}");
    }
}

// Makes the second chapter of a map of these words, under a rule and with a carry.
fn second(rt: &impl Abort, alloc: Global, rule: u8, carry: u8, words: usize) -> Vec<u8> {
    let mut opening = bytes(rt, alloc, SECOND);
    extend(rt, &mut opening, &[carry]);
    add(rt, alloc, &mut opening, WINDOW);
    chapter(rt, alloc, rule, &opening, 3, &[Step::Map(words)])
}

// Rule, carry and words of the second chapter, its verdict after the first, which leaves 128 kbit/s, and without the first.
static SECONDS: [(u8, u8, usize, &str, &str); 5] = [
    (2, 128, 2, "good maps 4", "good maps 1"),
    (
        2,
        128,
        1,
        "bad port 0 chapter 1 entry 0 Words",
        "bad port 0 chapter 1 entry 0 Words",
    ),
    (
        2,
        127,
        1,
        "bad port 0 chapter 1 entry 0 Chain",
        "good maps 1",
    ),
    (2, 0, 1, "bad port 0 chapter 1 entry 0 Chain", "good maps 1"),
    (1, 0, 1, "bad port 0 chapter 1 entry 0 Chain", "good maps 1"),
];

#[test]
fn compares_the_rule_and_the_carries_with_the_end_before(rt: HostRuntime) {
    let alloc = rt.alloc();
    let opening = bytes(&rt, alloc, FIRST);
    let steps = [Step::Admit(384), Step::Map(1), Step::Map(2), Step::Map(1)];
    let first = chapter(&rt, alloc, 2, &opening, 0, &steps);
    for (rule, carry, words, after, alone) in SECONDS.iter() {
        let second = second(&rt, alloc, *rule, *carry, *words);
        assert!(rt;
            is_told(&rt, alloc, &[&first, &second], after),
            "{rule} {carry}"
        );
        assert!(rt; is_told(&rt, alloc, &[&second], alone), "{rule} {carry}");
    }
}
