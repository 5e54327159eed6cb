//! Verdicts on files that are one recording.

ghost use Rattle.std.specs.Prelude.{None};

use crate::batches::{Recorded, of_chapters, record};
use crate::recordings::{RECORDING, bytes};
use pon_audit::{Verdict, audit_from};
use pon_device::{Failed, MemRead};
use pon_joined::{Joined, NextFile};
use std::alloc::Global;
use std::process::Abort;
use std::thread::Threads;

// The number of the chapters of the recording, and of the maps of each.
const CHAPTERS: usize = 70;

const MAPS: u64 = 30;

// Chapters before a cut: none, some, those of a batch, and all.
const CUTS: [usize; 6] = [0, 1, 35, 64, 69, 70];

// Bytes of a call.
const PIECE: usize = 100;

// Files in memory, the last one first.
#[derive(Drop)]
struct Files {
    alloc: Global,
    last_first: Vec<Vec<u8>>,
}

impl NextFile<MemRead> for Files {
    ghost contents = { λ _. None };

    fn next_file(&mut self) -> Result<Option<MemRead>, Failed> {
        match self.last_first.pop() {
            Some(bytes) => Ok(Some(MemRead::new(bytes, PIECE, Vec::new(self.alloc)))),
            None => Ok(None),
        }
    }
}

// Returns the verdict on these files, the last one first.
fn verdict_on(
    rt: &(impl Abort + Threads + Sync),
    alloc: Global,
    last_first: Vec<Vec<u8>>,
) -> Verdict {
    let files = Files { alloc, last_first };
    let mut reader = Joined::open(alloc, files).expect(rt, "an open recording");
    audit_from(rt, alloc, &mut reader).expect(rt, "a verdict")
}

// Returns the verdict on files with these ranges of the chapters.
fn verdict_of(
    rt: &(impl Abort + Threads + Sync),
    alloc: Global,
    recorded: &Recorded,
    ranges: &[(usize, usize)],
) -> Verdict {
    let mut files = Vec::new(alloc);
    for range in ranges.iter().rev() {
        let file = of_chapters(rt, alloc, recorded, &[*range]);
        files.push(file).expect(rt, "memory");
    }
    verdict_on(rt, alloc, files)
}

#[test]
fn judges_the_parts_of_a_recording_as_the_whole(rt: HostRuntime) {
    let alloc = rt.alloc();
    let recorded = record(&rt, alloc);
    let maps = MAPS * CHAPTERS as u64;
    for cut in CUTS {
        let two = verdict_of(&rt, alloc, &recorded, &[(0, cut), (cut, CHAPTERS)]);
        let last = (cut + 1).min(CHAPTERS);
        let three = [(0, cut), (cut, last), (last, CHAPTERS)];
        let three = verdict_of(&rt, alloc, &recorded, &three);
        assert!(rt; two == Verdict::Good { maps } && three == two, "{cut}");
    }
}

// Files, and the text of their verdict: a chapter is lost at a border; files in another order; a file twice.
static PARTS: [(&[(usize, usize)], &str); 4] = [
    (&[(0, 34), (35, 70)], "good maps 2070"),
    (&[(0, 33), (35, 70)], "good maps 2040"),
    (&[(35, 70), (0, 35)], "bad port 0 chapter 0 entry 0 Number"),
    (&[(0, 35), (0, 35)], "bad port 0 chapter 0 entry 0 Number"),
];

#[test]
fn judges_files_in_their_order(rt: HostRuntime) {
    let alloc = rt.alloc();
    let recorded = record(&rt, alloc);
    for (ranges, wanted) in PARTS.iter() {
        let verdict = verdict_of(&rt, alloc, &recorded, ranges);
        let text = format!(in alloc; "{verdict}").expect(&rt, "memory");
        assert!(rt; text.as_str() == *wanted, "{wanted}: {text}");
    }
}

// Returns whether the verdict on a recording and these bytes as a further file is a fault behind the recording.
fn is_refused(
    rt: &(impl Abort + Threads + Sync),
    alloc: Global,
    recorded: &Recorded,
    further: Vec<u8>,
) -> bool {
    let first = of_chapters(rt, alloc, recorded, &[(0, 2)]);
    let at = first.len();
    let mut files = Vec::new(alloc);
    files.push(further).expect(rt, "memory");
    files.push(first).expect(rt, "memory");
    verdict_on(rt, alloc, files) == Verdict::BadFormat { at }
}

#[test]
fn refuses_a_file_that_begins_with_other_bytes(rt: HostRuntime) {
    let alloc = rt.alloc();
    let recorded = record(&rt, alloc);
    for text in ["", "504f4e", "504f4e52454330", "43", RECORDING] {
        let further = bytes(&rt, alloc, text);
        assert!(rt; is_refused(&rt, alloc, &recorded, further), "{text}");
    }
}
