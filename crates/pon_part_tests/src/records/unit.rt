use arrayvec::ArrayVec;
use pon_bwmap::{Alloc, Map};
use pon_dbru::Occupancies;
use pon_link::{Unit, UpRecord};
use pon_units::{AllocId, BufOcc, FrameNo, OnuId};
use pon_xgtc::BurstHead;
use std::alloc::Global;

// Makes a simulated ONU with ONU-ID 5, `words` waiting for Alloc-ID 1024, and 7 for Alloc-ID 1025.
fn unit(words: u32) -> Option<Unit> {
    let mut queues = ArrayVec::new();
    queues.push((AllocId::new(1024)?, words));
    queues.push((AllocId::new(1025)?, 7));
    Some(Unit::open(OnuId::new(5)?, queues))
}

// Returns the ONU's answer in frame 3, with `words` waiting for its first Alloc-ID.
fn answer_of(words: u32) -> UpRecord {
    let mut occ = Occupancies::new();
    occ.push(BufOcc::new(words));
    occ.push(BufOcc::new(7));
    UpRecord {
        frame: FrameNo::new(3),
        head: BurstHead::new(5, 0),
        occ,
    }
}

fn map(alloc: Global, rows: &[Alloc]) -> Option<Map> {
    Map::from_rows(Vec::from_slice(alloc, rows).ok()?).ok()
}

// Returns whether three answers in turn report these words for the first Alloc-ID.
fn answers(alloc: Global, words: u32, reports: [u32; 3]) -> Option<bool> {
    let first = Alloc::polled(1024, Some(16), 11, 0);
    let foreign = Alloc::polled(1030, None, 5, 0);
    let second = Alloc::polled(1025, None, 0, 0);
    let map = map(alloc, &[first, foreign, second])?;
    let mut unit = unit(words)?;
    let mut same = true;
    for report in reports {
        same = unit.answer(FrameNo::new(3), &map) == Some(answer_of(report)) && same;
    }
    Some(same)
}

#[test]
fn answers_with_what_waits(rt: HostRuntime) {
    for (words, reports) in [
        (100, [100, 90, 80]),
        (15, [15, 5, 0]),
        (16_777_215, [16_777_215, 16_777_205, 16_777_195]),
        (16_777_230, [16_777_215, 16_777_215, 16_777_210]),
    ] {
        assert!(rt;
            answers(rt.alloc(), words, reports) == Some(true),
            "{words}"
        );
    }
}

// Returns the number of occupancies in the answer to a map of 17 structures, and the first of them.
fn answer_to_many(unit: &mut Unit, map: &Map, frame: u64) -> Option<(usize, Option<BufOcc>)> {
    let answer = unit.answer(FrameNo::new(frame), map)?;
    let occupancies = answer.occ.as_slice();
    Some((occupancies.len(), *occupancies.first()?))
}

// Returns whether two answers to a map of 17 structures have 16 occupancies each, less by 16 grants of one word.
fn answers_sixteen(alloc: Global) -> Option<bool> {
    let row = Alloc::polled(1024, Some(16), 2, 0);
    let map = map(alloc, &[row; 17])?;
    let mut unit = unit(100)?;
    let first = answer_to_many(&mut unit, &map, 0) == Some((16, BufOcc::new(100)));
    let second = answer_to_many(&mut unit, &map, 1) == Some((16, BufOcc::new(84)));
    Some(first && second)
}

#[test]
fn answers_sixteen_structures_at_most(rt: HostRuntime) {
    assert!(rt; answers_sixteen(rt.alloc()) == Some(true));
}

// Returns whether a unit has no answer to a map that polls another and grants its own Alloc-ID no report.
fn leaves_others(alloc: Global) -> Option<bool> {
    let foreign = Alloc::polled(1030, Some(16), 5, 0);
    let silent = Alloc::new(1024, false, false, None, 5, false, 0)?;
    let map = map(alloc, &[foreign, silent])?;
    let mut unit = unit(100)?;
    Some(unit.answer(FrameNo::new(3), &map).is_none())
}

#[test]
fn says_nothing_to_a_map_of_others(rt: HostRuntime) {
    assert!(rt; leaves_others(rt.alloc()) == Some(true));
}
