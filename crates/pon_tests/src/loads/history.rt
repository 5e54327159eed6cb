// Compares the book with a plain, slow computation of every load from the whole history, over a script of 700 calls.
use super::*;

// The Alloc-IDs of three ONUs, in map order. 1026 and 1027 belong to one ONU or another.
const PLACES: [(u16, u16); 8] = [
    (3, 1026),
    (3, 1028),
    (5, 1024),
    (5, 1026),
    (5, 1027),
    (9, 1025),
    (9, 1027),
    (9, 1029),
];

// An Alloc-ID under an ONU, and its since-frame if it is admitted.
#[derive(Drop)]
struct Place {
    onu: OnuId,
    alloc_id: AllocId,
    since: Option<u64>,
}

// An occupancy that was taken and was not garbled.
#[derive(Drop)]
struct Taken {
    frame: u64,
    alloc_id: AllocId,
    words: u64,
}

// A book, the next frame, and the whole history of the book's calls.
#[derive(Drop)]
struct Run {
    loads: Loads,
    seed: u64,
    next: u64,
    window: u64,
    places: Vec<Place>,
    grants: Vec<(u64, Granted)>,
    reporters: Vec<(u64, OnuId)>,
    taken: Vec<Taken>,
}

fn push<T: Drop>(rt: &impl Abort, items: &mut Vec<T>, item: T) {
    assert!(rt; items.push(item).is_ok());
}

// Returns the places, with no Alloc-ID admitted.
fn places(rt: &impl Abort, alloc: Global) -> Vec<Place> {
    let mut places = Vec::new(alloc);
    for (owner, number) in PLACES {
        let place = Place {
            onu: onu(rt, owner),
            alloc_id: id(rt, number),
            since: None,
        };
        push(rt, &mut places, place);
    }
    places
}

fn open(rt: &impl Abort, alloc: Global) -> Run {
    Run {
        loads: Loads::open(alloc),
        seed: 20_261,
        next: 40,
        window: 40,
        places: places(rt, alloc),
        grants: Vec::new(alloc),
        reporters: Vec::new(alloc),
        taken: Vec::new(alloc),
    }
}

// Returns the frame and words of the counted report: that of the greatest frame not below the since-frame.
fn counted_report(run: &Run, alloc_id: AllocId, since: u64) -> Option<(u64, u64)> {
    let mut counted = None;
    for report in &run.taken {
        let latest = match counted {
            None => since,
            Some((frame, _)) => frame,
        };
        if report.alloc_id == alloc_id && report.frame >= latest {
            counted = Some((report.frame, report.words));
        }
    }
    counted
}

// Computes the load by its definition.
fn slow_load(run: &Run, alloc_id: AllocId, since: u64) -> u64 {
    let (frame, reported) = match counted_report(run, alloc_id, since) {
        None => return 0,
        Some(report) => report,
    };
    let mut left = reported;
    for (at, granted) in &run.grants {
        if *at >= frame && granted.alloc_id == alloc_id {
            left = left.saturating_sub(u64::from(granted.words.get()));
        }
    }
    left.saturating_mul(256)
}

// Returns the grants of an ONU in the map of a frame.
fn series(
    rt: &impl Abort,
    alloc: Global,
    grants: &[(u64, Granted)],
    frame: u64,
    onu: OnuId,
) -> Vec<Granted> {
    let mut own = Vec::new(alloc);
    for (at, granted) in grants {
        if *at == frame && granted.onu == onu {
            push(rt, &mut own, *granted);
        }
    }
    own
}

// Computes the refusal of a report by its definition.
fn slow_refusal(run: &Run, frame: u64, onu: OnuId, count: usize, polled: usize) -> Option<Refusal> {
    let oldest = run.window.max(run.next.saturating_sub(64));
    if frame < oldest || frame >= run.next {
        return Some(Refusal::StaleFrame);
    }
    if polled == 0 {
        return Some(Refusal::NotPolled);
    }
    if count != polled {
        return Some(Refusal::ReportCount);
    }
    if run
        .reporters
        .iter()
        .any(|(at, reporter)| *at == frame && *reporter == onu)
    {
        return Some(Refusal::AlreadyReported);
    }
    None
}

// Returns a number below `limit`, which is above 0, from a linear congruential generator.
fn draw(run: &mut Run, limit: u64) -> u64 {
    run.seed = (run.seed % 4_294_967_296) * 1_664_525 + 1_013_904_223;
    ((run.seed % 4_294_967_296) / 65_536)
        .checked_rem(limit)
        .unwrap_or(0)
}

fn draw_place(rt: &impl Abort, run: &mut Run) -> usize {
    usize::try_from(draw(run, 8)).expect(rt, "a place")
}

fn admit_one(rt: &impl Abort, run: &mut Run) {
    let place = draw_place(rt, run);
    let since = run.next;
    let place = run.places.get_mut(place).expect(rt, "a place");
    if run.loads.account(place.alloc_id).is_none() {
        admit(rt, &mut run.loads, place.alloc_id.get(), since);
        place.since = Some(since);
    }
}

fn remove_one(rt: &impl Abort, run: &mut Run) {
    let place = draw_place(rt, run);
    let place = run.places.get_mut(place).expect(rt, "a place");
    if place.since.is_some() {
        run.loads.removed(place.alloc_id);
        place.since = None;
    }
}

fn clear(run: &mut Run) {
    run.loads.cleared(FrameNo::new(run.next));
    run.window = run.next;
    for place in run.places.iter_mut() {
        if place.since.is_some() {
            place.since = Some(run.next);
        }
    }
}

// Returns a grant of the same number of words for each admitted Alloc-ID.
fn grants_of(rt: &impl Abort, alloc: Global, places: &[Place], words: Words) -> Vec<Granted> {
    let mut grants = Vec::new(alloc);
    for place in places {
        if place.since.is_some() {
            let onu = place.onu;
            let alloc_id = place.alloc_id;
            push(
                rt,
                &mut grants,
                Granted {
                    onu,
                    alloc_id,
                    words,
                },
            );
        }
    }
    grants
}

// Makes a map that grants some words to each admitted Alloc-ID.
fn map_one(rt: &impl Abort, alloc: Global, run: &mut Run) {
    let drawn = u16::try_from(draw(run, 90)).expect(rt, "words");
    let words = Words::new(drawn).expect(rt, "words");
    let grants = grants_of(rt, alloc, &run.places, words);
    map(rt, &mut run.loads, run.next, &grants);
    for granted in &grants {
        push(rt, &mut run.grants, (run.next, *granted));
    }
    run.next = run.next.saturating_add(1);
}

// Returns an occupancy, garbled one time in five.
fn draw_occupancy(rt: &impl Abort, run: &mut Run) -> Option<BufOcc> {
    let words = u32::try_from(draw(run, 3000)).expect(rt, "words");
    if draw(run, 5) == 0 {
        None
    } else {
        occupancy(rt, words)
    }
}

// Returns an occupancy for each polled structure; sometimes one too many.
fn draw_occupancies(
    rt: &impl Abort,
    alloc: Global,
    run: &mut Run,
    polled: usize,
) -> Vec<Option<BufOcc>> {
    let mut occupancies = Vec::new(alloc);
    for _ in 0..polled {
        let drawn = draw_occupancy(rt, run);
        push(rt, &mut occupancies, drawn);
    }
    if draw(run, 12) == 0 {
        push(rt, &mut occupancies, None);
    }
    occupancies
}

// Returns a recent frame; sometimes one before the window or in the future.
fn draw_frame(run: &mut Run) -> u64 {
    let past = if draw(run, 8) == 0 { 70 } else { 6 };
    let back = draw(run, past);
    run.next.saturating_sub(back)
}

fn assert_told(rt: &impl Abort, frame: u64, told: Option<Refusal>, wanted: Option<Refusal>) {
    assert!(rt; told == wanted, "frame {frame}: {told:?}, not {wanted:?}");
}

// Reports for the map of such a frame.
fn report_one(rt: &impl Abort, alloc: Global, run: &mut Run) {
    let frame = draw_frame(run);
    let place = draw_place(rt, run);
    let reporter = run.places.get(place).expect(rt, "a place").onu;
    let own = series(rt, alloc, &run.grants, frame, reporter);
    let occupancies = draw_occupancies(rt, alloc, run, own.len());
    let wanted = slow_refusal(run, frame, reporter, occupancies.len(), own.len());
    let told = run
        .loads
        .reported(FrameNo::new(frame), reporter, &occupancies)
        .err();
    assert_told(rt, frame, told, wanted);
    if told.is_none() {
        push(rt, &mut run.reporters, (frame, reporter));
        note_taken(rt, &mut run.taken, frame, &own, &occupancies);
    }
}

fn note_taken(
    rt: &impl Abort,
    taken: &mut Vec<Taken>,
    frame: u64,
    own: &[Granted],
    occupancies: &[Option<BufOcc>],
) {
    for (granted, occupancy) in own.iter().zip(occupancies.iter()) {
        if let Some(words) = *occupancy {
            let alloc_id = granted.alloc_id;
            let words = u64::from(words.get());
            push(
                rt,
                taken,
                Taken {
                    frame,
                    alloc_id,
                    words,
                },
            );
        }
    }
}

// Compares each load with the slow one, and returns the number of loads above 0.
fn compare(rt: &impl Abort, run: &Run, call: u32) -> u32 {
    let mut above: u32 = 0;
    for place in &run.places {
        if let Some(since) = place.since {
            let load = u64::from(run.loads.load_of(place.alloc_id).get());
            let slow = slow_load(run, place.alloc_id, since);
            assert!(rt; load == slow, "call {call}: {load}, not {slow}");
            above = above.saturating_add(u32::from(load > 0));
        }
    }
    above
}

// Makes one call of the script.
fn call_one(rt: &impl Abort, alloc: Global, run: &mut Run) {
    match draw(run, 64) {
        0..=23 => map_one(rt, alloc, run),
        24..=54 => report_one(rt, alloc, run),
        55..=59 => admit_one(rt, run),
        60..=62 => remove_one(rt, run),
        _ => clear(run),
    }
}

// Makes the calls of the script, and returns the number of compared loads above 0.
fn compared_loads(rt: &impl Abort, alloc: Global) -> u32 {
    let mut run = open(rt, alloc);
    let mut above: u32 = 0;
    for call in 0..700 {
        call_one(rt, alloc, &mut run);
        above = above.saturating_add(compare(rt, &run, call));
    }
    above
}

#[test]
fn loads_are_those_of_the_whole_history(rt: HostRuntime) {
    // The script compares enough loads above 0.
    assert!(rt; compared_loads(&rt, rt.alloc()) > 700);
}
