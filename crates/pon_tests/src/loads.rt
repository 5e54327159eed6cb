// A report book under the calls of a port, with ample memory.
ghost use Rattle.std.specs.Prelude.{◌≡◌, ◌==◌, true, false};
ghost use Rattle.std.specs.List.{list_any};
ghost use Rattle.pon_units.specs.Granted.{AreInMapOrder, ComesBefore};
ghost use Rattle.pon_guar.specs.Book.{alloc_ids};
ghost use Rattle.pon_guar.specs.Window.{AreConsecutive};

mod history;

use pon_descr::Refusal;
use pon_guar::{Loads, WindowMap};
use pon_units::{AllocId, BufOcc, FrameNo, Granted, OnuId, Words};
use std::alloc::Global;
use std::process::Abort;

fn onu(rt: &impl Abort, number: u16) -> OnuId {
    OnuId::new(number).expect(rt, "an ONU-ID")
}

fn id(rt: &impl Abort, number: u16) -> AllocId {
    AllocId::new(number).expect(rt, "an Alloc-ID")
}

fn occupancy(rt: &impl Abort, words: u32) -> Option<BufOcc> {
    Some(BufOcc::new(words).expect(rt, "an occupancy"))
}

// Returns a grant of payload words to an Alloc-ID of an ONU.
fn grant(rt: &impl Abort, owner: u16, alloc_id: u16, words: u16) -> Granted {
    Granted {
        onu: onu(rt, owner),
        alloc_id: id(rt, alloc_id),
        words: Words::new(words).expect(rt, "words"),
    }
}

fn is_free(loads: &Loads, alloc_id: AllocId) -> bool
    ensures { result ≡ true → list_any (λ j. j == alloc_id) (alloc_ids loads.now.accounts) ≡ false }
{
    loads.account(alloc_id).is_none()
}

fn is_next(loads: &Loads, frame: FrameNo) -> bool
    ensures { result ≡ true → AreConsecutive frame loads.now.window }
{
    let maps = loads.window().maps();
    match maps.first() {
        None => true,
        Some(map) => frame.get().checked_sub(map.frame().get()) == Some(maps.len() as u64),
    }
}

fn comes_before(grant: &Granted, other: &Granted) -> bool
    ensures { result ≡ true → ComesBefore grant.now other.now }
{
    grant.onu.get() < other.onu.get()
        || grant.onu.get() == other.onu.get() && grant.alloc_id.get() < other.alloc_id.get()
}

fn are_in_map_order(grants: &[Granted]) -> bool
    ensures { result ≡ true → AreInMapOrder grants.now }
{
    match grants.split_first() {
        None => true,
        Some((first, others)) => {
            others.iter().all(|other| comes_before(first, other)) && are_in_map_order(others)
        }
    }
}

// Admits an Alloc-ID that is not admitted.
fn admit(rt: &impl Abort, loads: &mut Loads, alloc_id: u16, since: u64) {
    let alloc_id = id(rt, alloc_id);
    assert!(rt; is_free(loads, alloc_id));
    let admitted = loads.admitted(alloc_id, FrameNo::new(since));
    assert!(rt; admitted == Ok(()), "{admitted:?}");
}

fn remove(rt: &impl Abort, loads: &mut Loads, alloc_id: u16) {
    loads.removed(id(rt, alloc_id));
}

// Takes the next map.
fn map(rt: &impl Abort, loads: &mut Loads, frame: u64, grants: &[Granted]) {
    let frame = FrameNo::new(frame);
    assert!(rt; is_next(loads, frame));
    assert!(rt; are_in_map_order(grants));
    let mapped = loads.mapped(frame, grants);
    assert!(rt; mapped == Ok(()), "{mapped:?}");
}

// Takes maps of the frames `first` to `end - 1`, each with a grant to Alloc-ID 1024 of ONU 5.
fn map_all(rt: &impl Abort, loads: &mut Loads, first: u64, end: u64, words: u16) {
    let grants = [grant(rt, 5, 1024, words)];
    for frame in first..end {
        map(rt, loads, frame, &grants);
    }
}

// Reports for an ONU, and compares the result with the expected one.
fn assert_reported(
    rt: &impl Abort,
    loads: &mut Loads,
    frame: u64,
    owner: u16,
    occupancies: &[Option<BufOcc>],
    wanted: Result<(), Refusal>,
) {
    let told = loads.reported(FrameNo::new(frame), onu(rt, owner), occupancies);
    assert!(rt; told == wanted, "frame {frame}, ONU {owner}: {told:?}");
}

// Reports for ONU 5 on its one Alloc-ID, and expects the report to be taken.
fn report(rt: &impl Abort, loads: &mut Loads, frame: u64, words: u32) {
    assert_reported(rt, loads, frame, 5, &[occupancy(rt, words)], Ok(()));
}

fn assert_load(rt: &impl Abort, loads: &Loads, alloc_id: u16, wanted: u32) {
    let load = loads.load_of(id(rt, alloc_id)).get();
    assert!(rt; load == wanted, "{alloc_id}: {load}");
}

fn assert_since(rt: &impl Abort, loads: &Loads, alloc_id: u16, wanted: Option<u64>) {
    let account = loads.account(id(rt, alloc_id));
    let since = account.map(|account| account.since.get());
    assert!(rt; since == wanted, "{alloc_id}: {since:?}");
}

// Compares the frame and the words of the counted report with the expected ones.
fn assert_counted(rt: &impl Abort, loads: &Loads, alloc_id: u16, wanted: Option<(u64, u32)>) {
    let account = loads.account(id(rt, alloc_id));
    let counted = account.and_then(|account| account.counted);
    let told = counted.map(|report| (report.frame.get(), report.words.get()));
    assert!(rt; told == wanted, "{alloc_id}: {told:?}");
}

fn copy_of(rt: &impl Abort, alloc: Global, loads: &Loads) -> Loads {
    loads.try_copy(alloc).expect(rt, "memory")
}

// Returns whether a map has this frame, these grants, and these ONUs that reported.
fn is_map(map: &WindowMap, frame: u64, grants: &[Granted], reported: &[OnuId]) -> bool {
    map.frame().get() == frame && map.grants() == grants && map.reported() == reported
}

// Compares the map of the window at an index.
fn assert_map(
    rt: &impl Abort,
    map: Option<&WindowMap>,
    frame: u64,
    grants: &[Granted],
    reported: &[OnuId],
) {
    let map = map.expect(rt, "a map");
    assert!(rt; is_map(map, frame, grants, reported), "frame {frame}");
}

fn assert_window_len(rt: &impl Abort, loads: &Loads, wanted: usize) {
    let len = loads.window().maps().len();
    assert!(rt; len == wanted, "{len} maps, not {wanted}");
}

// Compares the accounts of an Alloc-ID in two books.
fn assert_same_account(rt: &impl Abort, loads: &Loads, other: &Loads, number: u16) {
    let alloc_id = id(rt, number);
    let same = loads.account(alloc_id) == other.account(alloc_id);
    assert!(rt; same, "{number}");
}

// Compares two books: the accounts of Alloc-IDs 1024 to 1031, and the window.
fn assert_same(rt: &impl Abort, loads: &Loads, other: &Loads) {
    for number in 1024..1032 {
        assert_same_account(rt, loads, other, number);
    }
    let copies = other.window().maps();
    assert_window_len(rt, loads, copies.len());
    for (index, copy) in copies.iter().enumerate() {
        assert_map(
            rt,
            loads.window().maps().get(index),
            copy.frame().get(),
            copy.grants(),
            copy.reported(),
        );
    }
}

#[test]
fn opens_with_nothing(rt: HostRuntime) {
    let loads = Loads::open(rt.alloc());
    assert_window_len(&rt, &loads, 0);
    assert_since(&rt, &loads, 1024, None);
    assert_counted(&rt, &loads, 1024, None);
    assert_load(&rt, &loads, 1024, 0);
}

#[test]
fn keeps_an_account_of_each_admitted_alloc_id(rt: HostRuntime) {
    let mut loads = Loads::open(rt.alloc());
    for (alloc_id, since) in [(1030, 7), (1024, 8), (1028, 9)] {
        admit(&rt, &mut loads, alloc_id, since);
    }
    for (alloc_id, since) in [
        (1024, Some(8)),
        (1025, None),
        (1028, Some(9)),
        (1030, Some(7)),
    ] {
        assert_since(&rt, &loads, alloc_id, since);
        assert_counted(&rt, &loads, alloc_id, None);
    }
    remove(&rt, &mut loads, 1028);
    remove(&rt, &mut loads, 1029);
    assert_since(&rt, &loads, 1028, None);
    assert_since(&rt, &loads, 1030, Some(7));
}

// 100 words reported for a map that granted 10 leave 90; each later map then subtracts its own grant.
#[test]
fn lessens_a_report_by_its_own_map_and_later_ones(rt: HostRuntime) {
    let mut loads = Loads::open(rt.alloc());
    admit(&rt, &mut loads, 1024, 0);
    map_all(&rt, &mut loads, 0, 1, 10);
    report(&rt, &mut loads, 0, 100);
    assert_counted(&rt, &loads, 1024, Some((0, 90)));
    assert_load(&rt, &loads, 1024, 23_040);
    for (frame, words, load) in [(1, 60, 15_360), (2, 30, 7_680), (3, 0, 0), (4, 0, 0)] {
        map_all(&rt, &mut loads, frame, frame + 1, 30);
        assert_counted(&rt, &loads, 1024, Some((0, words)));
        assert_load(&rt, &loads, 1024, load);
    }
    report(&rt, &mut loads, 2, 100);
    assert_counted(&rt, &loads, 1024, Some((2, 10)));
}

#[test]
fn the_report_of_the_greatest_frame_counts(rt: HostRuntime) {
    let mut loads = Loads::open(rt.alloc());
    admit(&rt, &mut loads, 1024, 0);
    map_all(&rt, &mut loads, 0, 3, 10);
    report(&rt, &mut loads, 1, 20);
    assert_counted(&rt, &loads, 1024, Some((1, 0)));
    report(&rt, &mut loads, 2, 50);
    report(&rt, &mut loads, 0, 500);
    assert_counted(&rt, &loads, 1024, Some((2, 40)));
    assert_load(&rt, &loads, 1024, 10_240);
}

// One occupancy for each structure, in map order; a garbled one leaves the earlier report, and no other Alloc-ID
// changes.
#[test]
fn counts_each_occupancy_for_its_alloc_id(rt: HostRuntime) {
    let mut loads = Loads::open(rt.alloc());
    for alloc_id in [1024, 1025, 1026] {
        admit(&rt, &mut loads, alloc_id, 0);
    }
    let grants = [
        grant(&rt, 3, 1026, 4),
        grant(&rt, 5, 1024, 10),
        grant(&rt, 5, 1025, 20),
    ];
    for frame in 0..2 {
        map(&rt, &mut loads, frame, &grants);
    }
    let both = [occupancy(&rt, 100), occupancy(&rt, 200)];
    assert_reported(&rt, &mut loads, 0, 5, &both, Ok(()));
    assert_counted(&rt, &loads, 1024, Some((0, 80)));
    assert_counted(&rt, &loads, 1025, Some((0, 160)));
    assert_counted(&rt, &loads, 1026, None);
    let second = [None, occupancy(&rt, 50)];
    assert_reported(&rt, &mut loads, 1, 5, &second, Ok(()));
    assert_counted(&rt, &loads, 1024, Some((0, 80)));
    assert_counted(&rt, &loads, 1025, Some((1, 30)));
    assert_counted(&rt, &loads, 1026, None);
}

#[test]
fn a_readmitted_alloc_id_has_no_report(rt: HostRuntime) {
    let mut loads = Loads::open(rt.alloc());
    admit(&rt, &mut loads, 1024, 0);
    map_all(&rt, &mut loads, 0, 2, 10);
    report(&rt, &mut loads, 0, 100);
    remove(&rt, &mut loads, 1024);
    assert_load(&rt, &loads, 1024, 0);
    admit(&rt, &mut loads, 1024, 2);
    assert_load(&rt, &loads, 1024, 0);
    map_all(&rt, &mut loads, 2, 3, 10);
    // The map of frame 1 granted the earlier Alloc-ID.
    report(&rt, &mut loads, 1, 100);
    assert_counted(&rt, &loads, 1024, None);
    report(&rt, &mut loads, 2, 100);
    assert_counted(&rt, &loads, 1024, Some((2, 90)));
    assert_since(&rt, &loads, 1024, Some(2));
}

#[test]
fn a_cleared_book_keeps_its_alloc_ids_alone(rt: HostRuntime) {
    let mut loads = Loads::open(rt.alloc());
    admit(&rt, &mut loads, 1024, 0);
    map_all(&rt, &mut loads, 0, 2, 10);
    report(&rt, &mut loads, 0, 100);
    loads.cleared(FrameNo::new(2));
    assert_window_len(&rt, &loads, 0);
    assert_counted(&rt, &loads, 1024, None);
    assert_since(&rt, &loads, 1024, Some(2));
    let stale = Err(Refusal::StaleFrame);
    assert_reported(&rt, &mut loads, 1, 5, &[occupancy(&rt, 100)], stale);
    map_all(&rt, &mut loads, 2, 3, 10);
    report(&rt, &mut loads, 2, 11);
    assert_load(&rt, &loads, 1024, 256);
}

// Compares the refusal of a report of `count` occupancies, as it is returned without reporting.
fn assert_report_refusal(
    rt: &impl Abort,
    loads: &Loads,
    frame: u64,
    owner: u16,
    count: usize,
    wanted: Option<Refusal>,
) {
    let accepted = loads
        .window()
        .accept(FrameNo::new(frame), onu(rt, owner), count);
    let told = accepted.err();
    assert!(rt; told == wanted, "frame {frame}, ONU {owner}: {told:?}");
}

// Expects a report of a frame, an ONU and occupancies to be refused: `accept` returns the same refusal, and nothing changes.
fn assert_refused(
    rt: &impl Abort,
    loads: &mut Loads,
    copy: &Loads,
    report: (u64, u16, &[Option<BufOcc>]),
    wanted: &Refusal,
) {
    let (frame, owner, occupancies) = report;
    assert_report_refusal(rt, loads, frame, owner, occupancies.len(), Some(*wanted));
    assert_reported(rt, loads, frame, owner, occupancies, Err(*wanted));
    assert_same(rt, loads, copy);
}

#[test]
fn refuses_reports_by_the_first_check(rt: HostRuntime) {
    let mut loads = Loads::open(rt.alloc());
    admit(&rt, &mut loads, 1024, 0);
    map_all(&rt, &mut loads, 0, 66, 1);
    report(&rt, &mut loads, 2, 7);
    let copy = copy_of(&rt, rt.alloc(), &loads);
    let words = [occupancy(&rt, 7), occupancy(&rt, 7)];
    for (frame, owner, occupancies, wanted) in [
        (0, 5, &words[..1], Refusal::StaleFrame),
        (1, 6, &words[..0], Refusal::StaleFrame),
        (66, 5, &words[..1], Refusal::StaleFrame),
        (u64::MAX, 5, &words[..1], Refusal::StaleFrame),
        (2, 6, &words[..1], Refusal::NotPolled),
        (65, 4, &words[..0], Refusal::NotPolled),
        (2, 5, &words[..0], Refusal::ReportCount),
        (2, 5, &words[..2], Refusal::ReportCount),
        (2, 5, &words[..1], Refusal::AlreadyReported),
    ] {
        let report = (frame, owner, occupancies);
        assert_refused(&rt, &mut loads, &copy, report, &wanted);
    }
    assert_report_refusal(&rt, &loads, 3, 5, 1, None);
    report(&rt, &mut loads, 3, 100);
    assert_load(&rt, &loads, 1024, 256 * (100 - 63));
}

#[test]
fn the_window_has_64_maps(rt: HostRuntime) {
    let mut loads = Loads::open(rt.alloc());
    map_all(&rt, &mut loads, 7, 71, 3);
    assert_window_len(&rt, &loads, 64);
    let grants = [grant(&rt, 5, 1024, 3)];
    assert_map(&rt, loads.window().maps().first(), 7, &grants, &[]);
    map_all(&rt, &mut loads, 71, 72, 3);
    assert_window_len(&rt, &loads, 64);
    for index in 0..64 {
        assert_map(
            &rt,
            loads.window().maps().get(index),
            8 + index as u64,
            &grants,
            &[],
        );
    }
}

fn copy_of_first(rt: &impl Abort, alloc: Global, loads: &Loads) -> WindowMap {
    let first = loads.window().maps().first().expect(rt, "a map");
    first.try_copy(alloc).expect(rt, "memory")
}

#[test]
fn a_map_shows_what_it_granted_and_who_reported(rt: HostRuntime) {
    let mut loads = Loads::open(rt.alloc());
    let grants = [
        grant(&rt, 3, 1026, 4),
        grant(&rt, 5, 1024, 10),
        grant(&rt, 9, 1025, 20),
    ];
    map(&rt, &mut loads, 12, &grants);
    map(&rt, &mut loads, 13, &[]);
    assert_reported(&rt, &mut loads, 12, 9, &[None], Ok(()));
    assert_reported(&rt, &mut loads, 12, 3, &[None], Ok(()));
    let copy = copy_of_first(&rt, rt.alloc(), &loads);
    report(&rt, &mut loads, 12, 100);
    let owners = [onu(&rt, 3), onu(&rt, 5), onu(&rt, 9)];
    assert_map(&rt, Some(&copy), 12, &grants, &[owners[0], owners[2]]);
    assert_map(&rt, loads.window().maps().first(), 12, &grants, &owners);
    assert_map(&rt, loads.window().maps().get(1), 13, &[], &[]);
}

// The greatest occupancy, and one map that grants a whole frame.
#[test]
fn a_load_may_be_the_greatest_occupancy(rt: HostRuntime) {
    let mut loads = Loads::open(rt.alloc());
    admit(&rt, &mut loads, 1024, 0);
    map_all(&rt, &mut loads, 0, 1, 0);
    report(&rt, &mut loads, 0, 16_777_215);
    assert_load(&rt, &loads, 1024, 4_294_967_040);
    map_all(&rt, &mut loads, 1, 2, 9720);
    assert_load(&rt, &loads, 1024, 4_292_478_720);
}

#[test]
fn a_copy_is_equal_and_its_own(rt: HostRuntime) {
    let mut loads = Loads::open(rt.alloc());
    admit(&rt, &mut loads, 1025, 0);
    admit(&rt, &mut loads, 1024, 0);
    map_all(&rt, &mut loads, 0, 2, 10);
    report(&rt, &mut loads, 0, 100);
    let mut copy = copy_of(&rt, rt.alloc(), &loads);
    assert_same(&rt, &copy, &loads);
    report(&rt, &mut loads, 1, 50);
    remove(&rt, &mut loads, 1025);
    assert_counted(&rt, &copy, 1024, Some((0, 80)));
    assert_since(&rt, &copy, 1025, Some(0));
    report(&rt, &mut copy, 1, 50);
    remove(&rt, &mut copy, 1025);
    assert_same(&rt, &copy, &loads);
}
