// Each step of a roster with ample memory, at the limits of an admitted set.
use pon_admit::{Roster, Row, Rule};
use pon_descr::{Class, Descriptor, Refusal};
use pon_units::{AllocId, Gap, OnuId};
use std::alloc::Global;
use std::process::Abort;

fn gap(rt: &impl Abort, words: u16) -> Gap {
    Gap::new(words).expect(rt, "a gap")
}

fn onu(rt: &impl Abort, number: u16) -> OnuId {
    OnuId::new(number).expect(rt, "an ONU-ID")
}

fn alloc_id(rt: &impl Abort, number: u16) -> AllocId {
    AllocId::new(number).expect(rt, "an Alloc-ID")
}

// Returns a descriptor with only an assured rate, in kbit/s.
fn assured(rt: &impl Abort, rate: u64) -> Descriptor {
    Descriptor::new(0, rate, 2_488_320, Class::Plain).expect(rt, "a descriptor")
}

fn open(rt: &impl Abort, alloc: Global, words: u16) -> Roster {
    Roster::open(alloc, gap(rt, words)).expect(rt, "memory")
}

fn open_with(rt: &impl Abort, alloc: Global, words: u16, rule: Rule) -> Roster {
    Roster::open_with(alloc, gap(rt, words), rule).expect(rt, "memory")
}

// Admits an Alloc-ID of an ONU with an assured rate, and compares the result.
fn assert_admit(
    rt: &impl Abort,
    roster: &mut Roster,
    owner: u16,
    id: u16,
    rate: u64,
    wanted: Result<(), Refusal>,
) {
    let admitted = roster.admit(onu(rt, owner), alloc_id(rt, id), assured(rt, rate));
    assert!(rt;
        admitted == wanted,
        "{id} of {owner}, {rate} kbit/s: {admitted:?}"
    );
}

// Changes the assured rate of an Alloc-ID, and compares the result.
fn assert_change(
    rt: &impl Abort,
    roster: &mut Roster,
    id: u16,
    rate: u64,
    wanted: Result<(), Refusal>,
) {
    let changed = roster.change(alloc_id(rt, id), assured(rt, rate));
    assert!(rt; changed == wanted, "{id}, {rate} kbit/s: {changed:?}");
}

// Removes an Alloc-ID, and compares the result.
fn assert_remove(rt: &impl Abort, roster: &mut Roster, id: u16, wanted: Result<(), Refusal>) {
    let removed = roster.remove(alloc_id(rt, id));
    assert!(rt; removed == wanted, "{id}: {removed:?}");
}

fn assert_len(rt: &impl Abort, roster: &Roster, wanted: usize) {
    assert!(rt; roster.rows().len() == wanted, "not {wanted} rows");
}

fn assert_onus(rt: &impl Abort, roster: &Roster, wanted: usize) {
    assert!(rt; roster.onus() == wanted, "not {wanted} ONUs");
}

fn assert_capacity(rt: &impl Abort, roster: &Roster, wanted: u16) {
    let capacity = roster.capacity().get();
    assert!(rt; capacity == wanted, "{capacity} words, not {wanted}");
}

fn assert_sum(rt: &impl Abort, roster: &Roster, wanted: u32) {
    let sum = roster.guaranteed_sum().get();
    assert!(rt; sum == wanted, "{sum} kbit/s, not {wanted}");
}

fn assert_opening(rt: &impl Abort, roster: &Roster, rule: Rule, gap: u16) {
    assert!(rt; roster.rule() == rule && roster.gap().get() == gap);
}

// Returns whether the roster's rows have these ONUs and Alloc-IDs, in order.
fn has_rows(roster: &Roster, wanted: &[(u16, u16)]) -> bool {
    let mut same = roster.rows().len() == wanted.len();
    for (row, pair) in roster.rows().iter().zip(wanted) {
        same = (row.onu.get(), row.alloc_id.get()) == *pair && same;
    }
    same
}

fn assert_rows(rt: &impl Abort, roster: &Roster, wanted: &[(u16, u16)]) {
    assert!(rt; has_rows(roster, wanted), "not {wanted:?}");
}

#[test]
fn opens_with_no_rows(rt: HostRuntime) {
    let roster = open(&rt, rt.alloc(), 16);
    assert_opening(&rt, &roster, Rule::CarryRemainders, 16);
    assert_len(&rt, &roster, 0);
    assert_onus(&rt, &roster, 0);
    assert_capacity(&rt, &roster, 9720);
    assert_sum(&rt, &roster, 0);
}

#[test]
fn keeps_map_order(rt: HostRuntime) {
    let mut roster = open(&rt, rt.alloc(), 1);
    for (owner, id) in [(7, 1030), (7, 1028), (3, 2000), (9, 1024), (7, 1029)] {
        assert_admit(&rt, &mut roster, owner, id, 256, Ok(()));
    }
    assert_rows(
        &rt,
        &roster,
        &[(3, 2000), (7, 1028), (7, 1029), (7, 1030), (9, 1024)],
    );
    assert_onus(&rt, &roster, 3);
    assert_sum(&rt, &roster, 1280);
    assert_capacity(&rt, &roster, 9701);
}

#[test]
fn an_onu_owns_16_alloc_ids(rt: HostRuntime) {
    let mut roster = open(&rt, rt.alloc(), 1);
    for id in 1024..1040 {
        assert_admit(&rt, &mut roster, 5, id, 0, Ok(()));
    }
    for rate in [0, 2_488_320] {
        assert_admit(&rt, &mut roster, 5, 1040, rate, Err(Refusal::SeriesFull));
    }
    assert_admit(
        &rt,
        &mut roster,
        5,
        1024,
        2_488_320,
        Err(Refusal::AllocTaken),
    );
    assert_admit(&rt, &mut roster, 6, 1040, 0, Ok(()));
    assert_len(&rt, &roster, 17);
    assert_onus(&rt, &roster, 2);
}

#[test]
fn a_port_has_128_onus(rt: HostRuntime) {
    let mut roster = open(&rt, rt.alloc(), 1);
    for number in 0..128 {
        assert_admit(&rt, &mut roster, number, 1024 + number, 0, Ok(()));
    }
    for rate in [0, 2_488_320] {
        assert_admit(&rt, &mut roster, 128, 1200, rate, Err(Refusal::TooManyOnus));
    }
    assert_admit(&rt, &mut roster, 128, 1024, 0, Err(Refusal::AllocTaken));
    assert_admit(&rt, &mut roster, 127, 1200, 0, Ok(()));
    assert_len(&rt, &roster, 129);
    assert_onus(&rt, &roster, 128);
}

#[test]
fn a_port_has_512_alloc_ids(rt: HostRuntime) {
    let mut roster = open(&rt, rt.alloc(), 1);
    for id in 0..512 {
        assert_admit(&rt, &mut roster, id / 16, 1024 + id, 0, Ok(()));
    }
    for (owner, rate) in [(0, 0), (40, 0), (40, 2_488_320)] {
        assert_admit(
            &rt,
            &mut roster,
            owner,
            1536,
            rate,
            Err(Refusal::TooManyAllocs),
        );
        assert_admit(
            &rt,
            &mut roster,
            owner,
            1024,
            rate,
            Err(Refusal::AllocTaken),
        );
    }
    assert_capacity(&rt, &roster, 8600);
}

#[test]
fn the_first_rule_has_256_alloc_ids_of_one_word(rt: HostRuntime) {
    let mut roster = open_with(&rt, rt.alloc(), 1, Rule::DropRemainders);
    for id in 0..256 {
        assert_admit(&rt, &mut roster, id / 16, 1024 + id, 0, Ok(()));
    }
    assert_admit(&rt, &mut roster, 16, 1280, 0, Err(Refusal::TooManyAllocs));
    assert_capacity(&rt, &roster, 9416);
    assert_opening(&rt, &roster, Rule::DropRemainders, 1);
}

#[test]
fn the_overhead_fits_a_frame(rt: HostRuntime) {
    let mut roster = open(&rt, rt.alloc(), 256);
    for number in 0..37 {
        assert_admit(&rt, &mut roster, number, 1024 + number, 0, Ok(()));
    }
    assert_capacity(&rt, &roster, 100);
    assert_admit(&rt, &mut roster, 37, 1061, 0, Err(Refusal::Capacity));
    assert_capacity(&rt, &roster, 100);
}

#[test]
fn the_promised_rates_fit_the_rest(rt: HostRuntime) {
    let mut roster = open(&rt, rt.alloc(), 16);
    assert_admit(&rt, &mut roster, 0, 1024, 2_483_201, Err(Refusal::Capacity));
    assert_len(&rt, &roster, 0);
    assert_admit(&rt, &mut roster, 0, 1024, 2_483_200, Ok(()));
    assert_sum(&rt, &roster, 2_483_200);
    assert_admit(&rt, &mut roster, 0, 1025, 0, Err(Refusal::Capacity));
    assert_rows(&rt, &roster, &[(0, 1024)]);
}

// Compares the promised rate of each row.
fn assert_promised(rt: &impl Abort, roster: &Roster, wanted: &[u32]) {
    let mut same = roster.rows().len() == wanted.len();
    for (row, rate) in roster.rows().iter().zip(wanted) {
        same = row.descriptor.promised().get() == *rate && same;
    }
    assert!(rt; same, "not {wanted:?}");
}

#[test]
fn changes_a_descriptor(rt: HostRuntime) {
    let mut roster = open(&rt, rt.alloc(), 16);
    for id in [1026, 1024, 1025] {
        assert_admit(&rt, &mut roster, 0, id, 1000, Ok(()));
    }
    assert_change(&rt, &mut roster, 1025, 500, Ok(()));
    assert_rows(&rt, &roster, &[(0, 1024), (0, 1025), (0, 1026)]);
    assert_sum(&rt, &roster, 2500);
    assert_change(&rt, &mut roster, 1025, 2_488_320, Err(Refusal::Capacity));
    assert_change(&rt, &mut roster, 1027, 2_488_320, Err(Refusal::NoSuchAlloc));
    assert_promised(&rt, &roster, &[1000, 500, 1000]);
    assert_sum(&rt, &roster, 2500);
}

#[test]
fn removes_an_alloc_id(rt: HostRuntime) {
    let mut roster = open(&rt, rt.alloc(), 16);
    assert_admit(&rt, &mut roster, 4, 1024, 2_482_688, Ok(()));
    assert_admit(&rt, &mut roster, 4, 1025, 0, Ok(()));
    assert_remove(&rt, &mut roster, 1026, Err(Refusal::NoSuchAlloc));
    assert_rows(&rt, &roster, &[(4, 1024), (4, 1025)]);
    assert_onus(&rt, &roster, 1);
    assert_capacity(&rt, &roster, 9698);
    assert_admit(&rt, &mut roster, 4, 1027, 0, Err(Refusal::Capacity));
    assert_remove(&rt, &mut roster, 1024, Ok(()));
    assert_rows(&rt, &roster, &[(4, 1025)]);
    assert_onus(&rt, &roster, 1);
    assert_capacity(&rt, &roster, 9700);
    assert_sum(&rt, &roster, 0);
    assert_admit(&rt, &mut roster, 4, 1027, 2_482_688, Ok(()));
    assert_remove(&rt, &mut roster, 1027, Ok(()));
    assert_remove(&rt, &mut roster, 1025, Ok(()));
    assert_onus(&rt, &roster, 0);
    assert_capacity(&rt, &roster, 9720);
}

fn assert_admit_refusal(
    rt: &impl Abort,
    roster: &Roster,
    owner: u16,
    id: u16,
    wanted: Option<Refusal>,
) {
    let row = Row::new(onu(rt, owner), alloc_id(rt, id), assured(rt, 0));
    let told = roster.admit_refusal(&row);
    assert!(rt; told == wanted, "{id} of {owner}: {told:?}");
}

fn assert_change_refusal(
    rt: &impl Abort,
    roster: &Roster,
    id: u16,
    rate: u64,
    wanted: Option<Refusal>,
) {
    let told = roster.change_refusal(alloc_id(rt, id), &assured(rt, rate));
    assert!(rt; told == wanted, "{id}, {rate} kbit/s: {told:?}");
}

fn assert_remove_refusal(rt: &impl Abort, roster: &Roster, id: u16, wanted: Option<Refusal>) {
    let told = roster.remove_refusal(alloc_id(rt, id));
    assert!(rt; told == wanted, "{id}: {told:?}");
}

#[test]
fn tells_what_would_refuse(rt: HostRuntime) {
    let mut roster = open(&rt, rt.alloc(), 16);
    assert_admit(&rt, &mut roster, 4, 1024, 256, Ok(()));
    assert_admit_refusal(&rt, &roster, 5, 1024, Some(Refusal::AllocTaken));
    assert_admit_refusal(&rt, &roster, 5, 1025, None);
    assert_change_refusal(&rt, &roster, 1024, 2_488_320, Some(Refusal::Capacity));
    assert_change_refusal(&rt, &roster, 1024, 0, None);
    assert_remove_refusal(&rt, &roster, 1025, Some(Refusal::NoSuchAlloc));
    assert_remove_refusal(&rt, &roster, 1024, None);
}

fn copy_of(rt: &impl Abort, alloc: Global, roster: &Roster) -> Roster {
    roster.try_copy(alloc).expect(rt, "memory")
}

fn assert_same(rt: &impl Abort, roster: &Roster, other: &Roster) {
    assert!(rt; roster.rows() == other.rows());
}

#[test]
fn a_copy_is_equal_and_its_own(rt: HostRuntime) {
    let mut roster = open(&rt, rt.alloc(), 16);
    assert_admit(&rt, &mut roster, 4, 1024, 256, Ok(()));
    let mut copy = copy_of(&rt, rt.alloc(), &roster);
    assert_admit(&rt, &mut roster, 3, 1025, 256, Ok(()));
    assert_rows(&rt, &copy, &[(4, 1024)]);
    assert_opening(&rt, &copy, Rule::CarryRemainders, 16);
    assert_onus(&rt, &copy, 1);
    assert_sum(&rt, &copy, 256);
    assert_admit(&rt, &mut copy, 3, 1025, 256, Ok(()));
    assert_same(&rt, &copy, &roster);
}
