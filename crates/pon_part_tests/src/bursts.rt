// Worked maps of bursts, as `pack` writes them and as `lay_bursts` appends them.
ghost use Rattle.std.specs.Prelude.{◌≡◌, ◌≤◌};

use arrayvec::ArrayVec;
use pon_burst::{lay_bursts, pack};
use pon_bwmap::Alloc;
use pon_units::{AllocId, Gap, Granted, OnuId, Profile, Words};
use std::alloc::Global;

fn id(n: u16) -> AllocId
    requires low { 1024 ≤ n }
    requires high { n ≤ 16383 }
    ensures { result ≡ n }
{
    AllocId::new(n).unwrap()
}

fn words(n: u16) -> Words
    requires { n ≤ 9720 }
    ensures { result ≡ n }
{
    Words::new(n).unwrap()
}

fn onu(n: u16) -> OnuId
    requires { n ≤ 1022 }
    ensures { result ≡ n }
{
    OnuId::new(n).unwrap()
}

fn granted(u: u16, n: u16, payload: u16) -> Granted
    requires onu { u ≤ 1022 }
    requires low { 1024 ≤ n }
    requires high { n ≤ 16383 }
    requires payload { payload ≤ 9720 }
    ensures { result ≡ record { onu = u; alloc_id = n; words = payload } }
{
    Granted {
        onu: onu(u),
        alloc_id: id(n),
        words: words(payload),
    }
}

fn gap() -> Gap
    ensures { result ≡ 16 }
{
    Gap::new(16).unwrap()
}

fn profile() -> Profile
    ensures { result ≡ 0 }
{
    Profile::new(0).unwrap()
}

fn blank() -> Alloc {
    Alloc::polled(16383, None, 0, 3)
}

// Packs an Alloc-ID of ONU 5.
fn packed_alone() -> (usize, [Alloc; 1]) {
    let mut allocs = ArrayVec::new();
    allocs.push((id(1024), words(10)));
    let mut out = [blank(); 1];
    let count = pack(gap(), profile(), &[(onu(5), allocs)], &mut out);
    (count, out)
}

// Packs two Alloc-IDs of ONU 5.
fn packed_pair() -> (usize, [Alloc; 4]) {
    let mut allocs = ArrayVec::new();
    allocs.push((id(1024), words(10)));
    allocs.push((id(1025), words(1)));
    let mut out = [blank(); 4];
    let count = pack(gap(), profile(), &[(onu(5), allocs)], &mut out);
    (count, out)
}

// Packs an Alloc-ID of ONU 1 and one of ONU 2, which fill the frame.
fn packed_onus() -> (usize, [Alloc; 2]) {
    let mut first = ArrayVec::new();
    first.push((id(1024), words(6455)));
    let mut second = ArrayVec::new();
    second.push((id(1025), words(3225)));
    let mut out = [blank(); 2];
    let series = [(onu(1), first), (onu(2), second)];
    let count = pack(gap(), profile(), &series, &mut out);
    (count, out)
}

#[test]
fn packs_worked_maps(rt: HostRuntime) {
    let mut out = [blank(); 1];
    assert!(rt;
        pack(gap(), profile(), &[], &mut out) == 0 && out == [blank()],
        "no ONUs"
    );
    let one = Alloc::polled(1024, Some(16), 11, 0);
    assert!(rt; packed_alone() == (1, [one]), "one Alloc-ID");
    let next = Alloc::polled(1025, None, 2, 0);
    assert!(rt;
        packed_pair() == (2, [one, next, blank(), blank()]),
        "two Alloc-IDs"
    );
    let long = Alloc::polled(1024, Some(16), 6456, 0);
    let last = Alloc::polled(1025, Some(16 + 1 + 6456 + 1 + 16), 3226, 0);
    assert!(rt; packed_onus() == (2, [long, last]), "two ONUs");
}

// Packs two Alloc-IDs of ONU 1, none of ONU 3 and one of ONU 5.
fn packed_three() -> [Alloc; 3] {
    let mut first = ArrayVec::new();
    first.push((id(1024), words(6400)));
    first.push((id(1030), words(0)));
    let mut second = ArrayVec::new();
    second.push((id(1025), words(3225)));
    let mut out = [blank(); 3];
    let series = [(onu(1), first), (onu(3), ArrayVec::new()), (onu(5), second)];
    pack(gap(), profile(), &series, &mut out);
    out
}

// Lays the same grants, and returns whether the structures are these; `None` if memory is refused.
fn lays(alloc: Global, wanted: &[Alloc]) -> Option<bool> {
    let grants = [
        granted(1, 1024, 6400),
        granted(1, 1030, 0),
        granted(5, 1025, 3225),
    ];
    let mut laid = Vec::with_capacity(alloc, 3).ok()?;
    lay_bursts(gap(), profile(), &grants, &mut laid);
    Some(laid.as_slice() == wanted)
}

#[test]
fn lays_what_pack_writes(rt: HostRuntime) {
    assert!(rt; lays(rt.alloc(), &packed_three()) == Some(true));
}

// Lays no grants and then one after a structure, and returns whether each call appended its structures.
fn lays_after(alloc: Global) -> Option<bool> {
    let mut laid = Vec::with_capacity(alloc, 2).ok()?;
    laid.push_reserved(blank());
    lay_bursts(gap(), profile(), &[], &mut laid);
    let unchanged = laid.as_slice() == [blank()].as_slice();
    lay_bursts(gap(), profile(), &[granted(5, 1024, 10)], &mut laid);
    let structure = Alloc::polled(1024, Some(16), 11, 0);
    Some(unchanged && laid.as_slice() == [blank(), structure].as_slice())
}

#[test]
fn lays_after_what_is_there(rt: HostRuntime) {
    assert!(rt; lays_after(rt.alloc()) == Some(true));
}
