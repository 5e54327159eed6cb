//! A desk of three ports that differ in their gap, profile, first frame and rows: each management line, look and
//! inspection is of the port that it names.
ghost use Rattle.std.specs.Prelude.{◌≡◌};

use crate::bench::{number, seat};
use crate::desks::has_numbers;
use crate::operating::{ALL, Answered, Unnoted, make_devices, with_text};
use pon_desk::{Desk, Seat};
use pon_manage::{PlanEnd, operate, plan};
use pon_port::PortCfg;
use pon_units::{FrameNo, Gap, Profile};
use std::alloc::Global;
use std::marker::Brand;
use std::process::Abort;
use std::sync::Wait;
use std::sync::ledger::{Blank, Ledger};

// Each command at port 2, with what it needs before.
const AT_THE_LAST: &[u8] =
    b"2 admit 8 1027 2560 0 25600 be\n2 list\n2 map\n2 report 100 8 100\n2 list\n2 change 1027 5120 0 25600 be\n2 map\n2 cert\n2 why 1027\n2 sure 1027\n2 sure 1028\n2 show\n2 list\n2 fail 4\n2 map\n2 show\n2 list\n2 why 1027\n2 why 1028\n2 restore\n2 map\n2 list\n2 remove 1027\n2 cert\n2 show\n2 list\n";

// Rows and maps at the other ports.
const AT_THE_OTHERS: &[u8] =
    b"1 admit 6 1025 2560 0 25600 na\n1 admit 7 1026 2560 2560 25600 none\n0 admit 5 1024 2560 0 25600 be\n0 map\n0 cert\n1 cert\n2 cert\n0 show\n1 show\n2 show\n1 map\n1 map\n1 cert\n1 show\n0 show\n2 show\n0 list\n1 list\n2 list\n0 why 1024\n1 why 1025\n1 why 1024\n2 why 1027\n0 sure 1024\n1 sure 1025\n1 sure 1026\n1 sure 1024\n2 sure 1027\n";

fn port(rt: &impl Abort, gap: u16, profile: u8, first: u64) -> (PortCfg, FrameNo) {
    let gap = Gap::new(gap).expect(rt, "a gap");
    let profile = Profile::new(profile).expect(rt, "a profile");
    (PortCfg { gap, profile }, FrameNo::new(first))
}

fn ports(rt: &impl Abort) -> [(PortCfg, FrameNo); 3] {
    [port(rt, 16, 0, 0), port(rt, 32, 1, 7), port(rt, 48, 2, 100)]
}

// Answers the input at a plant. `None` if memory is refused.
fn at_plant(rt: &impl Abort, alloc: Global, input: &[u8]) -> Option<Answered> {
    let mut devices = make_devices(alloc, input, ALL, &[], &[])?;
    let told = plan(
        alloc,
        &ports(rt),
        Vec::new(alloc),
        &mut Unnoted,
        &mut devices.reader,
        &mut devices.writer,
    );
    with_text(alloc, &devices.writer, told)
}

// Answers the input at a desk. `None` if memory is refused.
fn at_desk<L: Ledger, M: Ledger, R: Wait>(
    rt: &R,
    alloc: Global,
    desk: &Desk<L, M>,
    seat: &mut Seat<L, M>,
    input: &[u8],
) -> Option<Answered> {
    let mut devices = make_devices(alloc, input, ALL, &[], &[])?;
    let told = operate(
        rt,
        alloc,
        desk,
        seat,
        &mut devices.reader,
        &mut devices.writer,
    );
    with_text(alloc, &devices.writer, told)
}

// Returns whether both were answered to the end of the input, by the same text.
fn is_same(one: Option<Answered>, two: Option<Answered>) -> bool {
    match (one, two) {
        (Some(one), Some(two)) => {
            one.result == Ok(PlanEnd) && two.result == Ok(PlanEnd) && one.text == two.text
        }
        _ => false,
    }
}

// Returns whether a port has this gap and this next frame, and took this number of entries.
fn is_port<L: Ledger, M: Ledger, R: Wait + Abort>(
    rt: &R,
    desk: &Desk<L, M>,
    port: u8,
    gap: u16,
    next: u64,
    taken: u64,
) -> bool {
    let seen = desk.inspect(rt, number(rt, port), |port| {
        let state = port.state();
        (
            state.cfg().gap.get(),
            state.next_frame().get(),
            port.taken(),
        )
    });
    seen == Ok((gap, next, taken))
}

// Returns whether the view of a port has these numbers.
fn is_view<L: Ledger, M: Ledger, R: Wait + Abort>(
    rt: &R,
    alloc: Global,
    desk: &Desk<L, M>,
    port: u8,
    wanted: (u64, Option<u8>, usize, usize, u32, u16),
) -> bool {
    match desk.look(rt, alloc, number(rt, port)) {
        Ok(view) => has_numbers(&view, wanted),
        Err(_) => false,
    }
}

// Returns whether only port 2 took the entries of its lines.
fn is_only_the_last<L: Ledger, M: Ledger, R: Wait + Abort>(rt: &R, desk: &Desk<L, M>) -> bool {
    is_port(rt, desk, 0, 16, 0, 0)
        && is_port(rt, desk, 1, 32, 7, 0)
        && is_port(rt, desk, 2, 48, 103, 9)
}

// Returns whether each port is shown as its own lines leave it.
fn is_each<L: Ledger, M: Ledger, R: Wait + Abort>(
    rt: &R,
    alloc: Global,
    desk: &Desk<L, M>,
) -> bool {
    is_view(rt, alloc, desk, 0, (1, None, 1, 1, 2560, 9700))
        && is_view(rt, alloc, desk, 1, (9, None, 2, 2, 7680, 9648))
        && is_view(rt, alloc, desk, 2, (103, None, 0, 0, 0, 9720))
        && is_port(rt, desk, 0, 16, 1, 2)
        && is_port(rt, desk, 1, 32, 9, 4)
}

// Answers the lines of port 2, and then those of the other ports. Returns whether each text is that of a plant, and each
// port has taken its own lines.
fn answers_each<L: Ledger, M: Ledger, R: Wait + Abort>(
    rt: &R,
    alloc: Global,
    of_ports: Blank,
    of_seats: Blank,
) -> bool
    requires ports { (of_ports.name ≡ L.name) × (of_ports.parts ≡ L.parts) × (L.parts ≡ 3) }
    requires seats { (of_seats.name ≡ M.name) × (of_seats.parts ≡ M.parts) × (M.parts ≡ 1) }
{
    let opened = Desk::<L, M>::open(alloc, of_ports, of_seats, &ports(rt), 1);
    let (desk, mut seats) = opened.ok().expect(rt, "a desk");
    let mut seat = seat(rt, &mut seats);
    let first = at_desk(rt, alloc, &desk, &mut seat, AT_THE_LAST);
    let is_only = is_only_the_last(rt, &desk);
    let second = at_desk(rt, alloc, &desk, &mut seat, AT_THE_OTHERS);
    let is_counted = seat.counts() == [2, 4, 9].as_slice();
    let is_shown = is_each(rt, alloc, &desk);
    is_joined(rt, alloc, first, second) && is_only && is_counted && is_shown
}

// Returns whether the texts of both inputs, one after the other, are that of a plant.
fn is_joined(
    rt: &impl Abort,
    alloc: Global,
    first: Option<Answered>,
    second: Option<Answered>,
) -> bool {
    let mut input = Vec::new(alloc);
    input.extend_from_slice(AT_THE_LAST).expect(rt, "memory");
    input.extend_from_slice(AT_THE_OTHERS).expect(rt, "memory");
    let joined = join(first, second);
    is_same(joined, at_plant(rt, alloc, input.as_slice()))
}

// Appends the second text to the first. `None` if one was not answered, or memory is refused.
fn join(first: Option<Answered>, second: Option<Answered>) -> Option<Answered> {
    let (mut first, second) = (first?, second?);
    first.text.extend_from_slice(second.text.as_slice()).ok()?;
    first.result = second.result;
    Some(first)
}

#[test]
fn each_line_is_of_the_port_that_it_names(rt: HostRuntime) {
    let (of_ports, of_seats) = (Blank::new(3), Blank::new(1));
    assert!(rt; answers_each::<Brand, Brand, HostRuntime>(&rt, rt.alloc(), of_ports, of_seats));
}
