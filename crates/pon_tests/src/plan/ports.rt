// Many ports: each line is answered by its own port, and the answers of a port do not depend on the lines of another.
ghost use Rattle.std.specs.Prelude.{◌<◌};

use super::*;
use pon_admit::{Event, Row};
use pon_descr::{Class, Descriptor};
use pon_manage::Step;
use pon_units::{AllocId, OnuId, PortNo};

// Runs `plan` on the input at two ports, after these steps.
fn run_two(alloc: Global, steps: Vec<Step>, input: &[u8]) -> Option<Vec<u8>> {
    let ports = [port(16)?, port(16)?];
    let mut reader = reader(alloc, input, &sound(4096))?;
    let mut writer = writer(alloc, &sound(4096))?;
    match plan(alloc, &ports, steps, &mut Unnoted, &mut reader, &mut writer) {
        Ok(PlanEnd) => writer.bytes().to_vec(alloc).ok(),
        Err(_) => None,
    }
}

fn is_text(found: Option<Vec<u8>>, text: &[u8]) -> bool {
    match found {
        None => false,
        Some(found) => found.as_slice() == text,
    }
}

// A name, lines, and their text.
static WORKED: [(&str, &[u8], &[u8]); 2] = [
    (
        "each_line_is_of_its_port",
        b"0 admit 5 1024 2560 0 2560 none\n1 map\n0 map\n1 show\n2 map\n1 cert\n0 cert\n",
        b"ok 0\nmap 0 00000000\nmap 0 002013ac10020010000b13cb\nshow up next 1 allocs 0 onus 0 guaranteed 0 capacity 2488320\nerr L4 NoSuchPort\ncert 0 na all - be all -\ncert 0 na all - be all -\n",
    ),
    // A failure of port 0 refuses its own maps and drops its own reports.
    (
        "a_failed_port_leaves_the_other",
        b"0 admit 5 1024 0 2560 2560 none\n1 admit 5 1024 0 2560 2560 none\n0 map\n1 map\n0 report 0 5 9\n1 report 0 5 9\n0 fail 1\n0 map\n1 map\n0 restore\n0 map\n",
        b"ok 0\nok 0\nmap 0 002013ac1002001000010cf0\nmap 0 002013ac1002001000010cf0\nok 2\nok 2\nok 3\nerr E17 PortDown 1\nmap 1 002013ac10020010000a14bf\nok 4\nmap 1 002013ac1002001000010cf0\n",
    ),
];

#[test]
fn two_ports_answer_their_lines(rt: HostRuntime) {
    for (name, input, text) in WORKED.iter() {
        let found = run_two(rt.alloc(), Vec::new(rt.alloc()), input);
        assert!(rt; is_text(found, text), "{name}");
    }
}

// Runs `plan` on the input at as many ports as a terminal may have.
fn run_64(alloc: Global, input: &[u8]) -> Option<Vec<u8>> {
    let ports = [port(16)?; 64];
    let mut reader = reader(alloc, input, &sound(4096))?;
    let mut writer = writer(alloc, &sound(4096))?;
    let steps = Vec::new(alloc);
    match plan(alloc, &ports, steps, &mut Unnoted, &mut reader, &mut writer) {
        Ok(PlanEnd) => writer.bytes().to_vec(alloc).ok(),
        Err(_) => None,
    }
}

#[test]
fn the_last_of_64_ports_lists_its_own(rt: HostRuntime) {
    let lines = b"63 admit 5 1024 2560 0 2560 none\n63 list\n0 list\n64 list\n".as_slice();
    let text =
        b"ok 0\nlist 1\nalloc 1024 onu 5 fixed 2560 assured 0 max 2560 class none report - left - load 0 words -\nlist 0\nerr L4 NoSuchPort\n".as_slice();
    assert!(rt; is_text(run_64(rt.alloc(), lines), text));
}

fn admission(port: u8, id: u16) -> Option<Step> {
    let descriptor = Descriptor::new(2560, 0, 2560, Class::Plain).ok()?;
    let port = PortNo::new(port)?;
    let event = Event::Admit(Row::new(OnuId::new(5)?, AllocId::new(id)?, descriptor));
    Some(Step { port, event })
}

// The steps of the settings write nothing and count as entries of their ports; a refused step changes nothing.
#[test]
fn steps_come_before_the_first_line(rt: HostRuntime) {
    let mut steps = Vec::new(rt.alloc());
    for (port, id) in [(1, 1024), (1, 1024), (9, 1024)] {
        let step = admission(port, id).expect(&rt, "a step");
        steps.push(step).expect(&rt, "memory");
    }
    let found = run_two(rt.alloc(), steps, b"0 map\n1 map\n1 remove 1024\n");
    let text = b"map 0 00000000\nmap 0 002013ac10020010000b13cb\nok 2\n";
    assert!(rt; is_text(found, text));
}

// Returns the next number of a fixed sequence, below `below`.
fn next_below(seed: &mut u64, below: u64) -> u64
    requires { 0 < below }
    ensures { result < below }
{
    *seed = seed
        .wrapping_mul(6364136223846793005)
        .wrapping_add(1442695040888963407);
    (*seed >> 33) % below
}

// The numbers of a line.
#[derive(Clone, Copy)]
struct Numbers {
    port: u64,
    onu: u64,
    id: u64,
    rate: u64,
    frame: u64,
    words: u64,
}

fn next_numbers(port: u64, seed: &mut u64) -> Numbers {
    Numbers {
        port,
        onu: next_below(seed, 4),
        id: 1024 + next_below(seed, 8),
        rate: 256 * next_below(seed, 100),
        frame: next_below(seed, 60),
        words: next_below(seed, 300),
    }
}

// Returns a line of a port: an admission, a change, a removal, a failure, a restoration, a report of an early frame, a
// `show`, or a map.
fn line(alloc: Global, kind: u64, numbers: &Numbers) -> Result<String, AllocError> {
    let Numbers {
        port,
        onu,
        id,
        rate,
        frame,
        words,
    } = numbers;
    match kind {
        0 | 1 | 2 => format!(in alloc; "{port} admit {onu} {id} {rate} 0 2488320 be\n"),
        3 => format!(in alloc; "{port} change {id} 0 {rate} 2488320 be\n"),
        4 => format!(in alloc; "{port} remove {id}\n"),
        5 => format!(in alloc; "{port} fail 3\n"),
        6 | 7 => format!(in alloc; "{port} restore\n"),
        8 | 9 | 10 | 11 | 12 | 13 => format!(in alloc; "{port} report {frame} {onu} {words}\n"),
        14 => format!(in alloc; "{port} show\n"),
        _ => format!(in alloc; "{port} map\n"),
    }
}

// Adds a line of any kind of one of two ports.
fn add_line(rt: &impl Abort, alloc: Global, input: &mut Vec<u8>, seed: &mut u64) {
    let port = next_below(seed, 2);
    let numbers = next_numbers(port, seed);
    let line = line(alloc, next_below(seed, 24), &numbers).expect(rt, "memory");
    input
        .extend_from_slice(line.as_bytes())
        .expect(rt, "memory");
}

fn lines(rt: &impl Abort, alloc: Global) -> Vec<u8> {
    let mut seed = 1u64;
    let mut input = Vec::new(alloc);
    for _ in 0..4000 {
        add_line(rt, alloc, &mut input, &mut seed);
    }
    input
}

fn add(rt: &impl Abort, found: &mut Vec<u8>, line: &[u8]) {
    found.extend_from_slice(line).expect(rt, "memory");
    found.push(b'\n').expect(rt, "memory");
}

// Returns the lines of `text` that stand at the places of the lines of `places` that begin with this byte.
fn lines_at(rt: &impl Abort, alloc: Global, text: &[u8], places: &[u8], port: u8) -> Vec<u8> {
    let mut found = Vec::new(alloc);
    let lines = text.split(|b| *b == b'\n');
    for (line, place) in lines.zip(places.split(|b| *b == b'\n')) {
        if place.first() == Some(&port) {
            add(rt, &mut found, line);
        }
    }
    found
}

// Returns whether the replies to the lines of a port are those to its lines alone.
fn is_answered_as_alone(
    rt: &impl Abort,
    alloc: Global,
    input: &[u8],
    replies: &[u8],
    port: u8,
) -> bool {
    let own = lines_at(rt, alloc, input, input, port);
    let mixed = lines_at(rt, alloc, replies, input, port);
    mixed.len() > 20_000 && is_text(run_two(alloc, Vec::new(alloc), &own), &mixed)
}

// Lines of two ports in a mixed order give each port the same replies as its own lines alone.
#[test]
fn mixed_lines_are_answered_as_alone(rt: HostRuntime) {
    let input = lines(&rt, rt.alloc());
    let replies = run_two(rt.alloc(), Vec::new(rt.alloc()), &input).expect(&rt, "memory");
    for port in [b'0', b'1'] {
        assert!(rt;
            is_answered_as_alone(&rt, rt.alloc(), &input, &replies, port),
            "{port}"
        );
    }
}
