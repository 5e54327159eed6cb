//! A full port of one class, whose reports are as late as the window allows, and lines as long as they may be, cut at every place.
ghost use Rattle.std.specs.Prelude.{◌<◌};

use super::*;

// ONUs, each with the Alloc-IDs of the longest series: together as many as a port may have.
const ONUS: u16 = 32;

const SERIES: u16 = 16;

// Maps of a full window.
const WINDOW: usize = 64;

// The longest line, in bytes.
const LINE: usize = 4096;

fn push(rt: &impl Abort, input: &mut Vec<u8>, line: Result<String, AllocError>) {
    let line = line.expect(rt, "memory");
    input
        .extend_from_slice(line.as_bytes())
        .expect(rt, "memory");
}

// Adds the admissions of all Alloc-IDs: best effort, with equal weights.
fn admit_all(rt: &impl Abort, alloc: Global, input: &mut Vec<u8>) {
    for k in 0..ONUS.wrapping_mul(SERIES) {
        let unit = k / SERIES;
        let id = k.wrapping_add(1024);
        push(
            rt,
            input,
            format!(in alloc; "0 admit {unit} {id} 0 0 2488320 be\n"),
        );
    }
}

// Adds the report of an ONU, with the greatest occupancy for each of its Alloc-IDs.
fn report(rt: &impl Abort, alloc: Global, input: &mut Vec<u8>, frame: u64, unit: u16) {
    push(rt, input, format!(in alloc; "0 report {frame} {unit}"));
    repeat(rt, input, b" 16777215", usize::from(SERIES));
    repeat(rt, input, b"\n", 1);
}

// The frame for which an ONU reports after 64 maps: the last one, or 3 or 63 frames before it.
fn late(unit: u16) -> u64 {
    match unit % 3 {
        0 => 63,
        1 => 60,
        _ => 0,
    }
}

// Makes the lines: all admissions, a full window of maps, the reports of all ONUs, a map, its certificate, and four reports.
fn history(rt: &impl Abort, alloc: Global) -> Vec<u8> {
    let mut input = Vec::new(alloc);
    admit_all(rt, alloc, &mut input);
    repeat(rt, &mut input, b"0 map\n", WINDOW);
    for unit in 0..ONUS {
        report(rt, alloc, &mut input, late(unit), unit);
    }
    repeat(rt, &mut input, b"0 map\n0 cert\n", 1);
    for (frame, unit) in [(0, 3), (1, 2), (61, 1), (64, 0)] {
        report(rt, alloc, &mut input, frame, unit);
    }
    input
}

// The 512 weights are 2,488,320 each. The surplus is the line less two words for each Alloc-ID and 18 for each ONU. Of the four
// reports the first is of a frame that has left the window; 512 + 65 + 32 entries precede the others.
const END: &[u8] =
    b"cert 64 na all - be 2078720/1274019840 -\nerr E13 StaleFrame\nok 609\nok 610\nok 611\n";

#[test]
fn a_full_port_of_one_class_takes_late_reports(rt: HostRuntime) {
    let input = history(&rt, rt.alloc());
    let run = run(rt.alloc(), 16, &input, sound(4096));
    assert!(rt; ends_by(run, END));
}

// Makes the lines of a full port: all admissions, and a map.
fn full_port(rt: &impl Abort, alloc: Global) -> Vec<u8> {
    let mut input = Vec::new(alloc);
    admit_all(rt, alloc, &mut input);
    repeat(rt, &mut input, b"0 map\n0 list\n", 1);
    input
}

// Makes the text that lists a full port: no Alloc-ID has a report, and the map granted it no payload.
fn full_list(rt: &impl Abort, alloc: Global) -> Vec<u8> {
    let mut text = Vec::new(alloc);
    repeat(rt, &mut text, b"list 512\n", 1);
    for k in 0..ONUS.wrapping_mul(SERIES) {
        let unit = k / SERIES;
        let id = k.wrapping_add(1024);
        push(
            rt,
            &mut text,
            format!(in alloc;
                "alloc {id} onu {unit} fixed 0 assured 0 max 2488320 class be report - left - load 0 words 0\n"
            ),
        );
    }
    text
}

#[test]
fn a_full_port_lists_each_alloc_id(rt: HostRuntime) {
    let input = full_port(&rt, rt.alloc());
    let run = run(rt.alloc(), 16, &input, sound(4096));
    assert!(rt; ends_by(run, &full_list(&rt, rt.alloc())));
}

// Makes the lines of a full port: all admissions, and what is sure for the last Alloc-ID and for one that is not admitted.
fn full_and_sure(rt: &impl Abort, alloc: Global) -> Vec<u8> {
    let mut input = Vec::new(alloc);
    admit_all(rt, alloc, &mut input);
    repeat(rt, &mut input, b"0 sure 1535\n0 sure 1536\n", 1);
    input
}

// Each of 512 equal weights has its part of 2,078,720 kbit/s.
#[test]
fn a_full_port_says_what_is_sure(rt: HostRuntime) {
    let input = full_and_sure(&rt, rt.alloc());
    let run = run(rt.alloc(), 16, &input, sound(4096));
    let text = b"sure alloc 1535 guaranteed 0 surplus 4060 wait -\nerr E01 NoSuchAlloc\n";
    assert!(rt; ends_by(run, text));
}

// Makes a line of the greatest length, and one more.
fn longest_line(rt: &impl Abort, alloc: Global) -> Vec<u8> {
    let mut input = Vec::new(alloc);
    repeat(rt, &mut input, b"0 map", 1);
    repeat(rt, &mut input, b" ", LINE.wrapping_sub(5));
    repeat(rt, &mut input, b"\n0 map", 1);
    input
}

#[test]
fn the_longest_line_may_be_cut_at_any_place(rt: HostRuntime) {
    let input = longest_line(&rt, rt.alloc());
    for most in 1..LINE.wrapping_add(2) {
        let run = run(rt.alloc(), 16, &input, sound(most.max(1)));
        assert!(rt;
            ends_with(run, Ok(PlanEnd), b"map 0 00000000\nmap 1 00000000\n"),
            "{most}"
        );
    }
}
