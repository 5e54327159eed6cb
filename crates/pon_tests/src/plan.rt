ghost use Rattle.std.specs.Prelude.{◌<◌, ◌≤◌, true};

use pon_device::{DeviceFault, MemRead, MemWrite};
use pon_manage::{LineRefusal, Notes, PlanEnd, plan};
use pon_plant::Plant;
use pon_port::PortCfg;
use pon_units::{FrameNo, Gap, Profile};
use std::alloc::{AllocError, Global};
use std::process::Abort;

mod failing;
mod long;
mod ports;

const FIRST_MAP: &[u8] = b"0 admit 5 1024 2560 0 2560 none\n0 map\n";

const FIRST_TEXT: &[u8] = b"ok 0\nmap 0 002013ac10020010000b13cb\n";

// Notes no refusal.
#[derive(Drop)]
struct Unnoted;

impl Notes for Unnoted {
    ghost noted = { λ _. true };

    fn note(&mut self, _number: u64, _plant: &Plant, _line: &[u8], _refusal: LineRefusal) {}
}

// The result of a run, and the bytes of its writer.
#[derive(Drop)]
struct Answered {
    result: Result<PlanEnd, DeviceFault>,
    text: Vec<u8>,
}

// How an input is read and its text written: the most bytes in a call, and the calls that fail.
#[derive(Clone, Copy)]
struct Devices<'a> {
    most: usize,
    reads: &'a [u64],
    writes: &'a [u64],
}

// Devices that read and write at most this number of bytes in a call, and do not fail.
fn sound(most: usize) -> Devices<'static>
    requires { 0 < most }
    ensures { 0 < result.most }
{
    Devices {
        most,
        reads: &[],
        writes: &[],
    }
}

fn port(gap: u16) -> Option<(PortCfg, FrameNo)> {
    let gap = Gap::new(gap)?;
    let profile = Profile::new(0)?;
    Some((PortCfg { gap, profile }, FrameNo::new(0)))
}

fn reader(alloc: Global, input: &[u8], devices: &Devices<'_>) -> Option<MemRead>
    requires { 0 < devices.now.most }
{
    let bytes = input.to_vec(alloc).ok()?;
    Some(MemRead::new(bytes, devices.most, devices.reads.to_vec(alloc).ok()?))
}

fn writer(alloc: Global, devices: &Devices<'_>) -> Option<MemWrite>
    requires { 0 < devices.now.most }
{
    Some(MemWrite::new(alloc, devices.most, devices.writes.to_vec(alloc).ok()?))
}

// Runs `plan` at a port with this gap. `None` if memory is refused to the test itself.
fn run(alloc: Global, gap: u16, input: &[u8], devices: Devices<'_>) -> Option<Answered>
    requires { 0 < devices.most }
{
    let ports = [port(gap)?];
    let mut reader = reader(alloc, input, &devices)?;
    let mut writer = writer(alloc, &devices)?;
    let steps = Vec::new(alloc);
    let result = plan(alloc, &ports, steps, &mut Unnoted, &mut reader, &mut writer);
    let text = writer.bytes().to_vec(alloc).ok()?;
    Some(Answered { result, text })
}

// Returns whether the run was not refused memory, and ended with this result and text.
fn ends_with(run: Option<Answered>, wanted: Result<PlanEnd, DeviceFault>, text: &[u8]) -> bool {
    match run {
        None => false,
        Some(run) => run.result == wanted && run.text.as_slice() == text,
    }
}

// Returns whether the run reached the end of its input, and ended its text with this.
fn ends_by(run: Option<Answered>, text: &[u8]) -> bool {
    match run {
        None => false,
        Some(run) => run.result == Ok(PlanEnd) && run.text.ends_with(text),
    }
}

static WORKED: [(&[u8], &[u8]); 38] = [
    (FIRST_MAP, FIRST_TEXT),
    (b"0 map", b"map 0 00000000\n"),
    (b"", b""),
    (b"0 admit 5 1023 0 0 0 none\n", b"err E03 AllocRange\n"),
    (b"7 map\n", b"err L4 NoSuchPort\n"),
    (
        b"0 admit 5 1024 2560 0 2559 none\n",
        b"err E06 MaxBelowGuaranteed\n",
    ),
    (b"0 admit 5 1024 2488321 0 0 none\n", b"err E05 RateRange\n"),
    (
        b"0 admit 5 1024 2483201 0 2483201 none\n",
        b"err E12 Capacity\n",
    ),
    (b"0 admit 5 1024 2483200 0 2483200 none\n", b"ok 0\n"),
    (
        b"0 admit 5 1024 0 0 0 none\n0 admit 6 1024 0 0 0 none\n0 admit 6 1025 0 0 0 none\n",
        b"ok 0\nerr E02 AllocTaken\nok 1\n",
    ),
    (
        b"0 admit 5 1024 2560 0 2560 none\n0 admit 5 1025 256 0 256 none\n0 map\n0 change 1024 256 0 256 none\n0 remove 1024\n0 remove 1024\n0 admit 6 1025 0 0 0 none\n",
        b"ok 0\nok 1\nmap 0 00400d2b10020010000b13cb1006ffff0002176f\nok 3\nok 4\nerr E01 NoSuchAlloc\nerr E02 AllocTaken\n",
    ),
    (b"0 admit 5 1024 0 2483200 2483200 none\n", b"ok 0\n"),
    (
        b"0 admit 5 1024 0 2483201 2483201 none\n",
        b"err E12 Capacity\n",
    ),
    (
        b"0 admit 5 1024 0 0 9 na\n0 change 1024 0 0 9 be\n0 remove 16384\n0 remove\n0 remove 1024 1\n0 change 1024 0 0 0\n",
        b"err E07 NeedsGuarantee\nerr E01 NoSuchAlloc\nerr E03 AllocRange\nerr L2 WordCount\nerr L2 WordCount\nerr L2 WordCount\n",
    ),
    (
        b"0 admit 5 1024 2560 5120 7680 none\n0 map\n0 report 0 5 100\n0 map\n0 map\n0 map\n0 map\n",
        b"ok 0\nmap 0 002013ac10020010000b13cb\nok 2\nmap 1 002013ac10020010001f07cd\nmap 2 002013ac10020010001f07cd\nmap 3 002013ac10020010001f07cd\nmap 4 002013ac10020010000b13cb\n",
    ),
    (
        b"0 admit 5 1024 2560 5120 7680 none\n0 map\n0 map\n0 map\n0 report 2 5 50\n0 report 1 5 500\n0 map\n0 map\n",
        b"ok 0\nmap 0 002013ac10020010000b13cb\nmap 1 002013ac10020010000b13cb\nmap 2 002013ac10020010000b13cb\nok 4\nok 5\nmap 3 002013ac10020010001f07cd\nmap 4 002013ac10020010000b13cb\n",
    ),
    (
        b"0 admit 5 1024 2560 5120 7680 none\n0 map\n0 report 0 5 100\n0 remove 1024\n0 admit 5 1024 2560 5120 7680 none\n0 map\n",
        b"ok 0\nmap 0 002013ac10020010000b13cb\nok 2\nok 3\nok 4\nmap 1 002013ac10020010000b13cb\n",
    ),
    (
        b"0 admit 5 1024 2560 5120 7680 none\n0 map\n0 report 0 5 100\n0 fail 1\n0 restore\n0 map\n",
        b"ok 0\nmap 0 002013ac10020010000b13cb\nok 2\nok 3\nok 4\nmap 1 002013ac10020010000b13cb\n",
    ),
    (
        b"0 admit 5 1024 2560 5120 7680 none\n0 map\n0 report 0 5 100\n0 map\n0 report 1 5 x\n0 map\n",
        b"ok 0\nmap 0 002013ac10020010000b13cb\nok 2\nmap 1 002013ac10020010001f07cd\nok 4\nmap 2 002013ac10020010001f07cd\n",
    ),
    (
        b"0 admit 5 1024 2560 0 2560 none\n0 map\n0 report 0 5 7\n0 report 0 5 7\n0 report 0 5 7 7\n0 report 0 6 7\n0 report 1 5 7\n",
        b"ok 0\nmap 0 002013ac10020010000b13cb\nok 2\nerr E16 AlreadyReported\nerr E15 ReportCount\nerr E14 NotPolled\nerr E13 StaleFrame\n",
    ),
    (
        b"0 admit 5 1024 2560 0 2560 none\n0 fail 3\n0 map\n0 restore\n0 restore\n",
        b"ok 0\nok 1\nerr E17 PortDown 3\nok 2\nerr E18 PortUp\n",
    ),
    (
        b"0 report 0 5\n0 report 0 5 1 2 3 4 5 6 7 8 9 10 11 12 13 14 15 16 17\n0 report 0 5 16777216\n0 report 0 5 16777215\n0 report 0 1023 x\n0 report 0 5 X\n",
        b"err L2 WordCount\nerr L2 WordCount\nerr L3 BadField\nerr E13 StaleFrame\nerr E04 OnuRange\nerr L3 BadField\n",
    ),
    (
        b"0 fail\n0 fail 0\n0 fail 10\n0 fail 1 1\n0 restore 1\n0 fail 9\n",
        b"err L2 WordCount\nerr L3 BadField\nerr L3 BadField\nerr L2 WordCount\nerr L2 WordCount\nok 0\n",
    ),
    (
        b"0 admit 5 1024 2560 0 2560 none\n0 map\n0 cert\n",
        b"ok 0\nmap 0 002013ac10020010000b13cb\ncert 0 na all - be all -\n",
    ),
    (
        b"0 admit 5 1024 2560 0 25600 be\n0 map\n0 report 0 5 100\n0 map\n0 map\n0 cert\n0 change 1024 2560 0 2560 none\n0 cert\n",
        b"ok 0\nmap 0 002013ac10020010000b13cb\nok 2\nmap 1 002013ac10020010005b1736\nmap 2 002013ac10020010000b13cb\ncert 2 na all - be all 1024\nok 5\ncert 2 na all - be all 1024\n",
    ),
    (
        b"0 admit 1 1024 0 0 2488320 be\n0 admit 2 1025 0 0 1244160 be\n0 map\n0 report 0 1 16777215\n0 report 0 2 16777215\n0 map\n0 cert\n0 map\n0 map\n0 map\n",
        b"ok 0\nok 1\nmap 0 00400d2b1002001000010cf01006002300010ca7\nok 3\nok 4\nmap 1 00400d2b1002001019360018100619580c9b09bb\ncert 1 na all - be 2478080/3732480 -\nmap 2 00400d2b1002001019360018100619580c9c1df7\nmap 3 00400d2b1002001019360018100619580c9b09bb\nmap 4 00400d2b100200101937076c100619590c9c1b95\n",
    ),
    (
        b"0 admit 1 1024 0 256000 1280000 na\n0 admit 2 1025 0 512000 2048000 na\n0 admit 2 1026 0 0 256 be\n0 map\n0 report 0 1 16777215\n0 report 0 2 16777215 16777215\n0 map\n0 cert\n",
        b"ok 0\nok 1\nok 2\nmap 0 00601e871002001000010cf01006002300010ca7100affff0001051b\nok 4\nok 5\nmap 1 00601e87100200100c9b0e4a10060cbd19351888100affff0001051b\ncert 1 na 1709568/768000 - be 0/256 -\n",
    ),
    // One and a half words a frame.
    (
        b"0 admit 5 1024 384 0 384 none\n0 map\n0 map\n0 map\n0 map\n",
        b"ok 0\nmap 0 002013ac100200100002056c\nmap 1 002013ac1002001000030218\nmap 2 002013ac100200100002056c\nmap 3 002013ac1002001000030218\n",
    ),
    (
        b"0 cert\n0 cert 1\n1 cert\n0 map\n0 fail 1\n0 cert\n",
        b"err L5 NoMap\nerr L2 WordCount\nerr L4 NoSuchPort\nmap 0 00000000\nok 1\ncert 0 na all - be all -\n",
    ),
    (
        b"0 show\n0 admit 5 1024 2560 0 2560 none\n0 map\n0 show\n0 show 1\n1 show\n",
        b"show up next 0 allocs 0 onus 0 guaranteed 0 capacity 2488320\nok 0\nmap 0 002013ac10020010000b13cb\nshow up next 1 allocs 1 onus 1 guaranteed 2560 capacity 2483200\nerr L2 WordCount\nerr L4 NoSuchPort\n",
    ),
    (
        b"0 admit 5 1024 2560 1280 7680 be\n0 admit 5 1025 0 256 256 none\n0 fail 3\n0 show\n0 restore\n0 remove 1024\n0 show\n",
        b"ok 0\nok 1\nok 2\nshow down 3 next 0 allocs 2 onus 1 guaranteed 4096 capacity 2482688\nok 3\nok 4\nshow up next 0 allocs 1 onus 1 guaranteed 256 capacity 2483200\n",
    ),
    // The map that docs/MODEL.md computes by hand, also after its Alloc-IDs changed and the line failed.
    (
        b"0 why 1027\n0 admit 3 1024 25600 0 25600 none\n0 admit 3 1025 0 256000 512000 na\n0 admit 6 1026 0 0 512000 be\n0 admit 6 1027 1000 0 1025000 be\n0 admit 9 1028 0 0 1536000 be\n0 why 1027\n0 map\n0 report 0 3 140 1700\n0 report 0 6 1000 6003\n0 report 0 9 9000\n0 map\n0 why 1024\n0 why 1025\n0 why 1026\n0 why 1027\n0 why 1028\n0 remove 1027\n0 admit 9 1029 0 0 256 be\n0 fail 1\n0 why 1027\n0 why 1029\n0 why\n0 why 1027 1\n0 why x\n0 why 1023\n1 why 1027\n",
        b"err L5 NoMap\nok 0\nok 1\nok 2\nok 3\nok 4\nerr L5 NoMap\nmap 0 00a009f91002001000650fa71006ffff00011ef3100a008800010d7a100effff000416e71012009f00011b41\nok 6\nok 7\nok 8\nmap 1 00a009f91002001000650fa71006ffff06a518e3100a072c03e90527100effff0aba0818101215e110100d7a\nwhy 1 alloc 1024 onu 3 fixed 25600 assured 0 max 25600 class none report 0 left 40 load 10240 guaranteed 25600 weight 25600 cap 0 level - surplus 0/1 carry 0 owed 25600 words 100 start 16 grant 101\nwhy 1 alloc 1025 onu 3 fixed 0 assured 256000 max 512000 class na report 0 left 1700 load 435200 guaranteed 256000 weight 256000 cap 179200 level all surplus 179200/1 carry 0 owed 435200 words 1700 start - grant 1701\nwhy 1 alloc 1026 onu 6 fixed 0 assured 0 max 512000 class be report 0 left 1000 load 256000 guaranteed 0 weight 512000 cap 256000 level 1754136/2560000 surplus 655360000000/2560000 carry 0 owed 256000 words 1000 start 1836 grant 1001\nwhy 1 alloc 1027 onu 6 fixed 1000 assured 0 max 1025000 class be report 0 left 6000 load 1536000 guaranteed 1000 weight 1024000 cap 1024000 level 1754136/2560000 surplus 1796235264000/2560000 carry 232 owed 702886 words 2745 start - grant 2746\nwhy 1 alloc 1028 onu 9 fixed 0 assured 0 max 1536000 class be report 0 left 9000 load 2304000 guaranteed 0 weight 1536000 cap 1536000 level 1754136/2560000 surplus 2694352896000/2560000 carry 0 owed 1052481 words 4111 start 5601 grant 4112\nok 10\nok 11\nok 12\nwhy 1 alloc 1027 onu 6 fixed 1000 assured 0 max 1025000 class be report 0 left 6000 load 1536000 guaranteed 1000 weight 1024000 cap 1024000 level 1754136/2560000 surplus 1796235264000/2560000 carry 232 owed 702886 words 2745 start - grant 2746\nerr E01 NoSuchAlloc\nerr L2 WordCount\nerr L2 WordCount\nerr L3 BadField\nerr E03 AllocRange\nerr L4 NoSuchPort\n",
    ),
    // 90 of the 100 reported words are left after map 0, none of 7 after map 1; a failure drops reports and window.
    (
        b"0 list\n0 admit 5 1024 2560 0 2560 none\n0 admit 3 1025 0 256 2560 na\n0 list\n0 map\n0 report 0 5 100\n0 list\n0 map\n0 report 1 5 7\n0 remove 1024\n0 admit 6 1024 0 0 256 be\n0 list\n0 fail 1\n0 list\n0 list 1\n1 list\n",
        b"list 0\nok 0\nok 1\nlist 2\nalloc 1025 onu 3 fixed 0 assured 256 max 2560 class na report - left - load 0 words -\nalloc 1024 onu 5 fixed 2560 assured 0 max 2560 class none report - left - load 0 words -\nmap 0 00400d2b10060010000105a810020023000b1ac4\nok 3\nlist 2\nalloc 1025 onu 3 fixed 0 assured 256 max 2560 class na report - left - load 0 words 0\nalloc 1024 onu 5 fixed 2560 assured 0 max 2560 class none report 0 left 90 load 23040 words 10\nmap 1 00400d2b10060010000105a810020023000b1ac4\nok 5\nok 6\nok 7\nlist 2\nalloc 1025 onu 3 fixed 0 assured 256 max 2560 class na report - left - load 0 words 0\nalloc 1024 onu 6 fixed 0 assured 0 max 256 class be report - left - load 0 words -\nok 8\nlist 2\nalloc 1025 onu 3 fixed 0 assured 256 max 2560 class na report - left - load 0 words -\nalloc 1024 onu 6 fixed 0 assured 0 max 256 class be report - left - load 0 words -\nerr L2 WordCount\nerr L4 NoSuchPort\n",
    ),
    // What is sure of the Alloc-IDs of docs/MODEL.md, also while the line has failed, and after one is removed: best effort
    // shares what 513,000 and 26,600 kbit/s leave of 2,471,936.
    (
        b"0 sure 1027\n0 admit 3 1024 25600 0 25600 none\n0 admit 3 1025 0 256000 512000 na\n0 admit 6 1026 0 0 512000 be\n0 admit 6 1027 1000 0 1025000 be\n0 admit 9 1028 0 0 1536000 be\n0 sure 1024\n0 sure 1025\n0 sure 1026\n0 sure 1027\n0 sure 1028\n0 fail 1\n0 sure 1027\n0 remove 1027\n0 sure 1027\n0 sure\n0 sure 1024 1\n0 sure x\n0 sure 1023\n1 sure 1024\n",
        b"err E01 NoSuchAlloc\nok 0\nok 1\nok 2\nok 3\nok 4\nsure alloc 1024 guaranteed 25600 surplus 0 wait 1\nsure alloc 1025 guaranteed 256000 surplus 256000 wait 1\nsure alloc 1026 guaranteed 0 surplus 322222 wait -\nsure alloc 1027 guaranteed 1000 surplus 644445 wait 1\nsure alloc 1028 guaranteed 0 surplus 966668 wait -\nok 5\nsure alloc 1027 guaranteed 1000 surplus 644445 wait 1\nok 6\nerr E01 NoSuchAlloc\nerr L2 WordCount\nerr L2 WordCount\nerr L3 BadField\nerr E03 AllocRange\nerr L4 NoSuchPort\n",
    ),
    (
        b"0 help\n0 help 1\n1 help\n",
        b"help 13\n<port> admit <onu> <alloc> <fixed> <assured> <max> <class>\n<port> change <alloc> <fixed> <assured> <max> <class>\n<port> remove <alloc>\n<port> report <frame> <onu> <occupancy> ..\n<port> map\n<port> fail <cause>\n<port> restore\n<port> cert\n<port> show\n<port> list\n<port> why <alloc>\n<port> sure <alloc>\n<port> help\nerr L2 WordCount\nerr L4 NoSuchPort\n",
    ),
    (b"# a comment \xff\r\n \t\n0 map\r\n\r", b"map 0 00000000\n"),
    (
        b"0 map 1\n0 shows\n0 stop\n0\nx map\n0 m\xc3p\n",
        b"err L2 WordCount\nerr L1 UnknownCommand\nerr L1 UnknownCommand\nerr L2 WordCount\nerr L3 BadField\nerr L7 NotText\n",
    ),
    (
        b"0 map\n0 map\n00\t map",
        b"map 0 00000000\nmap 1 00000000\nmap 2 00000000\n",
    ),
];

#[test]
fn worked_lines_in_pieces(rt: HostRuntime) {
    for most in [1usize, 5, 4096] {
        for (k, (input, text)) in WORKED.iter().enumerate() {
            let run = run(rt.alloc(), 16, input, sound(most.max(1)));
            assert!(rt;
                ends_with(run, Ok(PlanEnd), text),
                "row {k} in pieces of {most}"
            );
        }
    }
}

// Adds admissions with all rates 0, with the same number of Alloc-IDs for each ONU.
fn admissions(alloc: Global, count: u16, of_an_onu: u16) -> Result<Vec<u8>, AllocError>
    requires some { 0 < of_an_onu }
    requires few { count ≤ 256 }
{
    let mut input = Vec::new(alloc);
    for k in 0..count {
        let onu = k / of_an_onu;
        let id = 1024 + k;
        let line = format!(in alloc; "0 admit {onu} {id} 0 0 0 none\n")?;
        input.extend_from_slice(line.as_bytes())?;
    }
    Ok(input)
}

// The last admission is the first refused one.
#[test]
fn the_limits_of_a_port(rt: HostRuntime) {
    for (gap, count, of_an_onu, text) in [
        (16, 17, 17u16, b"ok 15\nerr E11 SeriesFull\n".as_slice()),
        (16, 129, 1, b"ok 127\nerr E10 TooManyOnus\n"),
        (256, 38, 1, b"ok 36\nerr E12 Capacity\n"),
    ] {
        let input = admissions(rt.alloc(), count, of_an_onu).expect(&rt, "memory");
        let run = run(rt.alloc(), gap, &input, sound(4096));
        assert!(rt; ends_by(run, text), "{count}");
    }
}

// Adds a line this number of times.
fn repeat(rt: &impl Abort, input: &mut Vec<u8>, line: &[u8], times: usize) {
    for _ in 0..times {
        input.extend_from_slice(line).expect(rt, "memory");
    }
}

// Maps whose text does not fit the buffer of replies equal those of an input that is read byte by byte.
#[test]
fn full_room_for_replies_is_written(rt: HostRuntime) {
    let mut input = admissions(rt.alloc(), 256, 16).expect(&rt, "memory");
    repeat(&rt, &mut input, b"0 map\n", 40);
    let by_byte = run(rt.alloc(), 16, &input, sound(1)).expect(&rt, "memory");
    let at_once = run(rt.alloc(), 16, &input, sound(65_536));
    assert!(rt; by_byte.result == Ok(PlanEnd) && by_byte.text.len() > 2 * 65_536);
    assert!(rt; ends_with(at_once, Ok(PlanEnd), &by_byte.text));
}

// Runs a comment of this number of bytes, and then a map.
fn run_long_line(rt: &impl Abort, alloc: Global, bytes: usize) -> Option<Answered> {
    let mut input = vec![in alloc; b'#'; bytes].expect(rt, "memory");
    repeat(rt, &mut input, b"\n0 map\n", 1);
    run(alloc, 16, &input, sound(4096))
}

#[test]
fn long_lines_are_skipped(rt: HostRuntime) {
    for (bytes, text) in [
        (4096usize, b"map 0 00000000\n".as_slice()),
        (4097, b"err L6 LineLong\nmap 0 00000000\n"),
        (5000, b"err L6 LineLong\nmap 0 00000000\n"),
        (20_000, b"err L6 LineLong\nmap 0 00000000\n"),
    ] {
        let run = run_long_line(&rt, rt.alloc(), bytes);
        assert!(rt; ends_with(run, Ok(PlanEnd), text), "{bytes}");
    }
}

// Returns whether the text is that of the result: a beginning if memory was refused.
fn is_beginning(run: Option<Answered>) -> bool {
    let Some(run) = run else {
        return true;
    };
    match run.result {
        Ok(PlanEnd) => run.text.as_slice() == FIRST_TEXT,
        Err(DeviceFault::Read) => false,
        Err(_) => FIRST_TEXT.starts_with(run.text.as_slice()),
    }
}

// With each allocation refused in turn, a prefix of the text is written, and no refusal is printed for it.
#[test]
fn refused_memory_leaves_a_beginning(rt: HostRuntime) {
    assert!(rt; is_beginning(run(rt.alloc(), 16, FIRST_MAP, sound(4096))));
}

// A full port refuses, and is unchanged.
#[test]
fn a_full_chapter_is_told(rt: HostRuntime) {
    let mut input = Vec::new(rt.alloc());
    repeat(&rt, &mut input, b"0 map\n", 65_537);
    let run = run(rt.alloc(), 16, &input, sound(4096));
    assert!(rt; ends_by(run, b"map 65535 00000000\nerr E20 ChapterFull\n"));
}
