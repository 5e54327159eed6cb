// Settings at their limits, and the first fault of wrong ones.
use pon_admit::{Event, Row, Step};
use pon_descr::{Class, Descriptor, Refusal};
use pon_settings::{
    PortSettings, Settings, SettingsFault, SettingsRow, rows_without_floor, settings,
};
use pon_units::{AllocId, OnuId, PortNo};
use std::alloc::{AllocError, Global};

const EXAMPLE: &str =
    "[[port]]\ngap = 16\nprofile = 0\nfirst = 0\n\n[[port.alloc]]\nonu = 5\nalloc = 1024\nfixed = 2560\nassured = 0\nmax = 2560\nclass = \"none\"\nqueue = 100\n";

const TWO_PORTS: &str =
    "[[port]]\ngap = 256\nprofile = 3\nfirst = 9223372036854775807\n[[port]]\ngap = 1\n[[port.alloc]]\nonu = 1022\nalloc = 16383\nfixed = 0\nassured = 1\nmax = 2\nclass = \"na\"\n[[port.alloc]]\nonu = 0\nalloc = 1024\nfixed = 0\nassured = 0\nmax = 2488320\nclass = \"be\"\nqueue = 4294967295\n";

fn row(onu: u16, alloc_id: u16, rates: (u64, u64, u64), class: Class) -> Option<Row> {
    let (fixed, assured, max) = rates;
    let descriptor = Descriptor::new(fixed, assured, max, class).ok()?;
    Some(Row::new(OnuId::new(onu)?, AllocId::new(alloc_id)?, descriptor))
}

fn admission(port: u8, row: Row) -> Option<(PortNo, Event)> {
    Some((PortNo::new(port)?, Event::Admit(row)))
}

// Returns whether a port has the opening and the row of the example.
fn is_example(port: &PortSettings, row: Row) -> bool {
    let (cfg, first) = port.opening();
    let opening = (cfg.gap.get(), cfg.profile.get(), first.get()) == (16, 0, 0);
    opening && port.rows() == [SettingsRow { row, queue: 100 }].as_slice()
}

// Returns whether the example is read as its one port.
fn reads_the_example(alloc: Global) -> Option<bool> {
    let wanted = row(5, 1024, (2560, 0, 2560), Class::Plain)?;
    let read = settings(alloc, EXAMPLE).ok()?;
    let port = read.ports().first()?;
    Some(read.ports().len() == 1 && is_example(port, wanted))
}

#[test]
fn reads_an_example(rt: HostRuntime) {
    assert!(rt; reads_the_example(rt.alloc()) == Some(true));
}

// Returns whether the ports open with these gaps, profiles and first frames.
fn open_with(alloc: Global, read: &Settings, wanted: &[(u16, u8, u64)]) -> Option<bool> {
    let openings = read.openings(alloc).ok()?;
    let mut same = openings.len() == wanted.len();
    for (opening, numbers) in openings.iter().zip(wanted) {
        let (cfg, first) = opening;
        same = (cfg.gap.get(), cfg.profile.get(), first.get()) == *numbers && same;
    }
    Some(same)
}

// Returns whether a step admits the row at port 1.
fn admits(step: &Step, row: &Row) -> bool {
    match admission(1, *row) {
        Some((port, event)) => step.port == port && step.event == event,
        None => false,
    }
}

// Returns whether the steps admit these rows at port 1, in order.
fn admit_all(alloc: Global, read: &Settings, rows: &[Row]) -> Option<bool> {
    let steps = read.steps(alloc).ok()?;
    let mut same = steps.len() == rows.len();
    for (step, row) in steps.iter().zip(rows) {
        same = admits(step, row) && same;
    }
    Some(same)
}

// Appends the queues of all rows.
fn push_queues(read: &Settings, queues: &mut Vec<u32>) -> Result<(), AllocError> {
    for port in read.ports() {
        for row in port.rows() {
            queues.push(row.queue)?;
        }
    }
    Ok(())
}

// Returns whether the rows have these queues.
fn have_queues(alloc: Global, read: &Settings, wanted: &[u32]) -> Option<bool> {
    let mut queues = Vec::new(alloc);
    push_queues(read, &mut queues).ok()?;
    Some(queues.as_slice() == wanted)
}

// Returns whether the openings, the admissions and the queues of two ports are those of their text.
fn read_of_two(alloc: Global) -> Option<[Option<bool>; 3]> {
    let first = row(1022, 16383, (0, 1, 2), Class::NonAssured)?;
    let second = row(0, 1024, (0, 0, 2_488_320), Class::BestEffort)?;
    let read = settings(alloc, TWO_PORTS).ok()?;
    let numbers = [(256, 3, 9_223_372_036_854_775_807), (1, 0, 0)];
    Some([
        open_with(alloc, &read, &numbers),
        admit_all(alloc, &read, &[first, second]),
        have_queues(alloc, &read, &[0, u32::MAX]),
    ])
}

#[test]
fn reads_limits_and_what_is_absent(rt: HostRuntime) {
    let read = read_of_two(rt.alloc());
    assert!(rt;
        read == Some([Some(true); 3]),
        "openings, steps and queues: {read:?}"
    );
}

fn fault_of(alloc: Global, text: &str) -> Option<SettingsFault> {
    settings(alloc, text).err()
}

// If one allocation fails, the fault is `Memory`, and the same text is read when it is given again.
#[test]
fn reads_again_what_memory_refused(rt: HostRuntime) {
    let mut fault = fault_of(rt.alloc(), TWO_PORTS);
    if fault == Some(SettingsFault::Memory) {
        fault = fault_of(rt.alloc(), TWO_PORTS);
    }
    assert!(rt; fault.is_none(), "{fault:?}");
}

#[test]
fn tells_a_text_without_ports(rt: HostRuntime) {
    for (text, wanted) in [
        ("port = ", SettingsFault::Text),
        ("first = 9223372036854775808", SettingsFault::Text),
        ("", SettingsFault::Ports),
        ("port = []", SettingsFault::Ports),
        ("port = 1", SettingsFault::Ports),
        ("port = [1]", SettingsFault::Ports),
        ("[port]\ngap = 1", SettingsFault::Ports),
        ("ports = 1\n[[port]]\ngap = 0", SettingsFault::Ports),
    ] {
        let told = fault_of(rt.alloc(), text);
        assert!(rt; told == Some(wanted), "{text}: {told:?}");
    }
}

#[test]
fn tells_the_fields_of_a_port(rt: HostRuntime) {
    let port = PortNo::new(0).expect(&rt, "a port");
    for text in [
        "[[port]]",
        "[[port]]\ngap = 0",
        "[[port]]\ngap = 257",
        "[[port]]\ngap = 1.0",
        "[[port]]\ngap = 1\nprofile = 4",
        "[[port]]\ngap = 1\nfirst = -1",
        "[[port]]\ngap = 1\ngaps = 1",
        "[[port]]\ngap = 1\nalloc = [1]",
        "[[port]]\ngap = 1\nalloc = 1",
        "[[port]]\ngap = 0\nalloc = [{}]",
        "[[port]]\ngap = 0\n[[port]]\ngap = 1\nalloc = [{}]",
    ] {
        let told = fault_of(rt.alloc(), text);
        assert!(rt;
            told == Some(SettingsFault::Field { port }),
            "{text}: {told:?}"
        );
    }
}

#[test]
fn tells_the_port_of_a_fault(rt: HostRuntime) {
    let port = PortNo::new(1).expect(&rt, "a port");
    for (text, wanted) in [
        (
            "[[port]]\ngap = 1\n[[port]]\ngap = 0\n[[port]]\ngap = 1\nalloc = [{}]",
            SettingsFault::Field { port },
        ),
        (
            "[[port]]\ngap = 1\n[[port]]\ngap = 1\nalloc = [{}]\n[[port]]\ngap = 0",
            SettingsFault::Row { port, row: 0 },
        ),
    ] {
        let told = fault_of(rt.alloc(), text);
        assert!(rt; told == Some(wanted), "{text}: {told:?}");
    }
}

// Returns the text of a port with two rows, the second with these values.
fn with_row(alloc: Global, ids: &str, rates: &str) -> Result<String, AllocError> {
    let first = "onu = 1\nalloc = 1024\nfixed = 0\nassured = 0\nmax = 0\nclass = \"none\"";
    format!(in alloc;
        "[[port]]\ngap = 1\n[[port.alloc]]\n{first}\n[[port.alloc]]\n{ids}\n{rates}\n"
    )
}

fn fault_of_row(alloc: Global, ids: &str, rates: &str) -> Option<SettingsFault> {
    let text = with_row(alloc, ids, rates).ok()?;
    fault_of(alloc, text.as_str())
}

#[test]
fn tells_the_fault_of_a_row(rt: HostRuntime) {
    let port = PortNo::new(0).expect(&rt, "a port");
    let lawful = "fixed = 0\nassured = 0\nmax = 0\nclass = \"none\"";
    for (ids, rates) in [
        ("onu = -1\nalloc = 1025", lawful),
        ("onu = 1\nalloc = -1", lawful),
        ("alloc = 1025", lawful),
        ("onu = 1", lawful),
        (
            "onu = 1\nalloc = 1025",
            "fixed = 0\nassured = 0\nclass = \"none\"",
        ),
        (
            "onu = 1\nalloc = 1025",
            "fixed = 0\nassured = 0\nmax = 0\nclass = \"best\"",
        ),
        (
            "onu = 1\nalloc = 1025",
            "fixed = -1\nassured = 0\nmax = 0\nclass = \"none\"",
        ),
        ("onu = 1\nalloc = 1025\nqueue = 4294967296", lawful),
        ("onu = 1\nalloc = 1025\nqueue = -1", lawful),
        ("onu = 1\nalloc = 1025\nqueues = 1", lawful),
        ("onu = 2000\nalloc = 1\nqueues = 1", lawful),
    ] {
        let told = fault_of_row(rt.alloc(), ids, rates);
        let wanted = SettingsFault::Row { port, row: 1 };
        assert!(rt; told == Some(wanted), "{ids}, {rates}: {told:?}");
    }
}

#[test]
fn tells_the_refusal_of_a_row(rt: HostRuntime) {
    let port = PortNo::new(0).expect(&rt, "a port");
    let lawful = "fixed = 0\nassured = 0\nmax = 0\nclass = \"none\"";
    let above = "fixed = 0\nassured = 0\nmax = 2488321\nclass = \"none\"";
    let large = "fixed = 0\nassured = 2488320\nmax = 2488320\nclass = \"none\"";
    for (ids, rates, refusal) in [
        ("onu = 1\nalloc = 1025", above, Refusal::RateRange),
        ("onu = 1023\nalloc = 1023", above, Refusal::AllocRange),
        ("onu = 70000\nalloc = 70000", lawful, Refusal::AllocRange),
        ("onu = 1023\nalloc = 1024", above, Refusal::OnuRange),
        ("onu = 2\nalloc = 1024", above, Refusal::RateRange),
        ("onu = 2\nalloc = 1024", large, Refusal::AllocTaken),
        ("onu = 2\nalloc = 1025", large, Refusal::Capacity),
    ] {
        let told = fault_of_row(rt.alloc(), ids, rates);
        let wanted = SettingsFault::Refused {
            port,
            row: 1,
            refusal,
        };
        assert!(rt; told == Some(wanted), "{ids}, {rates}: {told:?}");
    }
}

// Appends the text of a number of ports.
fn push_ports(text: &mut String, count: u32) -> Result<(), AllocError> {
    for _ in 0..count {
        text.push_str("[[port]]\ngap = 1\n")?;
    }
    Ok(())
}

// Returns the number of ports that the text of this number of ports is read as, or its fault.
fn ports_read(alloc: Global, count: u32) -> Option<Result<usize, SettingsFault>> {
    let mut text = String::new(alloc);
    push_ports(&mut text, count).ok()?;
    match settings(alloc, text.as_str()) {
        Ok(read) => Some(Ok(read.ports().len())),
        Err(fault) => Some(Err(fault)),
    }
}

#[test]
fn takes_64_ports_and_no_more(rt: HostRuntime) {
    for (count, wanted) in [(64, Ok(64)), (65, Err(SettingsFault::Ports))] {
        let read = ports_read(rt.alloc(), count);
        assert!(rt; read == Some(wanted), "{count}: {read:?}");
    }
}

// The settings of a port with a non-assured Alloc-ID of this maximum rate, and three of best effort, one with an assured rate.
fn with_maximum(alloc: Global, most: &str) -> Option<String> {
    let head =
        "[[port]]\ngap = 16\n[[port.alloc]]\nonu = 5\nalloc = 1024\nfixed = 0\nassured = 1\nclass = \"na\"\nmax = ";
    let rest =
        "\n[[port.alloc]]\nonu = 5\nalloc = 1026\nfixed = 0\nassured = 0\nmax = 3\nclass = \"be\"\n[[port.alloc]]\nonu = 5\nalloc = 1025\nfixed = 0\nassured = 0\nmax = 1\nclass = \"be\"\n[[port.alloc]]\nonu = 5\nalloc = 1027\nfixed = 0\nassured = 1\nmax = 2\nclass = \"be\"\n";
    format!(in alloc; "{head}{most}{rest}").ok()
}

// Returns whether these Alloc-IDs of the one port of a text have no floor, in this order.
fn lack_floors(alloc: Global, text: &str, wanted: &[u16]) -> Option<bool> {
    let read = settings(alloc, text).ok()?;
    let rows = rows_without_floor(alloc, read.ports().first()?).ok()?;
    let mut same = rows.len() == wanted.len();
    for (row, alloc_id) in rows.iter().zip(wanted) {
        same = row.alloc_id.get() == *alloc_id && same;
    }
    Some(same)
}

fn lack_floors_at(alloc: Global, most: &str, wanted: &[u16]) -> Option<bool> {
    let text = with_maximum(alloc, most)?;
    lack_floors(alloc, text.as_str(), wanted)
}

// Best effort shares what this maximum and 1 kbit/s leave of 2,481,664 kbit/s, by weights of 3, 1 and 1.
#[test]
fn names_the_rows_without_a_floor(rt: HostRuntime) {
    for (most, wanted) in [
        ("2481663", [1026, 1025].as_slice()),
        ("2481660", [1025].as_slice()),
        ("2400000", [].as_slice()),
    ] {
        assert!(rt;
            lack_floors_at(rt.alloc(), most, wanted) == Some(true),
            "{most}"
        );
    }
}
