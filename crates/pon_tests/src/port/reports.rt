//! Reports, and failures of the line: scripts of a port with one Alloc-ID that has a load.

use super::script::{Row, Script, run};
use super::*;

/// The structures of a map of Alloc-ID 1024 that grants 10 words of payload, and one for the report.
const TEN: &[Structure] = &[(1024, Some(16), 11)];

/// As `TEN`, with 30 words of payload.
const THIRTY: &[Structure] = &[(1024, Some(16), 31)];

// Ports with a gap of 16 words that start at frame 0.
static SCRIPTS: [Script; 10] = [
    Script {
        name: "a_report_grows_grants_until_its_words_are_granted",
        gap: 16,
        first: 0,
        rows: &[
            Row::Take(Act::AdmitLoaded),
            Row::Map(0, TEN),
            Row::Take(Act::Report(0, 5, &[Some(100)])),
            Row::Counted(0, 90),
            Row::Map(1, THIRTY),
            Row::Map(2, THIRTY),
            Row::Map(3, THIRTY),
            Row::Map(4, TEN),
        ],
    },
    Script {
        name: "the_report_of_the_latest_frame_counts",
        gap: 16,
        first: 0,
        rows: &[
            Row::Take(Act::AdmitLoaded),
            Row::Maps(0, 3, TEN),
            Row::Take(Act::Report(2, 5, &[Some(50)])),
            Row::Take(Act::Report(1, 5, &[Some(500)])),
            Row::Map(3, THIRTY),
            Row::Map(4, TEN),
        ],
    },
    Script {
        name: "a_garbled_occupancy_leaves_the_earlier_report",
        gap: 16,
        first: 0,
        rows: &[
            Row::Take(Act::AdmitLoaded),
            Row::Map(0, TEN),
            Row::Take(Act::Report(0, 5, &[Some(100)])),
            Row::Map(1, THIRTY),
            Row::Take(Act::Report(1, 5, &[None])),
            Row::Map(2, THIRTY),
        ],
    },
    Script {
        name: "another_admission_forgets_the_report",
        gap: 16,
        first: 0,
        rows: &[
            Row::Take(Act::AdmitLoaded),
            Row::Map(0, TEN),
            Row::Take(Act::Report(0, 5, &[Some(100)])),
            Row::Take(Act::Remove(1024)),
            Row::Take(Act::AdmitLoaded),
            Row::Since(1),
            Row::Map(1, TEN),
        ],
    },
    Script {
        name: "a_fault_forgets_the_report",
        gap: 16,
        first: 0,
        rows: &[
            Row::Take(Act::AdmitLoaded),
            Row::Map(0, TEN),
            Row::Take(Act::Report(0, 5, &[Some(100)])),
            Row::Take(Act::Fail(1)),
            Row::Take(Act::Restore),
            Row::Since(1),
            Row::Map(1, TEN),
        ],
    },
    // A change of descriptor keeps the report: 90 words are left, and the next map grants 1.
    Script {
        name: "a_change_keeps_the_report",
        gap: 16,
        first: 0,
        rows: &[
            Row::Take(Act::AdmitLoaded),
            Row::Map(0, TEN),
            Row::Take(Act::Report(0, 5, &[Some(100)])),
            Row::Take(Act::Change(1024, 256)),
            Row::Map(1, &[(1024, Some(16), 2)]),
            Row::Counted(0, 89),
        ],
    },
    Script {
        name: "refuses_reports_in_order",
        gap: 16,
        first: 0,
        rows: &[
            Row::Take(Act::AdmitLoaded),
            Row::Map(0, TEN),
            Row::Take(Act::Report(0, 5, &[Some(7)])),
            Row::Refuse(Act::Report(0, 5, &[Some(7)]), Why::AlreadyReported),
            Row::Refuse(Act::Report(0, 5, &[Some(7), None]), Why::ReportCount),
            Row::Refuse(Act::Report(0, 6, &[Some(7)]), Why::NotPolled),
            Row::Refuse(Act::Report(1, 5, &[Some(7)]), Why::StaleFrame),
        ],
    },
    Script {
        name: "takes_reports_of_the_last_64_maps",
        gap: 16,
        first: 0,
        rows: &[
            Row::Take(Act::AdmitLoaded),
            Row::Maps(0, 65, TEN),
            Row::Refuse(Act::Report(0, 5, &[Some(7)]), Why::StaleFrame),
            Row::Window(64),
            Row::Take(Act::Report(1, 5, &[Some(7)])),
        ],
    },
    Script {
        name: "a_failed_port_makes_no_map",
        gap: 16,
        first: 0,
        rows: &[
            Row::Take(Act::AdmitLoaded),
            Row::Refuse(Act::Restore, Why::PortUp),
            Row::Take(Act::Fail(3)),
            Row::Cause(Some(3)),
            Row::Refuse(Act::MakeMap, Why::PortDown(3)),
            Row::Refuse(Act::Fail(4), Why::PortDown(3)),
            Row::Refuse(Act::Report(0, 5, &[Some(7)]), Why::PortDown(3)),
        ],
    },
    Script {
        name: "a_failed_port_takes_descriptors",
        gap: 16,
        first: 0,
        rows: &[
            Row::Take(Act::AdmitLoaded),
            Row::Take(Act::Fail(3)),
            Row::Take(Act::Change(1024, 512)),
            Row::Take(Act::Admit(5, 1025, 256)),
            Row::Take(Act::Remove(1025)),
            Row::Take(Act::Restore),
            Row::Cause(None),
            Row::Shown(6, 6, 0),
            Row::Map(0, &[(1024, Some(16), 3)]),
        ],
    },
];

#[test]
fn follows_the_scripts_of_reports(rt: HostRuntime) {
    for script in SCRIPTS.iter() {
        run(&rt, rt.alloc(), script, 1);
    }
}

static AGAIN: Script = Script {
    name: "takes_reports_again_where_memory_was_refused",
    gap: 16,
    first: 0,
    rows: &[
        Row::Take(Act::AdmitLoaded),
        Row::Map(0, TEN),
        Row::Take(Act::Report(0, 5, &[Some(100)])),
        Row::Map(1, THIRTY),
        Row::Take(Act::Fail(1)),
        Row::Take(Act::Restore),
        Row::Map(2, TEN),
    ],
};

// If one allocation fails (`rt try --test --fail-alloc N`), no result changes.
#[test]
fn takes_reports_again_where_memory_was_refused(rt: HostRuntime) {
    run(&rt, rt.alloc(), &AGAIN, 2);
}
