//! Admissions, changes and removals, the limits of a port, and its maps without reports.

use super::script::{Row, Script, run};
use super::*;

/// The rows of a lone Alloc-ID of 10 words a frame: ten words of payload, and one for the report.
const LONE: &[Structure] = &[(1024, Some(16), 11)];

static SCRIPTS: [Script; 8] = [
    Script {
        name: "maps_what_is_admitted",
        gap: 16,
        first: 0,
        rows: &[
            Row::Take(Act::Admit(5, 1024, 2560)),
            Row::Map(0, LONE),
            Row::Map(1, LONE),
            Row::Shown(3, 3, 2),
            Row::Carry(1024, Some(0)),
            Row::Carry(1025, None),
            Row::Chapter(0),
            Row::First(Act::Admit(5, 1024, 2560)),
        ],
    },
    Script {
        name: "makes_no_map_after_the_last_frame",
        gap: 16,
        first: 18_446_744_073_709_551_614,
        rows: &[
            Row::Map(18_446_744_073_709_551_614, &[]),
            Row::Refuse(Act::MakeMap, Why::FrameLimit),
            Row::Shown(1, 1, 18_446_744_073_709_551_615),
            Row::Refuse(Act::MakeMap, Why::FrameLimit),
            Row::Shown(1, 1, 18_446_744_073_709_551_615),
        ],
    },
    Script {
        name: "keeps_65536_entries",
        gap: 16,
        first: 0,
        rows: &[
            Row::Maps(0, 65_536, &[]),
            Row::Refuse(Act::MakeMap, Why::ChapterFull),
            Row::Shown(65_536, 65_536, 65_536),
        ],
    },
    // 9,720 words less the gap, header and trailer and two words for the Alloc-ID leave 9,700 words, each 256 kbit/s.
    Script {
        name: "refuses_admissions",
        gap: 16,
        first: 0,
        rows: &[
            Row::Refuse(Act::Admit(5, 1024, 2_483_201), Why::Capacity),
            Row::Take(Act::Admit(5, 1024, 2_483_200)),
            Row::Refuse(Act::Admit(5, 1024, 0), Why::AllocTaken),
            Row::Refuse(Act::Admit(5, 1024, 2_488_320), Why::AllocTaken),
            Row::Refuse(Act::Admit(5, 1025, 0), Why::Capacity),
            Row::Shown(1, 1, 0),
            Row::Map(0, &[(1024, Some(16), 9701)]),
        ],
    },
    // Grants are in ascending order of ONU, and within an ONU of Alloc-ID, whatever the order of admission. ONU 5 has
    // 11 + 2 words after its header; ONU 7 starts after trailer and gap.
    Script {
        name: "lays_the_bursts_of_many_onus",
        gap: 16,
        first: 0,
        rows: &[
            Row::Take(Act::Admit(7, 1030, 512)),
            Row::Take(Act::Admit(5, 1025, 256)),
            Row::Take(Act::Admit(7, 1026, 0)),
            Row::Take(Act::Admit(5, 1024, 2815)),
            Row::Map(
                0,
                &[
                    (1024, Some(16), 11),
                    (1025, None, 2),
                    (1026, Some(16 + 1 + 13 + 1 + 16), 1),
                    (1030, None, 3),
                ],
            ),
            Row::Take(Act::Change(1025, 768)),
            Row::Take(Act::Remove(1024)),
            Row::Map(
                1,
                &[
                    (1025, Some(16), 4),
                    (1026, Some(16 + 1 + 4 + 1 + 16), 1),
                    (1030, None, 3),
                ],
            ),
            Row::Shown(8, 8, 2),
        ],
    },
    Script {
        name: "refuses_changes_and_removals",
        gap: 16,
        first: 0,
        rows: &[
            Row::Take(Act::Admit(5, 1024, 2_482_944)),
            Row::Refuse(Act::Change(1025, 0), Why::NoSuchAlloc),
            Row::Refuse(Act::Remove(1025), Why::NoSuchAlloc),
            Row::Refuse(Act::Change(1024, 2_483_201), Why::Capacity),
            Row::Take(Act::Change(1024, 2_483_200)),
            Row::Take(Act::Remove(1024)),
            Row::Refuse(Act::Remove(1024), Why::NoSuchAlloc),
            Row::Admitted(0),
        ],
    },
    // With a gap of 256 words each ONU with one Alloc-ID takes 260 of the 9,720 words before any grant.
    Script {
        name: "admits_37_onus_at_the_longest_gap",
        gap: 256,
        first: 0,
        rows: &[
            Row::AdmitEmpty(37, 0, 1, 1024),
            Row::Cfg(256, 0),
            Row::Capacity(100),
            Row::Refuse(Act::Admit(37, 1061, 0), Why::Capacity),
        ],
    },
    Script {
        name: "admits_16_of_an_onu_128_onus_and_512_in_all",
        gap: 1,
        first: 0,
        rows: &[
            Row::AdmitEmpty(16, 0, 0, 1024),
            Row::Refuse(Act::Admit(0, 1100, 0), Why::SeriesFull),
            Row::AdmitEmpty(127, 1, 1, 1101),
            Row::Refuse(Act::Admit(128, 2000, 0), Why::TooManyOnus),
            Row::AdmitEmpty(127, 1, 1, 3000),
            Row::AdmitEmpty(127, 1, 1, 3200),
            Row::AdmitEmpty(115, 1, 1, 3400),
            Row::Refuse(Act::Admit(128, 2000, 0), Why::TooManyAllocs),
            Row::MapOf(512),
        ],
    },
];

#[test]
fn follows_the_scripts_of_admissions(rt: HostRuntime) {
    for script in SCRIPTS.iter() {
        run(&rt, rt.alloc(), script, 1);
    }
}

static AGAIN: Script = Script {
    name: "takes_again_what_memory_refused",
    gap: 16,
    first: 7,
    rows: &[
        Row::Map(7, &[]),
        Row::Take(Act::Admit(5, 1024, 2560)),
        Row::Map(8, LONE),
        Row::Map(9, LONE),
        Row::Map(10, LONE),
        Row::Map(11, LONE),
        Row::Shown(6, 6, 12),
    ],
};

// If one allocation fails (`rt try --test --fail-alloc N`), no result changes.
#[test]
fn takes_again_what_memory_refused(rt: HostRuntime) {
    run(&rt, rt.alloc(), &AGAIN, 2);
}
