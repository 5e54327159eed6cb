// Why the last map gives an Alloc-ID what it gives.
ghost use Rattle.std.specs.Prelude.{◌≡◌, ◌≢◌, is_some, None, Some};
ghost use Rattle.pon_why.specs.Lasts.{why_of};
ghost use Rattle.pon_c.specs.Arguments.{IsAllocId};
ghost use Rattle.pon_c.specs.Whys.{TellsExplained, TellsLastWhy, explained, level_kind, level_num, level_den, start_of, grant_of, frame_of, words_of};
ghost use Rattle.pon_c.specs.declared.numbers.TheConstants.{OUT_OF_MEMORY};

use crate::handle::PortHandle;
use crate::numbers::{ALLOC_RANGE, CLOSED, NO_MAP, NO_START, NO_SUCH_ALLOC, OUT_OF_MEMORY};
use crate::state::class_number;
use pon_bwmap::Alloc;
use pon_cert::Level;
use pon_guar::Counted;
use pon_port::Port;
use pon_units::AllocId;
use pon_why::{LastExplanation, LastWhy, explain_last};
use std::alloc::Global;

/// What the last map gives an Alloc-ID, with each number that it follows from. Rates are in kbit/s.
#[repr(C)]
#[derive(Drop)]
pub struct WhyInfo {
    /// The frame of the map.
    pub frame: u64,
    /// Fixed rate at the map.
    pub fixed: u64,
    /// Assured rate at the map.
    pub assured: u64,
    /// Maximum rate at the map.
    pub max: u64,
    /// The offered load.
    pub load: u64,
    /// The guaranteed rate.
    pub guaranteed: u64,
    /// The weight in its class.
    pub weight: u64,
    /// The most surplus that the load can use.
    pub cap: u64,
    /// The surplus rate: its numerator.
    pub surplus_num: u64,
    /// The surplus rate: its denominator, above 0.
    pub surplus_den: u64,
    /// What the map owed: the carry, the guaranteed rate and the whole kbit/s of the surplus rate.
    pub owed: u64,
    /// The level of the class: its numerator, 0 unless it is a fraction.
    pub level_num: u64,
    /// The level of the class: its denominator, 0 unless it is a fraction.
    pub level_den: u64,
    /// The frame of the report that counted, 0 if none did.
    pub report_frame: u64,
    /// Its words of 4 bytes that were not granted by then.
    pub report_words: u32,
    /// The ONU, 0 to 1022.
    pub onu: u16,
    /// The Alloc-ID, 1024 to 16383.
    pub alloc_id: u16,
    /// The first word of the burst, or `NO_START`.
    pub start: u16,
    /// The granted words, that of the report included.
    pub grant: u16,
    /// 0 for none, 1 for non-assured, 2 for best effort.
    pub class: u8,
    /// 0 for no level, 1 if each Alloc-ID of the class gets its cap, 2 for a fraction.
    pub level: u8,
    /// What the map before left, 0 to 255.
    pub carry: u8,
    /// Whether a report counted.
    pub has_report: bool,
}

// Returns the kind of a level, its numerator and its denominator.
pub(crate) fn level_parts(level: &Option<Level>) -> (u8, u64, u64)
    ensures kind { result.0 ≡ level_kind level.now }
    ensures num { result.1 ≡ level_num level.now }
    ensures den { result.2 ≡ level_den level.now }
{
    match *level {
        None => (0, 0, 0),
        Some(Level::All) => (1, 0, 0),
        Some(Level::At(f)) => (2, f.num(), f.den()),
    }
}

fn place_of(structure: &Option<Alloc>) -> (u16, u16)
    ensures start { result.0 ≡ start_of structure.now }
    ensures grant { result.1 ≡ grant_of structure.now }
{
    match *structure {
        None => (NO_START, 0),
        Some(structure) => match structure.start() {
            None => (NO_START, structure.grant()),
            Some(start) => (start, structure.grant()),
        },
    }
}

fn report_parts(counted: &Option<Counted>) -> (bool, u64, u32)
    ensures has { result.0 ≡ is_some counted.now }
    ensures frame { result.1 ≡ frame_of counted.now }
    ensures words { result.2 ≡ words_of counted.now }
{
    match *counted {
        None => (false, 0, 0),
        Some(counted) => (true, counted.frame.get(), counted.words.get()),
    }
}

fn explained(x: &LastExplanation) -> WhyInfo
    ensures { result ≡ explained x.now }
{
    let (level, level_num, level_den) = level_parts(&x.level);
    let (start, grant) = place_of(&x.structure);
    let (has_report, report_frame, report_words) = report_parts(&x.row.counted);
    WhyInfo {
        frame: x.frame.get(),
        fixed: u64::from(x.row.row.descriptor.fixed().get()),
        assured: u64::from(x.row.row.descriptor.assured().get()),
        max: u64::from(x.row.row.descriptor.max().get()),
        load: u64::from(x.row.load.get()),
        guaranteed: u64::from(x.row.guaranteed.get()),
        weight: x.row.item.weight,
        cap: x.row.item.cap,
        surplus_num: x.row.surplus.num(),
        surplus_den: x.row.surplus.den(),
        owed: x.row.owed,
        level_num,
        level_den,
        report_frame,
        report_words,
        onu: x.row.row.onu.get(),
        alloc_id: x.row.row.alloc_id.get(),
        start,
        grant,
        class: class_number(x.row.row.descriptor.class()),
        level,
        carry: x.row.carry,
        has_report,
    }
}

// Explains the last map of a port. Returns 0, or the number of the reason.
fn explain(alloc: Global, port: &Port, alloc_id: AllocId, why: &mut WhyInfo) -> u32
    ensures { result ≢ OUT_OF_MEMORY
        → TellsLastWhy (why_of port.now.opening port.now.entries alloc_id) result why.new }
{
    match explain_last(alloc, port.opening(), port.history(), alloc_id) {
        Ok(LastWhy::Explained(x)) => {
            *why = explained(&x);
            0
        }
        Ok(LastWhy::NoMap) => NO_MAP,
        Ok(LastWhy::NoSuchAlloc) => NO_SUCH_ALLOC,
        Err(_) => OUT_OF_MEMORY,
    }
}

/// Explains the last map for an Alloc-ID that was admitted then. The kept chapter is replayed up to that map, so the time
/// grows with it. Returns 0, or `ALLOC_RANGE` for an Alloc-ID outside 1024 to 16383, or `CLOSED`, or `NO_MAP` before the first map
/// of the kept chapter, or `NO_SUCH_ALLOC` if it was not admitted at it, or `OUT_OF_MEMORY`.
#[unsafe(no_mangle)]
pub extern "C" fn sez_why(
    alloc: Global,
    port: &mut PortHandle,
    alloc_id: u16,
    why: &mut WhyInfo,
) -> u32
    ensures alloc_id { (IsAllocId alloc_id → ⊥) → result ≡ ALLOC_RANGE }
    ensures told { IsAllocId alloc_id → result ≢ OUT_OF_MEMORY
        → TellsExplained port.old.owned.port alloc_id result why.new }
    ensures same { port.new.owned.port ≡ port.old.owned.port }
{
    let Some(alloc_id) = AllocId::new(alloc_id) else {
        return ALLOC_RANGE;
    };
    let Some(open) = port.take(alloc) else {
        return CLOSED;
    };
    let told = explain(alloc, &open, alloc_id, why);
    *port = PortHandle::of(open);
    told
}
