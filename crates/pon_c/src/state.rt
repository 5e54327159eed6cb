// What is shown of a port, and of its Alloc-IDs.
ghost use Rattle.std.specs.Prelude.{◌≡◌, ◌≢◌, ◌*◌, None, Some};
ghost use Rattle.pon_demand.specs.Carries.{AreCarries};
ghost use Rattle.pon_history.specs.Chapters.{present_state};
ghost use Rattle.pon_c.specs.Arguments.{IsAllocId};
ghost use Rattle.pon_c.specs.States.{FindsRow, ShowsRow, TellsFound, TellsRow, TellsState, cause_number, class_number, number_or_zero, row_info, state_info};

use crate::handle::PortHandle;
use crate::numbers::{ALLOC_RANGE, CLOSED, NO_ROW, NO_SUCH_ALLOC};
use pon_admit::Row;
use pon_descr::{Cause, Class};
use pon_port::Port;
use pon_state::PortState;
use pon_units::{AllocId, WORD_RATE};
use std::alloc::Global;

/// What is shown of a port. Rates are in kbit/s.
#[repr(C)]
#[derive(Drop)]
pub struct StateInfo {
    /// The frame of the next map.
    pub next_frame: u64,
    /// The number of the kept chapter, counted from 0.
    pub chapter: u64,
    /// The entries taken since the port was opened.
    pub taken: u64,
    /// The entries of the kept chapter, 0 to 65,536.
    pub kept: usize,
    /// The admitted Alloc-IDs, 0 to 512.
    pub alloc_ids: usize,
    /// The ONUs that own one of them, 0 to 128.
    pub onus: usize,
    /// The sum of fixed and assured rates.
    pub guaranteed: u64,
    /// What the overhead leaves of the line, 0 to 2,488,320.
    pub capacity: u64,
    /// The cause of the failure, 1 to 9, or 0 if the line is up.
    pub cause: u8,
}

/// What is shown of an admitted Alloc-ID. Rates are in kbit/s.
#[repr(C)]
#[derive(Drop)]
pub struct RowInfo {
    /// Fixed rate.
    pub fixed: u64,
    /// Assured rate.
    pub assured: u64,
    /// Maximum rate.
    pub max: u64,
    /// The offered load.
    pub load: u64,
    /// The frame of the report that counts, 0 if none does.
    pub report_frame: u64,
    /// Its words of 4 bytes that were not granted since, 0 to 16,777,215.
    pub report_words: u32,
    /// The ONU, 0 to 1022.
    pub onu: u16,
    /// The Alloc-ID, 1024 to 16383.
    pub alloc_id: u16,
    /// 0 for none, 1 for non-assured, 2 for best effort.
    pub class: u8,
    /// What the last map left, 0 to 255.
    pub carry: u8,
    /// Whether a report counts.
    pub has_report: bool,
}

fn cause_number(cause: Option<Cause>) -> u8
    ensures { result ≡ cause_number cause }
{
    match cause {
        None => 0,
        Some(cause) => cause.get(),
    }
}

// Returns the number of a class, as in a call.
pub(crate) fn class_number(class: Class) -> u8
    ensures { result ≡ class_number class }
{
    match class {
        Class::Plain => 0,
        Class::NonAssured => 1,
        Class::BestEffort => 2,
    }
}

fn state_info(port: &Port) -> StateInfo
    ensures { result ≡ state_info port.now (present_state port.now) }
{
    let state = port.state();
    let roster = state.roster();
    StateInfo {
        next_frame: state.next_frame().get(),
        chapter: port.chapter_number(),
        taken: port.taken(),
        kept: port.history().len(),
        alloc_ids: roster.rows().len(),
        onus: roster.onus(),
        guaranteed: u64::from(roster.guaranteed_sum().get()),
        capacity: WORD_RATE * u64::from(roster.capacity().get()),
        cause: cause_number(state.cause()),
    }
}

/// Shows a port. Returns 0, or `CLOSED`.
#[unsafe(no_mangle)]
pub extern "C" fn sez_state(alloc: Global, port: &mut PortHandle, state: &mut StateInfo) -> u32
    ensures told { TellsState port.old.owned.port result state.new }
    ensures same { port.new.owned.port ≡ port.old.owned.port }
{
    let Some(open) = port.take(alloc) else {
        return CLOSED;
    };
    *state = state_info(&open);
    *port = PortHandle::of(open);
    0
}

fn number_or_zero(number: Option<u8>) -> u8
    ensures { result ≡ number_or_zero number }
{
    match number {
        None => 0,
        Some(number) => number,
    }
}

fn row_info(state: &PortState, row: &Row) -> RowInfo
    requires { AreCarries state.now.rule state.now.roster state.now.carries }
    ensures { result ≡ row_info state.now row.now }
{
    let loads = state.loads();
    let counted = loads.counted(row.alloc_id);
    let (has_report, report_frame, report_words) = match counted {
        None => (false, 0, 0),
        Some(counted) => (true, counted.frame.get(), counted.words.get()),
    };
    RowInfo {
        fixed: u64::from(row.descriptor.fixed().get()),
        assured: u64::from(row.descriptor.assured().get()),
        max: u64::from(row.descriptor.max().get()),
        load: u64::from(loads.load_of(row.alloc_id).get()),
        report_frame,
        report_words,
        onu: row.onu.get(),
        alloc_id: row.alloc_id.get(),
        class: class_number(row.descriptor.class()),
        carry: number_or_zero(state.carry(row.alloc_id)),
        has_report,
    }
}

// Shows the row at a place of the roster. Returns 0, or `NO_ROW` if there is none.
fn show_row(state: &PortState, place: usize, row: &mut RowInfo) -> u32
    requires { AreCarries state.now.rule state.now.roster state.now.carries }
    ensures { TellsRow state.now place result row.new }
{
    match state.roster().rows().get(place) {
        None => NO_ROW,
        Some(found) => {
            *row = row_info(state, found);
            0
        }
    }
}

/// Shows the admitted Alloc-ID at a place, from 0: by ascending ONUs, and by ascending Alloc-IDs of each. Returns 0, or
/// the first of `CLOSED` and `NO_ROW` from the number of Alloc-IDs on.
#[unsafe(no_mangle)]
pub extern "C" fn sez_row(
    alloc: Global,
    port: &mut PortHandle,
    place: usize,
    row: &mut RowInfo,
) -> u32
    ensures told { ShowsRow port.old.owned.port place result row.new }
    ensures same { port.new.owned.port ≡ port.old.owned.port }
{
    let Some(open) = port.take(alloc) else {
        return CLOSED;
    };
    let told = show_row(open.state(), place, row);
    *port = PortHandle::of(open);
    told
}

// Shows an Alloc-ID. Returns 0, or `NO_SUCH_ALLOC`.
fn show_found(state: &PortState, alloc_id: AllocId, row: &mut RowInfo) -> u32
    requires { AreCarries state.now.rule state.now.roster state.now.carries }
    ensures { TellsFound state.now alloc_id result row.new }
{
    match state.roster().place_of(alloc_id) {
        None => NO_SUCH_ALLOC,
        Some(place) => show_row(state, place, row),
    }
}

/// Shows an admitted Alloc-ID. Returns 0, or the first of: `ALLOC_RANGE` for an Alloc-ID outside 1024 to 16383, `CLOSED`, and
/// `NO_SUCH_ALLOC`.
#[unsafe(no_mangle)]
pub extern "C" fn sez_find(
    alloc: Global,
    port: &mut PortHandle,
    alloc_id: u16,
    row: &mut RowInfo,
) -> u32
    ensures alloc_id { (IsAllocId alloc_id → ⊥) → result ≡ ALLOC_RANGE }
    ensures told { IsAllocId alloc_id → FindsRow port.old.owned.port alloc_id result row.new }
    ensures same { port.new.owned.port ≡ port.old.owned.port }
{
    let Some(alloc_id) = AllocId::new(alloc_id) else {
        return ALLOC_RANGE;
    };
    let Some(open) = port.take(alloc) else {
        return CLOSED;
    };
    let told = show_found(open.state(), alloc_id, row);
    *port = PortHandle::of(open);
    told
}
