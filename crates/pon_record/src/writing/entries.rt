//! Functions that append an entry to bytes: an event, and its reply if that is a map.

ghost use Rattle.std.specs.Prelude.{◌≡◌, ◌≤◌, ◌++◌, All, OnOk, length};
ghost use Rattle.std.specs.Int.{w32};
ghost use Rattle.std.specs.List.{flat_map};
ghost use Rattle.pon_state.specs.declared.checks.TheConstants.{MAX_ENTRIES};
ghost use Rattle.pon_record.specs.Format.{counted, number};
ghost use Rattle.pon_record.specs.Events.{admit_fields, change_fields, event, event_fields, event_tag, occupancies, occupancy, report_fields};
ghost use Rattle.pon_record.specs.Chapters.{entry};
ghost use Rattle.pon_record.specs.Bodies.{HoldsFittingCert};

use crate::codes;
use crate::writing::fields::{
    put_alloc_id, put_descriptor, put_frame, put_occupancy, put_onu, put_u8, put_u32,
};
use crate::writing::made::put_made;
use pon_admit::{Event, Row};
use pon_dbru::Occupancies;
use pon_descr::Descriptor;
use pon_state::{Entry, EntryRef};
use pon_units::{AllocId, BufOcc, FrameNo, OnuId};
use std::alloc::AllocError;

fn put_reports(bytes: &mut Vec<u8>, reports: &[Option<BufOcc>]) -> Result<(), AllocError>
    ensures { OnOk result (bytes.new.items
        ≡ bytes.old.items ++ flat_map occupancy.write reports.now) }
{
    for report in reports {
        put_occupancy(bytes, *report)?;
    }
    Ok(())
}

// Appends the number of the occupancies, and the occupancies.
fn put_occupancies(bytes: &mut Vec<u8>, value: &Occupancies) -> Result<(), AllocError>
    ensures { OnOk result (bytes.new.items ≡ bytes.old.items ++ occupancies.write value.now) }
{
    let reports = value.as_slice();
    put_u8(bytes, reports.len() as u8)?;
    put_reports(bytes, reports)?;
    Ok(())
}

fn put_report(
    bytes: &mut Vec<u8>,
    frame: FrameNo,
    onu: OnuId,
    occ: &Occupancies,
) -> Result<(), AllocError>
    ensures { OnOk result (bytes.new.items
        ≡ bytes.old.items ++ report_fields.write (frame, (onu, occ.now))) }
{
    put_frame(bytes, frame)?;
    put_onu(bytes, onu)?;
    put_occupancies(bytes, occ)?;
    Ok(())
}

fn put_admission(bytes: &mut Vec<u8>, row: &Row) -> Result<(), AllocError>
    ensures { OnOk result (bytes.new.items ≡ bytes.old.items
        ++ admit_fields.write (row.now.onu, (row.now.alloc_id, row.now.descriptor))) }
{
    put_onu(bytes, row.onu)?;
    put_alloc_id(bytes, row.alloc_id)?;
    put_descriptor(bytes, &row.descriptor)?;
    Ok(())
}

fn put_change(
    bytes: &mut Vec<u8>,
    alloc_id: AllocId,
    descriptor: &Descriptor,
) -> Result<(), AllocError>
    ensures { OnOk result (bytes.new.items
        ≡ bytes.old.items ++ change_fields.write (alloc_id, descriptor.now)) }
{
    put_alloc_id(bytes, alloc_id)?;
    put_descriptor(bytes, descriptor)?;
    Ok(())
}

// Returns the tag of the kind of event.
fn tag_of(event: &Event) -> u8
    ensures { result ≡ event_tag event.now }
{
    match event {
        Event::Admit(_) => codes::ADMIT,
        Event::Change { .. } => codes::CHANGE,
        Event::Remove { .. } => codes::REMOVE,
        Event::Report { .. } => codes::REPORT,
        Event::MakeMap => codes::MAKE_MAP,
        Event::Fail { .. } => codes::FAIL,
        Event::Restore => codes::RESTORE,
    }
}

// Appends the fields that follow the tag.
fn put_fields(bytes: &mut Vec<u8>, event: &Event) -> Result<(), AllocError>
    ensures { OnOk result (bytes.new.items ≡ bytes.old.items ++ event_fields event.now) }
{
    match event {
        Event::Admit(row) => put_admission(bytes, row),
        Event::Change {
            alloc_id,
            descriptor,
        } => put_change(bytes, *alloc_id, descriptor),
        Event::Remove { alloc_id } => put_alloc_id(bytes, *alloc_id),
        Event::Report { frame, onu, occ } => put_report(bytes, *frame, *onu, occ),
        Event::Fail { cause } => put_u8(bytes, cause.get()),
        Event::MakeMap | Event::Restore => Ok(()),
    }
}

fn put_event(bytes: &mut Vec<u8>, value: &Event) -> Result<(), AllocError>
    ensures { OnOk result (bytes.new.items ≡ bytes.old.items ++ event.write value.now) }
{
    put_u8(bytes, tag_of(value))?;
    put_fields(bytes, value)?;
    Ok(())
}

// Appends an event, and its map if it got one.
fn put_entry(bytes: &mut Vec<u8>, value: &Entry) -> Result<(), AllocError>
    requires { HoldsFittingCert value.now.reply }
    ensures { OnOk result (bytes.new.items ≡ bytes.old.items ++ entry.write value.now) }
{
    match value.as_ref() {
        EntryRef::Taken(event) => put_event(bytes, event),
        EntryRef::Map(made) => {
            put_event(bytes, &Event::MakeMap)?;
            put_made(bytes, made)
        }
    }
}

fn put_all(bytes: &mut Vec<u8>, values: &[Entry]) -> Result<(), AllocError>
    requires { All (λ e. HoldsFittingCert e.reply) values.now }
    ensures { OnOk result (bytes.new.items
        ≡ bytes.old.items ++ flat_map entry.write values.now) }
{
    for value in values {
        put_entry(bytes, value)?;
    }
    Ok(())
}

/// Appends the number of the entries, and the entries.
pub(crate) fn put_entries(bytes: &mut Vec<u8>, values: &[Entry]) -> Result<(), AllocError>
    requires few { length values.now ≤ MAX_ENTRIES }
    requires certs { All (λ e. HoldsFittingCert e.reply) values.now }
    ensures { OnOk result (bytes.new.items
        ≡ bytes.old.items ++ (counted (number w32) MAX_ENTRIES entry).write values.now) }
{
    put_u32(bytes, values.len() as u32)?;
    put_all(bytes, values)?;
    Ok(())
}
