//! A row of settings: an Alloc-ID to be admitted, and the words that wait in its simulated unit.

ghost use Rattle.std.specs.Prelude.{◌≡◌, ◌≤◌, Some, None, IfOk, IfErr};
ghost use Rattle.std.specs.Option.{SomeIff};
ghost use Rattle.toml.specs.View.{table_view, view};
ghost use Rattle.pon_settings.specs.Rows.{Admits, admission_fault, descriptor_fault, IsRowFault, IsAdmissionFault, id_refusal, numbers_of, number_refusal, row_at, row_of};
ghost use Rattle.pon_settings.specs.declared.row.RowFault.TheVariants as row_fault;

use crate::fields::{MAX_INTEGER, optional, required};
use crate::place::Place;
use crate::refused::{why_of_admission, why_of_values};
use crate::why::{Wanted, Why, wrong_at};
use pon_admit::{Roster, Row};
use pon_descr::{DescrFault, Refusal, from_toml};
use pon_units::{AllocId, MAX_ALLOC_ID, MAX_ONU_ID, MIN_ALLOC_ID, OnuId};
use std::marker::Model;
use toml::{Table, Value};

/// Maximum number of words that wait in a simulated unit.
pub(crate) const MAX_QUEUE: u64 = 4_294_967_295;

/// An Alloc-ID that is admitted before the first line.
#[derive(Clone, Copy, Debug, PartialEq, Eq)]
pub struct SettingsRow {
    /// The Alloc-ID, its ONU and its descriptor.
    pub row: Row,
    /// The number of words of 4 bytes that wait for it in its simulated unit, 0 to 4,294,967,295.
    pub queue: u32,
}

/// Whether a table is not a row, or its row is not admitted.
#[derive(Clone, Copy)]
pub(crate) enum RowFault {
    Form,
    Refused(Refusal),
    Memory,
}

/// The fault of a row, and which rule is broken there.
#[derive(Drop)]
pub(crate) struct FaultyRow<'a> {
    pub(crate) fault: RowFault,
    pub(crate) why: Why<'a>,
}

impl<'a> Model for FaultyRow<'a> {
    ghost use Rattle.pon_settings.specs.declared.row.RowFault.{RowFault};

    ghost Value = { RowFault };

    ghost view = { λ a. a.fault };
}

impl<'a> FaultyRow<'a> {
    fn new(fault: RowFault, why: Why<'a>) -> Self
        ensures { result ≡ fault }
    {
        FaultyRow { fault, why }
    }
}

/// The numbers of a row, except those of its descriptor.
#[derive(Clone, Copy)]
pub(crate) struct Numbers {
    pub(crate) onu: u64,
    pub(crate) alloc_id: u64,
    pub(crate) queue: u32,
}

// Returns the rule of its descriptor or its queue that a table breaks.
fn wrong_in_rest(table: &Table) -> Why<'_> {
    for key in ["fixed", "assured", "max"] {
        if required(table, key, 0, MAX_INTEGER).is_none() {
            return wrong_at(table, key, Wanted::Whole);
        }
    }
    match from_toml(table) {
        Err(DescrFault::Field) => wrong_at(table, "class", Wanted::Class),
        _ => wrong_at(table, "queue", Wanted::Within(0, MAX_QUEUE)),
    }
}

// Reads the numbers of a row. Otherwise returns the first rule that the table breaks.
fn numbers_of(table: &Table) -> Result<Numbers, Why<'_>>
    ensures ok { IfOk result (λ numbers. numbers_of (table_view table.now) ≡ Some numbers) }
    ensures fault { IfErr result (λ _. numbers_of (table_view table.now) ≡ None) }
{
    Place::Row.check_keys(table)?;
    let Some(onu) = required(table, "onu", 0, MAX_INTEGER) else {
        return Err(wrong_at(table, "onu", Wanted::Whole));
    };
    let Some(alloc_id) = required(table, "alloc", 0, MAX_INTEGER) else {
        return Err(wrong_at(table, "alloc", Wanted::Whole));
    };
    let Some(queue) = optional(table, "queue", MAX_QUEUE) else {
        return Err(wrong_in_rest(table));
    };
    Ok(Numbers {
        onu,
        alloc_id,
        queue: queue as u32,
    })
}

// Returns a managed Alloc-ID, 1024 to 16383. `None` outside this range.
fn alloc_id_of(number: u64) -> Option<AllocId>
    ensures { SomeIff result ((MIN_ALLOC_ID ≤ number) × (number ≤ MAX_ALLOC_ID)) number }
{
    AllocId::new(u16::try_from(number).ok()?)
}

// Returns an ONU-ID, 0 to 1022. `None` outside this range.
fn onu_id_of(number: u64) -> Option<OnuId>
    ensures { SomeIff result (number ≤ MAX_ONU_ID) number }
{
    OnuId::new(u16::try_from(number).ok()?)
}

// Returns the Alloc-ID and the ONU-ID of a row, or the refusal of the first that is out of range.
fn ids_of(numbers: &Numbers) -> Result<(AllocId, OnuId), Refusal>
    ensures ok { IfOk result
        (λ ids. (ids ≡ (numbers.now.alloc_id, numbers.now.onu))
        × (id_refusal numbers.now.alloc_id numbers.now.onu ≡ None)) }
    ensures refused { IfErr result
        (λ why. id_refusal numbers.now.alloc_id numbers.now.onu ≡ Some why) }
{
    let Some(alloc_id) = alloc_id_of(numbers.alloc_id) else {
        return Err(Refusal::AllocRange);
    };
    let Some(onu) = onu_id_of(numbers.onu) else {
        return Err(Refusal::OnuRange);
    };
    Ok((alloc_id, onu))
}

// Returns the fault of a row for the refusal of a roster.
fn admission_fault(refusal: Refusal) -> RowFault
    ensures { result ≡ admission_fault refusal }
{
    match refusal {
        Refusal::OutOfMemory => RowFault::Memory,
        _ => RowFault::Refused(refusal),
    }
}

// Returns the fault of a table that is not a row.
fn out_of_form(why: Why<'_>) -> FaultyRow<'_>
    ensures { result ≡ row_fault.Form }
{
    FaultyRow::new(RowFault::Form, why)
}

// Returns the fault of a row whose values are refused.
fn refused<'a>(table: &'a Table, refusal: Refusal) -> FaultyRow<'a>
    ensures { result ≡ row_fault.Refused refusal }
{
    let why = why_of_values(table, &refusal);
    FaultyRow::new(RowFault::Refused(refusal), why)
}

// Returns the fault of a row for the fault of its descriptor.
fn faulty_descriptor<'a>(table: &'a Table, fault: DescrFault) -> FaultyRow<'a>
    ensures { result ≡ descriptor_fault fault }
{
    match fault {
        DescrFault::Field => out_of_form(wrong_in_rest(table)),
        DescrFault::Refused(refusal) => refused(table, refusal),
    }
}

// Reads a row from a table, and checks that its numbers are in range.
fn row_of(table: &Table) -> Result<SettingsRow, FaultyRow<'_>>
    ensures ok { IfOk result
        (λ r. (row_of (table_view table.now) ≡ Some r) × (number_refusal r.row ≡ None)) }
    ensures fault { IfErr result (IsRowFault (row_of (table_view table.now))) }
{
    let numbers = match numbers_of(table) {
        Ok(numbers) => numbers,
        Err(why) => return Err(out_of_form(why)),
    };
    let descriptor = from_toml(table);
    if descriptor == Err(DescrFault::Field) {
        return Err(out_of_form(wrong_in_rest(table)));
    }
    let (alloc_id, onu) = match ids_of(&numbers) {
        Ok(ids) => ids,
        Err(refusal) => return Err(refused(table, refusal)),
    };
    match descriptor {
        Ok(descriptor) => Ok(SettingsRow {
            row: Row::new(onu, alloc_id, descriptor),
            queue: numbers.queue,
        }),
        Err(fault) => Err(faulty_descriptor(table, fault)),
    }
}

/// Reads a row from a table, and admits it. After a fault the roster is used no more.
pub(crate) fn admit<'a>(roster: &mut Roster, value: &'a Value) -> Result<SettingsRow, FaultyRow<'a>>
    ensures ok { IfOk result (Admits roster.old (view value.now) roster.new) }
    ensures fault { IfErr result (IsAdmissionFault roster.old (row_at (view value.now))) }
{
    let Some(table) = value.as_table() else {
        return Err(FaultyRow::new(RowFault::Form, Why::Told));
    };
    let settings_row = match row_of(table) {
        Ok(row) => row,
        Err(fault) => return Err(fault),
    };
    let row = settings_row.row;
    match roster.admit(row.onu, row.alloc_id, row.descriptor) {
        Ok(()) => Ok(settings_row),
        Err(refusal) => {
            let fault = admission_fault(refusal);
            let why = why_of_admission(roster, &row, &refusal);
            Err(FaultyRow::new(fault, why))
        }
    }
}
