//! The changes after which a port has the Alloc-IDs of its settings.

ghost use Rattle.std.specs.Prelude.{◌≡◌, ◌↔◌, ◌++◌, [], IsFalse, IsTrue, OnOk, IfOk, filter_map};
ghost use Rattle.std.specs.List.{list_any};
ghost use Rattle.pon_resume.specs.Changes.{HasRows, admission_for, changes_between, descriptor_for, differs, event_of, is_at, is_same, is_same_class, removal_for};

use pon_admit::{Event, Row};
use pon_descr::{Class, Descriptor};
use pon_settings::{PortSettings, SettingsRow};
use pon_state::PortState;
use pon_units::AllocId;
use std::alloc::{AllocError, Global};
use std::fmt::{self, Display, Formatter, Write};

/// A change of a port towards its settings. Its text says in what the two differ.
#[derive(Clone, Copy, Debug, PartialEq, Eq)]
pub enum Change {
    /// An Alloc-ID is removed: the settings lack it, or have it at another ONU.
    Remove {
        /// The Alloc-ID, 1,024 to 16,383.
        alloc_id: AllocId,
    },
    /// An Alloc-ID gets the descriptor of the settings.
    Descriptor {
        /// The Alloc-ID, 1,024 to 16,383.
        alloc_id: AllocId,
        /// The descriptor of the settings, in kbit/s.
        descriptor: Descriptor,
    },
    /// An Alloc-ID of the settings is admitted.
    Admit(Row),
}

impl Change {
    /// Returns the event of the change.
    pub fn event(&self) -> Event
        ensures { result ≡ event_of self.now }
    {
        match *self {
            Change::Remove { alloc_id } => Event::Remove { alloc_id },
            Change::Descriptor {
                alloc_id,
                descriptor,
            } => Event::Change {
                alloc_id,
                descriptor,
            },
            Change::Admit(row) => Event::Admit(row),
        }
    }
}

impl Display for Change {
    fn fmt<W: Write>(&self, f: &mut Formatter<W>) -> fmt::Result {
        match *self {
            Change::Remove { alloc_id } => {
                write!(
                    f,
                    "the settings have no Alloc-ID {} at its ONU",
                    alloc_id.get()
                )
            }
            Change::Descriptor { alloc_id, .. } => write!(
                f,
                "the settings have another descriptor for Alloc-ID {}",
                alloc_id.get()
            ),
            Change::Admit(row) => write!(
                f,
                "only the settings have Alloc-ID {} at ONU {}",
                row.alloc_id.get(),
                row.onu.get()
            ),
        }
    }
}

// Returns whether two classes are the same.
fn is_same_class(class: Class, other: Class) -> bool
    ensures value { result ≡ is_same_class class other }
    ensures equal { IsTrue result ↔ (class ≡ other) }
{
    class == other
}

// Returns whether two descriptors are the same.
fn is_same(descriptor: &Descriptor, other: &Descriptor) -> bool
    ensures value { result ≡ is_same descriptor.now other.now }
    ensures equal { IsTrue result ↔ (descriptor.now ≡ other.now) }
{
    descriptor.fixed() == other.fixed()
        && descriptor.assured() == other.assured()
        && descriptor.max() == other.max()
        && is_same_class(descriptor.class(), other.class())
}

// Returns whether two rows have the same Alloc-ID at the same ONU.
fn is_at(row: &Row, other: &Row) -> bool
    ensures { result ≡ is_at row.now other.now }
{
    row.alloc_id == other.alloc_id && row.onu == other.onu
}

// Returns whether two rows have the same Alloc-ID at the same ONU, with other descriptors.
fn differs(row: &Row, other: &Row) -> bool
    ensures { result ≡ differs row.now other.now }
{
    is_at(row, other) && !is_same(&row.descriptor, &other.descriptor)
}

// Returns whether a row is at its place in the settings.
fn is_wanted(wanted: &[SettingsRow], row: &Row) -> bool
    ensures { result ≡ list_any (λ w. is_at w.row row.now) wanted.now }
{
    wanted.iter().any(|it| is_at(&it.row, row))
}

// Returns whether a port has the Alloc-ID of a row at the ONU of the row.
fn is_present(rows: &[Row], row: &Row) -> bool
    ensures { result ≡ list_any (λ r. is_at r row.now) rows.now }
{
    rows.iter().any(|it| is_at(it, row))
}

// Returns whether a port has the Alloc-ID of a row at the ONU of the row, with another descriptor.
fn is_changed(rows: &[Row], row: &Row) -> bool
    ensures { result ≡ list_any (λ r. differs r row.now) rows.now }
{
    rows.iter().any(|it| differs(it, row))
}

// Returns the removal of a row of a port, if the settings lack it.
fn removal_for(wanted: &[SettingsRow], row: &Row) -> Option<Change>
    ensures { result ≡ removal_for wanted.now row.now }
{
    if is_wanted(wanted, row) {
        None
    } else {
        let alloc_id = row.alloc_id;
        Some(Change::Remove { alloc_id })
    }
}

// Returns the change of a descriptor, if a port has another one than this row of the settings.
fn descriptor_for(rows: &[Row], settings: &SettingsRow) -> Option<Change>
    ensures { result ≡ descriptor_for rows.now settings.now }
{
    let row = settings.row;
    if is_changed(rows, &row) {
        Some(Change::Descriptor {
            alloc_id: row.alloc_id,
            descriptor: row.descriptor,
        })
    } else {
        None
    }
}

// Returns the admission of a row of the settings, if a port lacks it.
fn admission_for(rows: &[Row], settings: &SettingsRow) -> Option<Change>
    ensures { result ≡ admission_for rows.now settings.now }
{
    if is_present(rows, &settings.row) {
        None
    } else {
        Some(Change::Admit(settings.row))
    }
}

// Appends the removal of each Alloc-ID that the settings lack.
fn add_removals(
    changes: &mut Vec<Change>,
    wanted: &[SettingsRow],
    rows: &[Row],
) -> Result<(), AllocError>
    ensures { OnOk result (changes.new.items
        ≡ changes.old.items ++ filter_map (removal_for wanted.now) rows.now) }
{
    for row in rows {
        if let Some(change) = removal_for(wanted, row) {
            changes.push(change)?;
        }
    }
    Ok(())
}

// Appends the change of each descriptor that is another one in the settings.
fn add_descriptors(
    changes: &mut Vec<Change>,
    wanted: &[SettingsRow],
    rows: &[Row],
) -> Result<(), AllocError>
    ensures { OnOk result (changes.new.items
        ≡ changes.old.items ++ filter_map (descriptor_for rows.now) wanted.now) }
{
    for settings in wanted {
        if let Some(change) = descriptor_for(rows, settings) {
            changes.push(change)?;
        }
    }
    Ok(())
}

// Appends the admission of each Alloc-ID that only the settings have.
fn add_admissions(
    changes: &mut Vec<Change>,
    wanted: &[SettingsRow],
    rows: &[Row],
) -> Result<(), AllocError>
    ensures { OnOk result (changes.new.items
        ≡ changes.old.items ++ filter_map (admission_for rows.now) wanted.now) }
{
    for settings in wanted {
        if let Some(change) = admission_for(rows, settings) {
            changes.push(change)?;
        }
    }
    Ok(())
}

// Returns the removals, then the changes of descriptors, then the admissions.
fn changes_between(
    alloc: Global,
    wanted: &[SettingsRow],
    rows: &[Row],
) -> Result<Vec<Change>, AllocError>
    ensures { IfOk result (λ changes. changes.items ≡ changes_between wanted.now rows.now) }
{
    let mut changes = Vec::new(alloc);
    add_removals(&mut changes, wanted, rows)?;
    add_descriptors(&mut changes, wanted, rows)?;
    add_admissions(&mut changes, wanted, rows)?;
    Ok(changes)
}

/// Returns the changes after which a port in this state has the Alloc-IDs of its settings: first those that are removed, then
/// the descriptors that change, then those that are admitted. There is none exactly if it has them already, with the same
/// ONUs and descriptors.
///
/// # Errors
///
/// `AllocError` only if memory is refused.
pub fn changes_to(
    alloc: Global,
    settings: &PortSettings,
    state: &PortState,
) -> Result<Vec<Change>, AllocError>
    ensures list { IfOk result (λ changes. changes.items
        ≡ changes_between settings.now.rows state.now.roster) }
    ensures none { IfOk result (λ changes. (changes.items ≡ [])
        ↔ HasRows settings.now.rows state.now.roster) }
{
    changes_between(alloc, settings.rows(), state.roster().rows())
}

/// Returns whether a port in this state has another gap or another profile than its settings, which no event changes.
pub fn is_other_line(settings: &PortSettings, state: &PortState) -> bool
    ensures { let wanted = settings.now.opening.0 in
        IsFalse result ↔ ((wanted.gap ≡ state.now.gap) × (wanted.profile ≡ state.now.profile)) }
{
    let (wanted, _first) = settings.opening();
    let present = state.cfg();
    wanted.gap != present.gap || wanted.profile != present.profile
}
