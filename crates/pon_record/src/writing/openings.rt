//! Functions that append the opening of a chapter to bytes.

ghost use Rattle.std.specs.Prelude.{◌≡◌, ◌≤◌, ◌++◌, All, OnOk, length};
ghost use Rattle.std.specs.Int.{to_be_bytes, w8, w16};
ghost use Rattle.std.specs.List.{flat_map, zip};
ghost use Rattle.pon_units.specs.declared.limits.TheConstants.{MAX_STRUCTURES};
ghost use Rattle.pon_admit.specs.declared.rule.Rule.{Rule};
ghost use Rattle.pon_guar.specs.Book.{known_report, since_of_account};
ghost use Rattle.pon_guar.specs.declared.window.TheConstants.{MAX_MAPS};
ghost use Rattle.pon_record.specs.declared.limits.TheConstants.{MAX_REPORTED};
ghost use Rattle.pon_record.specs.declared.version.Version.{Version};
ghost use Rattle.pon_record.specs.Fields.{frame, onu_id, report};
ghost use Rattle.pon_record.specs.Format.{counted, number};
ghost use Rattle.pon_record.specs.Openings.{grant, opening_in, window_map_under};
ghost use Rattle.pon_record.specs.Bodies.{FitsCounts, FitsWindowMap, head_bytes, recorded_opening, row_bytes};

use crate::codes;
use crate::writing::fields::{
    put_alloc_id, put_descriptor, put_failure, put_frame, put_gap, put_onu, put_profile, put_u8,
    put_u16, put_u32, put_u64,
};
use pon_admit::Row;
use pon_guar::{Account, Counted, Loads, Window, WindowMap};
use pon_state::PortState;
use pon_units::{Granted, OnuId};
use std::alloc::AllocError;

// Appends the report that counts, or zeros.
fn put_counted(bytes: &mut Vec<u8>, value: Option<Counted>) -> Result<(), AllocError>
    ensures { OnOk result (bytes.new.items ≡ bytes.old.items ++ report.write value) }
{
    match value {
        None => {
            put_u8(bytes, codes::NOT_COUNTED)?;
            put_u64(bytes, 0)?;
            put_u32(bytes, 0)?;
            Ok(())
        }
        Some(counted) => {
            put_u8(bytes, codes::COUNTED)?;
            put_frame(bytes, counted.frame)?;
            put_u32(bytes, counted.words.get())?;
            Ok(())
        }
    }
}

// Appends the frame from which reports of an account count, and the report that counts; zeros if there is no account.
fn put_account(bytes: &mut Vec<u8>, value: Option<Account>) -> Result<(), AllocError>
    ensures { OnOk result (bytes.new.items ≡ bytes.old.items
        ++ frame.write (since_of_account value) ++ report.write (known_report value)) }
{
    match value {
        None => {
            put_u64(bytes, 0)?;
            put_counted(bytes, None)
        }
        Some(account) => {
            put_frame(bytes, account.since)?;
            put_counted(bytes, account.counted)
        }
    }
}

// Appends the ONU, the Alloc-ID and its descriptor, what the account has, and the carry.
fn put_row(bytes: &mut Vec<u8>, loads: &Loads, value: &Row, carry: u8) -> Result<(), AllocError>
    ensures { OnOk result (bytes.new.items
        ≡ bytes.old.items ++ row_bytes loads.now.accounts (value.now, carry)) }
{
    put_onu(bytes, value.onu)?;
    put_alloc_id(bytes, value.alloc_id)?;
    put_descriptor(bytes, &value.descriptor)?;
    put_account(bytes, loads.account(value.alloc_id))?;
    put_u8(bytes, carry)?;
    Ok(())
}

// Appends rows, each with its carry.
fn put_rows(
    bytes: &mut Vec<u8>,
    loads: &Loads,
    values: &[Row],
    carries: &[u8],
) -> Result<(), AllocError>
    requires { length carries.now ≡ length values.now }
    ensures { OnOk result (bytes.new.items ≡ bytes.old.items
        ++ flat_map (row_bytes loads.now.accounts) (zip values.now carries.now)) }
{
    for place in 0..values.len() {
        put_row(bytes, loads, &values[place], carries[place])?;
    }
    Ok(())
}

fn put_grant(bytes: &mut Vec<u8>, value: &Granted) -> Result<(), AllocError>
    ensures { OnOk result (bytes.new.items ≡ bytes.old.items ++ grant.write value.now) }
{
    put_onu(bytes, value.onu)?;
    put_alloc_id(bytes, value.alloc_id)?;
    put_u16(bytes, value.words.get())?;
    Ok(())
}

fn put_grants(bytes: &mut Vec<u8>, values: &[Granted]) -> Result<(), AllocError>
    ensures { OnOk result (bytes.new.items
        ≡ bytes.old.items ++ flat_map grant.write values.now) }
{
    for value in values {
        put_grant(bytes, value)?;
    }
    Ok(())
}

fn put_onus(bytes: &mut Vec<u8>, values: &[OnuId]) -> Result<(), AllocError>
    ensures { OnOk result (bytes.new.items
        ≡ bytes.old.items ++ flat_map onu_id.write values.now) }
{
    for value in values {
        put_onu(bytes, *value)?;
    }
    Ok(())
}

// Appends the number of the grants, and the grants.
fn put_all_grants(bytes: &mut Vec<u8>, values: &[Granted]) -> Result<(), AllocError>
    requires few { length values.now ≤ MAX_STRUCTURES }
    ensures { OnOk result (bytes.new.items
        ≡ bytes.old.items ++ (counted (number w16) MAX_STRUCTURES grant).write values.now) }
{
    put_u16(bytes, values.len() as u16)?;
    put_grants(bytes, values)?;
    Ok(())
}

// Appends the number of the ONUs, and the ONUs.
fn put_all_onus(bytes: &mut Vec<u8>, values: &[OnuId]) -> Result<(), AllocError>
    requires few { length values.now ≤ MAX_REPORTED }
    ensures { OnOk result (bytes.new.items
        ≡ bytes.old.items ++ (counted (number w8) MAX_REPORTED onu_id).write values.now) }
{
    put_u8(bytes, values.len() as u8)?;
    put_onus(bytes, values)?;
    Ok(())
}

fn put_window_map(bytes: &mut Vec<u8>, value: &WindowMap) -> Result<(), AllocError>
    requires { FitsWindowMap value.now }
    ensures { OnOk result (bytes.new.items ≡ bytes.old.items ++ (window_map_under Rule.CarryRemainders).write value.now) }
{
    put_frame(bytes, value.frame())?;
    put_all_grants(bytes, value.grants())?;
    put_all_onus(bytes, value.reported())?;
    Ok(())
}

// Appends the maps of the window, oldest first.
fn put_maps(bytes: &mut Vec<u8>, values: &[WindowMap]) -> Result<(), AllocError>
    requires { All FitsWindowMap values.now }
    ensures { OnOk result (bytes.new.items
        ≡ bytes.old.items ++ flat_map (window_map_under Rule.CarryRemainders).write values.now) }
{
    for value in values {
        put_window_map(bytes, value)?;
    }
    Ok(())
}

// Appends the number of the rows, and the rows, each with its carry.
fn put_all_rows(
    bytes: &mut Vec<u8>,
    loads: &Loads,
    values: &[Row],
    carries: &[u8],
) -> Result<(), AllocError>
    requires few { length values.now ≤ MAX_STRUCTURES }
    requires carries { length carries.now ≡ length values.now }
    ensures { OnOk result (bytes.new.items ≡ bytes.old.items ++ to_be_bytes w16 (length values.now)
        ++ flat_map (row_bytes loads.now.accounts) (zip values.now carries.now)) }
{
    put_u16(bytes, values.len() as u16)?;
    put_rows(bytes, loads, values, carries)?;
    Ok(())
}

// Appends the number of the maps of the window, and the maps.
fn put_window(bytes: &mut Vec<u8>, window: &Window) -> Result<(), AllocError>
    requires { All FitsWindowMap window.now }
    ensures { OnOk result (bytes.new.items ≡ bytes.old.items
        ++ (counted (number w8) MAX_MAPS (window_map_under Rule.CarryRemainders)).write window.now) }
{
    let maps = window.maps();
    put_u8(bytes, maps.len() as u8)?;
    put_maps(bytes, maps)?;
    Ok(())
}

// Appends the fields before the rows.
fn put_head(bytes: &mut Vec<u8>, value: &PortState) -> Result<(), AllocError>
    ensures { OnOk result (bytes.new.items ≡ bytes.old.items ++ head_bytes value.now) }
{
    let cfg = value.cfg();
    put_gap(bytes, cfg.gap)?;
    put_profile(bytes, cfg.profile)?;
    put_failure(bytes, value.cause())?;
    put_frame(bytes, value.next_frame())?;
    put_u64(bytes, value.taken_before())?;
    Ok(())
}

/// Appends the opening of a chapter, after its rule.
pub(crate) fn put_opening(bytes: &mut Vec<u8>, value: &PortState) -> Result<(), AllocError>
    requires { FitsCounts value.now }
    ensures { OnOk result (bytes.new.items
        ≡ bytes.old.items ++ (opening_in Version.Two value.now.rule).write
        (recorded_opening value.now)) }
{
    let loads = value.loads();
    let rows = value.roster().rows();
    put_head(bytes, value)?;
    put_all_rows(bytes, loads, rows, value.carries())?;
    put_window(bytes, loads.window())?;
    Ok(())
}
