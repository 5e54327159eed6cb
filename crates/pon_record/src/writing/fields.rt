//! Functions that append a field to bytes. Each returns `Err` only if memory is refused.

ghost use Rattle.std.specs.Prelude.{◌≡◌, ◌++◌, OnOk};
ghost use Rattle.std.specs.Int.{to_be_bytes, w8, w16, w32, w64};
ghost use Rattle.pon_record.specs.Fields.{alloc_id, cause_code, class_code, descriptor, failure, frame, gap, onu_id, profile, rule_code, rule_in};
ghost use Rattle.pon_record.specs.declared.version.Version.{Version};
ghost use Rattle.pon_record.specs.Chapters.{port};
ghost use Rattle.pon_record.specs.Events.{occupancy, occupancy_code};

use crate::codes;
use pon_admit::Rule;
use pon_descr::{Cause, Class, Descriptor};
use pon_units::{AllocId, BufOcc, FrameNo, Gap, OnuId, PortNo, Profile};
use std::alloc::AllocError;

pub(crate) fn put_u8(bytes: &mut Vec<u8>, number: u8) -> Result<(), AllocError>
    ensures { OnOk result (bytes.new.items ≡ bytes.old.items ++ to_be_bytes w8 number) }
{
    bytes.extend_from_slice(&number.to_be_bytes())
}

pub(crate) fn put_u16(bytes: &mut Vec<u8>, number: u16) -> Result<(), AllocError>
    ensures { OnOk result (bytes.new.items ≡ bytes.old.items ++ to_be_bytes w16 number) }
{
    bytes.extend_from_slice(&number.to_be_bytes())
}

pub(crate) fn put_u32(bytes: &mut Vec<u8>, number: u32) -> Result<(), AllocError>
    ensures { OnOk result (bytes.new.items ≡ bytes.old.items ++ to_be_bytes w32 number) }
{
    bytes.extend_from_slice(&number.to_be_bytes())
}

pub(crate) fn put_u64(bytes: &mut Vec<u8>, number: u64) -> Result<(), AllocError>
    ensures { OnOk result (bytes.new.items ≡ bytes.old.items ++ to_be_bytes w64 number) }
{
    bytes.extend_from_slice(&number.to_be_bytes())
}

fn rule_code(rule: Rule) -> u8
    ensures { result ≡ rule_code rule }
{
    match rule {
        Rule::DropRemainders => codes::DROP_REMAINDERS,
        Rule::CarryRemainders => codes::CARRY_REMAINDERS,
    }
}

pub(crate) fn put_rule(bytes: &mut Vec<u8>, value: Rule) -> Result<(), AllocError>
    ensures { OnOk result (bytes.new.items
        ≡ bytes.old.items ++ (rule_in Version.Two).write value) }
{
    put_u8(bytes, rule_code(value))
}

pub(crate) fn put_port(bytes: &mut Vec<u8>, value: PortNo) -> Result<(), AllocError>
    ensures { OnOk result (bytes.new.items ≡ bytes.old.items ++ port.write value) }
{
    put_u8(bytes, value.get())
}

pub(crate) fn put_onu(bytes: &mut Vec<u8>, value: OnuId) -> Result<(), AllocError>
    ensures { OnOk result (bytes.new.items ≡ bytes.old.items ++ onu_id.write value) }
{
    put_u16(bytes, value.get())
}

pub(crate) fn put_alloc_id(bytes: &mut Vec<u8>, value: AllocId) -> Result<(), AllocError>
    ensures { OnOk result (bytes.new.items ≡ bytes.old.items ++ alloc_id.write value) }
{
    put_u16(bytes, value.get())
}

pub(crate) fn put_gap(bytes: &mut Vec<u8>, value: Gap) -> Result<(), AllocError>
    ensures { OnOk result (bytes.new.items ≡ bytes.old.items ++ gap.write value) }
{
    put_u16(bytes, value.get())
}

pub(crate) fn put_profile(bytes: &mut Vec<u8>, value: Profile) -> Result<(), AllocError>
    ensures { OnOk result (bytes.new.items ≡ bytes.old.items ++ profile.write value) }
{
    put_u8(bytes, value.get())
}

pub(crate) fn put_frame(bytes: &mut Vec<u8>, value: FrameNo) -> Result<(), AllocError>
    ensures { OnOk result (bytes.new.items ≡ bytes.old.items ++ frame.write value) }
{
    put_u64(bytes, value.get())
}

// Returns the number of a cause, 0 for none.
fn cause_code(cause: Option<Cause>) -> u8
    ensures { result ≡ cause_code cause }
{
    match cause {
        None => codes::UP,
        Some(cause) => cause.get(),
    }
}

/// Appends the cause of a failed port, or 0 if the port is up.
pub(crate) fn put_failure(bytes: &mut Vec<u8>, value: Option<Cause>) -> Result<(), AllocError>
    ensures { OnOk result (bytes.new.items ≡ bytes.old.items ++ failure.write value) }
{
    put_u8(bytes, cause_code(value))
}

fn class_code(class: Class) -> u8
    ensures { result ≡ class_code class }
{
    match class {
        Class::Plain => codes::PLAIN,
        Class::NonAssured => codes::NON_ASSURED,
        Class::BestEffort => codes::BEST_EFFORT,
    }
}

pub(crate) fn put_descriptor(bytes: &mut Vec<u8>, value: &Descriptor) -> Result<(), AllocError>
    ensures { OnOk result (bytes.new.items ≡ bytes.old.items ++ descriptor.write value.now) }
{
    put_u32(bytes, value.fixed().get())?;
    put_u32(bytes, value.assured().get())?;
    put_u32(bytes, value.max().get())?;
    put_u8(bytes, class_code(value.class()))?;
    Ok(())
}

fn occupancy_code(occupancy: Option<BufOcc>) -> u32
    ensures { result ≡ occupancy_code occupancy }
{
    match occupancy {
        None => codes::GARBLED,
        Some(words) => words.get(),
    }
}

/// Appends the words of an occupancy, or the mark of a garbled one.
pub(crate) fn put_occupancy(bytes: &mut Vec<u8>, value: Option<BufOcc>) -> Result<(), AllocError>
    ensures { OnOk result (bytes.new.items ≡ bytes.old.items ++ occupancy.write value) }
{
    put_u32(bytes, occupancy_code(value))
}
