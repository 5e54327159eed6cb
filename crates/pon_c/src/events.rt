// The events of a port, but for its maps.
ghost use Rattle.std.specs.Prelude.{◌≡◌, ◌≢◌, ◌≤◌, ◌<◌, ◌++◌, ◌∷◌, [], All, IfErr, IfOk, IsOk, MatchOption, MatchResult, None, Some, length, map};
ghost use Rattle.pon_admit.specs.declared.event.Event.{Event};
ghost use Rattle.pon_descr.specs.Descriptor.{IsLawful};
ghost use Rattle.pon_c.specs.Answers.{Between, TellsWhy, Took};
ghost use Rattle.pon_c.specs.Arguments.{AreWords, IsAllocId, IsCause, IsClass, IsWord, TellsDescriptor, admits, changes, class_of, descriptor_of, occupancies_of, occupancy_of, reports};

use crate::handle::PortHandle;
use crate::numbers::{
    ALLOC_RANGE, BAD_CAUSE, BAD_CLASS, BAD_COUNT, BAD_OCCUPANCY, CLOSED, GARBLED, ONU_RANGE, number,
};
use pon_admit::{Event, Row};
use pon_dbru::Occupancies;
use pon_descr::{Cause, Class, Descriptor};
use pon_units::{AllocId, BufOcc, FrameNo, MAX_ONU_ID, MAX_SERIES, OnuId};
use std::alloc::Global;

// Passes an event to the port of a handle. Returns 0, or why it was not taken.
fn step(alloc: Global, port: &mut PortHandle, event: Event) -> u32
    ensures ok { result ≡ 0 → Between (Took event) port.old.owned.port port.new.owned.port }
    ensures told { TellsWhy event port.old.owned.port result }
    ensures err { result ≢ 0 → port.new.owned.port ≡ port.old.owned.port }
{
    let Some(mut open) = port.take(alloc) else {
        return CLOSED;
    };
    let kept = open.keep(event);
    *port = PortHandle::of(open);
    match kept {
        Ok(_) => 0,
        Err(refusal) => number(refusal),
    }
}

// Returns the class of its number: 0 is none, 1 non-assured, 2 best effort.
fn class_of(number: u8) -> Option<Class>
    ensures { MatchOption result (IsClass number → ⊥)
        (λ class. IsClass number × (class ≡ class_of number)) }
{
    match number {
        0 => Some(Class::Plain),
        1 => Some(Class::NonAssured),
        2 => Some(Class::BestEffort),
        _ => None,
    }
}

// Makes the descriptor of its three rates and its class. `Err` with the number of the reason.
fn descriptor(fixed: u64, assured: u64, max: u64, class: Class) -> Result<Descriptor, u32>
    ensures ok { IfOk result (λ d. d
        ≡ record { fixed = fixed; assured = assured; max = max; class = class }) }
    ensures lawful { IsOk result → IsLawful
        (record { fixed = fixed; assured = assured; max = max; class = class }) }
    ensures told { IfErr result (TellsDescriptor
        (record { fixed = fixed; assured = assured; max = max; class = class })) }
{
    match Descriptor::new(fixed, assured, max, class) {
        Ok(descriptor) => Ok(descriptor),
        Err(refusal) => Err(number(refusal)),
    }
}

/// Admits an Alloc-ID. Returns 0, or the first of: `ALLOC_RANGE` for an Alloc-ID outside 1024 to 16383, `ONU_RANGE` for an ONU-ID above 1022,
/// `BAD_CLASS` for a class above 2, the refusal of the descriptor (5 to 8), `CLOSED`, and the refusal of the event.
#[unsafe(no_mangle)]
pub extern "C" fn sez_admit(
    alloc: Global,
    port: &mut PortHandle,
    onu: u16,
    alloc_id: u16,
    fixed: u64,
    assured: u64,
    max: u64,
    class: u8,
) -> u32
    ensures ok { result ≡ 0 → Between (Took (admits onu alloc_id
        (descriptor_of fixed assured max class))) port.old.owned.port port.new.owned.port }
    ensures err { result ≢ 0 → port.new.owned.port ≡ port.old.owned.port }
    ensures alloc_id { (IsAllocId alloc_id → ⊥) → result ≡ ALLOC_RANGE }
    ensures onu { IsAllocId alloc_id → (onu ≤ MAX_ONU_ID → ⊥) → result ≡ ONU_RANGE }
    ensures class { IsAllocId alloc_id → onu ≤ MAX_ONU_ID → (IsClass class → ⊥)
        → result ≡ BAD_CLASS }
    ensures descriptor { IsAllocId alloc_id → onu ≤ MAX_ONU_ID → IsClass class
        → (IsLawful (descriptor_of fixed assured max class) → ⊥)
        → TellsDescriptor (descriptor_of fixed assured max class) result }
    ensures event { IsAllocId alloc_id → onu ≤ MAX_ONU_ID → IsClass class
        → IsLawful (descriptor_of fixed assured max class)
        → TellsWhy (admits onu alloc_id (descriptor_of fixed assured max class))
        port.old.owned.port result }
{
    let Some(alloc_id) = AllocId::new(alloc_id) else {
        return ALLOC_RANGE;
    };
    let Some(onu) = OnuId::new(onu) else {
        return ONU_RANGE;
    };
    let Some(class) = class_of(class) else {
        return BAD_CLASS;
    };
    match descriptor(fixed, assured, max, class) {
        Ok(descriptor) => {
            let row = Row::new(onu, alloc_id, descriptor);
            step(alloc, port, Event::Admit(row))
        }
        Err(number) => number,
    }
}

/// Changes the descriptor of an admitted Alloc-ID. Returns 0, or the first of: `ALLOC_RANGE` for an Alloc-ID outside 1024 to 16383,
/// `BAD_CLASS`, the refusal of the descriptor (5 to 8), `CLOSED`, and the refusal of the event.
#[unsafe(no_mangle)]
pub extern "C" fn sez_change(
    alloc: Global,
    port: &mut PortHandle,
    alloc_id: u16,
    fixed: u64,
    assured: u64,
    max: u64,
    class: u8,
) -> u32
    ensures ok { result ≡ 0 → Between (Took (changes alloc_id
        (descriptor_of fixed assured max class))) port.old.owned.port port.new.owned.port }
    ensures err { result ≢ 0 → port.new.owned.port ≡ port.old.owned.port }
    ensures alloc_id { (IsAllocId alloc_id → ⊥) → result ≡ ALLOC_RANGE }
    ensures class { IsAllocId alloc_id → (IsClass class → ⊥) → result ≡ BAD_CLASS }
    ensures descriptor { IsAllocId alloc_id → IsClass class
        → (IsLawful (descriptor_of fixed assured max class) → ⊥)
        → TellsDescriptor (descriptor_of fixed assured max class) result }
    ensures event { IsAllocId alloc_id → IsClass class
        → IsLawful (descriptor_of fixed assured max class)
        → TellsWhy (changes alloc_id (descriptor_of fixed assured max class))
        port.old.owned.port result }
{
    let Some(alloc_id) = AllocId::new(alloc_id) else {
        return ALLOC_RANGE;
    };
    let Some(class) = class_of(class) else {
        return BAD_CLASS;
    };
    match descriptor(fixed, assured, max, class) {
        Ok(descriptor) => step(
            alloc,
            port,
            Event::Change {
                alloc_id,
                descriptor,
            },
        ),
        Err(number) => number,
    }
}

/// Removes an admitted Alloc-ID. Returns 0, or the first of: `ALLOC_RANGE` for an Alloc-ID outside 1024 to 16383, `CLOSED`, and the
/// refusal of the event.
#[unsafe(no_mangle)]
pub extern "C" fn sez_remove(alloc: Global, port: &mut PortHandle, alloc_id: u16) -> u32
    ensures ok { result ≡ 0 → Between (Took (Event.Remove alloc_id))
        port.old.owned.port port.new.owned.port }
    ensures err { result ≢ 0 → port.new.owned.port ≡ port.old.owned.port }
    ensures alloc_id { (IsAllocId alloc_id → ⊥) → result ≡ ALLOC_RANGE }
    ensures event { IsAllocId alloc_id
        → TellsWhy (Event.Remove alloc_id) port.old.owned.port result }
{
    match AllocId::new(alloc_id) {
        Some(alloc_id) => step(alloc, port, Event::Remove { alloc_id }),
        None => ALLOC_RANGE,
    }
}

// Reads an occupancy: `GARBLED`, or words up to 16,777,215. `None` for another number.
fn occupancy(word: u32) -> Option<Option<BufOcc>>
    ensures { MatchOption result (IsWord word → ⊥)
        (λ o. IsWord word × (o ≡ occupancy_of word)) }
{
    if word == GARBLED {
        return Some(None);
    }
    match BufOcc::new(word) {
        Some(words) => Some(Some(words)),
        None => None,
    }
}

// Collects occupancies, at most 16. `None` if one is neither `GARBLED` nor words up to 16,777,215.
fn occupancies(words: &[u32]) -> Option<Occupancies>
    requires { length words.now ≤ MAX_SERIES }
    ensures { MatchOption result (AreWords words.now → ⊥)
        (λ occ. AreWords words.now × (occ ≡ occupancies_of words.now)) }
{
    let mut occ = Occupancies::new();
    for word in words {
        match occupancy(*word) {
            Some(occupancy) => occ.push(occupancy),
            None => return None,
        }
    }
    Some(occ)
}

/// Takes the report of an ONU for the map of a frame: an occupancy for each of its structures in that map, in order, in
/// words of 4 bytes, or `GARBLED`. Returns 0, or the first of: `ONU_RANGE` for an ONU-ID above 1022, `BAD_COUNT` for more than 16
/// occupancies, `BAD_OCCUPANCY`, `CLOSED`, and the refusal of the event.
#[unsafe(no_mangle)]
pub extern "C" fn sez_report(
    alloc: Global,
    port: &mut PortHandle,
    frame: u64,
    onu: u16,
    words: &[u32],
) -> u32
    ensures ok { result ≡ 0 → Between (Took (reports frame onu words.now))
        port.old.owned.port port.new.owned.port }
    ensures err { result ≢ 0 → port.new.owned.port ≡ port.old.owned.port }
    ensures onu { (onu ≤ MAX_ONU_ID → ⊥) → result ≡ ONU_RANGE }
    ensures count { onu ≤ MAX_ONU_ID → MAX_SERIES < length words.now → result ≡ BAD_COUNT }
    ensures words { onu ≤ MAX_ONU_ID → length words.now ≤ MAX_SERIES
        → (AreWords words.now → ⊥) → result ≡ BAD_OCCUPANCY }
    ensures event { onu ≤ MAX_ONU_ID → length words.now ≤ MAX_SERIES → AreWords words.now
        → TellsWhy (reports frame onu words.now) port.old.owned.port result }
{
    let Some(onu) = OnuId::new(onu) else {
        return ONU_RANGE;
    };
    if words.len() > MAX_SERIES {
        return BAD_COUNT;
    }
    let Some(occ) = occupancies(words) else {
        return BAD_OCCUPANCY;
    };
    let frame = FrameNo::new(frame);
    step(alloc, port, Event::Report { frame, onu, occ })
}

/// Fails the line of a port. Returns 0, or the first of: `BAD_CAUSE` for a cause outside 1 to 9, `CLOSED`, and the
/// refusal of the event.
#[unsafe(no_mangle)]
pub extern "C" fn sez_fail(alloc: Global, port: &mut PortHandle, cause: u8) -> u32
    ensures ok { result ≡ 0 → Between (Took (Event.Fail cause))
        port.old.owned.port port.new.owned.port }
    ensures err { result ≢ 0 → port.new.owned.port ≡ port.old.owned.port }
    ensures cause { (IsCause cause → ⊥) → result ≡ BAD_CAUSE }
    ensures event { IsCause cause → TellsWhy (Event.Fail cause) port.old.owned.port result }
{
    match Cause::new(cause) {
        Some(cause) => step(alloc, port, Event::Fail { cause }),
        None => BAD_CAUSE,
    }
}

/// Restores the line of a port. Returns 0, or the first of `CLOSED` and the refusal of the event.
#[unsafe(no_mangle)]
pub extern "C" fn sez_restore(alloc: Global, port: &mut PortHandle) -> u32
    ensures ok { result ≡ 0 → Between (Took Event.Restore)
        port.old.owned.port port.new.owned.port }
    ensures err { result ≢ 0 → port.new.owned.port ≡ port.old.owned.port }
    ensures event { TellsWhy Event.Restore port.old.owned.port result }
{
    step(alloc, port, Event::Restore)
}
