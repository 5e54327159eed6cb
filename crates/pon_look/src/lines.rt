//! Events as management lines.

use crate::append::append_number;
use crate::words::class_word;
use pon_admit::Event;
use pon_dbru::Occupancies;
use pon_descr::Descriptor;
use pon_units::{FrameNo, OnuId};
use std::alloc::{AllocError, Global};
use std::fmt::{self, Display, Formatter, Write};

/// A descriptor as in a management line: fixed, assured and maximum rate, in kbit/s, and class.
#[derive(Clone, Copy)]
pub(crate) struct Rates<'a>(pub(crate) &'a Descriptor);

impl Display for Rates<'_> {
    fn fmt<W: Write>(&self, f: &mut Formatter<W>) -> fmt::Result {
        let (fixed, assured) = (self.0.fixed().get(), self.0.assured().get());
        let (max, class) = (self.0.max().get(), class_word(self.0.class()));
        write!(f, "{fixed} {assured} {max} {class}")
    }
}

// Appends a report as a management line without its port: its frame, its ONU, and its occupancies in words, `x` if garbled.
fn append_report(
    text: &mut Vec<u8>,
    frame: FrameNo,
    onu: OnuId,
    occ: &Occupancies,
) -> Result<(), AllocError> {
    text.extend_from_slice(b"report ")?;
    append_number(text, frame.get())?;
    text.extend_from_slice(b" ")?;
    append_number(text, u64::from(onu.get()))?;
    for occupancy in occ.as_slice() {
        text.extend_from_slice(b" ")?;
        match occupancy {
            Some(words) => append_number(text, u64::from(words.get()))?,
            None => text.extend_from_slice(b"x")?,
        }
    }
    Ok(())
}

// Makes the management line of an event that is no report, without its port.
fn event_text(alloc: Global, event: &Event) -> Result<String, AllocError> {
    match event {
        Event::Admit(row) => {
            let (onu, alloc_id) = (row.onu.get(), row.alloc_id.get());
            let rates = Rates(&row.descriptor);
            format!(in alloc; "admit {onu} {alloc_id} {rates}")
        }
        Event::Change {
            alloc_id,
            descriptor,
        } => {
            let (alloc_id, rates) = (alloc_id.get(), Rates(descriptor));
            format!(in alloc; "change {alloc_id} {rates}")
        }
        Event::Remove { alloc_id } => {
            let alloc_id = alloc_id.get();
            format!(in alloc; "remove {alloc_id}")
        }
        Event::Fail { cause } => {
            let cause = cause.get();
            format!(in alloc; "fail {cause}")
        }
        Event::Restore => format!(in alloc; "restore"),
        _ => format!(in alloc; "map"),
    }
}

/// Appends an event as a management line without its port. `Err` only if memory is refused.
pub(crate) fn append_event(text: &mut Vec<u8>, event: &Event) -> Result<(), AllocError> {
    match event {
        Event::Report { frame, onu, occ } => append_report(text, *frame, *onu, occ),
        _ => text.extend_from_slice(event_text(*text.allocator(), event)?.as_bytes()),
    }
}
