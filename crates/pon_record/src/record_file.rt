ghost use Rattle.std.specs.Prelude.{◌≡◌, ◌≢◌, ◌↔◌, [], Err, IfOk, OnErr, OnOk};
ghost use Rattle.pon_device.specs.Device.{CountsFailure};
ghost use Rattle.pon_record.specs.Chapters.{chapter_bytes};
ghost use Rattle.pon_record.specs.declared.version.Version.{Version};
ghost use Rattle.pon_record.specs.Bodies.{chapter_body};
ghost use Rattle.pon_record.specs.declared.record_fault.RecordFault.TheVariants.{Busy};

use crate::pending::Pending;
use crate::record_fault::RecordFault;
use crate::version::Version;
use crate::writing::chapters::chapter_bytes;
use pon_device::{DevWrite, Failed};
use pon_history::Chapter;
use pon_units::PortNo;
use std::alloc::{AllocError, Global};
use std::marker::Model;

/// A recording being written to a device. Contracts see it as the device and the bytes that it has not taken yet.
#[derive(Drop)]
pub struct RecordFile<W> {
    alloc: Global,
    writer: W,
    pending: Pending,
}

impl<W> Model for RecordFile<W> {
    ghost use Rattle.pon_record.specs.Recorders.{Recorder};

    ghost Value = { Recorder W };

    ghost view = { λ f. record { device = f.writer; left = f.pending } };
}

impl<W: DevWrite + Drop> RecordFile<W> {
    ghost use Rattle.pon_record.specs.Recorders.{CountsDevice, CountsOpening, GoesOut, Grows, IsTaken, Records, Stays};

    /// Begins a recording of version two: tries once to write the magic bytes to the device. If the device fails, the
    /// bytes that it did not take are left.
    ///
    /// # Errors
    ///
    /// `AllocError` only if memory is refused.
    pub fn open(alloc: Global, writer: W) -> Result<RecordFile<W>, AllocError>
        ensures recorded { IfOk result (λ file.
            Records (W.contents writer) (W.contents file.device) file.left []) }
        ensures failures { IfOk result (λ file.
            CountsOpening (W.failures writer) (W.failures file.device) file.left) }
    {
        let mut writer = writer;
        let mut pending = Pending::new(Vec::from_slice(alloc, &Version::Two.magic())?);
        let _ = pending.push(&mut writer);
        Ok(RecordFile {
            alloc,
            writer,
            pending,
        })
    }

    /// Appends a chapter of a port. After `Ok` nothing is left.
    ///
    /// # Errors
    ///
    /// `Busy` exactly when bytes from earlier calls are left, and `Memory` if memory is refused; neither changes
    /// anything. `Device` exactly when the device failed in this call: the chapter is taken, and the bytes of it that
    /// were not written are left.
    pub fn append(&mut self, port: PortNo, chapter: &Chapter) -> Result<(), RecordFault>
        ensures ok { OnOk result (self.new.left ≡ []) }
        ensures taken { IsTaken result → Grows (W.contents self.old.device) self.old.left
            (W.contents self.new.device) self.new.left (chapter_body port chapter.now) }
        ensures unchanged { (IsTaken result → ⊥) → self.new ≡ self.old }
        ensures busy { (result ≡ Err Busy) ↔ (self.old.left ≢ []) }
        ensures failures { CountsDevice (W.failures self.old.device)
            (W.failures self.new.device) result }
    {
        if !self.left().is_empty() {
            return Err(RecordFault::Busy);
        }
        let bytes = self.chapter_bytes(port, chapter)?;
        match self.write_next(bytes) {
            Ok(()) => Ok(()),
            Err(_) => Err(RecordFault::Device),
        }
    }

    /// Returns the bytes of a chapter of a port in the recording.
    ///
    /// # Errors
    ///
    /// `AllocError` only if memory is refused.
    pub fn chapter_bytes(&self, port: PortNo, chapter: &Chapter) -> Result<Vec<u8>, AllocError>
        ensures { IfOk result (λ bytes. bytes.items
            ≡ chapter_bytes Version.Two (chapter_body port chapter.now)) }
    {
        chapter_bytes(self.alloc, port, chapter)
    }

    /// Writes the next bytes of a recording of which nothing is left.
    ///
    /// # Errors
    ///
    /// `Failed` exactly when the device failed in this call; the bytes that it had not taken by then are left.
    pub fn write_next(&mut self, bytes: Vec<u8>) -> Result<(), Failed>
        requires { self.old.left ≡ [] }
        ensures sent { GoesOut (W.contents self.old.device) (W.contents self.new.device)
            self.new.left bytes.items }
        ensures ok { OnOk result (self.new.left ≡ []) }
        ensures err { OnErr result (self.new.left ≢ []) }
        ensures failures { CountsFailure (W.failures self.old.device)
            (W.failures self.new.device) result }
    {
        self.pending = Pending::new(bytes);
        self.pending.push(&mut self.writer)
    }

    /// Writes what is left, and then flushes the device.
    ///
    /// # Errors
    ///
    /// `Failed` exactly when the device failed in this call; the bytes that it had not taken by then are left.
    pub fn flush(&mut self) -> Result<(), Failed>
        ensures ok { OnOk result (self.new.left ≡ []) }
        ensures recorded { Stays (W.contents self.old.device) self.old.left
            (W.contents self.new.device) self.new.left }
        ensures failures { CountsFailure (W.failures self.old.device)
            (W.failures self.new.device) result }
    {
        self.pending.push(&mut self.writer)?;
        self.writer.flush()
    }

    /// Returns the bytes that the device has not taken yet, in order.
    pub fn left(&self) -> &[u8]
        ensures { result.now ≡ self.now.left }
    {
        self.pending.left()
    }

    /// Returns the device.
    pub fn writer(&self) -> &W
        ensures { result.now ≡ self.now.device }
    {
        &self.writer
    }

    /// Ends the recording: returns the device, and drops what it has not taken.
    pub fn into_writer(self) -> W
        ensures { result ≡ self.device }
    {
        self.writer
    }
}
