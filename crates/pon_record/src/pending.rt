//! Bytes to be written to a device.

ghost use Rattle.std.specs.Prelude.{◌≡◌, ◌≢◌, ◌≤◌, [], OnErr, OnOk, drop, length};
ghost use Rattle.pon_device.specs.Device.{CountsFailure};

use pon_device::{DevWrite, Failed};
use std::marker::Model;

/// Bytes of which a prefix has been written. Contracts see it as the list of the bytes that are left.
#[derive(Drop)]
pub(crate) struct Pending {
    bytes: Vec<u8>,
    sent: usize,
}

impl Model for Pending {
    ghost use Rattle.std.specs.Prelude.{◌≤◌, ℕ, List, drop, length};

    ghost Value = { List ℕ };

    ghost view = { λ p. drop p.sent p.bytes.items };

    ghost invariant = { λ p. p.sent ≤ length p.bytes.items };
}

impl Pending {
    ghost use Rattle.pon_record.specs.Recorders.{GoesOut};

    /// Wraps bytes of which none has been written.
    pub(crate) fn new(bytes: Vec<u8>) -> Pending
        ensures { result ≡ bytes.items }
    {
        Pending { bytes, sent: 0 }
    }

    /// Returns the bytes that have not been written, in order.
    pub(crate) fn left(&self) -> &[u8]
        ensures { result.now ≡ self.now }
    {
        &self.bytes[self.sent..]
    }

    // Marks the first `n` of the bytes that are left as written.
    fn went_out(&mut self, n: usize)
        requires { n ≤ length self.old }
        ensures { self.new ≡ drop n self.old }
    {
        self.sent += n;
    }

    /// Writes what is left, in as many calls as the device needs. `Failed` if the device failed in this call; the bytes
    /// that it had not taken by then are left.
    pub(crate) fn push<W: DevWrite>(&mut self, writer: &mut W) -> Result<(), Failed>
        ensures sent { GoesOut (W.contents writer.old) (W.contents writer.new) self.new self.old }
        ensures ok { OnOk result (self.new ≡ []) }
        ensures err { OnErr result (self.new ≢ []) }
        ensures failures { CountsFailure (W.failures writer.old) (W.failures writer.new) result }
    {
        while !self.left().is_empty() {
            match writer.write(self.left()) {
                Ok(n) => self.went_out(n),
                Err(failed) => return Err(failed),
            }
        }
        Ok(())
    }
}
