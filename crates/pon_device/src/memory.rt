// A reader and a writer over memory, whose contracts give their bytes. The calls that fail are chosen when the device
// is made.
ghost use Rattle.std.specs.Prelude.{◌≡◌, ◌<◌, ◌≤◌, ◌↔◌, ◌⊎◌, Some, [], length, min, IfOk, IsErr, Contains};
ghost use Rattle.pon_device.specs.Device.{CountsCall, CountsFailure, ReadConsumes, WriteAppends, Keeps};
ghost use Rattle.pon_device.specs.Memory.{LacksRoom};

use crate::traits::{DevRead, DevWrite, Failed, fail};
use std::alloc::Global;
use std::marker::Model;

/// A reader over bytes in memory. Its calls are numbered from 0.
#[derive(Drop)]
pub struct MemRead {
    bytes: Vec<u8>,
    at: usize,
    most: usize,
    failing: Vec<u64>,
    made: u64,
    failed: u64,
}

impl Model for MemRead {
    ghost use Rattle.std.specs.Prelude.{◌<◌, ◌≤◌, length, drop};
    ghost use Rattle.pon_device.specs.Memory.{ReadMemory};

    ghost Value = { ReadMemory };

    ghost view = { λ s. record {
      left = drop s.at s.bytes.items;
      most = s.most;
      failing = s.failing.items;
      calls = s.made;
      failures = s.failed;
    } };

    ghost invariant = { λ s. (s.at ≤ length s.bytes.items) × (0 < s.most) };
}

impl MemRead {
    /// Makes a reader of the bytes that reads at most `most` in a call, and fails in the calls with the numbers in
    /// `failing`.
    pub fn new(bytes: Vec<u8>, most: usize, failing: Vec<u64>) -> MemRead
        requires { 0 < most }
        ensures { result ≡ record {
          left = bytes.items;
          most = most;
          failing = failing.items;
          calls = 0;
          failures = 0;
        } }
    {
        MemRead {
            bytes,
            at: 0,
            most,
            failing,
            made: 0,
            failed: 0,
        }
    }
}

impl DevRead for MemRead {
    ghost calls = { λ s. s.calls };

    ghost failures = { λ s. s.failures };

    ghost remaining = { λ s. Some s.left };

    /// Fails in the chosen calls, and in no other. Every other call reads as many bytes as remain, fit `buf` and are
    /// allowed in a call.
    fn read(&mut self, buf: &mut [u8]) -> Result<usize, Failed>
        ensures count { IfOk result (λ n. n ≤ length buf.old) }
        ensures calls { CountsCall self.old.calls self.new.calls }
        ensures failures { CountsFailure self.old.failures self.new.failures result }
        ensures bytes { ReadConsumes (Some self.old.left) (Some self.new.left) result buf.new }
        ensures failing { IsErr result ↔ Contains self.old.failing self.old.calls }
        ensures given { IfOk result (λ n. n ≡ min (min self.old.most (length buf.old))
            (length self.old.left)) }
        ensures orders { (self.new.most ≡ self.old.most) × (self.new.failing ≡ self.old.failing) }
    {
        let call = self.made;
        self.made = self.made.wrapping_add(1);
        if self.failing.contains(&call) {
            return Err(fail(&mut self.failed));
        }
        let n = self.most.min(buf.len()).min(self.bytes.len() - self.at);
        buf[..n].copy_from_slice(&self.bytes[self.at..self.at + n]);
        self.at += n;
        Ok(n)
    }
}

/// A writer into memory. Its calls are numbered from 0, those of `write` and of `flush` together.
#[derive(Drop)]
pub struct MemWrite {
    bytes: Vec<u8>,
    most: usize,
    failing: Vec<u64>,
    made: u64,
    failed: u64,
}

impl Model for MemWrite {
    ghost use Rattle.std.specs.Prelude.{◌<◌, vec_capacity};
    ghost use Rattle.pon_device.specs.Memory.{WriteMemory};

    ghost Value = { WriteMemory };

    ghost view = { λ s. record {
      taken = s.bytes.items;
      room = vec_capacity s.bytes;
      most = s.most;
      failing = s.failing.items;
      calls = s.made;
      failures = s.failed;
    } };

    ghost invariant = { λ s. 0 < s.most };
}

impl MemWrite {
    /// Makes a writer that writes at most `most` bytes in a call, and fails in the calls with the numbers in `failing`.
    pub fn new(alloc: Global, most: usize, failing: Vec<u64>) -> MemWrite
        requires { 0 < most }
        ensures taken { result.taken ≡ [] }
        ensures orders { (result.most ≡ most) × (result.failing ≡ failing.items) }
        ensures counts { (result.calls ≡ 0) × (result.failures ≡ 0) }
    {
        MemWrite {
            bytes: Vec::new(alloc),
            most,
            failing,
            made: 0,
            failed: 0,
        }
    }

    /// Bytes written so far.
    pub fn bytes(&self) -> &[u8]
        ensures { result.now ≡ self.now.taken }
    {
        self.bytes.as_slice()
    }
}

impl DevWrite for MemWrite {
    ghost failures = { λ s. s.failures };

    ghost contents = { λ s. Some s.taken };

    /// Fails in the chosen calls, and if it lacks room and memory is refused. Every other call writes as many bytes as
    /// are given and are allowed in a call.
    fn write(&mut self, buf: &[u8]) -> Result<usize, Failed>
        ensures count { IfOk result (λ n. n ≤ length buf.now) }
        ensures some { IfOk result (λ n. 0 < length buf.now → 0 < n) }
        ensures failures { CountsFailure self.old.failures self.new.failures result }
        ensures bytes { WriteAppends (Some self.old.taken) (Some self.new.taken) result buf.now }
        ensures calls { CountsCall self.old.calls self.new.calls }
        ensures failing { Contains self.old.failing self.old.calls → IsErr result }
        ensures refused { IsErr result → Contains self.old.failing self.old.calls
            ⊎ LacksRoom self.old (length buf.now) }
        ensures given { IfOk result (λ n. n ≡ min self.old.most (length buf.now)) }
        ensures room { self.old.room ≤ self.new.room }
        ensures orders { (self.new.most ≡ self.old.most) × (self.new.failing ≡ self.old.failing) }
    {
        let call = self.made;
        self.made = self.made.wrapping_add(1);
        let n = self.most.min(buf.len());
        if self.failing.contains(&call) || self.bytes.extend_from_slice(&buf[..n]).is_err() {
            return Err(fail(&mut self.failed));
        }
        Ok(n)
    }

    /// Fails in the chosen calls, and in no other.
    fn flush(&mut self) -> Result<(), Failed>
        ensures failures { CountsFailure self.old.failures self.new.failures result }
        ensures bytes { Keeps (Some self.old.taken) (Some self.new.taken) }
        ensures room { self.new.room ≡ self.old.room }
        ensures calls { CountsCall self.old.calls self.new.calls }
        ensures failing { IsErr result ↔ Contains self.old.failing self.old.calls }
        ensures orders { (self.new.most ≡ self.old.most) × (self.new.failing ≡ self.old.failing) }
    {
        let call = self.made;
        self.made = self.made.wrapping_add(1);
        if self.failing.contains(&call) {
            return Err(fail(&mut self.failed));
        }
        Ok(())
    }
}
