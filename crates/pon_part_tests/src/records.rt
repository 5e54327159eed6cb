// The records of a link, and the simulated ONUs that answer them.
ghost use Rattle.std.specs.Prelude.{◌<◌};

mod down;
mod unit;
mod up;
mod writer;

use pon_device::MemRead;
use std::alloc::Global;

// Makes a device that gives at most `most` of the bytes in a call, and fails in the call `failing`; `None` if memory is
// refused.
fn device(alloc: Global, bytes: &[u8], most: usize, failing: u64) -> Option<MemRead>
    requires { 0 < most }
{
    let failures = vec![in alloc; failing].ok()?;
    let bytes = bytes.to_vec(alloc).ok()?;
    Some(MemRead::new(bytes, most, failures))
}

// A call that no test makes: a device that fails in it does not fail.
const NEVER: u64 = 99;
