// How a worker reads the record of a burst.
ghost use Rattle.std.specs.Prelude.{◌≡◌, ◌+◌, ◌%◌, ◌^◌, ◌<◌, ℕ, List, IfOk, IfErr, OnOk, length};
ghost use Rattle.pon_device.specs.Device.{Consumes, Keeps};
ghost use Rattle.pon_link.specs.Reading.{empty, holds_more, IsOpen};
ghost use Rattle.pon_link.specs.UpRecords.{IsRecord};
ghost use Rattle.pon_worker.specs.Records.{StopsFor};

use crate::causes::{BAD_RECORD, INPUT_ENDED, READ_FAILED, cause_of};
use crate::sending::MAX_TRIES;
use pon_descr::Cause;
use pon_device::DevRead;
use pon_link::{Direction, PullFault, Pulled, UpReader, UpRecord};

// Reads at least one byte, in one call, or in up to three if the device fails. Otherwise returns the cause: the device failed
// each time, or the input ended.
fn pull<R: DevRead>(up: &mut UpReader, reader: &mut R) -> Result<(), Cause>
    requires up { up.old.direction ≡ Direction.Up }
    requires open { IsOpen up.old }
    ensures ok { OnOk result ((bytes : List ℕ) × (up.new ≡ holds_more up.old bytes)
        × Consumes (R.remaining reader.old) (R.remaining reader.new) bytes × (0 < length bytes)) }
    ensures err { IfErr result (λ cause. StopsFor cause up.new (R.remaining reader.new)
        × (up.new.held ≡ up.old.held)
        × Keeps (R.remaining reader.old) (R.remaining reader.new)) }
    ensures failures { IfErr result (λ cause. cause ≡ READ_FAILED
        → R.failures reader.new ≡ (R.failures reader.old + MAX_TRIES) % 2 ^ 64) }
{
    for _try in 0..MAX_TRIES {
        match up.pull(reader) {
            Ok(Pulled::Bytes(_)) => return Ok(()),
            Ok(Pulled::End) => return Err(cause_of(INPUT_ENDED)),
            Err(PullFault::Link(_)) => return Err(cause_of(INPUT_ENDED)),
            Err(PullFault::Device) => {}
        }
    }
    Err(cause_of(READ_FAILED))
}

// Reads the next record. Otherwise returns the cause; the bytes read of a record are held.
pub(crate) fn receive<R: DevRead>(up: &mut UpReader, reader: &mut R) -> Result<UpRecord, Cause>
    requires { up.old ≡ empty Direction.Up }
    ensures empty { OnOk result (up.new ≡ empty Direction.Up) }
    ensures ok { IfOk result (λ burst. (bytes : List ℕ) × IsRecord bytes burst
        × Consumes (R.remaining reader.old) (R.remaining reader.new) bytes) }
    ensures err { IfErr result (λ cause. StopsFor cause up.new (R.remaining reader.new)
        × Consumes (R.remaining reader.old) (R.remaining reader.new) up.new.held) }
{
    loop {
        match up.next() {
            Ok(Some(record)) => return Ok(record),
            Ok(None) => match pull(up, reader) {
                Ok(()) => {}
                Err(cause) => return Err(cause),
            },
            Err(_) => return Err(cause_of(BAD_RECORD)),
        }
    }
}
