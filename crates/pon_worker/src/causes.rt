// The causes of a port's failure that a worker posts.
ghost use Rattle.std.specs.Prelude.{◌≡◌, ◌≤◌};

use pon_descr::Cause;

/// Reads failed.
pub(crate) const READ_FAILED: u8 = 2;

/// Writes failed.
pub(crate) const WRITE_FAILED: u8 = 3;

/// The bytes read are not a record.
pub(crate) const BAD_RECORD: u8 = 4;

/// The input ended.
pub(crate) const INPUT_ENDED: u8 = 5;

// Returns the cause with a number, 1 to 9.
pub(crate) fn cause_of(number: u8) -> Cause
    requires { (1 ≤ number) × (number ≤ 9) }
    ensures { result ≡ number }
{
    Cause::new(number).unwrap()
}
