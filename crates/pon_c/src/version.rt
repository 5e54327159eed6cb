// The versions of the library and of its interface.
ghost use Rattle.std.specs.Prelude.{◌≡◌};

use crate::numbers::{ABI, VERSION};

/// Returns the version of the library: 65,536 for each step of its first number, 256 of its second and 1 of its third.
#[unsafe(no_mangle)]
pub extern "C" fn sez_version() -> u32
    ensures { result ≡ VERSION }
{
    VERSION
}

/// Returns the version of the interface: a program and a library with the same number fit each other.
#[unsafe(no_mangle)]
pub extern "C" fn sez_abi() -> u32
    ensures { result ≡ ABI }
{
    ABI
}
