//! Devices that a recording goes on in, one after another.

ghost use Rattle.std.specs.Prelude.{◌≡◌, ℕ, IfSome, OnOk, Option, is_ok, true};
ghost use Rattle.pon_device.specs.Device.{IsAtEnd};

use crate::held::Held;
use pon_device::{DevWrite, DeviceFault};
use std::alloc::Global;

/// A device of a recording that may go on in another device between two chapters, as another recording.
pub trait NextDevice<R>: DevWrite {
    /// The number of maps of one port after which the recording goes on in the next device, if there is one.
    ghost most: { Self → Option ℕ };

    /// The number of maps of one port after which the recording goes on in the next device. `None` if it never does.
    fn most_maps(&self) -> Option<u64>
        ensures { result ≡ most self.now };

    /// Makes the next device, which has no byte yet, while this one has these whole chapters. `None` if there is to be
    /// none, or none can be made now.
    fn open_next(&self, rt: &R, alloc: Global, held: Held) -> Option<Self>
        ensures { IfSome result (λ next. IsAtEnd (Self.DevWrite.contents next)) };

    /// Ends this device, in which the recording ended so, with these whole chapters. What follows them may be cut off.
    ///
    /// # Errors
    ///
    /// The fault of the recording, and `Write` if the device cannot be ended well.
    fn close(
        self,
        rt: &R,
        alloc: Global,
        held: Held,
        recorded: Result<(), DeviceFault>,
    ) -> Result<(), DeviceFault>
        ensures { OnOk result (is_ok recorded ≡ true) };
}
