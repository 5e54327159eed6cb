ghost use Rattle.std.specs.Prelude.{◌≡◌, ◌≤◌};
ghost use Rattle.pon_descr.specs.Descriptor.{promised};
ghost use Rattle.pon_guar.specs.Rates.{cap, guaranteed};

use pon_descr::Descriptor;
use pon_units::{Kbps, LINE_RATE};

/// Computes the guaranteed rate of a descriptor under a load, both in kbit/s: the fixed rate always, the assured rate
/// as far as the load requires it (ITU-T G.987.3, reference model). At most the promised rate.
pub fn guaranteed(descriptor: &Descriptor, load: Kbps) -> Kbps
    ensures rate { result ≡ guaranteed descriptor.now load }
    ensures within { result ≤ promised descriptor.now }
{
    let wanted = load.max(descriptor.fixed());
    wanted.min(descriptor.promised())
}

/// Computes the greatest surplus, in kbit/s, that an Alloc-ID of this descriptor can use under a load: the greater of
/// load and fixed rate, at most the maximum rate, reduced by the guaranteed rate.
pub fn cap(descriptor: &Descriptor, load: Kbps) -> Kbps
    ensures rate { result ≡ cap descriptor.now load }
    ensures range { result ≤ LINE_RATE }
{
    prove!(descriptor.promised() <= descriptor.max());
    let most = load.max(descriptor.fixed()).min(descriptor.max());
    let rest = most.get() - guaranteed(descriptor, load).get();
    Kbps::new(rest).unwrap()
}
