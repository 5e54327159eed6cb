//! The rings of a run: one for each port, if there is a recorder.

ghost use Rattle.std.specs.Prelude.{◌≡◌, ℕ, [], IfOk, None, Option};
ghost use Rattle.std.proofs.Props.{props};
ghost use Rattle.std.specs.Option.{ForSome};
ghost use Rattle.std.specs.Vec.{vec_len};
ghost use Rattle.pon_ring.specs.Passing.{PassesTo};
ghost use Rattle.pon_ring.specs.Rings.{received_chapters};
ghost use Rattle.pon_ring.specs.declared.ring_out.RingOut.{RingOut};

use crate::recorder::Recorder;
use pon_ring::{RingOut, Sink, ring};
use std::alloc::{AllocError, Global};
use std::marker::Brand;

/// Number of entries after which a worker passes the chapter of its port to the recorder.
const CUT: u32 = 4_096;

/// Names the ring of each port by its recorder's end, as it was made. What belongs to a run has it as a parameter, so
/// that the two ends of a ring are known to belong together after the threads have ended.
pub trait Rings {
    ghost ring: { ℕ → Option RingOut };
}

impl Rings for Brand {
    ghost ring = { λ port. None };
}

/// Where the chapters of one port go: the sink of its worker, and the recorder's end of the sink's ring, if there is
/// one.
#[derive(Drop)]
pub struct PortRing {
    pub(crate) sink: Sink,
    pub(crate) out: Option<RingOut>,
    ghost ends: { ForSome out (λ o. PassesTo sink o) },
    ghost none_received: { ForSome out (λ o. received_chapters o ≡ []) } by { Prim.hlevel props },
}

impl PortRing {
    // Makes a ring, and a sink over it.
    fn open(alloc: Global) -> Result<Self, AllocError> {
        let (sent, received) = ring(alloc)?;
        let sink = Sink::ring(sent, CUT);
        let out = Some(received);
        Ok(PortRing { sink, out })
    }

    // Makes a sink that passes nothing on.
    fn none() -> Self {
        let sink = Sink::none();
        let out = None;
        PortRing { sink, out }
    }
}

/// Makes a ring for each of this number of ports if there is a recorder, and otherwise sinks that pass nothing on.
///
/// # Errors
///
/// `AllocError` only if memory is refused.
pub fn open_rings<W>(
    alloc: Global,
    ports: usize,
    recorder: &Option<Recorder<W>>,
) -> Result<Vec<PortRing>, AllocError>
    ensures { IfOk result (λ rings. vec_len rings ≡ ports) }
{
    let mut rings = Vec::with_capacity(alloc, ports)?;
    for _port in 0..ports {
        let ring = match recorder {
            None => PortRing::none(),
            Some(_) => PortRing::open(alloc)?,
        };
        rings.push(ring)?;
    }
    Ok(rings)
}
