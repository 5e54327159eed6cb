ghost use Rattle.std.specs.Option.{ForSome};
ghost use Rattle.pon_ring.specs.Passing.{PassesTo};

use crate::rings::Rings;
use pon_ring::{Rest, Sink};
use pon_units::PortNo;
use std::marker::PhantomData;

/// The sink of a port, which passes the port's chapters to the ring of the port, or nowhere.
#[derive(Drop)]
pub struct PortSink<K: Rings> {
    /// The number of the port.
    pub port: PortNo,
    /// The sink that the worker of the port passes the chapters to.
    pub sink: Sink,
    of: PhantomData<K>,
    ghost ends: { ForSome (K.ring port) (λ o. PassesTo sink o) },
}

impl<K: Rings> PortSink<K> {
    ghost use Rattle.std.specs.Prelude.{◌≡◌, IfSome};
    ghost use Rattle.pon_ring.specs.Rings.{AreEnds};

    pub(crate) fn new(port: PortNo, sink: Sink) -> Self
        requires { ForSome (K.ring port) (λ o. PassesTo sink o) }
        ensures port { result.port ≡ port }
        ensures sink { result.sink ≡ sink }
    {
        let of = PhantomData;
        PortSink { port, sink, of }
    }

    /// Takes the sink apart. `None` if it has no ring.
    pub(crate) fn into_rest(self) -> Option<Rest>
        ensures { IfSome result (λ rest. ForSome (K.ring self.port) (λ o. AreEnds rest.ring o)) }
    {
        let PortSink { sink, .. } = self;
        sink.into_rest()
    }
}
