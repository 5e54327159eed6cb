ghost use Rattle.std.specs.Prelude.{◌≡◌, is_some, MatchOption, Some, None};

use crate::owned::port::OwnedPort;
use pon_port::Port;
use std::alloc::Global;
use std::mem;

/// A port as C holds it: closed, all bytes 0, until a port is opened in it.
///
/// In contracts `owned.port` is the kept chapter of the open port, or `None` if the handle is closed.
#[repr(C)]
#[derive(Drop)]
pub struct PortHandle {
    pub(crate) owned: OwnedPort,
    is_open: bool,
    ghost tied: { is_open ≡ is_some owned.port },
}

impl PortHandle {
    // A closed handle.
    fn closed(alloc: Global) -> PortHandle
        ensures { result.owned.port ≡ None }
    {
        PortHandle {
            owned: OwnedPort::closed(alloc),
            is_open: false,
        }
    }

    /// Makes the handle of an open port.
    pub(crate) fn of(port: Box<Port, Global>) -> PortHandle
        ensures { result.owned.port ≡ Some port.value }
    {
        PortHandle {
            owned: OwnedPort::of(port),
            is_open: true,
        }
    }

    /// Returns whether a port is open in the handle.
    pub(crate) fn is_open(&self) -> bool
        ensures { result ≡ is_some self.now.owned.port }
    {
        self.is_open
    }

    /// Takes the port out of the handle, which is closed then. `None` if it was closed.
    pub(crate) fn take(&mut self, alloc: Global) -> Option<Box<Port, Global>>
        ensures port { MatchOption result (self.old.owned.port ≡ None)
            (λ port. self.old.owned.port ≡ Some port.value) }
        ensures closed { self.new.owned.port ≡ None }
    {
        let PortHandle { owned, is_open } = mem::replace(self, PortHandle::closed(alloc));
        if is_open {
            Some(owned.into_box())
        } else {
            None
        }
    }
}
