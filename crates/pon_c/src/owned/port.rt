ghost use Rattle.std.specs.Prelude.{◌≡◌, IsSome, Some, None};
ghost use Rattle.std.specs.declared.option.Option.{Option};
ghost use Rattle.pon_history.specs.Chapters.{Chapter};
ghost use Rattle.pon_c.specs.Owned.{port_coded, port_owns};

use super::parts::Parts;
use pon_port::Port;
use std::alloc::Global;
use std::marker::Model;
use std::ptr::null_mut;

/// A port behind a pointer, or nothing behind null.
///
/// In contracts `port` is the kept chapter of the port, or `None` at null.
#[repr(C)]
#[derive(Drop)]
pub struct OwnedPort {
    // A `*mut Port`; C sees no other type.
    ptr: *mut u8,
    alloc: Global,
    pub ghost port: { Option Chapter } by { port_coded },
}

impl Model for OwnedPort {
    ghost also_owns = { λ h. port_owns h.alloc h.ptr h.port };
}

impl OwnedPort {
    /// Nothing.
    pub(crate) fn closed(alloc: Global) -> OwnedPort
        ensures { result.port ≡ None }
    {
        OwnedPort {
            ptr: null_mut(),
            alloc,
        }
    }

    fn of_parts(parts: Parts<Port, Global>) -> OwnedPort
        ensures { result.port ≡ Some parts.value }
    {
        let Parts { ptr, alloc } = parts;
        OwnedPort {
            ptr: ptr as *mut u8,
            alloc,
        }
    }

    fn into_parts(self) -> Parts<Port, Global>
        requires { IsSome self.port }
        ensures { self.port ≡ Some result.value }
    {
        let OwnedPort { ptr, alloc } = self;
        Parts {
            ptr: ptr as *mut Port,
            alloc,
        }
    }

    /// Owns what the box owned.
    pub(crate) fn of(port: Box<Port, Global>) -> OwnedPort
        ensures { result.port ≡ Some port.value }
    {
        OwnedPort::of_parts(Parts::of(port))
    }

    /// Returns the box of the port. There is a port.
    pub(crate) fn into_box(self) -> Box<Port, Global>
        requires { IsSome self.port }
        ensures { self.port ≡ Some result.value }
    {
        self.into_parts().into_box()
    }
}

// It may go to another thread, as a box of a port may.
unsafe impl Send for OwnedPort {}
