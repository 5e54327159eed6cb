ghost use Rattle.std.specs.Prelude.{◌≡◌, IsSome, Some, None};
ghost use Rattle.std.specs.declared.option.Option.{Option};
ghost use Rattle.pon_history.specs.Chapters.{Chapter};
ghost use Rattle.pon_c.specs.OwnedChapters.{chapter_coded, chapter_owns};

use super::parts::Parts;
use crate::turned::Turned;
use std::alloc::Global;
use std::marker::Model;
use std::ptr::null_mut;

/// A chapter behind a pointer, or nothing behind null.
///
/// In contracts `chapter` is the chapter, or `None` at null.
#[repr(C)]
#[derive(Drop)]
pub struct OwnedChapter {
    // A `*mut Turned`; C sees no other type.
    ptr: *mut u8,
    alloc: Global,
    pub ghost chapter: { Option (Option Chapter) } by { chapter_coded },
}

impl Model for OwnedChapter {
    ghost also_owns = { λ h. chapter_owns h.alloc h.ptr h.chapter };
}

impl OwnedChapter {
    /// Nothing.
    pub(crate) fn closed(alloc: Global) -> OwnedChapter
        ensures { result.chapter ≡ None }
    {
        OwnedChapter {
            ptr: null_mut(),
            alloc,
        }
    }

    fn of_parts(parts: Parts<Turned, Global>) -> OwnedChapter
        ensures { result.chapter ≡ Some parts.value }
    {
        let Parts { ptr, alloc } = parts;
        OwnedChapter {
            ptr: ptr as *mut u8,
            alloc,
        }
    }

    fn into_parts(self) -> Parts<Turned, Global>
        requires { IsSome self.chapter }
        ensures { self.chapter ≡ Some result.value }
    {
        let OwnedChapter { ptr, alloc } = self;
        Parts {
            ptr: ptr as *mut Turned,
            alloc,
        }
    }

    /// Owns what the box owned.
    pub(crate) fn of(chapter: Box<Turned, Global>) -> OwnedChapter
        ensures { result.chapter ≡ Some chapter.value }
    {
        OwnedChapter::of_parts(Parts::of(chapter))
    }

    /// Returns the box of the chapter. There is one.
    pub(crate) fn into_box(self) -> Box<Turned, Global>
        requires { IsSome self.chapter }
        ensures { self.chapter ≡ Some result.value }
    {
        self.into_parts().into_box()
    }
}

// It may go to another thread, as a box of a chapter may.
unsafe impl Send for OwnedChapter {}
