ghost use Rattle.std.specs.Prelude.{◌≡◌, is_some, MatchOption, Some, None};

use crate::owned::chapter::OwnedChapter;
use crate::turned::Turned;
use std::alloc::Global;
use std::mem;

/// A chapter as C holds it: closed, all bytes 0, until a port is turned into it.
///
/// In contracts `owned.chapter` is the chapter, or `None` if the handle is closed.
#[repr(C)]
#[derive(Drop)]
pub struct ChapterHandle {
    pub(crate) owned: OwnedChapter,
    is_open: bool,
    ghost tied: { is_open ≡ is_some owned.chapter },
}

impl ChapterHandle {
    // A closed handle.
    fn closed(alloc: Global) -> ChapterHandle
        ensures { result.owned.chapter ≡ None }
    {
        ChapterHandle {
            owned: OwnedChapter::closed(alloc),
            is_open: false,
        }
    }

    /// Makes the handle of a chapter.
    pub(crate) fn of(chapter: Box<Turned, Global>) -> ChapterHandle
        ensures { result.owned.chapter ≡ Some chapter.value }
    {
        ChapterHandle {
            owned: OwnedChapter::of(chapter),
            is_open: true,
        }
    }

    /// Returns whether the handle has a chapter.
    pub(crate) fn is_open(&self) -> bool
        ensures { result ≡ is_some self.now.owned.chapter }
    {
        self.is_open
    }

    /// Takes the chapter out of the handle, which is closed then. `None` if it was closed.
    pub(crate) fn take(&mut self, alloc: Global) -> Option<Box<Turned, Global>>
        ensures chapter { MatchOption result (self.old.owned.chapter ≡ None)
            (λ chapter. self.old.owned.chapter ≡ Some chapter.value) }
        ensures closed { self.new.owned.chapter ≡ None }
    {
        let ChapterHandle { owned, is_open } = mem::replace(self, ChapterHandle::closed(alloc));
        if is_open {
            Some(owned.into_box())
        } else {
            None
        }
    }
}
