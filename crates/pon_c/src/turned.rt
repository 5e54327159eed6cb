ghost use Rattle.std.specs.Prelude.{◌≡◌, None, Some, MatchOption};

use pon_history::Chapter;
use std::marker::Model;

/// Room for a chapter that a port returns: memory for it is taken before the port turns. Contracts see the chapter, or
/// `None` before it is there.
#[derive(Drop)]
pub struct Turned {
    chapter: Option<Chapter>,
}

impl Model for Turned {
    ghost use Rattle.std.specs.declared.option.Option.{Option};
    ghost use Rattle.pon_history.specs.Chapters.{Chapter};

    ghost Value = { Option Chapter };

    ghost view = { λ t. t.chapter };
}

impl Turned {
    /// Room without a chapter.
    pub(crate) fn empty() -> Turned
        ensures { result ≡ None }
    {
        Turned { chapter: None }
    }

    /// Puts a chapter in.
    pub(crate) fn put(&mut self, chapter: Chapter)
        ensures { self.new ≡ Some chapter }
    {
        self.chapter = Some(chapter);
    }

    /// The chapter; `None` before it is there.
    pub(crate) fn chapter(&self) -> Option<&Chapter>
        ensures { MatchOption result (self.now ≡ None) (λ c. self.now ≡ Some c.now) }
    {
        match &self.chapter {
            None => None,
            Some(chapter) => Some(chapter),
        }
    }
}
