ghost use Rattle.std.specs.Prelude.{◌≡◌};
ghost use Rattle.pon_descr.specs.Classes.{class_of};

/// How an Alloc-ID shares surplus: not at all, in the non-assured class, or as best effort.
#[derive(Clone, Copy, Debug, PartialEq, Eq)]
pub enum Class {
    Plain,
    NonAssured,
    BestEffort,
}

impl Class {
    /// Parses the word of a class in settings and management lines: `none`, `na` or `be`. `None` for any other word.
    pub fn of_word(word: &[u8]) -> Option<Class>
        ensures { result ≡ class_of word.now }
    {
        if word == b"none".as_slice() {
            Some(Class::Plain)
        } else if word == b"na".as_slice() {
            Some(Class::NonAssured)
        } else if word == b"be".as_slice() {
            Some(Class::BestEffort)
        } else {
            None
        }
    }
}
