//! The words of classes.

use pon_descr::Class;

/// The word of a class: `none`, `na` or `be`.
pub(crate) fn class_word(class: Class) -> &'static str {
    match class {
        Class::Plain => "none",
        Class::NonAssured => "na",
        Class::BestEffort => "be",
    }
}
