//! The text of management lines and check files: lines, words separated by blanks, decimal numbers and separators; and
//! sessions, in which each line of an input is answered.
//!
//! Nothing is copied and no memory is allocated: a line or a word is a slice of its text. The texts are bytes, not
//! necessarily ASCII or UTF-8. What a session writes is a stated relation of what it reads ([`answer_input`]), over any
//! reader and writer and any value that answers lines ([`Answers`]); the crates above define what a line means.
#![tactic(auto)]

mod answers;
mod cuts;
mod lines;
mod numbers;
mod session;
mod words;

pub use answers::Answers;
pub use cuts::{cut, follows};
pub use lines::without_return;
pub use numbers::{MAX_DIGITS, number_of};
pub use session::{PlanEnd, answer_input};
pub use words::{Word, count_words, first_word};
