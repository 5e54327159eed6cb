//! The fields of a command: words that are numbers, identifiers and descriptors.

ghost use Rattle.std.specs.Prelude.{◌≡◌, ◌≤◌, ◌∷◌, [], MatchResult};
ghost use Rattle.std.specs.Option.{SomeIff};
ghost use Rattle.pon_text.specs.Lines.{words_of};
ghost use Rattle.pon_line.specs.Fields.{alloc_in, descriptor_in, descriptor_words, number_field, onu_in, or_bad_field, rate_fields, rate_in};
ghost use Rattle.pon_line.specs.Places.{of_line};
ghost use Rattle.pon_line.specs.Written.{rates_in, words_in};
ghost use Rattle.pon_descr.specs.Classes.{class_of};

use crate::fault::{LineFault, LineRefusal};
use crate::field::Field;
use pon_descr::{Class, Descriptor, Refusal};
use pon_text::{Word, first_word, number_of};
use pon_units::{AllocId, LINE_RATE, MAX_ALLOC_ID, MAX_ONU_ID, MIN_ALLOC_ID, OnuId};

/// The index of the first word after the command.
pub(crate) const FIRST: usize = 2;

/// The greatest index of the first rate of a command, that of `admit`.
pub(crate) const LAST_RATES: usize = FIRST + 2;

/// The words of a descriptor.
#[derive(Clone, Copy)]
pub(crate) struct DescriptorWords<'a> {
    pub(crate) fixed: &'a [u8],
    pub(crate) assured: &'a [u8],
    pub(crate) max: &'a [u8],
    pub(crate) class: &'a [u8],
}

/// The rates in kbit/s and the class that a line requests, not yet checked.
#[derive(Clone, Copy)]
pub(crate) struct Rates {
    pub(crate) fixed: u64,
    pub(crate) assured: u64,
    pub(crate) max: u64,
    pub(crate) class: Class,
}

/// Returns the next word, or `WordCount` if there is none.
pub(crate) fn next_word(text: &[u8]) -> Result<Word<'_>, LineRefusal>
    ensures { MatchResult result
        (λ next. words_of text.now ≡ next.word.now ∷ words_of next.rest.now)
        (λ refusal. (refusal ≡ of_line LineFault.WordCount) × (words_of text.now ≡ [])) }
{
    match first_word(text) {
        Some(word) => Ok(word),
        None => Err(LineRefusal::from(LineFault::WordCount)),
    }
}

/// Returns the number that the word at an index writes, or `BadField` if it writes none.
#[tactic(auto, unfolding(crate::specs::Fields::number_field))]
pub(crate) fn number_field(index: usize, field: Field, word: &[u8]) -> Result<u64, LineRefusal>
    ensures { result ≡ number_field index field word.now }
{
    match number_of(word) {
        Some(number) => Ok(number),
        None => Err(LineFault::BadField.at(index, field)),
    }
}

// Returns the class that the word at an index writes, or `BadField` if it writes none.
fn class_field(index: usize, word: &[u8]) -> Result<Class, LineRefusal>
    ensures { result ≡ or_bad_field index Field.Class (class_of word.now) }
{
    match Class::of_word(word) {
        Some(class) => Ok(class),
        None => Err(LineFault::BadField.at(index, Field::Class)),
    }
}

/// Returns the words of a descriptor, or `WordCount` unless the text has exactly four words.
#[tactic(auto, unfolding(crate::specs::Fields::descriptor_words))]
pub(crate) fn descriptor_words(text: &[u8]) -> Result<DescriptorWords<'_>, LineRefusal>
    ensures { MatchResult result
        (λ w. descriptor_words (words_of text.now) ≡ Ok (words_in w))
        (λ refusal. descriptor_words (words_of text.now) ≡ Err refusal) }
{
    let fixed = next_word(text)?;
    let assured = next_word(fixed.rest)?;
    let max = next_word(assured.rest)?;
    let class = next_word(max.rest)?;
    if first_word(class.rest).is_some() {
        return Err(LineRefusal::from(LineFault::WordCount));
    }
    Ok(DescriptorWords {
        fixed: fixed.word,
        assured: assured.word,
        max: max.word,
        class: class.word,
    })
}

/// Returns the rates and the class that the words of a descriptor write, of which the first is at an index, or `BadField`
/// at the first word that writes none.
#[tactic(auto, unfolding(crate::specs::Fields::rate_fields))]
pub(crate) fn rate_fields(first: usize, words: DescriptorWords<'_>) -> Result<Rates, LineRefusal>
    requires { first ≤ LAST_RATES }
    ensures { MatchResult result
        (λ r. rate_fields first (words_in words.entry) ≡ Ok (rates_in r))
        (λ refusal. rate_fields first (words_in words.entry) ≡ Err refusal) }
{
    let fixed = number_field(first, Field::Fixed, words.fixed)?;
    let assured = number_field(first + 1, Field::Assured, words.assured)?;
    let max = number_field(first + 2, Field::Max, words.max)?;
    match class_field(first + 3, words.class) {
        Ok(class) => Ok(Rates {
            fixed,
            assured,
            max,
            class,
        }),
        Err(refusal) => Err(refusal),
    }
}

// Returns a rate in kbit/s, or `RateRange` above 2,488,320.
#[tactic(auto, unfolding(crate::specs::Fields::rate_in))]
fn rate_in(index: usize, field: Field, rate: u64) -> Result<u64, LineRefusal>
    ensures { result ≡ rate_in index field rate }
{
    if rate > LINE_RATE {
        return Err(LineFault::Port(Refusal::RateRange).at(index, field));
    }
    Ok(rate)
}

/// Returns the descriptor of the requested rates and class, or the first refusal: `RateRange` at the first rate out of
/// range, of which the first is at an index, otherwise a refusal of no single word.
#[tactic(auto, unfolding(crate::specs::Fields::descriptor_in))]
pub(crate) fn descriptor_in(first: usize, rates: &Rates) -> Result<Descriptor, LineRefusal>
    requires { first ≤ LAST_RATES }
    ensures { result ≡ descriptor_in first (rates_in rates.now) }
{
    rate_in(first, Field::Fixed, rates.fixed)?;
    rate_in(first + 1, Field::Assured, rates.assured)?;
    rate_in(first + 2, Field::Max, rates.max)?;
    match Descriptor::new(rates.fixed, rates.assured, rates.max, rates.class) {
        Ok(descriptor) => Ok(descriptor),
        Err(refusal) => Err(LineRefusal::from(LineFault::Port(refusal))),
    }
}

// Returns the Alloc-ID of a number, or `None` outside 1024 to 16383.
fn alloc_id_of(number: u64) -> Option<AllocId>
    ensures { SomeIff result ((MIN_ALLOC_ID ≤ number) × (number ≤ MAX_ALLOC_ID)) number }
{
    AllocId::new(u16::try_from(number).ok()?)
}

// Returns the ONU-ID of a number, or `None` above 1022.
fn onu_id_of(number: u64) -> Option<OnuId>
    ensures { SomeIff result (number ≤ MAX_ONU_ID) number }
{
    OnuId::new(u16::try_from(number).ok()?)
}

/// Returns the Alloc-ID of the number at an index, or `AllocRange` outside 1024 to 16383.
#[tactic(auto, unfolding(crate::specs::Fields::alloc_in))]
pub(crate) fn alloc_in(index: usize, number: u64) -> Result<AllocId, LineRefusal>
    ensures { result ≡ alloc_in index number }
{
    match alloc_id_of(number) {
        Some(alloc_id) => Ok(alloc_id),
        None => Err(LineFault::Port(Refusal::AllocRange).at(index, Field::Alloc)),
    }
}

/// Returns the ONU-ID of the number at an index, or `OnuRange` above 1022.
#[tactic(auto, unfolding(crate::specs::Fields::onu_in))]
pub(crate) fn onu_in(index: usize, number: u64) -> Result<OnuId, LineRefusal>
    ensures { result ≡ onu_in index number }
{
    match onu_id_of(number) {
        Some(onu) => Ok(onu),
        None => Err(LineFault::Port(Refusal::OnuRange).at(index, Field::Onu)),
    }
}
