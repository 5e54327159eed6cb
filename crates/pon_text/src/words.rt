//! The words of a text, separated by spaces and tabs.

ghost use Rattle.std.specs.Prelude.{◌≡◌, ◌≤◌, ◌∷◌, [], not, MatchOption, length};
ghost use Rattle.std.specs.List.{position, position_or_len};
ghost use Rattle.pon_text.specs.Lines.{words_of, is_blank};

/// The first word of a text, and the text after it.
#[derive(Clone, Copy)]
pub struct Word<'a> {
    /// The bytes of the word, at least one and none a blank.
    pub word: &'a [u8],
    /// The text after the word, with the blank that ends it.
    pub rest: &'a [u8],
}

fn is_blank(byte: u8) -> bool
    ensures { result ≡ is_blank byte }
{
    byte == b' ' || byte == b'\t'
}

fn first_of_word(text: &[u8]) -> Option<usize>
    ensures { result ≡ position (λ b. not (is_blank b)) text.now }
{
    text.iter().position(|byte| !is_blank(*byte))
}

fn first_blank(text: &[u8]) -> Option<usize>
    ensures { result ≡ position is_blank text.now }
{
    text.iter().position(|byte| is_blank(*byte))
}

// Returns the number of blanks at the front of a text.
fn blanks_len(text: &[u8]) -> usize
    ensures len { result ≡ position_or_len (λ b. not (is_blank b)) text.now }
    ensures within { result ≤ length text.now }
{
    match first_of_word(text) {
        Some(len) => len,
        None => text.len(),
    }
}

// Returns the number of bytes before the first blank.
fn word_len(text: &[u8]) -> usize
    ensures len { result ≡ position_or_len is_blank text.now }
    ensures within { result ≤ length text.now }
{
    match first_blank(text) {
        Some(len) => len,
        None => text.len(),
    }
}

/// Returns the first word of a text. `None` if it has no word.
pub fn first_word(text: &[u8]) -> Option<Word<'_>>
    ensures { MatchOption result
        (words_of text.now ≡ [])
        (λ first. words_of text.now ≡ first.word.now ∷ words_of first.rest.now) }
{
    let (_, text) = text.split_at(blanks_len(text));
    if text.is_empty() {
        return None;
    }
    let (word, rest) = text.split_at(word_len(text));
    Some(Word { word, rest })
}

/// Returns the number of words of a text.
pub fn count_words(text: &[u8]) -> usize
    ensures { result ≡ length (words_of text.now) }
{
    let mut count = 0;
    let mut rest = text;
    while let Some(word) = first_word(rest) {
        count += 1;
        rest = word.rest;
    }
    count
}
