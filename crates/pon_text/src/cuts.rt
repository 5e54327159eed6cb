//! Splits a text at its first separator, and finds the rest of a line after a keyword.

ghost use Rattle.std.specs.Prelude.{◌≡◌, ◌<◌, ◌==◌, Some, None, IfSome, MatchOption, length};
ghost use Rattle.std.specs.List.{position};
ghost use Rattle.pon_text.specs.Cuts.{follows, cut_at};

/// Returns the rest of a line after the prefix `first`. `None` if the line does not begin with it.
pub fn follows<'a>(first: &[u8], line: &'a [u8]) -> Option<&'a [u8]>
    ensures { MatchOption result (follows first.now line.now ≡ None)
        (λ rest. follows first.now line.now ≡ Some rest.now) }
{
    line.strip_prefix(first)
}

fn first_such(text: &[u8], wanted: u8) -> Option<usize>
    ensures { result ≡ position (λ b. b == wanted) text.now }
{
    text.iter().position(|byte| *byte == wanted)
}

/// Returns the bytes before and after the first byte `at`. `None` if the text has no such byte.
pub fn cut(text: &[u8], at: u8) -> Option<(&[u8], &[u8])>
    ensures parts { MatchOption result (cut_at at text.now ≡ None)
        (λ p. cut_at at text.now ≡ Some (p.0.now, p.1.now)) }
    ensures shorter { IfSome result (λ p. length p.1.now < length text.now) }
{
    let end = first_such(text, at)?;
    Some((&text[..end], &text[end + 1..]))
}
