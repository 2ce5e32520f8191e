//! The lines of the input, and what they say.
ghost use Rattle.std.specs.Prelude.{◌≡◌, ℕ, List, ◌==◌, ◌<◌, [], ◌∷◌, length, position, MatchOption, MatchResult};
ghost use Rattle.app_text.specs.Reading.{IsReading};
ghost use Rattle.app_text.specs.Lines.{lines_of, AreRead, IsReadFault};

use crate::faults::Fault;
use std::alloc::Allocator;

/// What a line can say. Each value has one text.
pub trait Line: Drop {
    /// The values that have a text.
    ghost is_value: { Self → Type 0 };

    /// The text of a value.
    ghost text_of: { Self → List ℕ };

    /// The value that has this text, if one has it.
    fn parse(line: &[u8]) -> Option<Self>
    where
        Self: Sized,
        ensures { IsReading is_value text_of line.now result };
}

/// What the lines of a text say, in their order.
///
/// # Errors
///
/// `Unreadable` with the number of the first line that is the text of no value, and `NoMemory`.
pub fn read_lines<L: Line, A: Allocator>(alloc: A, text: &[u8]) -> Result<Vec<L, A>, Fault>
    ensures { MatchResult result
        (λ values. AreRead L.is_value L.text_of (lines_of text.now) values.items)
        (λ fault. IsReadFault L.is_value L.text_of (lines_of text.now) fault) }
{
    let mut values = Vec::new(alloc);
    let mut rest = text;
    while let Some((line, after)) = next_line(rest) {
        let Some(value) = L::parse(line) else {
            return Err(Fault::Unreadable(values.len() + 1));
        };
        values.push(value)?;
        rest = after;
    }
    Ok(values)
}

/// The first line of a text, and the text behind it.
pub fn next_line(text: &[u8]) -> Option<(&[u8], &[u8])>
    ensures { MatchOption result (lines_of text.now ≡ []) (λ p. (lines_of text.now ≡ p.0.now ∷ lines_of p.1.now) × (length p.1.now < length text.now)) }
{
    if text.is_empty() {
        return None;
    }
    match line_end(text) {
        Some(end) => Some((&text[..end], &text[end + 1..])),
        None => Some((text, &[])),
    }
}

// Where the first line feed is.
fn line_end(text: &[u8]) -> Option<usize>
    ensures { result ≡ position (λ b. b == 10) text.now }
{
    text.iter().position(|b| *b == b'\n')
}
