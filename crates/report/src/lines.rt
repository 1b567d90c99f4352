//! Lines of space-separated words.

ghost use Rattle.std.specs.Prelude.{◌≡◌, ◌∷◌, map};
ghost use Rattle.report.specs.Lines.{AppendsText, spaced, tail_of, word_text};
ghost use Rattle.audit_statement.specs.Report.{line};

use crate::numbers::{
    push_billionths, push_fraction, push_key, push_number, push_quarters, push_signed,
};
use crate::quoted::push_quoted;
use audit_model::buffers::Bytes;
use audit_model::memory::Memory;

/// A word of a line.
#[derive(Clone, Copy)]
pub enum Word<'a> {
    Text(&'a str),
    Number(u64),
    Signed(i64),
    /// A numerator and a denominator.
    Fraction(i64, u64),
    /// A number of billionths.
    Billionths(u64),
    /// A number of quarters.
    Quarters(u32),
    /// A key or a digest, written as hexadecimal digits.
    Key(&'a [u8; 32]),
    /// A text, written as a JSON string.
    Quoted(&'a str),
}

/// Appends a word.
pub fn push_word(out: &mut Bytes, word: &Word) -> Result<(), Memory>
    ensures { AppendsText out.old out.new (word_text word.now) result }
{
    match word {
        Word::Text(text) => out.append(text.as_bytes()),
        Word::Number(number) => push_number(out, *number),
        Word::Signed(number) => push_signed(out, *number),
        Word::Fraction(top, bottom) => push_fraction(out, *top, *bottom),
        Word::Billionths(number) => push_billionths(out, *number),
        Word::Quarters(number) => push_quarters(out, *number),
        Word::Key(key) => push_key(out, key),
        Word::Quoted(text) => push_quoted(out, text),
    }
}

/// Appends the words with a space between them, and a line feed.
pub fn push_line(out: &mut Bytes, words: &[Word]) -> Result<(), Memory>
    ensures { AppendsText out.old out.new (line (map word_text words.now)) result }
{
    let Some((first, rest)) = words.split_first() else {
        return out.push(b'\n');
    };
    push_word(out, first)?;
    push_tail(out, rest)
}

/// Appends the words with a space before each, and a line feed.
fn push_tail(out: &mut Bytes, words: &[Word]) -> Result<(), Memory>
    ensures { AppendsText out.old out.new (tail_of (map word_text words.now)) result }
{
    push_words(out, words)?;
    out.push(b'\n')
}

/// Appends the words with a space before each.
pub fn push_words(out: &mut Bytes, words: &[Word]) -> Result<(), Memory>
    ensures { AppendsText out.old out.new (spaced (map word_text words.now)) result }
{
    for word in words {
        push_next(out, word)?;
    }
    Ok(())
}

/// Appends a space and the word.
pub fn push_next(out: &mut Bytes, word: &Word) -> Result<(), Memory>
    ensures { AppendsText out.old out.new (32 ∷ word_text word.now) result }
{
    out.push(b' ')?;
    push_word(out, word)
}
