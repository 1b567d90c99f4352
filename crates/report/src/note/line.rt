//! The pieces of a diagnostic, before they are written.

ghost use Rattle.std.specs.Prelude.{◌≡◌, ◌∷◌, ◌≤◌, codes, decimal, length, map, []};
ghost use Rattle.report.specs.Pieces.{piece_text};
ghost use Rattle.audit_statement.specs.Note as terms;

use crate::piece::Piece;
use crate::piece::Piece::{Number, Text};

/// The pieces of a diagnostic, at most eight. Unused pieces are empty texts.
pub(crate) type Line<'a> = [Piece<'a>; 8];

/// Makes a diagnostic of these pieces.
pub(crate) fn line_of<'a>(pieces: &[Piece<'a>]) -> Line<'a>
    requires { length pieces.now ≤ 8 }
    ensures { terms.as_line (map piece_text result) ≡ terms.as_line (map piece_text pieces.now) }
{
    let mut line = [Text(""); 8];
    line[..pieces.len()].copy_from_slice(pieces);
    line
}

/// Makes a diagnostic of this text.
pub(crate) fn text_line(text: &str) -> Line<'_>
    ensures { terms.as_line (map piece_text result) ≡ terms.as_line (text.now ∷ []) }
{
    line_of(&[Text(text)])
}

/// Makes a diagnostic of a number and the words after it.
pub(crate) fn count_line(count: u64, words: &str) -> Line<'_>
    ensures { terms.as_line (map piece_text result) ≡ terms.as_line (decimal count ∷ words.now ∷ []) }
{
    line_of(&[Number(count), Text(words)])
}

/// Makes a diagnostic of a noun, its number and the words after it.
pub(crate) fn numbered_line<'a>(noun: &'a str, number: u64, words: &'a str) -> Line<'a>
    ensures { terms.as_line (map piece_text result) ≡ terms.as_line (noun.now ∷ decimal number ∷ words.now ∷ []) }
{
    line_of(&[Text(noun), Number(number), Text(words)])
}

/// Makes a diagnostic of two texts.
pub(crate) fn words_line<'a>(first: &'a str, second: &'a str) -> Line<'a>
    ensures { terms.as_line (map piece_text result) ≡ terms.as_line (first.now ∷ second.now ∷ []) }
{
    line_of(&[Text(first), Text(second)])
}

/// Makes a diagnostic of two counts with words behind each.
pub(crate) fn counts_line<'a>(first: u64, between: &'a str, second: u64, after: &'a str) -> Line<'a>
    ensures { terms.as_line (map piece_text result) ≡ terms.as_line (decimal first ∷ between.now ∷ decimal second ∷ after.now ∷ []) }
{
    line_of(&[Number(first), Text(between), Number(second), Text(after)])
}

/// Makes a diagnostic of a noun, two numbers and the words behind them.
pub(crate) fn two_line<'a>(noun: &'a str, one: u32, other: u32, words: &'a str) -> Line<'a>
    ensures { terms.as_line (map piece_text result) ≡ terms.as_line (noun.now ∷ decimal one ∷ codes " and " ∷ decimal other ∷ words.now ∷ []) }
{
    line_of(&[
        Text(noun),
        Number(u64::from(one)),
        Text(" and "),
        Number(u64::from(other)),
        Text(words),
    ])
}
