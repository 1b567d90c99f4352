//! The asks of a text, separated by commas.

ghost use Rattle.std.specs.Prelude.{◌≡◌, IfOk, bytes_eq};
ghost use Rattle.std.specs.List.{list_any, filter_map};
ghost use Rattle.audit_statement.specs.Words as definition;
ghost use Rattle.audit_statement.specs.Words.{parts_between};

use audit_model::lists::AskList;
use audit_model::memory::Memory;
use audit_model::setting::{Ask, Score, Tail};
use std::alloc::Global;

/// The largest number of asks in a text.
const MOST: usize = 4;

fn ask_of(word: &str) -> Option<Ask>
    ensures { result ≡ definition.ask_of word.now }
{
    let (score, tail) = match word {
        "seats:low" => (Score::Seats, Tail::Low),
        "seats:high" => (Score::Seats, Tail::High),
        "mean-median:low" => (Score::MeanMedian, Tail::Low),
        "mean-median:high" => (Score::MeanMedian, Tail::High),
        "gap:low" => (Score::Gap, Tail::Low),
        "gap:high" => (Score::Gap, Tail::High),
        "cut-edges:low" => (Score::CutEdges, Tail::Low),
        "cut-edges:high" => (Score::CutEdges, Tail::High),
        "cut-length:low" => (Score::CutLength, Tail::Low),
        "cut-length:high" => (Score::CutLength, Tail::High),
        _ => return None,
    };
    Some(Ask { score, tail })
}

/// Returns true if one of the parts of the text between commas is the word.
fn has_part(text: &str, word: &str) -> bool
    ensures { result ≡ list_any (λ part. bytes_eq part word.now) (parts_between 44 text.now) }
{
    text.split(',').any(|part| part == word)
}

/// Returns true if one of the asks is for the length of the cut edges.
pub fn asks_for_length(text: &str) -> bool
    ensures { result ≡ definition.asks_for_length text.now }
{
    has_part(text, "cut-length:low") || has_part(text, "cut-length:high")
}

/// Returns true if the text is one to four different asks, separated by commas.
pub fn are_asks(text: &str) -> bool
    ensures { result ≡ definition.are_asks text.now }
{
    let mut rest = text;
    for _ in 0..MOST {
        match rest.split_once(',') {
            None => return ask_of(rest).is_some(),
            Some((word, more)) => {
                if ask_of(word).is_none() || has_part(more, word) {
                    return false;
                }
                rest = more;
            }
        }
    }
    false
}

/// Returns the asks of the text, in order. Parts that are no ask are skipped. The only error is out
/// of memory.
pub fn asks_of(alloc: Global, text: &str) -> Result<AskList, Memory>
    ensures { IfOk result (λ asks. asks ≡ filter_map definition.ask_of (parts_between 44 text.now)) }
{
    let mut asks = AskList::new(alloc);
    for ask in text.split(',').filter_map(ask_of) {
        asks.push(ask)?;
    }
    Ok(asks)
}
