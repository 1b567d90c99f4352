//! Tests of the test statistics that are asked for.

ghost use Rattle.std.specs.Prelude.{◌≡◌};
ghost use Rattle.std.specs.List.{list_any};
ghost use Rattle.audit_model.specs.JobOf.{is_gap};

use audit_model::setting::{Ask, Score};

fn is_gap(score: Score) -> bool
    ensures { result ≡ is_gap score }
{
    match score {
        Score::Gap => true,
        Score::Seats | Score::MeanMedian | Score::CutEdges | Score::CutLength => false,
    }
}

/// Returns true if the efficiency gap is among the asks.
pub fn asks_gap(asks: &[Ask]) -> bool
    ensures { result ≡ list_any (λ ask. is_gap ask.score) asks.now }
{
    asks.iter().any(|ask| is_gap(ask.score))
}
