//! The written names of scores and tails.

ghost use Rattle.std.specs.Prelude.{◌≡◌};
ghost use Rattle.audit_statement.specs.Names.{score_name, tail_name};

use audit_model::setting::{Score, Tail};

/// Returns the name of a score.
pub fn score_text(score: Score) -> &'static str
    ensures { result.now ≡ score_name score }
{
    match score {
        Score::Seats => "seats",
        Score::MeanMedian => "mean-median",
        Score::Gap => "gap",
        Score::CutEdges => "cut-edges",
        Score::CutLength => "cut-length",
    }
}

/// Returns the name of a tail.
pub fn tail_text(tail: Tail) -> &'static str
    ensures { result.now ≡ tail_name tail }
{
    match tail {
        Tail::Low => "low",
        Tail::High => "high",
    }
}
