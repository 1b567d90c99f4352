//! Lookups by id in a list of outcomes.

ghost use Rattle.std.specs.Prelude.{◌≡◌};
ghost use Rattle.std.specs.Bool.{Decides};
ghost use Rattle.audit_model.specs.Run.{with_id};
ghost use Rattle.outcome_book.specs.Union.{AgreesWith};

use crate::gathering::agree;
use audit_model::outcome::Outcome;

/// Returns the outcome with this id, if there is one.
pub fn outcome_with(outcomes: &[Outcome], id: u32) -> Option<Outcome>
    ensures { result ≡ with_id outcomes.now id }
{
    for outcome in outcomes {
        if outcome.id == id {
            return Some(*outcome);
        }
    }
    None
}

/// Returns true if the list has no outcome of the same id that contradicts this one. Two outcomes
/// contradict each other unless [`agree`] holds.
pub fn agrees_with(outcomes: &[Outcome], outcome: &Outcome) -> bool
    ensures { Decides result (AgreesWith outcomes.now outcome.now) }
{
    match outcome_with(outcomes, outcome.id) {
        Some(other) => agree(&other, outcome),
        None => true,
    }
}
