//! The outcomes of a run.

ghost use Rattle.std.specs.Prelude.{◌≡◌, ◌≤◌, [], length, take};

use audit_model::buffers::{Bytes, OutcomeList};
use audit_model::outcome::Outcome;

/// The outcomes of a run by rising id, with the stops of tests that stop early. If tests stop early, the report covers
/// the outcomes of the outlier walks, which come first, and the stop of each test. Otherwise it covers every outcome
/// and no stop.
#[derive(Drop)]
pub struct Found {
    pub sorted: OutcomeList,
    /// The number of outcomes that the report covers.
    pub listed: usize,
    pub stops: [[u32; 3]; 4],
    /// The number of stops that the report covers.
    pub observed: usize,
    /// The buffer for the report.
    pub text: Bytes,
}

impl Found {
    /// Makes the outcomes of a run without an early stop. The report covers each of them.
    pub fn all(sorted: OutcomeList, text: Bytes) -> Found
        ensures sorted { result.sorted ≡ sorted }
        ensures listed { result.listed ≡ length sorted.items }
        ensures observed { result.observed ≡ 0 }
        ensures text { result.text ≡ text }
    {
        let listed = sorted.len();
        Found {
            sorted,
            listed,
            stops: [[0; 3]; 4],
            observed: 0,
            text,
        }
    }
}

/// Returns the first `count` outcomes.
pub fn first_outcomes(sorted: &[Outcome], count: usize) -> &[Outcome]
    requires { count ≤ length sorted.now }
    ensures { result.now ≡ take count sorted.now }
{
    &sorted[..count]
}

/// Returns the first `count` stops.
pub fn first_stops(stops: &[[u32; 3]], count: usize) -> &[[u32; 3]]
    requires { count ≤ length stops.now }
    ensures { result.now ≡ take count stops.now }
{
    &stops[..count]
}
