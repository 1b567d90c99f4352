//! The stopping places of all tests.

ghost use Rattle.std.specs.Prelude.{◌≡◌, ◌≤◌, length, IfNone, IfSome};
ghost use Rattle.std.specs.List.{AllPairs};
ghost use Rattle.sequential_test.specs.Rounds.{AreParts, AreDecided, AreDecidedBelow};

use crate::settle::settle;
use audit_model::outcome::Outcome;
use plan_core::job::Job;

/// Returns for each ask the stopping place and the numerator and denominator of the p-value. Returns `None` if these
/// outcomes do not decide where each test stops. Allocates nothing.
pub fn find_stops(job: &Job, outcomes: &[Outcome]) -> Option<[[u32; 3]; 4]>
    requires some { 1 ≤ job.now.setting.stop }
    requires apart { AllPairs (λ a b. a.id ≡ b.id → ⊥) outcomes.now }
    ensures all { IfSome result (AreDecidedBelow job.now outcomes.now (length job.now.setting.asks)) }
    ensures parts { IfSome result (AreParts job.now.setting.ends (length job.now.setting.asks)) }
    ensures four { IfSome result (λ stops. length stops ≡ 4) }
    ensures none { IfNone result (AreDecided job.now outcomes.now → ⊥) }
{
    let enough = job.setting().stop;
    let mut stops = [[0; 3]; 4];
    for place in 0..job.setting().asks.len() {
        match settle(job, place as u32, enough, outcomes) {
            Some(stop) => stops[place] = [stop.place, stop.top, stop.of],
            None => return None,
        }
    }
    Some(stops)
}
