//! The values of the start plan.

ghost use Rattle.std.specs.Prelude.{◌≡◌, length, IfOk};
ghost use Rattle.std.specs.List.{slice_get};
ghost use Rattle.audit_model.specs.Job.{Job};
ghost use Rattle.audit_model.specs.JobOf.{IsJob};
ghost use Rattle.audit_model.specs.Score.{sums_of};
ghost use Rattle.plan_core.specs.Valued.{value_of, start_values};
ghost use Rattle.audit_model.specs.Limits.{most_districts};

use crate::input::Input;
use audit_model::memory::Memory;
use audit_model::outcome::SumsView;
use audit_model::setting::Ask;
use district_sums::sums::Sums;
use scores::value;
use std::alloc::Global;

/// Returns the numerator of the score of the ask with this index, or 0 if there is no such ask.
#[tactic(auto, unfolding(crate::specs::Valued::value_of))]
fn value_at(
    input: &Input,
    sums: &SumsView,
    asks: &[Ask],
    place: usize,
    room: &mut [u64; 200],
) -> i64
    requires sound { IsJob input.now }
    requires sums { sums.now ≡ sums_of input.now.graph input.now.counts input.now.districts input.now.start }
    ensures { result ≡ value_of input.now (slice_get asks.now place) }
{
    match asks.get(place) {
        None => 0,
        Some(ask) => value(ask.score, sums, room),
    }
}

/// Returns the numerator of the start plan's score for each ask, then zeros. Computes no sums if
/// nothing is asked. Fails if there is no memory.
#[tactic(auto, unfolding(crate::specs::Valued::value_of))]
pub fn start_values(alloc: Global, input: &Input) -> Result<[i64; 4], Memory>
    requires { IsJob input.now }
    ensures { IfOk result (λ values. values ≡ start_values input.now) }
{
    let asks = input.setting().asks.as_slice();
    if asks.is_empty() {
        return Ok([0; 4]);
    }
    let plan = input.start().as_slice();
    let made = Sums::of(
        alloc,
        input.graph(),
        input.counts(),
        input.districts(),
        plan,
    )?;
    let sums = made.view();
    let mut room = [0; 200];
    Ok([
        value_at(input, sums, asks, 0, &mut room),
        value_at(input, sums, asks, 1, &mut room),
        value_at(input, sums, asks, 2, &mut room),
        value_at(input, sums, asks, 3, &mut room),
    ])
}
