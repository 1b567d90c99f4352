//! One step of the chain, and the draw that leads back.

ghost use Rattle.std.specs.Prelude.{◌≡◌, ℕ, ◌+◌, ◌<◌, ◌-◌, ◌*◌, ◌%◌, ◌≤◌, ◌↔◌, Some, length, slice_index, IsTrue, IsFalse};
ghost use Rattle.audit_model.specs.Local.{IsLocal};
ghost use Rattle.audit_model.specs.Proposal.{proposal};
ghost use Rattle.audit_model.specs.Plan.{IsLegal};
ghost use Rattle.audit_model.specs.Step.{CanReturn, next, mirrored};

use crate::moving::Flip;
use crate::state::State;
use audit_model::steps::Steps;
use flip_guard::judge::Judge;
use plan_core::job::Job;
use std::marker::Brand;
use std::sync::ledger::{Blank, Ledger};

/// Takes the step of a draw. Returns true if the step changed the plan.
///
/// `steps` counts the searches: at most one. There is none if the unit's neighbors in its district
/// are connected among themselves.
///
/// It is inlined into the loop over steps, since most steps end after the test of one pair.
#[inline(always)]
pub fn try_flip<J: Judge, L: Ledger>(
    job: &Job,
    state: &mut State<J>,
    draw: u64,
    steps: &mut Steps<L>,
) -> bool
    requires made { state.old.job ≡ job.now }
    ensures next { state.new ≡ record state.old { plan = next job.now state.old.plan draw } }
    ensures unchanged { IsFalse result ↔ (state.new.plan ≡ state.old.plan) }

    ensures searches { (steps.old ≤ steps.new) × (steps.new ≤ steps.old + 1) }
    ensures local { (unit district : ℕ) → proposal job.now.graph.units job.now.districts draw ≡ Some (unit, district) →
        IsLocal job.now.graph state.old.plan unit → steps.new ≡ steps.old }
{
    match state.proposal_of(draw) {
        None => false,
        Some((unit, district)) => state.flip(
            Flip {
                job,
                unit,
                district,
            },
            draw,
            steps,
        ),
    }
}

/// Takes the steps of draws, from the place `first` on, up to the first draw that proposes an open
/// pair. Returns the place after the last step, and true if this step changed the plan. No step
/// before it did.
///
/// Nine of ten steps end after the test of one pair. A loop over the draws makes this test and
/// nothing else.
#[inline(always)]
pub fn try_flips<J: Judge, L: Ledger>(
    job: &Job,
    state: &mut State<J>,
    draws: &[u64],
    first: usize,
    steps: &mut Steps<L>,
) -> (usize, bool)
    requires made { state.old.job ≡ job.now }
    requires some { first < length draws.now }
    ensures some { first < result.0 }
    ensures few { result.0 ≤ length draws.now }
    ensures closed { (k : ℕ) → first ≤ k → k + 1 < result.0 → next job.now state.old.plan (slice_index draws.now k) ≡ state.old.plan }
    ensures next { state.new ≡ record state.old { plan = next job.now state.old.plan (slice_index draws.now (result.0 - 1)) } }
    ensures unchanged { IsFalse result.1 ↔ (state.new.plan ≡ state.old.plan) }
{
    match state.find_open(draws, first) {
        None => (draws.len(), false),
        Some((place, unit, district)) => {
            let flip = Flip {
                job,
                unit,
                district,
            };
            (place + 1, state.flip(flip, draws[place], steps))
        }
    }
}

/// Returns the mirror of a draw: the draw that leads back from the plan after `draw`.
///
/// If `draw` changes nothing, the mirror is `draw` itself. Otherwise it is the draw of the same
/// block that proposes the unit and its old district. With a weight on cut edges, more draws take cut
/// edges away than add them, so a mirror leads back only from steps that take none away. The state is
/// unchanged, and nothing is allocated.
pub fn mirror<J: Judge>(job: &Job, state: &mut State<J>, draw: u64) -> u64
    requires made { state.old.job ≡ job.now }
    ensures value { result ≡ mirrored job.now state.old.plan draw }
    ensures same { state.new ≡ state.old }

    ensures unchanged { next job.now state.old.plan draw ≡ state.old.plan → result ≡ draw }
    ensures moved { (unit district : ℕ) → proposal job.now.graph.units job.now.districts draw ≡ Some (unit, district) →
        ¬ (next job.now state.old.plan draw ≡ state.old.plan) →
        result ≡ draw - draw % (job.now.graph.units * job.now.districts) + (unit * job.now.districts + slice_index state.old.plan unit) }
    ensures back { CanReturn job.now state.old.plan draw → next job.now (next job.now state.old.plan draw) result ≡ state.old.plan }
    ensures again { CanReturn job.now state.old.plan draw → mirrored job.now (next job.now state.old.plan draw) result ≡ draw }
{
    find_mirror::<J, Brand>(job, state, draw, Blank::new(1))
}

// Does the work of `mirror`, with its own counter of searches. The flip is tested but not made.
fn find_mirror<J: Judge, L: Ledger>(job: &Job, state: &mut State<J>, draw: u64, blank: Blank) -> u64
    requires name { blank.name ≡ L.name }
    requires parts { blank.parts ≡ L.parts }
    requires some { 0 < L.parts }
    requires made { state.old.job ≡ job.now }
    ensures value { result ≡ mirrored job.now state.old.plan draw }
    ensures same { state.new ≡ state.old }
    ensures legal { IsLegal job.now state.old.plan }
{
    let plan = state.plan();
    match state.proposal_of(draw) {
        None => draw,
        Some((unit, district)) => {
            let home = plan.as_slice()[unit as usize];
            let mut steps: Steps<L> = Steps::new(blank);
            let flip = Flip {
                job,
                unit,
                district,
            };
            if state.may_move(flip, draw, &mut steps) {
                draw - u64::from(district) + u64::from(home)
            } else {
                draw
            }
        }
    }
}
