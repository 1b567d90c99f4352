//! The values and counts of a job's asks, in arrays of four. A job has at most four asks, and the
//! entries after the last one are 0.

ghost use Rattle.std.specs.Prelude.{◌≡◌, ◌+◌, ◌*◌, ◌<◌, ◌^◌, ◌∷◌, [], length, slice_index, ℕ, pos};
ghost use Rattle.std.specs.List.{slice_get};
ghost use Rattle.audit_model.specs.Trajectory.{plan_value};
ghost use Rattle.flip_kernel.specs.ChainState.{sums_in};
ghost use Rattle.scores.specs.Known.{IsReady};
ghost use Rattle.walker.specs.Asked.{each, asked_value, four_more, inside};

use audit_model::setting::{Ask, Score};
use flip_guard::judge::Judge;
use flip_kernel::state::State;
use outlier_tests::in_tail;
use scores::Room;

/// The start plan's values and the counted visits of a walk. Each array has one entry for each ask:
///
/// - `start`: the start plan's value
/// - `inside`: 1 if the plan that was scored last is in the ask's tail, else 0
/// - `counts`: the number of counted visits in the ask's tail
#[derive(Drop)]
pub struct Tally {
    pub start: [i64; 4],
    pub inside: [u32; 4],
    pub counts: [u32; 4],
}

/// Returns the current plan's value of each ask.
pub fn values<J: Judge>(state: &State<J>, asks: &[Ask], room: &mut Room) -> [i64; 4]
    ensures { result ≡ each (asked_value state.now.job state.now.plan) asks.now }
{
    room.forget_plan();
    [
        value_at(state, asks, 0, room),
        value_at(state, asks, 1, room),
        value_at(state, asks, 2, room),
        value_at(state, asks, 3, room),
    ]
}

/// Converts the counts to the signed numbers of an outcome.
pub fn signed(counts: [u32; 4]) -> [i64; 4]
    ensures { result ≡ (pos (slice_index counts 0) ∷ pos (slice_index counts 1) ∷ pos (slice_index counts 2) ∷ pos (slice_index counts 3) ∷ []) }
{
    [
        i64::from(counts[0]),
        i64::from(counts[1]),
        i64::from(counts[2]),
        i64::from(counts[3]),
    ]
}

impl Tally {
    /// Makes a tally with no counted visits, and scores the start plan. The start plan must be the
    /// current plan.
    pub fn new<J: Judge>(state: &State<J>, asks: &[Ask], room: &mut Room) -> Tally
        requires start { state.now.plan ≡ state.now.job.start }
        ensures start { result.start ≡ each (asked_value state.now.job state.now.job.start) asks.now }
        ensures inside { result.inside ≡ each (inside state.now.job state.now.plan) asks.now }
        ensures counts { result.counts ≡ (0 ∷ 0 ∷ 0 ∷ 0 ∷ []) }
        ensures ready { IsReady room.new (sums_in state.now.job state.now.plan) }
    {
        let start = values(state, asks, room);
        let mut tally = Tally {
            start,
            inside: [0; 4],
            counts: [0; 4],
        };
        tally.update(state, asks, room);
        tally
    }

    /// Scores the current plan. The buffers know its votes afterwards.
    #[inline(always)]
    pub fn update<J: Judge>(&mut self, state: &State<J>, asks: &[Ask], room: &mut Room)
        requires start { self.old.start ≡ each (asked_value state.now.job state.now.job.start) asks.now }
        ensures start { self.new.start ≡ self.old.start }
        ensures inside { self.new.inside ≡ each (inside state.now.job state.now.plan) asks.now }
        ensures counts { self.new.counts ≡ self.old.counts }
        ensures ready { IsReady room.new (sums_in state.now.job state.now.plan) }
    {
        room.forget_plan();
        self.inside = [
            inside_at(state, asks, 0, self.start[0], room),
            inside_at(state, asks, 1, self.start[1], room),
            inside_at(state, asks, 2, self.start[2], room),
            inside_at(state, asks, 3, self.start[3], room),
        ];
    }

    /// Counts `times` visits of the plan that was scored last.
    pub fn count(&mut self, times: u32)
        requires { (k : ℕ) → k < 4 → slice_index self.old.counts k + times * slice_index self.old.inside k < 2 ^ 32 }
        ensures start { self.new.start ≡ self.old.start }
        ensures inside { self.new.inside ≡ self.old.inside }
        ensures counts { self.new.counts ≡ four_more self.old.counts times self.old.inside }
    {
        self.counts = [
            self.counts[0] + times * self.inside[0],
            self.counts[1] + times * self.inside[1],
            self.counts[2] + times * self.inside[2],
            self.counts[3] + times * self.inside[3],
        ];
    }
}

/// Returns the current plan's value of a score.
#[inline]
fn current_value<J: Judge>(state: &State<J>, score: Score, room: &mut Room) -> i64
    requires ready { IsReady room.old (sums_in state.now.job state.now.plan) }
    ensures value { result ≡ plan_value state.now.job state.now.plan score }
    ensures ready { IsReady room.new (sums_in state.now.job state.now.plan) }
{
    room.read_value(score, state.view())
}

/// Returns the current plan's value of the ask with the index `place`, or 0 if the job has no ask
/// with this index.
#[tactic(auto, unfolding(crate::specs::Asked::asked_value))]
fn value_at<J: Judge>(state: &State<J>, asks: &[Ask], place: usize, room: &mut Room) -> i64
    requires ready { IsReady room.old (sums_in state.now.job state.now.plan) }
    ensures value { result ≡ asked_value state.now.job state.now.plan (slice_get asks.now place) }
    ensures ready { IsReady room.new (sums_in state.now.job state.now.plan) }
{
    match asks.get(place) {
        None => 0,
        Some(ask) => current_value(state, ask.score, room),
    }
}

/// Returns 1 if the job has an ask with the index `place` and the current plan is in the tail of
/// this ask, else 0. `start` is the start plan's value of the ask.
#[inline]
#[tactic(auto, unfolding(crate::specs::Asked::asked_value, crate::specs::Asked::inside, crate::specs::Asked::is_inside))]
fn inside_at<J: Judge>(
    state: &State<J>,
    asks: &[Ask],
    place: usize,
    start: i64,
    room: &mut Room,
) -> u32
    requires start { start ≡ asked_value state.now.job state.now.job.start (slice_get asks.now place) }
    requires ready { IsReady room.old (sums_in state.now.job state.now.plan) }
    ensures value { result ≡ inside state.now.job state.now.plan (slice_get asks.now place) }
    ensures ready { IsReady room.new (sums_in state.now.job state.now.plan) }
{
    match asks.get(place) {
        None => 0,
        Some(ask) => u32::from(in_tail(ask.tail, current_value(state, ask.score, room), start)),
    }
}
