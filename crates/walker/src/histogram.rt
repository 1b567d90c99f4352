//! Histograms of a walk's visits, by the number of seats of the visited plan, compared with the
//! start plan.

ghost use Rattle.std.specs.Prelude.{◌≡◌, ℕ, ◌+◌, ◌*◌, ◌<◌, ◌^◌, ◌==◌, cond, length, slice_index, IsTrue, IsFalse};
ghost use Rattle.audit_model.specs.Trajectory.{empty_histogram, plan_seats};
ghost use Rattle.audit_model.specs.Trajectory as definition;
ghost use Rattle.flip_kernel.specs.ChainState.{sums_in};
ghost use Rattle.scores.specs.Known.{IsReady};
ghost use Rattle.walker.specs.Binned.{plan_bin};

use audit_model::setting::Score;
use flip_guard::judge::Judge;
use flip_kernel::state::State;
use scores::Room;

/// The histogram of a walk: the start plan's seats, the bin of the plan that was scored last, and
/// the number of counted visits in each bin.
///
/// If the walk needs no histogram (`asked` is false), the counts stay 0 and no seats are computed.
#[derive(Drop)]
pub struct Histogram {
    pub asked: bool,
    pub start: u64,
    pub bin: usize,
    pub counts: [u32; 9],
}

impl Histogram {
    /// Makes an empty histogram. The current plan must be the start plan.
    pub fn new<J: Judge>(asked: bool, state: &State<J>, room: &mut Room) -> Histogram
        requires start { state.now.plan ≡ state.now.job.start }
        requires ready { IsReady room.old (sums_in state.now.job state.now.plan) }
        ensures asked { result.asked ≡ asked }
        ensures start { IsTrue asked → result.start ≡ plan_seats state.now.job state.now.job.start }
        ensures bin { IsTrue asked → result.bin ≡ plan_bin state.now.job state.now.plan }
        ensures small { result.bin < 9 }
        ensures counts { result.counts ≡ empty_histogram }
    {
        let start = if asked { current_seats(state, room) } else { 0 };
        Histogram {
            asked,
            start,
            bin: 4,
            counts: [0; 9],
        }
    }

    /// Finds the bin of the current plan after a move.
    pub fn update<J: Judge>(&mut self, state: &State<J>, room: &mut Room)
        requires start { IsTrue self.old.asked → self.old.start ≡ plan_seats state.now.job state.now.job.start }
        requires small { self.old.bin < 9 }
        requires ready { IsReady room.old (sums_in state.now.job state.now.plan) }
        ensures asked { self.new.asked ≡ self.old.asked }
        ensures start { self.new.start ≡ self.old.start }
        ensures bin { IsTrue self.old.asked → self.new.bin ≡ plan_bin state.now.job state.now.plan }
        ensures small { self.new.bin < 9 }
        ensures counts { self.new.counts ≡ self.old.counts }
    {
        if self.asked {
            self.bin = bin_of(current_seats(state, room), self.start);
        }
    }

    /// Counts `times` visits in the bin that was found last.
    pub fn count(&mut self, times: u32)
        requires small { self.old.bin < 9 }
        requires fits { IsTrue self.old.asked → slice_index self.old.counts self.old.bin + times < 2 ^ 32 }
        ensures asked { self.new.asked ≡ self.old.asked }
        ensures start { self.new.start ≡ self.old.start }
        ensures bin { self.new.bin ≡ self.old.bin }
        ensures counts { IsTrue self.old.asked → (k : ℕ) → k < 9 →
            slice_index self.new.counts k ≡ slice_index self.old.counts k + times * cond (self.old.bin == k) 1 0 }
        ensures nine { length self.new.counts ≡ 9 }
        ensures none { IsFalse self.old.asked → self.new.counts ≡ self.old.counts }
    {
        if self.asked {
            self.counts[self.bin] += times;
        }
    }
}

fn current_seats<J: Judge>(state: &State<J>, room: &mut Room) -> u64
    requires ready { IsReady room.old (sums_in state.now.job state.now.plan) }
    ensures seats { result ≡ plan_seats state.now.job state.now.plan }
    ensures small { result < 2 ^ 63 }
{
    room.read_value(Score::Seats, state.view()) as u64
}

/// Returns the bin of a plan with `seats` seats, if the start plan has `start` seats. Bin 4 is for
/// equal numbers. Bin 5 is for one seat more, and bin 3 for one seat less. Bin 8 is for four or
/// more seats more, and bin 0 for four or more seats less.
fn bin_of(seats: u64, start: u64) -> usize
    requires { seats < 2 ^ 63 }
    ensures bin { result ≡ definition.bin_of seats start }
    ensures small { result < 9 }
{
    (seats + 4).saturating_sub(start).min(8) as usize
}
