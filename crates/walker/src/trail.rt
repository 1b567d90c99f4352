//! The results of a walk in progress.

ghost use Rattle.std.specs.Prelude.{◌≡◌, ℕ, ◌+◌, ◌-◌, ◌*◌, ◌<◌, ◌≤◌, ◌^◌, IsTrue, List, length, slice_index};
ghost use Rattle.audit_model.specs.Job.{Job};
ghost use Rattle.audit_model.specs.Trajectory.{plan_seats};
ghost use Rattle.walker.specs.Asked.{each, asked_value};
ghost use Rattle.walker.specs.Trail.{IsCounted, IsTested, IsTrail};

use crate::asked::Tally;
use crate::histogram::Histogram;
use flip_guard::judge::Judge;
use flip_kernel::state::State;
use plan_core::job::Job;
use scores::Room;

/// The results of a walk so far. `visits` is the number of counted visits.
///
/// The current plan is scored at the start and after each move. Its visits are counted together,
/// when the next move leaves it or the walk ends.
#[derive(Drop)]
pub struct Trail {
    pub moved: u32,
    pub visits: u32,
    pub tally: Tally,
    pub bins: Histogram,
}

impl Trail {
    /// Makes the results of a walk before its first step, and scores the start plan. The start plan
    /// must be the current plan.
    pub fn new<J: Judge>(job: &Job, state: &State<J>, shift: bool, room: &mut Room) -> Trail
        requires made { state.now.job ≡ job.now }
        requires start { state.now.plan ≡ job.now.start }
        ensures asked { result.bins.asked ≡ shift }
        ensures trail { (draws : ℕ → ℕ) → IsTrail job.now draws 0 result }
    {
        let tally = Tally::new(state, job.setting().asks.as_slice(), room);
        let bins = Histogram::new(shift, state, room);
        Trail {
            moved: 0,
            visits: 0,
            tally,
            bins,
        }
    }

    /// Counts the visits of the plan that was scored last. `visits` is the number of all visits of
    /// the walk up to now. Those that were not counted before are visits of this plan.
    pub fn flush(&mut self, visits: u32)
        requires order { self.old.visits ≤ visits }
        requires tails { (k : ℕ) → k < 4 → slice_index self.old.tally.counts k + (visits - self.old.visits) * slice_index self.old.tally.inside k < 2 ^ 32 }
        requires small { self.old.bins.bin < 9 }
        requires bins { IsTrue self.old.bins.asked → slice_index self.old.bins.counts self.old.bins.bin + (visits - self.old.visits) < 2 ^ 32 }
        ensures moved { self.new.moved ≡ self.old.moved }
        ensures visits { self.new.visits ≡ visits }
        ensures asked { self.new.bins.asked ≡ self.old.bins.asked }
        ensures tested { (job : Job) (plan : List ℕ) → IsTested job plan self.old → IsTested job plan self.new }
        ensures counted { (job : Job) (draws : ℕ → ℕ) (place : ℕ) → IsTrail job draws place self.old → visits ≡ place + 1 → IsCounted job draws visits self.new }
    {
        let times = visits - self.visits;
        self.tally.count(times);
        self.bins.count(times);
        self.visits = visits;
    }

    /// Counts a move, and scores the plan after it.
    pub fn update<J: Judge>(&mut self, job: &Job, state: &State<J>, room: &mut Room)
        requires made { state.now.job ≡ job.now }
        requires few { self.old.moved < 10 ^ 9 }
        requires start { self.old.tally.start ≡ each (asked_value job.now job.now.start) job.now.setting.asks }
        requires seats { IsTrue self.old.bins.asked → self.old.bins.start ≡ plan_seats job.now job.now.start }
        requires small { self.old.bins.bin < 9 }
        ensures moved { self.new.moved ≡ self.old.moved + 1 }
        ensures visits { self.new.visits ≡ self.old.visits }
        ensures asked { self.new.bins.asked ≡ self.old.bins.asked }
        ensures tested { IsTested job.now state.now.plan self.new }
        ensures counted { (draws : ℕ → ℕ) (visits : ℕ) → IsCounted job.now draws visits self.old → IsCounted job.now draws visits self.new }
    {
        self.moved += 1;
        self.tally
            .update(state, job.setting().asks.as_slice(), room);
        self.bins.update(state, room);
    }
}
