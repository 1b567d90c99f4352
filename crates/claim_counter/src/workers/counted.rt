//! A walker that counts its walks.

ghost use Rattle.std.specs.Prelude.{◌≡◌, ◌+◌, ◌-◌, ◌<◌, ◌≤◌, ◌^◌};
ghost use Rattle.audit_statement.specs.Draw.{draw};
ghost use Rattle.audit_model.specs.Trajectory.{hub as hub_of, outcome};

use audit_model::outcome::Outcome;
use flip_guard::judge::Judge;
use plan_core::job::Job;
use std::marker::Model;
use walker::walker::Walker;

/// A walker that counts its walks. The count stops at its largest value. Code outside this module cannot walk without
/// counting.
#[derive(Drop)]
pub struct CountedWalker<J: Judge> {
    walker: Walker<J>,
    walks: u64,
}

impl<J: Judge> Model for CountedWalker<J> {
    ghost use Rattle.claim_counter.specs.Counts.{WalkCount};

    ghost Value = { WalkCount };

    ghost view = { λ w. record { job = w.walker.job; walks = w.walks } };
}

impl<J: Judge> CountedWalker<J> {
    /// Makes a walker that has not walked yet.
    pub fn new(walker: Walker<J>) -> CountedWalker<J>
        ensures job { result.job ≡ walker.job }
        ensures none { result.walks ≡ 0 }
    {
        CountedWalker { walker, walks: 0 }
    }

    /// Walks the trajectory with this id, as `Walker::walk` does, and counts it. Allocates nothing.
    pub fn walk(&mut self, job: &Job, hub: &[u32], id: u32) -> Outcome
        requires made { self.old.job ≡ job.now }
        requires id { id < job.now.setting.walks + job.now.setting.ends }
        requires hub { job.now.setting.walks ≤ id → hub.now ≡ hub_of job.now (draw job.now.setting.key) }
        ensures outcome { result ≡ outcome job.now (draw job.now.setting.key) id }
        ensures made { self.new.job ≡ job.now }
        ensures counted { self.old.walks < 2 ^ 64 - 1 → self.new.walks ≡ self.old.walks + 1 }
    {
        self.walks = self.walks.saturating_add(1);
        self.walker.walk(job, hub, id)
    }

    /// Returns the wrapped walker.
    pub fn into_walker(self) -> Walker<J>
        ensures { result.job ≡ self.job }
    {
        let CountedWalker { walker, walks: _ } = self;
        walker
    }
}
