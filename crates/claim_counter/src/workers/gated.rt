//! Walkers that cannot start a trajectory before the gate has received the trajectory's id.

ghost use Rattle.std.specs.Prelude.{◌≡◌, ◌+◌, ◌-◌, ◌<◌, ◌≤◌, ◌^◌};
ghost use Rattle.audit_statement.specs.Draw.{draw};
ghost use Rattle.audit_model.specs.Trajectory.{hub as hub_of, outcome};

use crate::workers::counted::CountedWalker;
use audit_io::gate::Gate;
use audit_model::outcome::Outcome;
use flip_guard::judge::Judge;
use plan_core::job::Job;
use std::marker::Model;
use walker::walker::Walker;

/// A start token: proof that the gate has received an id. Only `announce` makes a token, and a walk
/// consumes it, so each token permits one walk. A token can be neither copied nor dropped.
pub struct StartToken {
    id: u32,
}

impl Model for StartToken {
    ghost use Rattle.std.specs.Prelude.{ℕ};

    ghost Value = { ℕ };

    ghost view = { λ t. t.id };
}

impl StartToken {
    /// Gives the gate the id of a trajectory, and returns the token that permits its walk.
    pub fn announce<G: Gate>(gate: &G, id: u32) -> StartToken
        ensures { result ≡ id }
    {
        gate.before(id);
        StartToken { id }
    }
}

/// A walker that takes a start token for each trajectory, and counts its walks.
#[derive(Drop)]
pub struct GatedWalker<J: Judge> {
    walker: CountedWalker<J>,
}

impl<J: Judge> Model for GatedWalker<J> {
    ghost use Rattle.claim_counter.specs.Counts.{WalkCount};

    ghost Value = { WalkCount };

    ghost view = { λ w. w.walker };
}

impl<J: Judge> GatedWalker<J> {
    /// Wraps a walker, so that each of its walks takes a start token.
    pub fn new(walker: Walker<J>) -> GatedWalker<J>
        ensures job { result.job ≡ walker.job }
        ensures none { result.walks ≡ 0 }
    {
        GatedWalker {
            walker: CountedWalker::new(walker),
        }
    }

    /// Walks the trajectory of the token once, and returns its outcome. A walk of the outlier test begins at the start
    /// plan and does not use `hub`. An endpoint trajectory begins at `hub`. Allocates nothing.
    pub fn walk(&mut self, job: &Job, hub: &[u32], token: StartToken) -> Outcome
        requires made { self.old.job ≡ job.now }
        requires id { token < job.now.setting.walks + job.now.setting.ends }
        requires hub { job.now.setting.walks ≤ token → hub.now ≡ hub_of job.now (draw job.now.setting.key) }
        ensures outcome { result ≡ outcome job.now (draw job.now.setting.key) token }
        ensures made { self.new.job ≡ job.now }
        ensures counted { self.old.walks < 2 ^ 64 - 1 → self.new.walks ≡ self.old.walks + 1 }
    {
        let StartToken { id } = token;
        self.walker.walk(job, hub, id)
    }

    /// Returns the wrapped walker.
    pub fn into_walker(self) -> Walker<J>
        ensures { result.job ≡ self.job }
    {
        let GatedWalker { walker } = self;
        walker.into_walker()
    }
}
