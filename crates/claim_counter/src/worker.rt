//! The work of one worker.

use crate::workers::{GatedWalker, StartToken};
use crate::{Claims, Pass};
use audit_io::gate::Gate;
use audit_model::buffers::OutcomeList;
use audit_model::outcome::Outcome;
use flip_guard::judge::Judge;
use plan_core::job::Job;

/// A worker during a batch: a walker, a pass, and a share with capacity for the outcomes of all numbers that the pass
/// may draw.
#[derive(Drop)]
pub struct Worker<J: Judge> {
    pub walker: GatedWalker<J>,
    pub pass: Pass,
    pub share: OutcomeList,
}

impl<J: Judge> Worker<J> {
    ghost use Rattle.claim_counter.specs.Workers.{IsShared};
    ghost use Rattle.claim_counter.specs.Batches.{IsBack, IsStarted};

    /// Draws indices of `todo` until none is left. After each draw, gives the gate the id at this index, walks the
    /// trajectory with this id, and appends the outcome to `share`.
    pub fn run<G: Gate>(&mut self, job: &Job, todo: &[u32], hub: &[u32], gate: &G, claims: &Claims)
        requires started { IsStarted job.now claims.now self.old }
        requires shared { IsShared job.now todo.now hub.now claims.now }
        ensures { IsBack job.now todo.now claims.now self.new }
    {
        let walker = &mut self.walker;
        let pass = &mut self.pass;
        let share = &mut self.share;
        while let Some(place) = claims.claim(pass) {
            let id = todo[place as usize];
            let token = StartToken::announce(gate, id);
            append(share, walker.walk(job, hub, token));
        }
    }
}

ghost use Rattle.std.specs.Prelude.{◌≡◌, ◌≤◌, ◌+◌, ◌++◌, [], ◌∷◌};

fn append(share: &mut OutcomeList, outcome: Outcome)
    requires { 1 ≤ share.old.spare }
    ensures items { share.new.items ≡ share.old.items ++ outcome ∷ [] }
    ensures spare { share.new.spare + 1 ≡ share.old.spare }
{
    // The push cannot fail: the list has spare capacity.
    let _ = share.push(outcome);
}
