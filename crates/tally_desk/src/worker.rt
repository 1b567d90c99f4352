//! A worker of a run that saves.

use crate::desk::Desk;
use crate::pass::DeskPass;
use crate::posting::{hand_in, post_all};
use audit_io::gate::Gate;
use audit_io::keeper::Keeper;
use audit_model::outcome::Outcome;
use claim_counter::workers::{GatedWalker, StartToken};
use flip_guard::judge::Judge;
use plan_core::job::Job;
use std::sync::Wait;

/// A worker: a walker, a pass, and a buffer of outcomes. The buffer never grows beyond its capacity.
#[derive(Drop)]
pub struct DeskWorker<J: Judge> {
    pub walker: GatedWalker<J>,
    pub pass: DeskPass,
    pub buffered: Vec<Outcome>,
}

impl<J: Judge> DeskWorker<J> {
    ghost use Rattle.std.specs.Prelude.{◌≡◌, vec_capacity};
    ghost use Rattle.tally_desk.specs.Pools.{IsDeskWorkerDone, IsUnstartedAtDesk, WalksAtDesk};

    /// Claims ids until none is left, walks each trajectory, and posts its outcome. Outcomes that cannot be posted at
    /// once are buffered, and posted after a later walk or at the end.
    pub fn run<R: Wait, C: Keeper, G: Gate>(
        &mut self,
        rt: &R,
        job: &Job,
        hub: &[u32],
        gate: &G,
        desk: &Desk<C>,
    )
        requires unstarted { IsUnstartedAtDesk desk.now self.old }
        requires shared { WalksAtDesk job.now desk.now.parts hub.now }
        ensures done { IsDeskWorkerDone desk.now self.new }
        ensures room { vec_capacity self.new.buffered ≡ vec_capacity self.old.buffered }
    {
        let walker = &mut self.walker;
        let pass = &mut self.pass;
        let buffered = &mut self.buffered;
        while let Some(id) = desk.claim(pass) {
            let token = StartToken::announce(gate, id);
            let outcome = walker.walk(job, hub, token);
            hand_in(rt, desk, pass, buffered, outcome);
        }
        post_all(rt, desk, pass, buffered);
    }
}
