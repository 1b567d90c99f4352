//! The progress of a trajectory that is walked in several calls.

ghost use Rattle.std.specs.Prelude.{◌≡◌, ◌+◌, ◌≤◌, ◌^◌, List, ℕ};
ghost use Rattle.walker.specs.Walked.{IsWalked};

use crate::steps::walk_on;
use audit_model::steps::Steps;
use chacha_draws::Draws;
use flip_guard::judge::Judge;
use flip_kernel::state::State;
use plan_core::job::Job;
use std::marker::Model;
use std::sync::ledger::Ledger;

/// The progress of a trajectory: its next draw, and its number of moves so far.
#[derive(Drop)]
pub struct Way {
    draws: Draws,
    moved: u32,
}

impl Model for Way {
    ghost use Rattle.std.specs.Prelude.{◌≤◌};
    ghost use Rattle.walker.specs.Walked.{Under};

    ghost Value = { Under };

    ghost view = { λ w. record { draws = w.draws; moved = w.moved } };

    ghost invariant = { λ w. w.moved ≤ w.draws.place };
}

impl Way {
    /// Returns the progress before the first step of a trajectory that draws from `stream`.
    pub(crate) fn new(key: [u8; 32], stream: u64) -> Way
        ensures key { result.draws.key ≡ key }
        ensures stream { result.draws.stream ≡ stream }
        ensures place { result.draws.place ≡ 0 }
        ensures moved { result.moved ≡ 0 }
    {
        Way {
            draws: Draws::new(key, stream),
            moved: 0,
        }
    }

    /// Returns the number of moves so far.
    pub fn move_count(&self) -> u32
        ensures { result ≡ self.now.moved }
    {
        self.moved
    }

    /// Takes `steps` more steps.
    pub(crate) fn go_on<J: Judge, L: Ledger>(
        &mut self,
        job: &Job,
        state: &mut State<J>,
        steps: u32,
        counter: &mut Steps<L>,
    )
        requires made { state.old.job ≡ job.now }
        requires few { self.old.draws.place + steps ≤ 10 ^ 9 }
        ensures made { state.new.job ≡ job.now }
        ensures walked { (key : List ℕ) (stream : ℕ) (plan : List ℕ) (place : ℕ) → IsWalked job.now key stream plan place state.old self.old.draws self.old.moved
            → IsWalked job.now key stream plan (place + steps) state.new self.new.draws self.new.moved }
    {
        self.moved += walk_on(job, state, &mut self.draws, steps, counter);
    }
}
