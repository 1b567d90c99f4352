//! The state of the chain: the board with the constraint.

ghost use Rattle.std.specs.Prelude.{◌≡◌, ◌+◌, ◌<◌, ◌≤◌, ◌↔◌, ℕ, ⊤, length, slice_index, slice_set, IfOk, MatchOption, IsTrue, IsFalse};
ghost use Rattle.audit_model.specs.JobOf.{IsJob};
ghost use Rattle.audit_model.specs.Local.{IsLocal};
ghost use Rattle.audit_model.specs.Plan.{IsLegal};
ghost use Rattle.audit_model.specs.Step.{next};
ghost use Rattle.flip_kernel.specs.ChainState.{IsMove, IsStep, KeepsBoundsIn, ProposesOpen, sums_in};
ghost use Rattle.flip_kernel.specs.Judged.{IsJudgeFor};
ghost use Rattle.flip_kernel.specs.OpenPairs.{is_open};

use crate::board::Board;
use crate::moving::Flip;
use audit_model::lists::UnitList;
use audit_model::memory::Memory;
use audit_model::outcome::SumsView;
use audit_model::steps::Steps;
use flip_guard::judge::Judge;
use plan_core::job::Job;
use std::alloc::Global;
use std::marker::Model;
use std::sync::ledger::Ledger;

/// The board and the constraint. The constraint is asked before each move, and updated after it.
#[derive(Drop)]
pub struct State<J: Judge> {
    board: Board,
    judge: J,
}

impl<J: Judge> Model for State<J> {
    ghost use Rattle.flip_kernel.specs.ChainState.{ChainState};
    ghost use Rattle.flip_kernel.specs.Judged.{HasConstraintAt};

    ghost Value = { ChainState };

    ghost view = { λ s. s.board };

    ghost invariant = { λ s. HasConstraintAt s.board.job s.board.plan (J.judging s.judge) };
}

impl<J: Judge> State<J> {
    /// Allocates the state at the start plan of a job. Fails if there is no memory.
    pub fn new(alloc: Global, job: &Job, judge: J) -> Result<State<J>, Memory>
        requires judge { IsJudgeFor job.now (J.judging judge) }
        ensures job { IfOk result (λ s. s.job ≡ job.now) }
        ensures plan { IfOk result (λ s. s.plan ≡ job.now.start) }
    {
        let board = Board::new(alloc, job)?;
        let mut judge = judge;
        judge.reset(job.start().as_slice());
        Ok(State { board, judge })
    }

    /// Replaces the current plan by another legal plan. It allocates nothing.
    pub fn set(&mut self, job: &Job, plan: &[u32])
        requires made { self.old.job ≡ job.now }
        requires legal { IsLegal job.now plan.now }
        ensures unchanged { self.new ≡ record self.old { plan = plan.now } }
    {
        self.board.set(job, plan);
        self.judge.reset(plan);
    }

    /// Returns the current plan.
    #[inline]
    pub fn plan(&self) -> &UnitList
        ensures value { result.now ≡ self.now.plan }
        ensures legal { IsLegal self.now.job self.now.plan }
        ensures sound { IsJob self.now.job }
    {
        self.board.plan()
    }

    /// Returns the sums of the current plan.
    #[inline]
    pub fn view(&self) -> &SumsView
        ensures value { result.now ≡ sums_in self.now.job self.now.plan }
        ensures legal { IsLegal self.now.job self.now.plan }
        ensures sound { IsJob self.now.job }
    {
        self.board.view()
    }

    /// Returns the pair that a draw proposes, if the pair is open. The board stays private, so that
    /// no other module changes the plan without updating the constraint.
    #[inline]
    pub(crate) fn proposal_of(&self, draw: u64) -> Option<(u32, u32)>
        ensures { MatchOption result (next self.now.job self.now.plan draw ≡ self.now.plan)
            (λ pair. ProposesOpen self.now.job self.now.plan draw pair.0 pair.1) }
    {
        self.board.proposal_of(draw)
    }

    /// Finds the first draw from the place `first` on that proposes an open pair. Returns its place
    /// among the draws, the unit and the district. No draw before it changes the plan.
    ///
    /// The loop reads fields of the board and writes nothing, so the fields stay in registers.
    #[inline(always)]
    pub(crate) fn find_open(&self, draws: &[u64], first: usize) -> Option<(usize, u32, u32)>
        ensures closed { (k : ℕ) → first ≤ k → k < length draws.now → MatchOption result ⊤ (λ found. k < found.0) → next self.now.job self.now.plan (slice_index draws.now k) ≡ self.now.plan }
        ensures found { MatchOption result ⊤ (λ found. (first ≤ found.0) × (found.0 < length draws.now) × ProposesOpen self.now.job self.now.plan (slice_index draws.now found.0) found.1 found.2) }
    {
        for place in first..draws.len() {
            match self.proposal_of(draws[place]) {
                None => {}
                Some((unit, district)) => return Some((place, unit, district)),
            }
        }
        None
    }

    /// Returns true if the flip is a move that the draw takes. The pair must be open. Neither the plan nor
    /// the constraint changes.
    pub(crate) fn may_move<L: Ledger>(
        &mut self,
        flip: Flip,
        draw: u64,
        steps: &mut Steps<L>,
    ) -> bool
        requires made { self.old.job ≡ flip.job.now }
        requires beside { IsTrue (is_open flip.job.now.graph self.old.plan flip.unit flip.district) }
        ensures moves { IsTrue result ↔ IsStep flip.entry.job.now self.old.plan draw flip.entry.unit flip.entry.district }
        ensures same { self.new ≡ self.old }
        ensures searches { (steps.old ≤ steps.new) × (steps.new ≤ steps.old + 1) }
        ensures local { IsLocal flip.entry.job.now.graph self.old.plan flip.entry.unit → steps.new ≡ steps.old }
    {
        if !self.board.keeps_bounds(flip) {
            return false;
        }
        self.board.may_move_within(&self.judge, flip, draw, steps)
    }

    /// Returns true if the step of this draw searches a district.
    pub fn asks_search(&mut self, job: &Job, draw: u64) -> bool
        requires made { self.old.job ≡ job.now }
        ensures same { self.new ≡ self.old }
    {
        match self.board.proposal_of(draw) {
            None => false,
            Some((unit, district)) => {
                let flip = Flip {
                    job,
                    unit,
                    district,
                };
                self.board.asks_search(&self.judge, flip, draw)
            }
        }
    }

    /// Makes a move, and updates the constraint.
    fn make_move(&mut self, flip: Flip)
        requires made { self.old.job ≡ flip.job.now }
        requires allowed { IsMove flip.job.now self.old.plan flip.unit flip.district }
        ensures unchanged { self.new ≡ record self.old { plan = slice_set self.old.plan flip.entry.unit flip.entry.district } }
    {
        let home = self.board.plan().as_slice()[flip.unit as usize];
        self.board.make_move(flip);
        self.judge
            .moved(self.board.plan().as_slice(), flip.unit, home);
    }

    /// Makes the flip if it is a move that the draw takes. Returns true if the flip was made. The pair must be open.
    ///
    /// The population bounds are tested first, because they reject most flips that get this far.
    #[inline]
    pub(crate) fn flip<L: Ledger>(&mut self, flip: Flip, draw: u64, steps: &mut Steps<L>) -> bool
        requires made { self.old.job ≡ flip.job.now }
        requires beside { IsTrue (is_open flip.job.now.graph self.old.plan flip.unit flip.district) }
        ensures moves { IsTrue result ↔ IsStep flip.entry.job.now self.old.plan draw flip.entry.unit flip.entry.district }
        ensures moved { IsTrue result → self.new ≡ record self.old { plan = slice_set self.old.plan flip.entry.unit flip.entry.district } }
        ensures unchanged { IsFalse result → self.new ≡ self.old }
        ensures searches { (steps.old ≤ steps.new) × (steps.new ≤ steps.old + 1) }
        ensures local { IsLocal flip.entry.job.now.graph self.old.plan flip.entry.unit → steps.new ≡ steps.old }
    {
        if !self.board.keeps_bounds(flip) {
            return false;
        }
        self.flip_within(flip, draw, steps)
    }

    /// Does the work of `flip` for a flip within the population bounds. Few flips get this far, so
    /// the code is kept out of line.
    #[inline(never)]
    fn flip_within<L: Ledger>(&mut self, flip: Flip, draw: u64, steps: &mut Steps<L>) -> bool
        requires made { self.old.job ≡ flip.job.now }
        requires beside { IsTrue (is_open flip.job.now.graph self.old.plan flip.unit flip.district) }
        requires kept { KeepsBoundsIn flip.job.now self.old.plan flip.unit flip.district }
        ensures moves { IsTrue result ↔ IsStep flip.entry.job.now self.old.plan draw flip.entry.unit flip.entry.district }
        ensures moved { IsTrue result → self.new ≡ record self.old { plan = slice_set self.old.plan flip.entry.unit flip.entry.district } }
        ensures unchanged { IsFalse result → self.new ≡ self.old }
        ensures searches { (steps.old ≤ steps.new) × (steps.new ≤ steps.old + 1) }
        ensures local { IsLocal flip.entry.job.now.graph self.old.plan flip.entry.unit → steps.new ≡ steps.old }
    {
        if !self.board.may_move_within(&self.judge, flip, draw, steps) {
            return false;
        }
        self.make_move(flip);
        true
    }
}
