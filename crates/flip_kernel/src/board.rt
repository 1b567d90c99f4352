//! The board: a legal plan of a job, with everything that a step reads or updates.

ghost use Rattle.std.specs.Prelude.{◌≡◌, ◌≢◌, ◌+◌, ◌*◌, ◌<◌, ◌≤◌, ◌^◌, ◌-◌, ◌↔◌, ℕ, ⊤, nat_le, length, slice_index, slice_set, IfOk, MatchOption, IsTrue};
ghost use Rattle.audit_model.specs.JobOf.{IsJob};
ghost use Rattle.audit_model.specs.Local.{IsLocal, MayLeave};
ghost use Rattle.audit_model.specs.Job.{rules};
ghost use Rattle.audit_model.specs.Length.{cut_length};
ghost use Rattle.audit_model.specs.Meets.{meets_rules};
ghost use Rattle.audit_model.specs.District.{district_sum};
ghost use Rattle.audit_model.specs.Plan.{IsLegal, cut_edges, least_population, greatest_population};
ghost use Rattle.audit_model.specs.Step.{next};
ghost use Rattle.audit_model.specs.Weight.{is_taken};
ghost use Rattle.district_sums.specs.Following.{StandsFor, count_near, districts_in};
ghost use Rattle.flip_kernel.specs.ChainState.{IsMove, IsStep, IsSummed, KeepsBoundsIn, ProposesOpen, allows, sums_in};
ghost use Rattle.flip_kernel.specs.Judged.{HasConstraintAt};
ghost use Rattle.flip_kernel.specs.OpenPairs.{is_open};

use crate::bounds::are_kept;
use crate::filling::{TriedFillers, fill_holes};
use crate::moving::Flip;
use crate::nearby::NeighborCounts;
use crate::open_pairs::OpenPairs;
use crate::permission::{is_permitted, is_short};
use crate::proposal::Pairs;
use crate::replacing::{Target, replace_units};
use crate::start::{start_of, tables_of};
use crate::weight::is_taken_by;
use crate::writing::shift;
use audit_model::lists::UnitList;
use audit_model::memory::Memory;
use audit_model::outcome::SumsView;
use audit_model::steps::Steps;
use contig::counts::FaceCounts;
use contig::leave::{decide_by_counting, local_holds, may_leave};
use contig::table::FaceTable;
use district_sums::sums::Sums;
use dual_graph::marks::Marks;
use dual_graph::member::Member;
use flip_guard::judge::Judge;
use plan_core::job::Job;
use std::alloc::Global;
use std::marker::Model;
use std::snapshot::Snapshot;
use std::sync::ledger::Ledger;

/// The current plan, which is legal for the job, with its sums and tables.
///
/// `sums` has the sums of the districts. `marks` is the buffer of a search. `faces` has the faces of the graph, and
/// `counts` has the counts of `contig` for each district. `fillers` has units that may fill the holes of a district.
/// `near` has the number of each unit's neighbors in each district, and `open_pairs` the open pairs if the table of
/// `near` is empty. `low` and `high` are the population bounds.
pub struct Board {
    job: Snapshot<Job>,
    plan: UnitList,
    sums: Sums,
    marks: Marks,
    faces: FaceTable,
    counts: FaceCounts,
    fillers: TriedFillers,
    near: NeighborCounts,
    open_pairs: OpenPairs,
    pairs: Pairs,
    low: u64,
    high: u64,
}

/// Drops the fields one by one. Written by hand so that a caller's proof sees one call.
impl Drop for Board {
    fn drop(self) {
        let Board {
            job: _job,
            plan,
            sums,
            marks,
            faces,
            counts,
            fillers,
            near,
            open_pairs,
            pairs: _pairs,
            low: _,
            high: _,
        } = self;
        drop(plan);
        drop(sums);
        drop(marks);
        drop(faces);
        drop(counts);
        drop(fillers);
        drop(near);
        drop(open_pairs);
    }
}

impl Model for Board {
    ghost use Rattle.flip_kernel.specs.ChainState.{ChainState, IsUpToDate};

    ghost Value = { ChainState };

    ghost view = { λ s. record { job = s.job.value; plan = s.plan } };

    ghost invariant = { λ s. IsUpToDate s.job.value s.plan s.sums s.marks.units s.open_pairs s.pairs s.low s.high s.faces s.counts s.near };
}

impl Board {
    /// Allocates a board at the start plan of a job. Fails if there is no memory.
    pub fn new(alloc: Global, job: &Job) -> Result<Board, Memory>
        ensures job { IfOk result (λ s. s.job ≡ job.now) }
        ensures plan { IfOk result (λ s. s.plan ≡ job.now.start) }
    {
        let (plan, sums) = start_of(alloc, job)?;
        match tables_of(alloc, job) {
            Ok((marks, near, open_pairs, faces, counts, fillers)) => {
                let (low, high) = job.limits();
                Ok(Board {
                    job: Snapshot::of(job),
                    plan,
                    sums,
                    marks,
                    faces,
                    counts,
                    fillers: TriedFillers::new(fillers),
                    near,
                    open_pairs,
                    pairs: Pairs::of(job.units(), job.districts()),
                    low,
                    high,
                })
            }
            Err(_) => {
                drop(plan);
                drop(sums);
                Err(Memory)
            }
        }
    }

    /// Replaces the current plan by another legal plan. It allocates nothing.
    pub fn set(&mut self, job: &Job, plan: &[u32])
        requires made { self.old.job ≡ job.now }
        requires legal { IsLegal job.now plan.now }
        ensures { self.new ≡ record self.old { plan = plan.now } }
    {
        if !self.has_plan(plan) {
            self.replace_plan(job, plan);
        }
    }

    /// Returns true if this is the current plan.
    fn has_plan(&self, plan: &[u32]) -> bool
        ensures { IsTrue result → self.now.plan ≡ plan.now }
    {
        self.plan.as_slice() == plan
    }

    /// Does the work of `set`: updates the tables for each unit that is in another district.
    fn replace_plan(&mut self, job: &Job, plan: &[u32])
        requires made { self.old.job ≡ job.now }
        requires legal { IsLegal job.now plan.now }
        ensures { self.new ≡ record self.old { plan = plan.now } }
    {
        let graph = job.graph();
        let districts = self.pairs.districts;
        let target = Target {
            graph,
            columns: job.counts(),
            faces: &self.faces,
            districts,
            plan,
        };
        replace_units(
            target,
            &mut self.plan,
            &mut self.sums,
            &mut self.near,
            &mut self.counts,
        );
        self.open_pairs.refill(graph, plan, districts, &self.near);
        self.fillers.clear();
    }

    /// Returns the current plan.
    #[inline]
    pub fn plan(&self) -> &UnitList
        ensures value { result.now ≡ self.now.plan }
        ensures legal { IsLegal self.now.job self.now.plan }
        ensures sound { IsJob self.now.job }
    {
        &self.plan
    }

    /// Returns the sums of the current plan.
    #[inline]
    pub fn view(&self) -> &SumsView
        ensures value { result.now ≡ sums_in self.now.job self.now.plan }
        ensures legal { IsLegal self.now.job self.now.plan }
        ensures sound { IsJob self.now.job }
    {
        self.sums.view()
    }

    /// Returns true if the pair at a place is open.
    #[inline]
    fn has_open(&self, place: usize) -> bool
        requires { place < self.now.job.graph.units * self.now.job.districts }
        ensures { (u d : ℕ) → u < self.now.job.graph.units → d < self.now.job.districts → place ≡ u * self.now.job.districts + d
            → result ≡ is_open self.now.job.graph self.now.plan u d }
    {
        self.open_pairs.has(place, &self.near)
    }

    /// Returns the pair that a draw proposes, if the pair is open. Otherwise the step does not change the plan.
    #[inline]
    pub(crate) fn proposal_of(&self, draw: u64) -> Option<(u32, u32)>
        ensures { MatchOption result (next self.now.job self.now.plan draw ≡ self.now.plan)
            (λ pair. ProposesOpen self.now.job self.now.plan draw pair.0 pair.1) }
    {
        let place = self.pairs.rest(draw);
        if !self.has_open(place as usize) || self.pairs.is_past(draw, place) {
            return None;
        }
        Some(self.pairs.at(place))
    }

    /// Returns true if both districts of the flip stay within the population bounds.
    #[inline]
    pub(crate) fn keeps_bounds(&self, flip: Flip) -> bool
        requires made { self.now.job ≡ flip.job.now }
        requires elsewhere { slice_index self.now.plan flip.unit ≢ flip.district }
        ensures value { IsTrue result ↔ KeepsBoundsIn flip.entry.job.now self.now.plan flip.entry.unit flip.entry.district }
        ensures legal { IsLegal self.now.job self.now.plan }
        ensures sound { IsJob self.now.job }
    {
        let people = flip.job.counts().population.as_slice()[flip.unit as usize];
        let home = self.plan.as_slice()[flip.unit as usize];
        let populations = self.sums.view().population.as_slice();
        are_kept(
            self.low,
            self.high,
            people,
            populations[home as usize],
            populations[flip.district as usize],
        )
    }

    /// Returns true if the draw takes the change of cut edges by the flip. Without a weight, every draw does.
    #[inline(always)]
    fn takes(&self, flip: Flip, draw: u64) -> bool
        requires made { self.now.job ≡ flip.job.now }
        ensures { result ≡ is_taken flip.entry.job.now self.now.plan (slice_set self.now.plan flip.entry.unit flip.entry.district) draw }
    {
        // Reading a field makes the type's invariant known to the prover.
        let sums = &self.sums;
        if flip.job.setting().cut_weight == 256 {
            return true;
        }
        is_taken_by(flip, draw, &self.pairs, sums, &self.near, &self.plan)
    }

    /// Returns true if the constraint permits the plan after the flip. One that limits nothing is not asked.
    #[inline]
    fn permits<J: Judge>(&mut self, judge: &J, flip: Flip) -> bool
        requires made { self.old.job ≡ flip.job.now }
        requires judge { HasConstraintAt flip.job.now self.old.plan (J.judging judge.now) }
        requires elsewhere { slice_index self.old.plan flip.unit ≢ flip.district }
        ensures meets { let after = slice_set self.old.plan flip.entry.unit flip.entry.district in
            result ≡ meets_rules (rules flip.entry.job.now) (cut_edges flip.entry.job.now.graph after) after }
        ensures same { self.new ≡ self.old }
    {
        let _ = &self.sums;
        if judge.limits_nothing() {
            return true;
        }
        is_permitted(judge, flip, &self.near, &mut self.sums, &mut self.plan)
    }

    /// Returns true if the total length of the cut edges after the flip is at most the limit.
    #[inline]
    fn keeps_length(&self, flip: Flip) -> bool
        requires made { self.now.job ≡ flip.job.now }
        ensures { result ≡ nat_le (cut_length flip.entry.job.now.graph flip.entry.job.now.counts.lengths (slice_set self.now.plan flip.entry.unit flip.entry.district))
            flip.entry.job.now.setting.max_length }
    {
        let sums = &self.sums;
        if flip.job.counts().lengths.len() == 0 {
            return true;
        }
        is_short(flip, sums, &self.plan)
    }

    /// Returns true if the plan after the flip meets the rules, and its cut edges are not too long in total.
    #[inline(always)]
    fn allows<J: Judge>(&mut self, judge: &J, flip: Flip) -> bool
        requires made { self.old.job ≡ flip.job.now }
        requires judge { HasConstraintAt flip.job.now self.old.plan (J.judging judge.now) }
        requires elsewhere { slice_index self.old.plan flip.unit ≢ flip.district }
        ensures allows { result ≡ allows flip.entry.job.now (slice_set self.old.plan flip.entry.unit flip.entry.district) }
        ensures same { self.new ≡ self.old }
    {
        if !self.keeps_length(flip) {
            return false;
        }
        self.permits(judge, flip)
    }

    /// Decides if the unit may leave its district, by the number of its neighbors there, then by the links and counts
    /// of `contig`, then by the neighbors that would be left alone. Returns `None` if these tests do not decide.
    #[inline(always)]
    fn decide_by_counting(&self, job: &Job, unit: u32) -> Option<bool>
        requires made { self.now.job ≡ job.now }
        requires unit { unit < job.now.graph.units }
        ensures observed { MatchOption result ⊤ (λ may. IsTrue may ↔ MayLeave job.now.graph self.now.plan unit) }
        ensures legal { IsLegal self.now.job self.now.plan }
        ensures sound { IsJob self.now.job }
    {
        let graph = job.graph();
        let leaving = Member {
            graph,
            plan: self.plan.as_slice(),
            unit,
        };
        if self.near.has_one_mate(leaving, self.pairs.districts) {
            return Some(true);
        }
        let decided = decide_by_counting(leaving, &self.faces, &self.counts);
        if decided.is_some() || !self.near.has_lone_mate(leaving, self.pairs.districts) {
            return decided;
        }
        Some(false)
    }

    /// Returns true if the unit may leave its district. The district is searched only if the unit's neighbors in it are
    /// not connected among themselves. `steps` counts the search. Tests count the calls, so there are calls.
    #[inline(never)]
    fn decide_by_search<L: Ledger>(&mut self, job: &Job, unit: u32, steps: &mut Steps<L>) -> bool
        requires made { self.old.job ≡ job.now }
        requires unit { unit < job.now.graph.units }
        ensures leaves { IsTrue result ↔ MayLeave job.now.graph self.old.plan unit }
        ensures same { self.new ≡ self.old }
        ensures searches { (steps.old ≤ steps.new) × (steps.new ≤ steps.old + 1) }
        ensures local { IsLocal job.now.graph self.old.plan unit → steps.new ≡ steps.old }
    {
        may_leave(
            job.graph(),
            self.plan.as_slice(),
            unit,
            &mut self.marks,
            steps,
        )
    }

    /// Decides by filling holes of the unit's district if the unit may leave it. Returns `None` if filling does not
    /// decide, or if the district has no fillers.
    fn decide_by_filling(&mut self, job: &Job, unit: u32) -> Option<bool>
        requires made { self.old.job ≡ job.now }
        requires unit { unit < job.now.graph.units }
        ensures observed { MatchOption result ⊤ (λ may. IsTrue may ↔ MayLeave job.now.graph self.old.plan unit) }
        ensures same { self.new ≡ self.old }
    {
        let home = self.plan.as_slice()[unit as usize];
        let fillers = self.fillers.of(home);
        if fillers.is_empty() {
            return None;
        }
        let decided = fill_holes(
            job.graph(),
            &mut self.plan,
            unit,
            &self.faces,
            &self.counts,
            fillers,
        );
        self.fillers.note(decided.is_some());
        decided
    }

    /// Returns true if the unit may leave its district. It is searched only if filling its holes does not decide.
    fn can_leave<L: Ledger>(&mut self, job: &Job, unit: u32, steps: &mut Steps<L>) -> bool
        requires made { self.old.job ≡ job.now }
        requires unit { unit < job.now.graph.units }
        ensures leaves { IsTrue result ↔ MayLeave job.now.graph self.old.plan unit }
        ensures same { self.new ≡ self.old }
        ensures searches { (steps.old ≤ steps.new) × (steps.new ≤ steps.old + 1) }
        ensures local { IsLocal job.now.graph self.old.plan unit → steps.new ≡ steps.old }
    {
        match self.decide_by_filling(job, unit) {
            Some(may) => may,
            None => self.decide_by_search(job, unit, steps),
        }
    }

    /// Decides without a search if a flip is a move. The pair must be open and the flip within the population bounds.
    ///
    /// The tests of contiguity come first, then the length of cut edges and the rules. If the result is `None`, the
    /// flip is a move exactly if the unit may leave its district.
    fn decide_without_search<J: Judge>(&mut self, judge: &J, flip: Flip) -> Option<bool>
        requires made { self.old.job ≡ flip.job.now }
        requires judge { HasConstraintAt flip.job.now self.old.plan (J.judging judge.now) }
        requires beside { IsTrue (is_open flip.job.now.graph self.old.plan flip.unit flip.district) }
        requires kept { KeepsBoundsIn flip.job.now self.old.plan flip.unit flip.district }
        ensures decided { MatchOption result
            (MayLeave flip.entry.job.now.graph self.old.plan flip.entry.unit ↔ IsMove flip.entry.job.now self.old.plan flip.entry.unit flip.entry.district)
            (λ moves. IsTrue moves ↔ IsMove flip.entry.job.now self.old.plan flip.entry.unit flip.entry.district) }
        ensures same { self.new ≡ self.old }
    {
        match self.decide_by_counting(flip.job, flip.unit) {
            Some(false) => Some(false),
            Some(true) => Some(self.allows(judge, flip)),
            None => {
                if self.allows(judge, flip) {
                    None
                } else {
                    Some(false)
                }
            }
        }
    }

    /// Returns true if a flip within the population bounds is a move that the draw takes. The pair must be open.
    /// `steps` counts a search of the district.
    pub(crate) fn may_move_within<J: Judge, L: Ledger>(
        &mut self,
        judge: &J,
        flip: Flip,
        draw: u64,
        steps: &mut Steps<L>,
    ) -> bool
        requires made { self.old.job ≡ flip.job.now }
        requires judge { HasConstraintAt flip.job.now self.old.plan (J.judging judge.now) }
        requires beside { IsTrue (is_open flip.job.now.graph self.old.plan flip.unit flip.district) }
        requires kept { KeepsBoundsIn flip.job.now self.old.plan flip.unit flip.district }
        ensures moves { IsTrue result ↔ IsStep flip.entry.job.now self.old.plan draw flip.entry.unit flip.entry.district }
        ensures same { self.new ≡ self.old }
        ensures searches { (steps.old ≤ steps.new) × (steps.new ≤ steps.old + 1) }
        ensures local { IsLocal flip.entry.job.now.graph self.old.plan flip.entry.unit → steps.new ≡ steps.old }
    {
        if !self.takes(flip, draw) {
            return false;
        }
        match self.decide_without_search(judge, flip) {
            Some(moves) => moves,
            None => self.can_leave(flip.job, flip.unit, steps),
        }
    }

    /// Returns true if `may_move` would search a district for this flip. Test programs count searches with it. Nothing
    /// is proved of the result.
    pub(crate) fn asks_search<J: Judge>(&mut self, judge: &J, flip: Flip, draw: u64) -> bool
        requires made { self.old.job ≡ flip.job.now }
        requires judge { HasConstraintAt flip.job.now self.old.plan (J.judging judge.now) }
        requires beside { IsTrue (is_open flip.job.now.graph self.old.plan flip.unit flip.district) }
        ensures same { self.new ≡ self.old }
    {
        if !self.keeps_bounds(flip) || !self.takes(flip, draw) {
            return false;
        }
        if self.decide_without_search(judge, flip).is_some() {
            return false;
        }
        self.decide_by_filling(flip.job, flip.unit).is_none() && !self.is_local(flip.job, flip.unit)
    }

    /// Returns true if the unit's neighbors in its district are connected among themselves.
    fn is_local(&mut self, job: &Job, unit: u32) -> bool
        requires made { self.old.job ≡ job.now }
        requires unit { unit < job.now.graph.units }
        ensures { self.new ≡ self.old }
    {
        local_holds(job.graph(), self.plan.as_slice(), unit, &mut self.marks)
    }

    /// Makes a move.
    #[inline(always)]
    pub(crate) fn make_move(&mut self, flip: Flip)
        requires made { self.old.job ≡ flip.job.now }
        requires allowed { IsMove flip.job.now self.old.plan flip.unit flip.district }
        ensures { self.new ≡ record self.old { plan = slice_set self.old.plan flip.entry.unit flip.entry.district } }
    {
        let graph = flip.job.graph();
        let home = self.plan.as_slice()[flip.unit as usize];
        let leaving = Member {
            graph,
            plan: self.plan.as_slice(),
            unit: flip.unit,
        };
        let districts = self.pairs.districts;
        let mates = self.near.mates(leaving, districts, home, flip.district);
        self.counts
            .follow(&self.faces, leaving, flip.district, mates);
        self.near.follow(leaving, districts, flip.district);
        shift(flip, mates, &mut self.sums, &mut self.plan);
        let moved = Member {
            graph,
            plan: self.plan.as_slice(),
            unit: flip.unit,
        };
        self.open_pairs.update(moved, districts, home, &self.near);
        self.fillers.follow(&self.faces, moved, home, &self.counts);
    }
}
