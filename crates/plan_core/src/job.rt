//! The job of a run.

ghost use Rattle.std.specs.Prelude.{◌≡◌, ◌+◌, ◌<◌, ◌≤◌, ◌↔◌, ◌⊎◌, ℕ, [], true, None, Some, Ok, Err, length, slice_index, pos, IsTrue, IfOk, IfSome, MatchResult};
ghost use Rattle.std.specs.List.{slice_get, slice_index_or};
ghost use Rattle.audit_model.specs.declared.fault.PlanFault.TheVariants as plan;
ghost use Rattle.audit_model.specs.Job.{home_of, total_population, total_votes, rules};
ghost use Rattle.audit_model.specs.JobOf.{IsJob, job_from, job_of, job_with, plan_fault};
ghost use Rattle.audit_model.specs.Length.{cut_length};
ghost use Rattle.audit_model.specs.Limits.{IsWithinLimits, most_districts};
ghost use Rattle.audit_model.specs.Meets.{keeps_frozen, majorities};
ghost use Rattle.audit_model.specs.Plan.{IsLegal, is_legal, least_population, greatest_population};
ghost use Rattle.audit_model.specs.Trajectory.{plan_value};
ghost use Rattle.dual_graph.specs.Read.{parsed_of};
ghost use Rattle.plan_core.specs.Valued.{IsValued};

use crate::input::Input;
use crate::values::start_values;
use audit_model::fault::PlanFault;
use audit_model::lists::{LabelList, UnitList};
use audit_model::origin::Origin;
use audit_model::outcome::Counts;
use audit_model::rules::Rules;
use audit_model::setting::Setting;
use dual_graph::graph::Graph;
use dual_graph::marks::Marks;
use dual_graph::parsed::Parsed;
use std::alloc::Global;
use std::marker::Model;

/// A graph with its counts, a legal start plan, a setting and the rules for plans.
///
/// `values` caches the numerator of the start plan's score for each ask, then zeros.
#[derive(Drop)]
pub struct Job {
    input: Input,
    values: [i64; 4],
}

impl Model for Job {
    ghost use Rattle.audit_model.specs.Job.{Job as JobValue};
    ghost use Rattle.plan_core.specs.Valued.{IsValued};

    ghost Value = { JobValue };

    ghost view = { λ j. j.input };

    ghost invariant = { λ j. IsValued j.input j.values };
}

fn entry(values: &[i64], place: usize) -> i64
    requires { place < length values.now }
    ensures { result ≡ slice_index_or values.now place (pos 0) }
{
    values[place]
}

// Checks the start plan and computes its value for each ask. Returns the first fault if the plan is
// not legal.
fn values_of(alloc: Global, input: &Input) -> Result<[i64; 4], PlanFault>
    requires { IsWithinLimits input.now }
    ensures { MatchResult result (λ values. IsValued input.now values × (plan_fault input.now ≡ None))
        (λ fault. (fault ≡ plan.Memory) ⊎ (plan_fault input.now ≡ Some fault)) }
{
    match input.plan_fault(alloc)? {
        Some(fault) => Err(fault),
        None => Ok(start_values(alloc, input)?),
    }
}

impl Job {
    /// Makes a job without regions from the data of a source and a setting. The origin is empty.
    ///
    /// # Errors
    ///
    /// The first of these faults, in this order:
    ///
    /// - `NoVotes`: the efficiency gap is asked for, and no unit has a vote.
    /// - `OutOfBounds`: the least district whose population is outside the bounds.
    /// - `Disconnected`: the least district that is not connected. `one` is the district's least
    ///   unit, and `other` the least unit that no path within the district connects to `one`.
    /// - `TooManyCut`: the plan cuts more edges than the setting allows. `cut` is their number.
    /// - `TooFewMajorities`: the group has a majority in fewer districts than the setting requires.
    ///   `districts` is the number of districts with a majority.
    /// - `TooLong`: the total length of the cut edges is above the setting's limit. `length` is the
    ///   total length.
    ///
    /// `Memory` comes if there was no memory for the search or for the sums of the plan.
    pub fn new(alloc: Global, parsed: Parsed, setting: Setting) -> Result<Job, PlanFault>
        requires within { IsWithinLimits (job_from (parsed_of parsed) setting []) }
        ensures job { MatchResult result (λ job. job_of (parsed_of parsed) setting [] ≡ Ok job)
            (λ fault. (fault ≡ plan.Memory) ⊎ (job_of (parsed_of parsed) setting [] ≡ Err fault)) }
        ensures sound { IfOk result (λ job. IsJob job) }
    {
        Job::with_regions(alloc, parsed, setting, UnitList::new(alloc))
    }

    /// Makes a job with the region of each unit. The list is empty if there are no regions.
    ///
    /// # Errors
    ///
    /// Those of [`Job::new`] in their order, and directly after `TooManyCut`:
    ///
    /// - `TooManySplit`: the least region that lies in more districts than the setting allows.
    ///   `districts` is the number of the region's districts.
    /// - `TooManySplits`: the plan has more splits in all than the setting allows. `splits` is
    ///   their number.
    /// - `TooManySplitRegions`: more regions lie in several districts than the setting allows.
    ///   `regions` is their number.
    pub fn with_regions(
        alloc: Global,
        parsed: Parsed,
        setting: Setting,
        regions: UnitList,
    ) -> Result<Job, PlanFault>
        requires within { IsWithinLimits (job_from (parsed_of parsed) setting regions) }
        ensures job { MatchResult result (λ job. job_of (parsed_of parsed) setting regions ≡ Ok job)
            (λ fault. (fault ≡ plan.Memory) ⊎ (job_of (parsed_of parsed) setting regions ≡ Err fault)) }
        ensures sound { IfOk result (λ job. IsJob job) }
    {
        match Input::new(parsed, setting, regions) {
            Ok(input) => Job::of_input(alloc, input),
            Err(_) => Err(PlanFault::Memory),
        }
    }

    /// Makes a job with the same graph, setting and rules, but another start plan.
    ///
    /// `start` has for each unit the index of its district's label in `labels`.
    ///
    /// # Errors
    ///
    /// Those of [`Job::with_regions`] in their order.
    pub fn with_plan(
        &self,
        alloc: Global,
        start: UnitList,
        labels: LabelList,
    ) -> Result<Job, PlanFault>
        requires complete { length start ≡ self.now.graph.units }
        requires in_range { (u : ℕ) → u < self.now.graph.units → slice_index start u < length labels }
        requires two { 2 ≤ length labels }
        requires few { length labels ≤ most_districts }
        ensures job { MatchResult result (λ job. job_with self.now start labels ≡ Ok job)
            (λ fault. (fault ≡ plan.Memory) ⊎ (job_with self.now start labels ≡ Err fault)) }
        ensures sound { IfOk result (λ job. IsJob job) }
    {
        match self.input.restart(start, labels.len() as u32) {
            Ok(input) => Job::of_input(alloc, input),
            Err(_) => Err(PlanFault::Memory),
        }
    }

    /// Returns the job with this origin.
    pub fn with_origin(self, origin: Option<Origin>) -> Job
        ensures job { result ≡ record self { origin = origin } }
        ensures sound { IsJob result }
    {
        let values = self.values;
        Job {
            input: self.input.with_origin(origin),
            values,
        }
    }

    // Makes the job of an input. Returns the first fault if the start plan is not legal.
    fn of_input(alloc: Global, input: Input) -> Result<Job, PlanFault>
        ensures job { MatchResult result (λ job. (job ≡ input) × (plan_fault input ≡ None))
            (λ fault. (fault ≡ plan.Memory) ⊎ (plan_fault input ≡ Some fault)) }
        ensures sound { IfOk result (λ job. IsJob job) }
    {
        match values_of(alloc, &input) {
            Ok(values) => Ok(Job { input, values }),
            Err(fault) => Err(fault),
        }
    }

    /// Returns the least and the greatest population that the slack allows a district.
    ///
    /// If no integer is within the bounds, the least is above the greatest.
    pub fn limits(&self) -> (u64, u64)
        ensures { result ≡ (least_population self.now, greatest_population self.now) }
    {
        self.input.limits()
    }

    /// Returns true if a plan is legal.
    ///
    /// Each district must have a unit, be connected and have a population within the bounds, and
    /// the plan must meet the rules. Allocates nothing, and leaves `marks` in an unspecified state.
    /// This test searches every district; the steps of a walk use the faster tests of `flip_kernel`
    /// instead.
    pub fn legal(&self, plan: &[u32], marks: &mut Marks) -> bool
        requires complete { length plan.now ≡ self.now.graph.units }
        requires in_range { (u : ℕ) → u < self.now.graph.units → slice_index plan.now u < self.now.districts }
        requires marks { marks.old.units ≡ self.now.graph.units }
        ensures value { result ≡ is_legal self.now plan.now }
        ensures decides { IsTrue result ↔ IsLegal self.now plan.now }
        ensures marks { marks.new.units ≡ marks.old.units }
    {
        if !self.input.keeps_frozen(plan) {
            return false;
        }
        self.is_unrefused(plan, marks)
    }

    // Returns true if a plan is legal, given that it leaves each frozen unit in its district of the
    // start plan.
    fn is_unrefused(&self, plan: &[u32], marks: &mut Marks) -> bool
        requires complete { length plan.now ≡ self.now.graph.units }
        requires in_range { (u : ℕ) → u < self.now.graph.units → slice_index plan.now u < self.now.districts }
        requires marks { marks.old.units ≡ self.now.graph.units }
        requires keeps { keeps_frozen self.now.frozen (home_of self.now.frozen self.now.start) plan.now ≡ true }
        ensures value { result ≡ is_legal self.now plan.now }
        ensures decides { IsTrue result ↔ IsLegal self.now plan.now }
        ensures marks { marks.new.units ≡ marks.old.units }
    {
        self.input.bounds_fault(plan).is_none() && self.input.shape_fault(plan, marks).is_none()
    }

    /// Returns the graph.
    pub fn graph(&self) -> &Graph
        ensures value { result.now ≡ self.now.graph }
        ensures sound { IsJob self.now }
    {
        self.input.graph()
    }

    /// Returns the population and votes of each unit, and the lengths of the edges.
    pub fn counts(&self) -> &Counts
        ensures value { result.now ≡ self.now.counts }
        ensures sound { IsJob self.now }
    {
        self.input.counts()
    }

    /// Returns the start plan.
    pub fn start(&self) -> &UnitList
        ensures value { result.now ≡ self.now.start }
        ensures legal { IsLegal self.now result.now }
        ensures sound { IsJob self.now }
    {
        self.input.start()
    }

    /// Returns the numerator of the start plan's score, for the ask with this index.
    pub fn start_value(&self, ask: u32) -> i64
        requires { ask < length self.now.setting.asks }
        ensures { IfSome (slice_get self.now.setting.asks ask) (λ asked. result ≡ plan_value self.now self.now.start asked.score) }
    {
        entry(&self.values, ask as usize)
    }

    /// Returns the setting.
    pub fn setting(&self) -> &Setting
        ensures value { result.now ≡ self.now.setting }
        ensures sound { IsJob self.now }
    {
        self.input.setting()
    }

    /// Returns the rules that plans must meet.
    pub fn rules(&self) -> &Rules
        ensures value { result.now ≡ rules self.now }
        ensures sound { IsJob self.now }
    {
        self.input.rules()
    }

    /// Returns the origin of the job, if the arguments asked for it.
    pub fn origin(&self) -> Option<Origin>
        ensures { result ≡ self.now.origin }
    {
        self.input.origin()
    }

    /// Returns the number of districts of the start plan in which the group has a majority.
    pub fn majorities(&self) -> u32
        ensures { result ≡ majorities self.now.setting.group_share self.now.group self.now.start }
    {
        self.input.majorities(self.input.start().as_slice())
    }

    /// Returns the total length of the edges that the start plan cuts.
    pub fn cut_length(&self) -> u64
        ensures { result ≡ cut_length self.now.graph self.now.counts.lengths self.now.start }
    {
        self.input.cut_length(self.input.start().as_slice())
    }

    /// Returns the number of units.
    pub fn units(&self) -> u32
        ensures units { result ≡ self.now.graph.units }
        ensures sound { IsJob self.now }
    {
        self.input.graph().units()
    }

    /// Returns the number of districts.
    pub fn districts(&self) -> u32
        ensures value { result ≡ self.now.districts }
        ensures sound { IsJob self.now }
    {
        self.input.districts()
    }

    /// Returns the total population.
    pub fn population(&self) -> u64
        ensures { result ≡ total_population self.now }
    {
        self.input.population()
    }

    /// Returns the total votes of both parties.
    pub fn votes(&self) -> u64
        ensures value { result ≡ total_votes self.now }
        ensures sound { IsJob self.now }
    {
        self.input.votes()
    }

    /// Returns the number of trajectories: the walks and the endpoint trajectories.
    pub fn total(&self) -> u32
        ensures value { result ≡ self.now.setting.walks + self.now.setting.ends }
        ensures sound { IsJob self.now }
    {
        let setting = self.input.setting();
        setting.walks + setting.ends
    }
}
