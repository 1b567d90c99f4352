//! The parts of a job, before its start plan is checked.

ghost use Rattle.std.specs.Prelude.{◌≡◌, ◌<◌, ◌≤◌, ℕ, length, slice_index, IfOk};
ghost use Rattle.audit_model.specs.Job.{home_of, total_population, total_votes, rules};
ghost use Rattle.audit_model.specs.JobOf.{has_no_votes, bounds_fault, path_fault, cut_fault, group_fault, length_fault, plan_fault, job_from};
ghost use Rattle.audit_model.specs.Length.{cut_length};
ghost use Rattle.audit_model.specs.Limits.{IsWithinLimits, most_districts};
ghost use Rattle.audit_model.specs.Meets.{keeps_frozen, majorities};
ghost use Rattle.audit_model.specs.Plan.{least_population, greatest_population};
ghost use Rattle.dual_graph.specs.Read.{parsed_of};

use crate::asks::asks_gap;
use crate::bounds::{first_outside, limits_of};
use crate::copies::{copy_map, home_of};
use crate::group::count_majorities;
use crate::search::find_disconnected_pair;
use crate::splits::count_splits;
use crate::sums::{district_sums, sum_of, sum_votes};
use audit_model::fault::PlanFault;
use audit_model::lists::UnitList;
use audit_model::memory::Memory;
use audit_model::origin::Origin;
use audit_model::outcome::Counts;
use audit_model::rules::Rules;
use audit_model::setting::Setting;
use district_sums::lengths::measure_cut;
use district_sums::scratch::count_cut;
use dual_graph::graph::Graph;
use dual_graph::marks::Marks;
use dual_graph::parsed::Parsed;
use std::alloc::Global;
use std::marker::Model;

/// A graph with its counts, a start plan that may be illegal, a setting and the rules for plans.
///
/// The origin is present if the arguments asked for it. The total population and the total votes
/// are cached.
pub struct Input {
    graph: Graph,
    counts: Counts,
    start: UnitList,
    districts: u32,
    setting: Setting,
    rules: Rules,
    origin: Option<Origin>,
    population: u64,
    votes: u64,
}

/// Drops the fields one by one. Written by hand so that a caller's proof has one call here, not one
/// per field. Each call of `drop` in turn keeps this proof short.
impl Drop for Input {
    fn drop(self) {
        let Input {
            graph,
            counts,
            start,
            districts: _,
            setting,
            rules,
            origin: _,
            population: _,
            votes: _,
        } = self;
        drop(graph);
        drop(counts);
        drop(start);
        drop(setting);
        drop(rules);
    }
}

impl Model for Input {
    ghost use Rattle.audit_model.specs.Job.{Job};

    ghost Value = { Job };

    ghost use Rattle.plan_core.specs.Input.{IsInput};

    ghost view = { λ i. record { graph = i.graph; counts = i.counts; start = i.start; districts = i.districts; setting = i.setting; regions = i.rules.regions; group = i.rules.group; frozen = i.rules.frozen; origin = i.origin } };

    ghost invariant = { λ i. IsInput
        (record { graph = i.graph; counts = i.counts; start = i.start; districts = i.districts; setting = i.setting; regions = i.rules.regions; group = i.rules.group; frozen = i.rules.frozen; origin = i.origin })
        i.rules i.population i.votes };
}

impl Input {
    ghost use Rattle.plan_core.specs.Input.{GivesDistricts, with_start, many_splits, many_regions, regions_fault, shape_fault};

    /// Combines the data of a source with a setting and the region of each unit. The origin is
    /// empty. Fails if there is no memory.
    pub fn new(parsed: Parsed, setting: Setting, regions: UnitList) -> Result<Input, Memory>
        requires { IsWithinLimits (job_from (parsed_of parsed) setting regions) }
        ensures { IfOk result (λ input. input ≡ job_from (parsed_of parsed) setting regions) }
    {
        match home_of(&parsed.frozen, &parsed.start) {
            Ok(home) => Ok(Input::with_home(parsed, setting, regions, home)),
            Err(_) => {
                drop(parsed);
                drop(setting);
                drop(regions);
                Err(Memory)
            }
        }
    }

    // Does the work of `new`, given the plan whose districts frozen units keep.
    fn with_home(parsed: Parsed, setting: Setting, regions: UnitList, home: UnitList) -> Input
        requires within { IsWithinLimits (job_from (parsed_of parsed) setting regions) }
        requires home { home ≡ home_of parsed.frozen parsed.start }
        ensures { result ≡ job_from (parsed_of parsed) setting regions }
    {
        let population = sum_of(parsed.counts.population.as_slice());
        let votes = sum_votes(&parsed.counts);
        let districts = parsed.labels.len() as u32;
        drop(parsed.labels);
        let rules = Rules {
            max_cut: setting.max_cut,
            regions,
            max_split: setting.max_split,
            max_splits: setting.max_splits,
            max_split_regions: setting.max_split_regions,
            group: parsed.group,
            group_districts: setting.group_districts,
            group_share: setting.group_share,
            frozen: parsed.frozen,
            home,
        };
        Input {
            graph: parsed.graph,
            counts: parsed.counts,
            start: parsed.start,
            districts,
            setting,
            rules,
            origin: None,
            population,
            votes,
        }
    }

    // Copies the rules, for a job with another start plan: frozen units keep their districts of
    // that plan. Fails if there is no memory.
    fn copy_rules(&self, start: &UnitList) -> Result<Rules, Memory>
        ensures { IfOk result (λ r. r ≡ record (rules self.now) { home = home_of self.now.frozen start.now }) }
    {
        let home = home_of(&self.rules.frozen, start)?;
        match self.rules.copy() {
            Ok(mut rules) => {
                rules.home = home;
                Ok(rules)
            }
            Err(_) => Err(Memory),
        }
    }

    // Copies the setting, and the rules for a job with another start plan. Fails if there is no
    // memory.
    fn copy_words(&self, start: &UnitList) -> Result<(Setting, Rules), Memory>
        ensures { IfOk result (λ w. (w.0 ≡ self.now.setting) × (w.1 ≡ record (rules self.now) { home = home_of self.now.frozen start.now })) }
    {
        let rules = self.copy_rules(start)?;
        match self.setting.copy() {
            Ok(setting) => Ok((setting, rules)),
            Err(_) => {
                drop(rules);
                Err(Memory)
            }
        }
    }

    // Copies all but the start plan, for a job with another one. Fails if there is no memory.
    fn copy_rest(&self, start: &UnitList) -> Result<(Graph, Counts, Setting, Rules), Memory>
        ensures { IfOk result (λ r. (r.0 ≡ self.now.graph) × (r.1 ≡ self.now.counts) × (r.2 ≡ self.now.setting)
            × (r.3 ≡ record (rules self.now) { home = home_of self.now.frozen start.now })) }
    {
        let (graph, counts) = copy_map(&self.graph, &self.counts)?;
        match self.copy_words(start) {
            Ok((setting, rules)) => Ok((graph, counts, setting, rules)),
            Err(_) => {
                drop(graph);
                drop(counts);
                Err(Memory)
            }
        }
    }

    /// Copies the input with another start plan, which has `districts` districts. Fails if there is
    /// no memory.
    pub fn restart(&self, start: UnitList, districts: u32) -> Result<Input, Memory>
        requires start { GivesDistricts self.now.graph.units districts start }
        requires two { 2 ≤ districts }
        requires few { districts ≤ most_districts }
        ensures { IfOk result (λ input. input ≡ record self.now { start = start; districts = districts }) }
    {
        match self.copy_rest(&start) {
            Ok((graph, counts, setting, rules)) => Ok(Input {
                graph,
                counts,
                start,
                districts,
                setting,
                rules,
                origin: self.origin,
                population: self.population,
                votes: self.votes,
            }),
            Err(_) => {
                drop(start);
                Err(Memory)
            }
        }
    }

    /// Returns the input with this origin.
    pub fn with_origin(self, origin: Option<Origin>) -> Input
        ensures { result ≡ record self { origin = origin } }
    {
        let Input {
            graph,
            counts,
            start,
            districts,
            setting,
            rules,
            origin: _,
            population,
            votes,
        } = self;
        Input {
            graph,
            counts,
            start,
            districts,
            setting,
            rules,
            origin,
            population,
            votes,
        }
    }

    /// Returns the graph.
    pub fn graph(&self) -> &Graph
        ensures { result.now ≡ self.now.graph }
    {
        &self.graph
    }

    /// Returns the population and votes of each unit, and the lengths of the edges.
    pub fn counts(&self) -> &Counts
        ensures { result.now ≡ self.now.counts }
    {
        &self.counts
    }

    /// Returns the start plan.
    pub fn start(&self) -> &UnitList
        ensures { result.now ≡ self.now.start }
    {
        &self.start
    }

    /// Returns the number of districts.
    pub fn districts(&self) -> u32
        ensures { result ≡ self.now.districts }
    {
        self.districts
    }

    /// Returns the setting.
    pub fn setting(&self) -> &Setting
        ensures { result.now ≡ self.now.setting }
    {
        &self.setting
    }

    /// Returns the rules that plans must meet.
    pub fn rules(&self) -> &Rules
        ensures { result.now ≡ rules self.now }
    {
        &self.rules
    }

    /// Returns the origin, if the arguments asked for it.
    pub fn origin(&self) -> Option<Origin>
        ensures { result ≡ self.now.origin }
    {
        self.origin
    }

    /// Returns the total population.
    pub fn population(&self) -> u64
        ensures { result ≡ total_population self.now }
    {
        self.population
    }

    /// Returns the total votes of both parties.
    pub fn votes(&self) -> u64
        ensures { result ≡ total_votes self.now }
    {
        self.votes
    }

    /// Returns the least and the greatest population that the slack allows a district.
    pub fn limits(&self) -> (u64, u64)
        ensures { result ≡ (least_population self.now, greatest_population self.now) }
    {
        limits_of(self.population, self.setting.slack, self.districts)
    }

    /// Returns true if the efficiency gap is asked for and there are no votes, so that the gap has
    /// no denominator.
    fn has_no_votes(&self) -> bool
        ensures { result ≡ has_no_votes self.now }
    {
        asks_gap(self.setting.asks.as_slice()) && self.votes == 0
    }

    /// Returns `OutOfBounds` with the least district of a plan whose population is outside the
    /// bounds.
    pub fn bounds_fault(&self, plan: &[u32]) -> Option<PlanFault>
        requires { GivesDistricts self.now.graph.units self.now.districts plan.now }
        ensures { result ≡ bounds_fault (with_start self.now plan.now) }
    {
        let (low, high) = self.limits();
        let populations = district_sums(self.counts.population.as_slice(), plan);
        first_outside(&populations, self.districts, low, high)
    }

    /// Returns `Disconnected` with the least district of a plan that is not connected.
    fn path_fault(&self, plan: &[u32], marks: &mut Marks) -> Option<PlanFault>
        requires complete { length plan.now ≡ self.now.graph.units }
        requires marks { marks.old.units ≡ self.now.graph.units }
        ensures units { marks.new.units ≡ self.now.graph.units }
        ensures fault { result ≡ path_fault (with_start self.now plan.now) }
    {
        for district in 0..self.districts {
            if let Some((one, other)) = find_disconnected_pair(&self.graph, plan, district, marks) {
                return Some(PlanFault::Disconnected {
                    district,
                    one,
                    other,
                });
            }
        }
        None
    }

    /// Returns `TooManyCut` if a plan cuts more edges than allowed.
    fn cut_fault(&self, plan: &[u32]) -> Option<PlanFault>
        requires { length plan.now ≡ self.now.graph.units }
        ensures { result ≡ cut_fault (with_start self.now plan.now) }
    {
        let cut = count_cut(&self.graph, plan);
        if self.rules.max_cut < cut {
            return Some(PlanFault::TooManyCut {
                cut,
                most: self.rules.max_cut,
            });
        }
        None
    }

    /// Returns `TooManySplits` if there are more splits in all than allowed.
    fn splits_fault(&self, splits: u32) -> Option<PlanFault>
        ensures { result ≡ many_splits self.now.setting.max_splits splits }
    {
        if self.rules.max_splits < splits {
            return Some(PlanFault::TooManySplits {
                splits,
                most: self.rules.max_splits,
            });
        }
        None
    }

    /// Returns `TooManySplitRegions` if more regions are split than allowed.
    fn split_regions_fault(&self, regions: u32) -> Option<PlanFault>
        ensures { result ≡ many_regions self.now.setting.max_split_regions regions }
    {
        if self.rules.max_split_regions < regions {
            return Some(PlanFault::TooManySplitRegions {
                regions,
                most: self.rules.max_split_regions,
            });
        }
        None
    }

    /// Returns the first fault of a plan against the rules on regions.
    fn regions_fault(&self, plan: &[u32]) -> Option<PlanFault>
        requires { GivesDistricts self.now.graph.units self.now.districts plan.now }
        ensures { result ≡ regions_fault (with_start self.now plan.now) }
    {
        match count_splits(self.rules.regions.as_slice(), plan, self.rules.max_split) {
            Err(fault) => Some(fault),
            Ok(counted) => match self.splits_fault(counted.splits) {
                Some(fault) => Some(fault),
                None => self.split_regions_fault(counted.regions),
            },
        }
    }

    /// Returns the number of districts of a plan in which the group has a majority.
    pub fn majorities(&self, plan: &[u32]) -> u32
        requires { GivesDistricts self.now.graph.units self.now.districts plan.now }
        ensures { result ≡ majorities self.now.setting.group_share self.now.group plan.now }
    {
        count_majorities(self.rules.group_share, &self.rules.group, plan)
    }

    /// Returns `TooFewMajorities` if the group has a majority in fewer districts of a plan than
    /// required.
    fn group_fault(&self, plan: &[u32]) -> Option<PlanFault>
        requires { GivesDistricts self.now.graph.units self.now.districts plan.now }
        ensures { result ≡ group_fault (with_start self.now plan.now) }
    {
        let districts = self.majorities(plan);
        if districts < self.rules.group_districts {
            return Some(PlanFault::TooFewMajorities {
                districts,
                least: self.rules.group_districts,
                share: self.rules.group_share,
            });
        }
        None
    }

    /// Returns the total length of the edges that a plan cuts.
    pub fn cut_length(&self, plan: &[u32]) -> u64
        requires { length plan.now ≡ self.now.graph.units }
        ensures { result ≡ cut_length self.now.graph self.now.counts.lengths plan.now }
    {
        measure_cut(&self.graph, &self.counts.lengths, plan)
    }

    /// Returns `TooLong` if the total length of a plan's cut edges exceeds the limit.
    fn length_fault(&self, plan: &[u32]) -> Option<PlanFault>
        requires { length plan.now ≡ self.now.graph.units }
        ensures { result ≡ length_fault (with_start self.now plan.now) }
    {
        let length = measure_cut(&self.graph, &self.counts.lengths, plan);
        if self.setting.max_length < length {
            return Some(PlanFault::TooLong {
                length,
                most: self.setting.max_length,
            });
        }
        None
    }

    /// Returns true if a plan leaves each frozen unit in its district of the start plan.
    pub fn keeps_frozen(&self, plan: &[u32]) -> bool
        requires { length plan.now ≡ self.now.graph.units }
        ensures { result ≡ keeps_frozen self.now.frozen (home_of self.now.frozen self.now.start) plan.now }
    {
        self.rules.keeps_frozen(plan)
    }

    /// Returns the first fault of a plan apart from `NoVotes` and `OutOfBounds`, which are tested
    /// before.
    pub fn shape_fault(&self, plan: &[u32], marks: &mut Marks) -> Option<PlanFault>
        requires plan { GivesDistricts self.now.graph.units self.now.districts plan.now }
        requires marks { marks.old.units ≡ self.now.graph.units }
        ensures units { marks.new.units ≡ self.now.graph.units }
        ensures fault { result ≡ shape_fault (with_start self.now plan.now) }
    {
        if let Some(fault) = self.path_fault(plan, marks) {
            return Some(fault);
        }
        if let Some(fault) = self.cut_fault(plan) {
            return Some(fault);
        }
        if let Some(fault) = self.regions_fault(plan) {
            return Some(fault);
        }
        if let Some(fault) = self.group_fault(plan) {
            return Some(fault);
        }
        self.length_fault(plan)
    }

    /// Returns the first fault of the start plan. Fails if there is no memory for the search.
    pub fn plan_fault(&self, alloc: Global) -> Result<Option<PlanFault>, Memory>
        ensures { IfOk result (λ fault. fault ≡ plan_fault self.now) }
    {
        if self.has_no_votes() {
            return Ok(Some(PlanFault::NoVotes));
        }
        let plan = self.start.as_slice();
        if let Some(fault) = self.bounds_fault(plan) {
            return Ok(Some(fault));
        }
        let mut marks = Marks::new(alloc, self.graph.units())?;
        Ok(self.shape_fault(plan, &mut marks))
    }
}
