//! Walks of whole trajectories of a job, and of one trajectory in several calls.

ghost use Rattle.std.specs.Prelude.{◌≡◌, ◌+◌, ◌-◌, ◌*◌, ◌<◌, ◌≤◌, ◌^◌, ℕ, length, IfOk};
ghost use Rattle.audit_statement.specs.Along.{ask_values};
ghost use Rattle.audit_statement.specs.Draw.{draw};
ghost use Rattle.audit_model.specs.Plan.{IsLegal};
ghost use Rattle.audit_model.specs.Trajectory.{four_values, hub as hub_of, outcome, outcome_with, walk_outcome, end_outcome};
ghost use Rattle.audit_model.specs.Serially.{run_outcome};
ghost use Rattle.flip_kernel.specs.Judged.{IsJudgeFor};
ghost use Rattle.walker.specs.Binned.{histogram_of_visits};
ghost use Rattle.walker.specs.Walked.{IsUnderWay};

use crate::asked::{signed, values};
use crate::steps::{Course, count_visits, walk};
use crate::way::Way;
use audit_model::lists::UnitList;
use audit_model::memory::Memory;
use audit_model::outcome::Outcome;
use audit_model::steps::Steps;
use flip_guard::judge::Judge;
use flip_kernel::state::State;
use plan_core::job::Job;
use scores::Room;
use std::alloc::Global;
use std::marker::{Brand, Model};
use std::sync::ledger::{Blank, Ledger};

/// The memory in which one worker walks: the current plan (always legal), the constraint with its
/// data about this plan, and buffers for scores.
#[derive(Drop)]
pub struct Walker<J: Judge> {
    state: State<J>,
    room: Room,
}

impl<J: Judge> Model for Walker<J> {
    ghost use Rattle.flip_kernel.specs.ChainState.{ChainState};

    ghost Value = { ChainState };

    ghost view = { λ w. w.state };
}

impl<J: Judge> Walker<J> {
    /// Allocates a walker whose current plan is the job's start plan. `judge` is the job's
    /// constraint. Fails only if out of memory.
    pub fn new(alloc: Global, job: &Job, judge: J) -> Result<Walker<J>, Memory>
        requires judge { IsJudgeFor job.now (J.judging judge) }
        ensures job { IfOk result (λ w. w.job ≡ job.now) }
        ensures plan { IfOk result (λ w. w.plan ≡ job.now.start) }
    {
        Ok(Walker {
            state: State::new(alloc, job, judge)?,
            room: Room::new(),
        })
    }

    /// Returns the current plan.
    pub fn plan(&self) -> &UnitList
        ensures value { result.now ≡ self.now.plan }
        ensures legal { IsLegal self.now.job self.now.plan }
    {
        self.state.plan()
    }

    /// Walks the trajectory with this id and returns its outcome. Allocates nothing.
    ///
    /// A walk of the outlier test begins at the start plan, an endpoint trajectory at `hub`. Only
    /// endpoint trajectories read `hub`.
    pub fn walk(&mut self, job: &Job, hub: &[u32], id: u32) -> Outcome
        requires made { self.old.job ≡ job.now }
        requires id { id < job.now.setting.walks + job.now.setting.ends }
        requires hub { job.now.setting.walks ≤ id → hub.now ≡ hub_of job.now (draw job.now.setting.key) }
        ensures outcome { result ≡ outcome job.now (draw job.now.setting.key) id }
        ensures made { self.new.job ≡ job.now }
    {
        self.walk_by::<Brand>(job, hub, id, Blank::new(1))
    }

    /// Walks from the start plan along a stream, for the serial test. Returns an outcome with the
    /// number of moves and, for each ask, the number of visits in the ask's tail.
    ///
    /// The outcome has the id 0 and no histogram. The start plan is the first visit. Allocates
    /// nothing.
    pub fn run(&mut self, job: &Job, stream: u64, steps: u32) -> Outcome
        requires made { self.old.job ≡ job.now }
        requires few { steps ≤ 10 ^ 9 }
        ensures outcome { result ≡ run_outcome job.now (draw job.now.setting.key) stream steps }
        ensures made { self.new.job ≡ job.now }
    {
        self.run_by::<Brand>(job, stream, steps, Blank::new(1))
    }

    /// Walks from the start plan to the hub. Writes the hub into `hub`, as the district of each
    /// unit. Allocates nothing.
    pub fn hub_into(&mut self, job: &Job, hub: &mut [u32])
        requires made { self.old.job ≡ job.now }
        requires units { length hub.old ≡ job.now.graph.units }
        ensures hub { hub.new ≡ hub_of job.now (draw job.now.setting.key) }
        ensures made { self.new.job ≡ job.now }
    {
        self.walk_to_hub::<Brand>(job, Blank::new(1));
        hub.copy_from_slice(self.state.plan().as_slice());
    }

    /// Sets the current plan to the first plan of the trajectory with this id. Returns the
    /// trajectory's progress before its first step. Allocates nothing.
    ///
    /// The first plan of a walk is the start plan. The first plan of an endpoint trajectory is
    /// `hub`. Only endpoint trajectories read `hub`.
    pub fn set_out(&mut self, job: &Job, hub: &[u32], id: u32) -> Way
        requires made { self.old.job ≡ job.now }
        requires hub { job.now.setting.walks ≤ id → hub.now ≡ hub_of job.now (draw job.now.setting.key) }
        ensures way { IsUnderWay job.now id 0 self.new result }
    {
        let setting = job.setting();
        if id < setting.walks {
            self.state.set(job, job.start().as_slice());
            Way::new(setting.key, 2 * u64::from(id))
        } else {
            self.state.set(job, hub);
            Way::new(setting.key, 2 * u64::from(id - setting.walks) + 3)
        }
    }

    /// Takes `steps` more steps of a trajectory. Several calls have the effect of one call with the
    /// sum of their steps. Allocates nothing.
    pub fn go_on(&mut self, job: &Job, way: &mut Way, steps: u32)
        requires made { self.old.job ≡ job.now }
        requires few { way.old.draws.place + steps ≤ 10 ^ 9 }
        ensures way { (id place : ℕ) → IsUnderWay job.now id place self.old way.old → IsUnderWay job.now id (place + steps) self.new way.new }
        ensures made { self.new.job ≡ job.now }
    {
        self.go_on_by::<Brand>(job, way, steps, Blank::new(1))
    }

    /// Returns the current plan's value of each ask. Entries past the last ask are 0.
    pub fn values(&mut self, job: &Job) -> [i64; 4]
        requires made { self.old.job ≡ job.now }
        ensures values { result ≡ four_values (ask_values job.now self.old.plan) }
        ensures same { self.new ≡ self.old }
    {
        values(&self.state, job.setting().asks.as_slice(), &mut self.room)
    }

    // Does the work of `go_on`. The counter that is made of `blank` exists in proofs only. It counts
    // the steps that had to search a district to test contiguity.
    fn go_on_by<L: Ledger>(&mut self, job: &Job, way: &mut Way, steps: u32, blank: Blank)
        requires name { blank.name ≡ L.name }
        requires parts { blank.parts ≡ L.parts }
        requires some { 0 < L.parts }
        requires made { self.old.job ≡ job.now }
        requires few { way.old.draws.place + steps ≤ 10 ^ 9 }
        ensures way { (id place : ℕ) → IsUnderWay job.now id place self.old way.old → IsUnderWay job.now id (place + steps) self.new way.new }
        ensures made { self.new.job ≡ job.now }
    {
        let mut counter: Steps<L> = Steps::new(blank);
        way.go_on(job, &mut self.state, steps, &mut counter);
    }

    // Does the work of `walk`. The counter that is made of `blank` exists in proofs only. It counts
    // the steps that had to search a district to test contiguity.
    fn walk_by<L: Ledger>(&mut self, job: &Job, hub: &[u32], id: u32, blank: Blank) -> Outcome
        requires name { blank.name ≡ L.name }
        requires parts { blank.parts ≡ L.parts }
        requires some { 0 < L.parts }
        requires made { self.old.job ≡ job.now }
        requires hub { job.now.setting.walks ≤ id → hub.now ≡ hub_of job.now (draw job.now.setting.key) }
        ensures outcome { result ≡ outcome_with job.now.setting.shift job.now (draw job.now.setting.key) id }
        ensures made { self.new.job ≡ job.now }
    {
        let mut counter: Steps<L> = Steps::new(blank);
        if id < job.setting().walks {
            self.walk_from_start(job, id, &mut counter)
        } else {
            self.walk_from_hub(job, hub, id, &mut counter)
        }
    }

    // Does the work of `run`. The counter that is made of `blank` exists in proofs only. It counts
    // the steps that had to search a district to test contiguity.
    fn run_by<L: Ledger>(&mut self, job: &Job, stream: u64, steps: u32, blank: Blank) -> Outcome
        requires name { blank.name ≡ L.name }
        requires parts { blank.parts ≡ L.parts }
        requires some { 0 < L.parts }
        requires made { self.old.job ≡ job.now }
        requires few { steps ≤ 10 ^ 9 }
        ensures outcome { result ≡ run_outcome job.now (draw job.now.setting.key) stream steps }
        ensures made { self.new.job ≡ job.now }
    {
        let mut counter: Steps<L> = Steps::new(blank);
        let course = Course {
            stream,
            steps,
            shift: false,
        };
        self.walk_along(job, course, &mut counter)
    }

    // Walks from the start plan, with a histogram if `course` asks for one. The outcome has the id
    // 0.
    fn walk_along<L: Ledger>(
        &mut self,
        job: &Job,
        course: Course,
        counter: &mut Steps<L>,
    ) -> Outcome
        requires made { self.old.job ≡ job.now }
        requires few { course.steps ≤ 10 ^ 9 }
        ensures outcome { result ≡ record (run_outcome job.now (draw job.now.setting.key) course.stream course.steps) {
          bins = histogram_of_visits course.shift job.now (draw job.now.setting.key course.stream) (course.steps + 1);
        } }
        ensures made { self.new.job ≡ job.now }
    {
        self.state.set(job, job.start().as_slice());
        let found = count_visits(job, &mut self.state, course, &mut self.room, counter);
        let bins = found.bins.counts;
        Outcome {
            id: 0,
            moved: u64::from(found.moved),
            values: signed(found.tally.counts),
            bins,
        }
    }

    // Walks a trajectory of the outlier test.
    fn walk_from_start<L: Ledger>(&mut self, job: &Job, id: u32, counter: &mut Steps<L>) -> Outcome
        requires made { self.old.job ≡ job.now }
        ensures outcome { result ≡ walk_outcome job.now.setting.shift job.now (draw job.now.setting.key) id }
        ensures made { self.new.job ≡ job.now }
    {
        let setting = job.setting();
        let stream = 2 * u64::from(id);
        let course = Course {
            stream,
            steps: setting.steps,
            shift: setting.shift,
        };
        let mut found = self.walk_along(job, course, counter);
        found.id = id;
        found
    }

    // Walks an endpoint trajectory of the parallel test.
    fn walk_from_hub<L: Ledger>(
        &mut self,
        job: &Job,
        hub: &[u32],
        id: u32,
        counter: &mut Steps<L>,
    ) -> Outcome
        requires made { self.old.job ≡ job.now }
        requires id { job.now.setting.walks ≤ id }
        requires hub { hub.now ≡ hub_of job.now (draw job.now.setting.key) }
        ensures outcome { result ≡ end_outcome job.now (draw job.now.setting.key) id }
        ensures made { self.new.job ≡ job.now }
    {
        let setting = job.setting();
        self.state.set(job, hub);
        let stream = 2 * u64::from(id - setting.walks) + 3;
        let moved = walk(job, &mut self.state, stream, setting.hub_steps, counter);
        Outcome {
            id,
            moved: u64::from(moved),
            values: values(&self.state, setting.asks.as_slice(), &mut self.room),
            bins: [0; 9],
        }
    }

    // Walks from the start plan to the hub, along stream 1.
    fn walk_to_hub<L: Ledger>(&mut self, job: &Job, blank: Blank)
        requires name { blank.name ≡ L.name }
        requires parts { blank.parts ≡ L.parts }
        requires some { 0 < L.parts }
        requires made { self.old.job ≡ job.now }
        ensures unchanged { self.new ≡ record self.old { plan = hub_of job.now (draw job.now.setting.key) } }
    {
        let mut counter: Steps<L> = Steps::new(blank);
        self.state.set(job, job.start().as_slice());
        let steps = job.setting().hub_steps;
        walk(job, &mut self.state, 1, steps, &mut counter);
    }
}
