//! Flips: a unit and a district to which it may go.

ghost use Rattle.std.specs.Prelude.{◌<◌};

use plan_core::job::Job;

/// A unit of a job, and the district of the job to which the unit would go.
#[derive(Clone, Copy)]
pub struct Flip<'a> {
    pub job: &'a Job,
    pub unit: u32,
    pub district: u32,
    pub ghost unit_below: { unit < job.now.graph.units },
    pub ghost district_below: { district < job.now.districts },
}
