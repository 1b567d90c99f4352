//! The jobs of a table's plans.

ghost use Rattle.std.specs.Prelude.{◌≡◌, ◌⊎◌, [], Ok, All, IfOk, MatchResult};
ghost use Rattle.audit_model.specs.JobOf.{IsJob, job_with};
ghost use Rattle.audit_model.specs.Several.{named_jobs};
ghost use Rattle.plan_csv.specs.Fit.{IsPlanOf};
ghost use Rattle.audit_model.specs.declared.fault.PlansFault.TheVariants as fault;

use crate::fault::of_other;
use audit_model::fault::PlansFault;
use audit_model::plans::Assigned;
use audit_model::text::Text;
use plan_core::job::Job;
use std::alloc::Global;

/// A job with the name of its plan.
#[derive(Drop)]
pub struct Named {
    pub name: Text,
    pub job: Job,
}

ghost use Rattle.plan_csv.specs.Named.{jobs_of, IsOneOf};
ghost use Rattle.plan_csv.specs.JobStages.{IsNamedBy, IsNamedFault, RefusesPlan};

/// Makes the job of one plan of a table on the graph and setting of `job`.
fn make_job(alloc: Global, job: &Job, plan: &Assigned) -> Result<Named, PlansFault>
    requires fit { IsPlanOf job.now.graph.units plan.now }
    ensures { MatchResult result (IsNamedBy job.now plan.now) (λ f. (f ≡ fault.Memory) ⊎ RefusesPlan job.now plan.now f) }
{
    let Ok(name) = plan.name.copy() else {
        return Err(PlansFault::Memory);
    };
    let Ok(start) = plan.start.copy() else {
        return Err(PlansFault::Memory);
    };
    let Ok(labels) = plan.labels.copy() else {
        return Err(PlansFault::Memory);
    };
    match job.with_plan(alloc, start, labels) {
        Ok(job) => Ok(Named { name, job }),
        Err(fault) => Err(of_other(name, fault)),
    }
}

/// Appends the jobs of a table's plans to an empty list.
fn add_all(
    named: &mut Vec<Named>,
    alloc: Global,
    job: &Job,
    plans: &[Assigned],
) -> Result<(), PlansFault>
    requires none { named.old.items ≡ [] }
    requires fit { All (IsPlanOf job.now.graph.units) plans.now }
    ensures read { MatchResult result (λ _. named_jobs job.now plans.now ≡ Ok (jobs_of named.new.items))
        (λ f. (f ≡ fault.Memory) ⊎ IsNamedFault (named_jobs job.now plans.now) f) }
    ensures each { IfOk result (λ _. All (IsOneOf job.now.setting job.now.regions job.now.group job.now.frozen) named.new.items) }
{
    for plan in plans {
        match make_job(alloc, job, plan) {
            Err(fault) => return Err(fault),
            Ok(one) => {
                let Ok(()) = named.push(one) else {
                    return Err(PlansFault::Memory);
                };
            }
        }
    }
    Ok(())
}

/// Makes the jobs of a table's plans on the graph and setting of `job`. Stops at the first fault.
pub fn make_jobs(alloc: Global, job: &Job, plans: &[Assigned]) -> Result<Vec<Named>, PlansFault>
    requires fit { All (IsPlanOf job.now.graph.units) plans.now }
    ensures read { MatchResult result (λ named. named_jobs job.now plans.now ≡ Ok (jobs_of named.items))
        (λ f. (f ≡ fault.Memory) ⊎ IsNamedFault (named_jobs job.now plans.now) f) }
    ensures each { IfOk result (λ named. All (IsOneOf job.now.setting job.now.regions job.now.group job.now.frozen) named.items) }
{
    let mut named = Vec::new(alloc);
    match add_all(&mut named, alloc, job, plans) {
        Ok(()) => Ok(named),
        Err(fault) => Err(fault),
    }
}
