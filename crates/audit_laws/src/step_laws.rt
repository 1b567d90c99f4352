//! Laws of runs, each the contract of an empty function.

ghost use Rattle.audit_laws.specs.Runs.{AcceptedJobsAreRuns};

/// Shows that each job of accepted arguments whose command walks can be run. If it saves nothing, its budget covers
/// every trajectory. If its tests stop early, it has endpoints and neither saves nor resumes. If it makes the serial
/// test, the run of the test has a power of two of plans.
pub fn accepted_jobs_are_runs()
    ensures { AcceptedJobsAreRuns }
{}
