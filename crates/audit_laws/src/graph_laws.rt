//! Laws of the JSON of a graph, each the contract of an empty function.

ghost use Rattle.audit_laws.specs.Determined.{GivenJobsAreOfOneGraph};
ghost use Rattle.audit_laws.specs.Taken.{GivenJobsAreTaken, ReadJobsAreGiven};

/// Shows that JSON determines the graph. Two jobs that one JSON gives have the same units, edges, counts, districts and
/// start plan. Their columns must be the same, without lengths, and their start plans valid.
pub fn given_jobs_are_of_one_graph()
    ensures { GivenJobsAreOfOneGraph }
{}

/// Shows that a graph read from bytes is one that the JSON of the bytes gives.
pub fn read_jobs_are_given()
    ensures { ReadJobsAreGiven }
{}

/// Shows that bytes are accepted if their JSON gives a graph within the limits, the start plan is valid, and the
/// setting has no rules.
pub fn given_jobs_are_taken()
    ensures { GivenJobsAreTaken }
{}
