//! The headline for a plain run, as laws of the top call's contract.

ghost use Rattle.audit_laws.specs.One.{ReportsAreOne};
ghost use Rattle.audit_laws.specs.Promised.{PromisedCallsAuditPlainly, PromisedCallsEndPlainly};

/// Shows what a call with the arguments of a plain run has done, if it meets the top call's contract and ends with
/// status 0. It has read JSON that gives its job, visited only valid plans, and written the plain report.
pub fn promised_calls_audit_plainly()
    ensures { PromisedCallsAuditPlainly }
{}

/// Shows that a plain run ends with status 0, or with 3 if out of memory, if the arguments and the graph are valid and
/// nothing failed.
pub fn promised_calls_end_plainly()
    ensures { PromisedCallsEndPlainly }
{}

/// Shows that the arguments and the JSON determine the report. Two jobs that match the arguments and the JSON have the
/// same report, whatever else their settings contain.
pub fn reports_are_one()
    ensures { ReportsAreOne }
{}
