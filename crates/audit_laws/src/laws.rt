//! Laws of calls that ended and of the runs of one job. Each law is the contract of a function that does nothing. Calls
//! in a body are made for their contracts.

ghost use Rattle.audit_laws.specs.Ended.{EndedCallsKeepTheirPromise};
ghost use Rattle.audit_laws.specs.Lost.{EndsAreStops, StopsKeepTheNewest, StopsLoseNothing};
ghost use Rattle.audit_laws.specs.Gathered.{CutGatheringsReach, GatheredRunsWriteOneReport, GatheringsReach};
ghost use Rattle.audit_statement.specs.Along.{TracesEndAsFound};
ghost use Rattle.audit_statement.specs.Rerun.{ChainsWriteOneReport, RerunsAreAlike};

use audit_model::laws::outcomes_fit_without_histogram;
use ckpt_store::gathered_laws::consistent_slots_give_consistent_outcomes;
use ckpt_store::laws::{
    a_stop_in_a_save_leaves_consistent_slots, checkpoints_are_ours, consistent_slots_open_right,
    right_outcomes_are_consistent, saves_keep_the_newest, saves_leave_consistent_slots,
};
use outcome_book::union_laws::unions_are_right;

/// States that a call meets the top call's contract if it ended for one of the defined reasons and left what that
/// reason requires.
pub fn ended_calls_keep_their_promise()
    ensures { EndedCallsKeepTheirPromise }
{
    consistent_slots_open_right();
    right_outcomes_are_consistent();
}

/// States that the options of a run change neither the job's digest, nor what its trajectories find, nor its report.
/// The options are the command, the number of workers, the budget, saving, resuming and the part. Therefore `plans`
/// reports on each plan as `run` would on that plan alone. Asking for histograms or for the origin changes the report,
/// but neither the digest nor which slots are consistent.
pub fn reruns_are_alike()
    ensures { RerunsAreAlike }
{}

/// States that a stop at any moment of a run, within a save or between two saves, keeps the slot that was newest before
/// the run or leaves a newer one. The law is about the save attempts so far, so it also covers runs that never return.
pub fn stops_keep_the_newest()
    ensures { StopsKeepTheNewest }
{
    saves_keep_the_newest();
    outcomes_fit_without_histogram();
}

/// States that nothing that was saved is lost. A run may be stopped at any moment, also at any byte of a save. Saves
/// may have failed before, and the run may be one that never returns. The newest slot then holds all outcomes of each
/// save that succeeded. It also holds all initial outcomes of the run, unless it is still the slot from which the run
/// started. A run that resumes starts from the newest slot.
pub fn stops_lose_nothing()
    ensures { StopsLoseNothing }
{
    saves_keep_the_newest();
    checkpoints_are_ours();
    outcomes_fit_without_histogram();
}

/// States that `stops_keep_the_newest` and `stops_lose_nothing` also cover the save attempts of a run that returned,
/// all of them or cut off within any of them.
pub fn ends_are_stops()
    ensures { EndsAreStops }
{}

/// States that every run of a chain that ends with status 0 has written the report of one thread. The chain starts from
/// consistent slots, of either version of the format; empty slots are consistent. Its runs may be halted, killed at any
/// moment and resumed. The report has a histogram, the serial test and an origin exactly if the run that wrote it asked
/// for them, whatever the runs before it asked for.
pub fn chains_write_one_report()
    ensures { ChainsWriteOneReport }
{
    consistent_slots_open_right();
    right_outcomes_are_consistent();
    a_stop_in_a_save_leaves_consistent_slots();
    saves_leave_consistent_slots();
}

/// States the law of `chains_write_one_report` for any number of machines and folders. The slots of each folder are
/// *reached*: they come from consistent slots by runs of any part of the job and by gatherings of reached folders. Runs
/// and gatherings may have ended or been stopped anywhere. Reached slots are consistent, and each run from them that
/// ends with status 0 has written the report of one thread.
pub fn gathered_runs_write_one_report()
    ensures { GatheredRunsWriteOneReport }
{
    consistent_slots_open_right();
    right_outcomes_are_consistent();
    consistent_slots_give_consistent_outcomes();
    unions_are_right();
    saves_leave_consistent_slots();
    a_stop_in_a_save_leaves_consistent_slots();
}

/// States that one call of `ckpt_store::whole::gather` leaves reached slots, if the slots before the call and all
/// folders were reached.
pub fn gatherings_reach()
    ensures { GatheringsReach }
{}

/// States that a gathering leaves reached slots also if its save failed or was cut off.
pub fn cut_gatherings_reach()
    ensures { CutGatheringsReach }
{}

/// States that the plans of a trace agree with the report: they give a trajectory's moves, a walk's counts, and the
/// scores at the end of an endpoint trajectory.
pub fn traces_end_as_found()
    ensures { TracesEndAsFound }
{}
