//! Laws of the run machine, after any events.

ghost use Rattle.std.specs.Prelude.{◌≡◌, ℕ, ◌<◌, IsTrue, List, map};
ghost use Rattle.audit_model.specs.declared.outcome.Event.{Event};
ghost use Rattle.audit_model.specs.Graph.{has};
ghost use Rattle.audit_model.specs.Job.{Job};
ghost use Rattle.audit_model.specs.Machine.{Machine, IsRun, new_machine, step, state_after};
ghost use Rattle.audit_model.specs.Run.{total, by_id};
ghost use Rattle.audit_model.specs.Trajectory.{Draws, outcome, sequence};
ghost use Rattle.run_core.specs.StartState.{IsStart};

use outcome_book::laws::outcomes_by_id_are_mapped;

/// Shows that the machine keeps its invariant `IsRun` under all events, halts included.
///
/// The invariant has three parts. The finished ids are distinct and below the total. The ids that
/// were finished at the start of the run are a prefix of the finished ids, and so are the saved
/// ids. Each claimed id is either finished or open under exactly one worker, and no other id is
/// open.
pub fn runs_stay_right()
    ensures fresh { (total workers : ℕ) (events : List Event) → IsRun (state_after (new_machine total workers) events) }
    ensures resumed { (m : Machine) (events : List Event) → IsStart m → IsRun (state_after m events) }
    ensures step { (m : Machine) (event : Event) → IsRun m → IsRun (step m event).0 }
    ensures events { (m : Machine) (events : List Event) → IsRun m → IsRun (state_after m events) }
{}

/// Shows that a finished run has the outcomes of a run by one thread, once they are sorted by id.
pub fn complete_runs_add_up()
    ensures { (job : Job) (draws : Draws) (m : Machine) → IsRun m → m.total ≡ total job → ((id : ℕ) → id < m.total → IsTrue (has m.done id)) →
        by_id (total job) (map (outcome job draws) m.done) ≡ sequence job draws }
{
    outcomes_by_id_are_mapped();
}
