//! Laws that an early stop is final.

ghost use Rattle.std.specs.Prelude.{◌≡◌, ℕ, ◌+◌, ◌<◌, IsTrue, List, Some};
ghost use Rattle.audit_model.specs.Job.{Job};
ghost use Rattle.audit_model.specs.Run.{IsRight, has_id};
ghost use Rattle.audit_model.specs.Stopping.{end_values, known_values, stop_of_known, stop_of};
ghost use Rattle.audit_model.specs.Trajectory.{Draws, sequence};
ghost use Rattle.audit_model.specs.declared.outcome.Outcome.{Outcome};
ghost use Rattle.audit_model.specs.declared.outcome.Stop.{Stop};
ghost use Rattle.audit_model.specs.declared.setting.Ask.{Ask};

/// Shows that a stop that some right outcomes decide is the stop that one thread finds after all endpoint trajectories.
pub fn decided_stops_are_final()
    ensures { (job : Job) (draws : Draws) (place : ℕ) (ask : Ask) (enough : ℕ) (outcomes : List Outcome) (s : Stop) → IsRight job draws outcomes →
        stop_of_known job (place, ask) enough outcomes ≡ Some s → s ≡ stop_of job (place, ask) (end_values job place (sequence job draws)) enough }
{}

/// Shows that the outcomes decide the stop if no endpoint is missing.
pub fn all_ends_decide()
    ensures { (job : Job) (place : ℕ) (ask : Ask) (enough : ℕ) (outcomes : List Outcome) →
        ((j : ℕ) → j < job.setting.ends → IsTrue (has_id outcomes (job.setting.walks + j))) →
        stop_of_known job (place, ask) enough outcomes ≡ Some (stop_of job (place, ask) (known_values job place outcomes) enough) }
{}
