//! Laws of the saves of a run. Each law is the contract of a function with an empty body.

ghost use Rattle.tally_desk.specs.Holding.{RunAttemptsAreRight, SavesHoldParts};

/// Shows that each save holds all initial outcomes and the outcomes of some ids of `todo`.
pub fn saves_hold_parts()
    ensures { SavesHoldParts }
{}

/// Shows that the job's trajectories found the outcomes of each save attempt, if they found the initial outcomes.
pub fn run_attempts_are_right()
    ensures { RunAttemptsAreRight }
{}
