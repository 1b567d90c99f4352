//! The two runs from the start plan.

ghost use Rattle.std.specs.Prelude.{◌≡◌, ◌+◌, ◌≤◌, IsTrue};
ghost use Rattle.audit_statement.specs.Draw.{draw};
ghost use Rattle.audit_model.specs.Power.{is_power_of_two};
ghost use Rattle.audit_model.specs.Serially.{serial_of};
ghost use Rattle.serial_test.specs.Ranks.{HasRanks, RunsStayLegal};

use crate::ranks::ranks;
use crate::start_place::place;
use audit_model::outcome::Serial;
use chacha_draws::Draws;
use flip_guard::judge::Judge;
use plan_core::job::Job;
use walker::walker::Walker;

/// The stream whose first draw gives the start plan's position.
const PLACE_STREAM: u64 = 8_589_934_592;

/// The stream of the steps from the start plan to the end of the run.
const FORWARD_STREAM: u64 = 8_589_934_593;

/// The stream of the steps from the start plan to the beginning of the run.
const BACKWARD_STREAM: u64 = 8_589_934_594;

/// Runs the serial test of the job's start plan (Besag and Clifford).
///
/// The run has as many steps as a walk. The drawn position `place` is the number of steps from the
/// start plan to the end of the run. The other steps lead from the start plan back to the beginning
/// of the run. Each rank counts the plans of the run in the tail of one ask; ranks past the last
/// ask are 0. Allocates nothing, and ignores the walker's earlier state.
pub fn serial<J: Judge>(walker: &mut Walker<J>, job: &Job) -> Serial
    requires made { walker.old.job ≡ job.now }
    requires some { 1 ≤ job.now.setting.steps }
    requires even { IsTrue (is_power_of_two (job.now.setting.steps + 1)) }
    ensures serial { result ≡ serial_of job.now (draw job.now.setting.key) }
    ensures place { result.place ≤ job.now.setting.steps }
    ensures ranks { HasRanks job.now result.ranks }
    ensures legal { RunsStayLegal job.now }
    ensures made { walker.new.job ≡ job.now }
{
    let setting = job.setting();
    let steps = setting.steps;
    let mut draws = Draws::new(setting.key, PLACE_STREAM);
    let drawn = draws.next();
    let start = place(drawn, u64::from(steps) + 1);
    let forward = walker.run(job, FORWARD_STREAM, start);
    let backward = walker.run(job, BACKWARD_STREAM, steps - start);
    Serial {
        place: start,
        moved: forward.moved + backward.moved,
        ranks: ranks(forward.values, backward.values),
    }
}
