//! The usage of the program and of its commands.

ghost use Rattle.std.specs.Prelude.{◌≡◌, map};
ghost use Rattle.audit_words.specs.Usage as definition;

use audit_model::setting::Command;

const USAGE: [&str; 24] = [
    "usage: district-audit COMMAND NAME VALUE ..",
    "       district-audit COMMAND --help",
    "       district-audit --help",
    "       district-audit --version",
    "",
    "commands, whose --help tells the names and values that each takes:",
    "  check  checks that the plan of a graph is legal, and walks nothing",
    "  run    walks from the plan of a graph, and reports the outlier tests",
    "  make   does what run does on a grid that it makes; reads nothing",
    "  plans  reports on the plan of a graph and on those of a table behind it",
    "  trace  writes the plans of a run's trajectories at every N-th step",
    "",
    "The graph is read from standard input. The text goes to standard output, and a",
    "line that says why the status is not 0 to standard error. Statuses:",
    "  0  done",
    "  1  the arguments are refused",
    "  2  the graph, the table or a plan is refused",
    "  3  out of memory",
    "  4  a read failed",
    "  5  a write failed",
    "  6  a checkpoint could not be loaded",
    "  7  stopped: trajectories are left to another run",
    "  8  no run can go on from these checkpoints",
    "  9  a checkpoint could not be saved",
];

const OF_CHECK: [&str; 3] = [
    "usage: district-audit check NAME VALUE ..",
    "checks that the plan of a graph is legal, and walks nothing",
    "",
];

const OF_RUN: [&str; 3] = [
    "usage: district-audit run NAME VALUE ..",
    "walks from the plan of a graph, and reports the outlier tests",
    "",
];

const OF_MAKE: [&str; 3] = [
    "usage: district-audit make NAME VALUE ..",
    "does what run does on a grid that it makes; reads nothing",
    "",
];

const OF_PLANS: [&str; 3] = [
    "usage: district-audit plans NAME VALUE ..",
    "reports on the plan of a graph and on those of a table behind it",
    "",
];

const OF_TRACE: [&str; 3] = [
    "usage: district-audit trace NAME VALUE ..",
    "writes the plans of a run's trajectories at every N-th step",
    "",
];

const TESTS: [&str; 2] = [
    "",
    "SCORE is seats, mean-median, gap, cut-edges or, with --length, cut-length; TAIL is low or high.",
];

const GRID_TESTS: [&str; 2] = [
    "",
    "SCORE is seats, mean-median, gap or cut-edges; TAIL is low or high.",
];

/// Returns the lines of the program's usage.
pub fn usage_lines() -> &'static [&'static str]
    ensures { map (λ l. l.now) result.now ≡ definition.usage_lines }
{
    &USAGE
}

/// Returns the lines before the arguments of a command.
pub fn head_of(command: Command) -> &'static [&'static str]
    ensures { map (λ l. l.now) result.now ≡ definition.head_of command }
{
    match command {
        Command::Check => &OF_CHECK,
        Command::Run => &OF_RUN,
        Command::Make => &OF_MAKE,
        Command::Plans => &OF_PLANS,
        Command::Trace => &OF_TRACE,
    }
}

/// Returns the lines after the arguments of a command: the syntax of an ask, if the command takes
/// asks.
pub fn foot_of(command: Command) -> &'static [&'static str]
    ensures { map (λ l. l.now) result.now ≡ definition.foot_of command }
{
    match command {
        Command::Check => &[],
        Command::Make => &GRID_TESTS,
        Command::Run | Command::Plans | Command::Trace => &TESTS,
    }
}
