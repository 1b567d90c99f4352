//! The argument names of each command, and their defaults.

ghost use Rattle.std.specs.Prelude.{◌≡◌, [], option_map};
ghost use Rattle.audit_statement.specs.Words as definition;

use audit_model::fault::Name;
use audit_model::setting::Command;

const OF_CHECK: [Name; 19] = [
    Name::Pop,
    Name::First,
    Name::Second,
    Name::District,
    Name::Slack,
    Name::MaxCut,
    Name::Region,
    Name::MaxSplit,
    Name::MaxSplits,
    Name::MaxSplitRegions,
    Name::Group,
    Name::GroupOf,
    Name::GroupDistricts,
    Name::Source,
    Name::GroupShare,
    Name::Freeze,
    Name::Length,
    Name::MaxLength,
    Name::CutWeight,
];

const OF_RUN: [Name; 36] = [
    Name::Pop,
    Name::First,
    Name::Second,
    Name::District,
    Name::Slack,
    Name::Key,
    Name::Walks,
    Name::Steps,
    Name::Ends,
    Name::HubSteps,
    Name::Ask,
    Name::Workers,
    Name::Budget,
    Name::Save,
    Name::Resume,
    Name::MaxCut,
    Name::Shift,
    Name::Stop,
    Name::Serial,
    Name::Region,
    Name::MaxSplit,
    Name::Parts,
    Name::Part,
    Name::MaxSplits,
    Name::MaxSplitRegions,
    Name::Group,
    Name::GroupOf,
    Name::GroupDistricts,
    Name::Source,
    Name::GroupShare,
    Name::Freeze,
    Name::Length,
    Name::MaxLength,
    Name::Pairs,
    Name::CutWeight,
    Name::Blind,
];

const OF_MAKE: [Name; 21] = [
    Name::Size,
    Name::Slack,
    Name::Key,
    Name::Walks,
    Name::Steps,
    Name::Ends,
    Name::HubSteps,
    Name::Ask,
    Name::Workers,
    Name::Budget,
    Name::Save,
    Name::Resume,
    Name::MaxCut,
    Name::Shift,
    Name::Stop,
    Name::Serial,
    Name::Parts,
    Name::Part,
    Name::Pairs,
    Name::CutWeight,
    Name::Blind,
];

const OF_PLANS: [Name; 30] = [
    Name::Pop,
    Name::First,
    Name::Second,
    Name::District,
    Name::Slack,
    Name::Key,
    Name::Walks,
    Name::Steps,
    Name::Ends,
    Name::HubSteps,
    Name::Ask,
    Name::Workers,
    Name::MaxCut,
    Name::Shift,
    Name::Stop,
    Name::Serial,
    Name::Region,
    Name::MaxSplit,
    Name::MaxSplits,
    Name::MaxSplitRegions,
    Name::Group,
    Name::GroupOf,
    Name::GroupDistricts,
    Name::Source,
    Name::GroupShare,
    Name::Freeze,
    Name::Length,
    Name::MaxLength,
    Name::Pairs,
    Name::CutWeight,
];

const OF_TRACE: [Name; 27] = [
    Name::Pop,
    Name::First,
    Name::Second,
    Name::District,
    Name::Slack,
    Name::Key,
    Name::Walks,
    Name::Steps,
    Name::Ends,
    Name::HubSteps,
    Name::Ask,
    Name::MaxCut,
    Name::Region,
    Name::MaxSplit,
    Name::MaxSplits,
    Name::MaxSplitRegions,
    Name::Group,
    Name::GroupOf,
    Name::GroupDistricts,
    Name::Source,
    Name::Ids,
    Name::Thin,
    Name::GroupShare,
    Name::Freeze,
    Name::Length,
    Name::MaxLength,
    Name::CutWeight,
];

/// Returns the default value of an argument, or `None` if it is required.
pub fn default_of(name: Name) -> Option<&'static str>
    ensures { option_map (λ s. s.now) result ≡ definition.default_of name }
{
    match name {
        Name::Slack => Some("500"),
        Name::Walks | Name::Workers | Name::Parts => Some("1"),
        Name::Steps | Name::HubSteps | Name::Thin => Some("1000"),
        Name::Budget => Some("100000"),
        Name::Ends | Name::Save | Name::Stop => Some("0"),
        Name::Part | Name::GroupDistricts | Name::Ids => Some("0"),
        Name::Resume | Name::Shift | Name::Serial | Name::Source => Some("no"),
        Name::Pairs | Name::Blind => Some("no"),
        Name::CutWeight => Some("64"),
        Name::MaxCut => Some("400000"),
        Name::Region | Name::Group | Name::GroupOf | Name::Freeze | Name::Length => Some(""),
        Name::MaxSplit => Some("200"),
        Name::MaxSplits => Some("995000"),
        Name::MaxSplitRegions | Name::GroupShare => Some("5000"),
        Name::MaxLength => Some("1717986918000000"),
        Name::Pop | Name::First | Name::Second | Name::District => None,
        Name::Size | Name::Key | Name::Ask => None,
    }
}

/// Returns the argument names of a command, in the order in which their values are checked.
pub fn names_of(command: Command) -> &'static [Name]
    ensures { result.now ≡ definition.names_of command }
{
    match command {
        Command::Check => &OF_CHECK,
        Command::Run => &OF_RUN,
        Command::Make => &OF_MAKE,
        Command::Plans => &OF_PLANS,
        Command::Trace => &OF_TRACE,
    }
}

/// Returns the command that the word spells.
pub fn command_of(word: &str) -> Option<Command>
    ensures { result ≡ definition.command_of word.now }
{
    if word == "check" {
        Some(Command::Check)
    } else if word == "run" {
        Some(Command::Run)
    } else if word == "make" {
        Some(Command::Make)
    } else if word == "plans" {
        Some(Command::Plans)
    } else if word == "trace" {
        Some(Command::Trace)
    } else {
        None
    }
}

/// Returns the argument name that the word spells, if the command takes it.
pub fn name_of(command: Command, word: &str) -> Option<Name>
    ensures { result ≡ definition.name_of command [] word.now }
{
    for name in names_of(command) {
        if name.text() == word {
            return Some(*name);
        }
    }
    None
}
