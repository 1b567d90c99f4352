//! The validity of each argument's value.

ghost use Rattle.std.specs.Prelude.{◌≡◌, ◌+◌, ◌^◌, ◌<◌, ◌==◌, ◌&&◌, ◌||◌, not, nat_le, nat_lt, unwrap_or};
ghost use Rattle.audit_model.specs.Limits.{most_trajectories};
ghost use Rattle.audit_model.specs.Power.{is_power_of_two};
ghost use Rattle.audit_model.specs.declared.fault.Name.TheVariants as name;
ghost use Rattle.audit_model.specs.declared.setting.Command.TheVariants as command;
ghost use Rattle.audit_words.specs.Judged.{DependenciesAreValid};
ghost use Rattle.audit_words.specs.ArgumentBytes.{pairs_in};
ghost use Rattle.audit_statement.specs.Words as definition;

use crate::asks::{are_asks, asks_for_length};
use crate::pairs::text_of;
use crate::values::{
    is_answer, is_length, is_number, is_one_line, key_of, length_in, number_in, range_of, weight_of,
};
use audit_model::fault::Name;
use audit_model::setting::Command;

/// Returns the number in the value of a name, or 0 if the value is no 32-bit number.
pub fn number_at(words: &[String], name: Name) -> u32
    ensures { definition.number_named command.Check (pairs_in words.now) name < 2 ^ 32 → result ≡ definition.number_named command.Check (pairs_in words.now) name }
{
    number_in(text_of(words, name))
}

/// Returns true if there are 1 to 100,000 trajectories.
fn has_walks(walks: u32, ends: u32) -> bool
    ensures { result ≡ (nat_le 1 (walks + ends) && nat_le (walks + ends) most_trajectories) }
{
    let count = u64::from(walks) + u64::from(ends);
    1 <= count && count <= 100_000
}

/// Returns true if the run saves or its budget covers every trajectory. Without checkpoints, a run that stops at its
/// budget would lose its outcomes.
fn covers_walks(words: &[String], walks: u32, ends: u32, budget: u32) -> bool
    ensures { result ≡ (not (definition.is_number 0 0 (definition.text_of command.Check (pairs_in words.now) name.Save)) || nat_le (walks + ends) budget) }
{
    !is_number(0, 0, text_of(words, Name::Save))
        || u64::from(walks) + u64::from(ends) <= u64::from(budget)
}

/// Returns true if tests do not stop early, or if there are endpoints to test and the run neither saves nor resumes.
fn stops_alone(words: &[String], stop: u32, ends: u32, save: u32) -> bool
    ensures { result ≡ ((stop == 0) || (nat_le 1 ends && (save == 0) && not (definition.is_yes command.Check (pairs_in words.now) name.Resume))) }
{
    stop == 0 || (1 <= ends && save == 0 && text_of(words, Name::Resume) != "yes")
}

/// Returns true if the serial test is not requested or its run has a power of two of plans. Only then do equally many
/// draws give each position of the start plan.
fn divides_draws(words: &[String], steps: u32) -> bool
    ensures { result ≡ (not (definition.is_yes command.Check (pairs_in words.now) name.Serial) || is_power_of_two (steps + 1)) }
{
    text_of(words, Name::Serial) != "yes" || has_power_of_two_plans(steps)
}

/// Returns true if a run of this many steps visits a power of two of plans.
fn has_power_of_two_plans(steps: u32) -> bool
    ensures { result ≡ is_power_of_two (steps + 1) }
{
    (u64::from(steps) + 1).is_power_of_two()
}

/// Returns true if a limit has its default, or if the column to which it applies is named.
fn is_set_for(words: &[String], name: Name, default: u32, column: Name) -> bool
    ensures { definition.number_named command.Check (pairs_in words.now) name < 2 ^ 32 → result ≡ ((definition.number_named command.Check (pairs_in words.now) name == default) || not (definition.is_empty command.Check (pairs_in words.now) column)) }
{
    number_at(words, name) == default || !text_of(words, column).is_empty()
}

/// Returns true if no column of a base population is named, or if the column of the group is named too.
fn has_group_of(words: &[String]) -> bool
    ensures { result ≡ definition.has_group_of command.Check (pairs_in words.now) }
{
    text_of(words, Name::GroupOf).is_empty() || !text_of(words, Name::Group).is_empty()
}

/// Returns the limit on the length of cut edges, or 0 if the value is no 64-bit number.
pub fn length_at(words: &[String]) -> u64
    ensures { definition.number_named command.Check (pairs_in words.now) name.MaxLength < 2 ^ 64 → result ≡ definition.number_named command.Check (pairs_in words.now) name.MaxLength }
{
    length_in(text_of(words, Name::MaxLength))
}

/// Returns the weight on a cut edge in quarters, or 256 if the value is no weight.
pub fn weight_at(words: &[String]) -> u32
    ensures { result ≡ unwrap_or (definition.weight_of (definition.text_of command.Check (pairs_in words.now) name.CutWeight)) 256 }
{
    weight_of(text_of(words, Name::CutWeight)).unwrap_or(256)
}

/// Returns true if the length of cut edges is not limited, or if the column of lengths is named.
fn has_length(words: &[String], most: u64) -> bool
    ensures { result ≡ ((most == 1717986918000000) || not (definition.is_empty command.Check (pairs_in words.now) name.Length)) }
{
    most == 1_717_986_918_000_000 || !text_of(words, Name::Length).is_empty()
}

/// Returns true if no ask is for the length of cut edges, or if the column of lengths is named.
fn has_asked_length(words: &[String]) -> bool
    ensures { result ≡ definition.has_asked_length command.Check (pairs_in words.now) }
{
    !asks_for_length(text_of(words, Name::Ask)) || !text_of(words, Name::Length).is_empty()
}

/// Returns true if there is one part or the run saves. Several parts can be joined only by their checkpoints.
fn saves_parts(parts: u32, save: u32) -> bool
    ensures { result ≡ ((parts == 1) || nat_le 1 save) }
{
    parts == 1 || 1 <= save
}

/// Returns true if the first id is not above the last, and the last is the id of a trajectory.
fn are_ids(first: u32, last: u32, walks: u32, ends: u32) -> bool
    ensures { result ≡ (nat_le first last && nat_lt last (walks + ends)) }
{
    first <= last && u64::from(last) < u64::from(walks) + u64::from(ends)
}

/// Returns true if the text is an id or a range of ids of the trajectories.
fn is_range(text: &str, walks: u32, ends: u32) -> bool
    ensures { result ≡ (definition.is_number 0 100000 (definition.first_of_range text.now) && definition.is_number 0 100000 (definition.last_of_range text.now)
        && nat_le (unwrap_or (definition.number_of (definition.first_of_range text.now)) 0) (unwrap_or (definition.number_of (definition.last_of_range text.now)) 0)
        && nat_lt (unwrap_or (definition.number_of (definition.last_of_range text.now)) 0) (walks + ends)) }
{
    let (first, last) = range_of(text);
    is_number(0, 100_000, first)
        && is_number(0, 100_000, last)
        && are_ids(number_in(first), number_in(last), walks, ends)
}

/// Returns true if the report is not blind, or if the run neither saves nor resumes.
fn is_blind_alone(words: &[String]) -> bool
    ensures { result ≡ definition.is_blind_alone command.Check (pairs_in words.now) }
{
    text_of(words, Name::Blind) != "yes"
        || (is_number(0, 0, text_of(words, Name::Save)) && text_of(words, Name::Resume) != "yes")
}

/// Returns true if pairs of walks are not asked for, or if there are two walks.
pub fn has_pairs(words: &[String]) -> bool
    ensures { result ≡ definition.has_pairs command.Check (pairs_in words.now) }
{
    text_of(words, Name::Pairs) != "yes" || is_number(2, 100_000, text_of(words, Name::Walks))
}

/// Returns true if the number of endpoint trajectories is valid.
fn is_end_count(words: &[String]) -> bool
    requires { DependenciesAreValid (pairs_in words.now) name.Ends }
    ensures { result ≡ definition.is_good command.Check (pairs_in words.now) name.Ends }
{
    is_number(0, 100_000, text_of(words, Name::Ends))
        && has_walks(number_at(words, Name::Walks), number_at(words, Name::Ends))
}

/// Returns true if the budget is valid.
fn is_budget(words: &[String]) -> bool
    requires { DependenciesAreValid (pairs_in words.now) name.Budget }
    ensures { result ≡ definition.is_good command.Check (pairs_in words.now) name.Budget }
{
    is_number(0, 100_000, text_of(words, Name::Budget))
        && covers_walks(
            words,
            number_at(words, Name::Walks),
            number_at(words, Name::Ends),
            number_at(words, Name::Budget),
        )
}

/// Returns true if the number of endpoints in the tail that stops a test is valid.
fn is_stop(words: &[String]) -> bool
    requires { DependenciesAreValid (pairs_in words.now) name.Stop }
    ensures { result ≡ definition.is_good command.Check (pairs_in words.now) name.Stop }
{
    is_number(0, 100_000, text_of(words, Name::Stop))
        && stops_alone(
            words,
            number_at(words, Name::Stop),
            number_at(words, Name::Ends),
            number_at(words, Name::Save),
        )
}

/// Returns true if the value of `--serial` is valid.
fn is_serial(words: &[String]) -> bool
    requires { DependenciesAreValid (pairs_in words.now) name.Serial }
    ensures { result ≡ definition.is_good command.Check (pairs_in words.now) name.Serial }
{
    is_answer(text_of(words, Name::Serial)) && divides_draws(words, number_at(words, Name::Steps))
}

/// Returns true if the number of parts is valid.
fn is_part_count(words: &[String]) -> bool
    requires { DependenciesAreValid (pairs_in words.now) name.Parts }
    ensures { result ≡ definition.is_good command.Check (pairs_in words.now) name.Parts }
{
    is_number(1, 100_000, text_of(words, Name::Parts))
        && saves_parts(number_at(words, Name::Parts), number_at(words, Name::Save))
}

/// Returns true if the number of this run's part is valid.
fn is_part(words: &[String]) -> bool
    requires { DependenciesAreValid (pairs_in words.now) name.Part }
    ensures { result ≡ definition.is_good command.Check (pairs_in words.now) name.Part }
{
    is_number(0, 100_000, text_of(words, Name::Part))
        && number_at(words, Name::Part) < number_at(words, Name::Parts)
}

/// Returns true if the ids to trace are valid.
fn are_traced_ids(words: &[String]) -> bool
    requires { DependenciesAreValid (pairs_in words.now) name.Ids }
    ensures { result ≡ definition.is_good command.Check (pairs_in words.now) name.Ids }
{
    let text = text_of(words, Name::Ids);
    is_range(
        text,
        number_at(words, Name::Walks),
        number_at(words, Name::Ends),
    )
}

/// Returns true if the value of a name, given or default, is valid. The precondition holds once the values of earlier
/// names are valid.
pub fn is_good(command: Command, words: &[String], name: Name) -> bool
    requires { DependenciesAreValid (pairs_in words.now) name }
    ensures { result ≡ definition.is_good command (pairs_in words.now) name }
{
    let text = text_of(words, name);
    match name {
        Name::Pop | Name::First | Name::Second | Name::Region | Name::Group => true,
        Name::Freeze | Name::Length => true,
        Name::District => is_one_line(command, text),
        Name::Size => is_number(1, 30, text),
        Name::Slack => is_number(0, 10_000, text),
        Name::Key => key_of(text).is_some(),
        Name::Walks | Name::Save => is_number(0, 100_000, text),
        Name::Steps | Name::HubSteps | Name::Thin => is_number(1, 1_000_000_000, text),
        Name::Ends => is_end_count(words),
        Name::Ask => are_asks(text) && has_asked_length(words),
        Name::Workers => is_number(1, 32, text),
        Name::Budget => is_budget(words),
        Name::Resume | Name::Shift | Name::Source | Name::Pairs => is_answer(text),
        Name::MaxCut => is_number(0, 400_000, text),
        Name::Stop => is_stop(words),
        Name::Serial => is_serial(words),
        Name::MaxSplit => { is_number(1, 200, text) && is_set_for(words, name, 200, Name::Region) }
        Name::Parts => is_part_count(words),
        Name::Part => is_part(words),
        Name::MaxSplits => {
            is_number(0, 995_000, text) && is_set_for(words, name, 995_000, Name::Region)
        }
        Name::MaxSplitRegions => {
            is_number(0, 5_000, text) && is_set_for(words, name, 5_000, Name::Region)
        }
        Name::GroupOf => has_group_of(words),
        Name::GroupDistricts => {
            is_number(0, 200, text) && is_set_for(words, name, 0, Name::Group)
        }
        Name::Ids => are_traced_ids(words),
        Name::GroupShare => {
            is_number(0, 10_000, text) && is_set_for(words, name, 5_000, Name::Group)
        }
        Name::MaxLength => is_length(text) && has_length(words, length_at(words)),
        Name::CutWeight => weight_of(text).is_some(),
        Name::Blind => is_answer(text) && is_blind_alone(words),
    }
}
