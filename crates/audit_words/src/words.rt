//! From the arguments to the setting.

ghost use Rattle.std.specs.Prelude.{◌≡◌, ◌⊎◌, ◌<◌, length, None, Ok, Err, IfOk, MatchResult};
ghost use Rattle.audit_model.specs.Limits.{IsSetting};
ghost use Rattle.audit_model.specs.declared.fault.WordFault.TheVariants as fault;
ghost use Rattle.audit_words.specs.Judged.{fault_of_pairs, fault_of_names, fault_of_values, fault_of_walks};
ghost use Rattle.audit_words.specs.ArgumentBytes.{argument_bytes, pairs_in, MatchesFault};
ghost use Rattle.audit_statement.specs.Words as definition;
ghost use Rattle.audit_statement.specs.Words.{setting_of};

use crate::fields::{has_pairs, is_good};
use crate::names::{command_of, name_of, names_of};
use crate::pairs::{count, is_repeated, name_at, value_at, value_of};
use crate::settings::{copy_text, setting_for};
use audit_model::fault::WordFault;
use audit_model::memory::Memory;
use audit_model::setting::{Command, Setting};
use std::alloc::Global;

/// Returns the setting that the arguments give: the command, then pairs of a name and a value.
///
/// # Errors
///
/// The first of these faults, tested in this order: no word, an unknown command, the first faulty pair, the first
/// missing name, the first name with an invalid value, and pairs of fewer than two walks. Names are tested in the order
/// of `names_of`. `Memory` may come at any point.
pub fn read(alloc: Global, words: &[String]) -> Result<Setting, WordFault>
    ensures exact { MatchResult result (λ setting. setting_of (argument_bytes words.now) ≡ Ok setting) (λ f. (f ≡ fault.Memory) ⊎ (setting_of (argument_bytes words.now) ≡ Err f)) }
    ensures within { IfOk result (λ setting. IsSetting setting) }
{
    let Some((word, rest)) = words.split_first() else {
        return Err(WordFault::NoCommand);
    };
    let Some(command) = command_of(word.as_str()) else {
        return Err(unknown_command(alloc, word.as_str()));
    };
    judge_pairs(alloc, command, rest)?;
    judge_missing(command, rest)?;
    judge_values(command, rest)?;
    judge_walks(rest)?;
    match setting_for(alloc, command, rest) {
        Ok(setting) => Ok(setting),
        Err(Memory) => Err(WordFault::Memory),
    }
}

/// Returns the refusal of a word that is no command.
fn unknown_command(alloc: Global, word: &str) -> WordFault
    ensures { (result ≡ fault.Memory) ⊎ (result ≡ fault.UnknownCommand word.now) }
{
    match copy_text(alloc, word) {
        Ok(text) => WordFault::UnknownCommand(text),
        Err(Memory) => WordFault::Memory,
    }
}

/// Returns the refusal of a word that is no name of the command.
fn unknown_name(alloc: Global, word: &str) -> WordFault
    ensures { (result ≡ fault.Memory) ⊎ (result ≡ fault.UnknownName word.now) }
{
    match copy_text(alloc, word) {
        Ok(text) => WordFault::UnknownName(text),
        Err(Memory) => WordFault::Memory,
    }
}

/// Refuses the pair with the index `place` if its first word is no name of the command, if an earlier pair has the
/// name, or if the pair has no value.
fn judge_pair(
    alloc: Global,
    command: Command,
    words: &[String],
    place: usize,
) -> Result<(), WordFault>
    requires { place < length (pairs_in words.now) }
    ensures { MatchesFault result (definition.pair_fault command (pairs_in words.now) place) }
{
    let word = name_at(words, place);
    let Some(name) = name_of(command, word) else {
        return Err(unknown_name(alloc, word));
    };
    if is_repeated(words, place) {
        return Err(WordFault::Twice(name));
    }
    if value_at(words, place).is_none() {
        return Err(WordFault::NoValue(name));
    }
    Ok(())
}

/// Refuses the first faulty pair.
fn judge_pairs(alloc: Global, command: Command, words: &[String]) -> Result<(), WordFault>
    ensures { MatchesFault result (fault_of_pairs command (pairs_in words.now)) }
{
    for k in 0..count(words) {
        judge_pair(alloc, command, words, k)?;
    }
    Ok(())
}

/// Refuses the first required name of the command that is missing.
fn judge_missing(command: Command, words: &[String]) -> Result<(), WordFault>
    ensures { MatchesFault result (fault_of_names command (pairs_in words.now)) }
{
    for name in names_of(command) {
        if value_of(words, *name).is_none() {
            return Err(WordFault::MissingName(*name));
        }
    }
    Ok(())
}

/// Refuses the first name of the command with an invalid value.
fn judge_values(command: Command, words: &[String]) -> Result<(), WordFault>
    requires { fault_of_pairs command (pairs_in words.now) ≡ None }
    ensures { MatchesFault result (fault_of_values command (pairs_in words.now)) }
{
    for name in names_of(command) {
        if !is_good(command, words, *name) {
            return Err(WordFault::BadValue(*name));
        }
    }
    Ok(())
}

/// Refuses pairs of fewer than two walks.
fn judge_walks(words: &[String]) -> Result<(), WordFault>
    ensures { MatchesFault result (fault_of_walks (pairs_in words.now)) }
{
    if !has_pairs(words) {
        return Err(WordFault::PairsNeedTwoWalks);
    }
    Ok(())
}
