//! From valid values to the setting.

ghost use Rattle.std.specs.Prelude.{◌≡◌, ◌++◌, [], true, IfOk, OnOk, codes};
ghost use Rattle.std.specs.List.{filter_map};
ghost use Rattle.audit_model.specs.declared.fault.Name.TheVariants as name;
ghost use Rattle.audit_model.specs.declared.setting.Command.TheVariants as command;
ghost use Rattle.audit_words.specs.Judged.{AreGood, AreGoodLimits, AreReadable};
ghost use Rattle.audit_words.specs.ArgumentBytes.{pairs_in};
ghost use Rattle.audit_statement.specs.Words as definition;

use crate::asks::asks_of;
use crate::fields::{length_at, number_at, weight_at};
use crate::pairs::text_of;
use crate::values::{key_of, number_in, range_of};
use audit_model::fault::Name;
use audit_model::lists::AskList;
use audit_model::memory::Memory;
use audit_model::setting::{Columns, Command, Setting};
use audit_model::text::Text;
use std::alloc::Global;

/// Copies the word to a text. The only error is out of memory.
pub fn copy_text(alloc: Global, word: &str) -> Result<Text, Memory>
    ensures { IfOk result (λ text. text ≡ word.now) }
{
    let mut text = Text::new(alloc);
    text.push_str(word)?;
    Ok(text)
}

/// Returns the column of a group's base population: the value of `--group-of`, or else the column of the population.
/// Returns the empty text if there is no group.
fn whole_column(words: &[String]) -> &str
    ensures { result.now ≡ definition.whole_column (definition.text_of command.Check (pairs_in words.now) name.Group) (definition.text_of command.Check (pairs_in words.now) name.GroupOf) (definition.text_of command.Check (pairs_in words.now) name.Pop) }
{
    if text_of(words, Name::Group).is_empty() {
        ""
    } else if text_of(words, Name::GroupOf).is_empty() {
        text_of(words, Name::Pop)
    } else {
        text_of(words, Name::GroupOf)
    }
}

/// Returns columns that are not named.
fn no_columns(alloc: Global) -> Columns
    ensures { result ≡ record { population = []; first = []; second = []; district = []; group = []; whole = []; frozen = []; length = [] } }
{
    Columns {
        population: Text::new(alloc),
        first: Text::new(alloc),
        second: Text::new(alloc),
        district: Text::new(alloc),
        group: Text::new(alloc),
        whole: Text::new(alloc),
        frozen: Text::new(alloc),
        length: Text::new(alloc),
    }
}

/// Appends the names of the columns that every graph has. The only error is out of memory.
fn name_counts(
    columns: &mut Columns,
    population: &str,
    first: &str,
    second: &str,
    district: &str,
) -> Result<(), Memory>
    ensures { OnOk result (columns.new ≡ record columns.old { population = columns.old.population ++ population.now; first = columns.old.first ++ first.now; second = columns.old.second ++ second.now; district = columns.old.district ++ district.now }) }
{
    columns.population.push_str(population)?;
    columns.first.push_str(first)?;
    columns.second.push_str(second)?;
    columns.district.push_str(district)?;
    Ok(())
}

/// Appends the names of the columns that rules need. The only error is out of memory.
fn name_rules(
    columns: &mut Columns,
    group: &str,
    whole: &str,
    frozen: &str,
    length: &str,
) -> Result<(), Memory>
    ensures { OnOk result (columns.new ≡ record columns.old { group = columns.old.group ++ group.now; whole = columns.old.whole ++ whole.now; frozen = columns.old.frozen ++ frozen.now; length = columns.old.length ++ length.now }) }
{
    columns.group.push_str(group)?;
    columns.whole.push_str(whole)?;
    columns.frozen.push_str(frozen)?;
    columns.length.push_str(length)?;
    Ok(())
}

/// Appends the names of all columns. The only error is out of memory.
fn name_columns(columns: &mut Columns, words: &[String]) -> Result<(), Memory>
    requires { columns.old ≡ record { population = []; first = []; second = []; district = []; group = []; whole = []; frozen = []; length = [] } }
    ensures { OnOk result (columns.new ≡ definition.columns_named command.Check (pairs_in words.now)) }
{
    name_counts(
        columns,
        text_of(words, Name::Pop),
        text_of(words, Name::First),
        text_of(words, Name::Second),
        text_of(words, Name::District),
    )?;
    name_rules(
        columns,
        text_of(words, Name::Group),
        whole_column(words),
        text_of(words, Name::Freeze),
        text_of(words, Name::Length),
    )?;
    Ok(())
}

fn columns_of(alloc: Global, words: &[String]) -> Result<Columns, Memory>
    ensures { IfOk result (λ columns. columns ≡ definition.columns_named command.Check (pairs_in words.now)) }
{
    let mut columns = no_columns(alloc);
    match name_columns(&mut columns, words) {
        Ok(()) => Ok(columns),
        Err(fault) => {
            drop(columns);
            Err(fault)
        }
    }
}

fn columns_of_grid(alloc: Global) -> Result<Columns, Memory>
    ensures { IfOk result (λ columns. columns ≡ record { population = codes "pop"; first = codes "a"; second = codes "b"; district = codes "district"; group = []; whole = []; frozen = []; length = [] }) }
{
    let mut columns = no_columns(alloc);
    match name_counts(&mut columns, "pop", "a", "b", "district") {
        Ok(()) => Ok(columns),
        Err(fault) => {
            drop(columns);
            Err(fault)
        }
    }
}

/// The limits on the splits of regions, on the majority districts of a group and on the length of cut
/// edges, and the share that a majority exceeds.
#[derive(Clone, Copy)]
struct Limits {
    max_split: u32,
    max_splits: u32,
    max_split_regions: u32,
    group_districts: u32,
    group_share: u32,
    max_length: u64,
}

/// Returns limits that limit nothing.
fn no_limits() -> Limits
    ensures { result ≡ record { max_split = 200; max_splits = 995000; max_split_regions = 5000; group_districts = 0; group_share = 5000; max_length = 1717986918000000 } }
{
    Limits {
        max_split: 200,
        max_splits: 995_000,
        max_split_regions: 5_000,
        group_districts: 0,
        group_share: 5_000,
        max_length: 1_717_986_918_000_000,
    }
}

fn limits_of(words: &[String]) -> Limits
    requires { AreGoodLimits (pairs_in words.now) }
    ensures max_split { result.max_split ≡ definition.number_named command.Check (pairs_in words.now) name.MaxSplit }
    ensures max_splits { result.max_splits ≡ definition.number_named command.Check (pairs_in words.now) name.MaxSplits }
    ensures max_split_regions { result.max_split_regions ≡ definition.number_named command.Check (pairs_in words.now) name.MaxSplitRegions }
    ensures group_districts { result.group_districts ≡ definition.number_named command.Check (pairs_in words.now) name.GroupDistricts }
    ensures group_share { result.group_share ≡ definition.number_named command.Check (pairs_in words.now) name.GroupShare }
    ensures max_length { result.max_length ≡ definition.number_named command.Check (pairs_in words.now) name.MaxLength }
{
    Limits {
        max_split: number_at(words, Name::MaxSplit),
        max_splits: number_at(words, Name::MaxSplits),
        max_split_regions: number_at(words, Name::MaxSplitRegions),
        group_districts: number_at(words, Name::GroupDistricts),
        group_share: number_at(words, Name::GroupShare),
        max_length: length_at(words),
    }
}

fn check_setting(alloc: Global, words: &[String]) -> Result<Setting, Memory>
    requires slack { definition.is_good command.Check (pairs_in words.now) name.Slack ≡ true }
    requires max_cut { definition.is_good command.Check (pairs_in words.now) name.MaxCut ≡ true }
    requires limits { AreGoodLimits (pairs_in words.now) }
    ensures { IfOk result (λ setting. setting ≡ definition.setting_for command.Check (pairs_in words.now)) }
{
    let limits = limits_of(words);
    let region = copy_text(alloc, text_of(words, Name::Region))?;
    match columns_of(alloc, words) {
        Ok(columns) => Ok(Setting {
            command: Command::Check,
            columns,
            slack: number_at(words, Name::Slack),
            key: [0; 32],
            walks: 0,
            steps: 0,
            ends: 0,
            hub_steps: 0,
            asks: AskList::new(alloc),
            workers: 1,
            budget: 0,
            save_every: 0,
            resume: false,
            size: 0,
            max_cut: number_at(words, Name::MaxCut),
            shift: false,
            stop: 0,
            serial: false,
            region,
            max_split: limits.max_split,
            parts: 1,
            part: 0,
            max_splits: limits.max_splits,
            max_split_regions: limits.max_split_regions,
            group_districts: limits.group_districts,
            group_share: limits.group_share,
            source: text_of(words, Name::Source) == "yes",
            first_id: 0,
            last_id: 0,
            thin: 1,
            max_length: limits.max_length,
            cut_weight: weight_at(words),
            pairs: false,
            blind: false,
        }),
        Err(fault) => Err(fault),
    }
}

/// The fields of a setting that depend on the source of the graph. A graph that is read may have columns, regions,
/// limits and a request for its origin. A generated grid has a size, and defaults in the other fields.
#[derive(Drop)]
struct GraphFields {
    columns: Columns,
    size: u32,
    region: Text,
    limits: Limits,
    source: bool,
}

fn run_setting(command: Command, words: &[String], ground: GraphFields, asks: AskList) -> Setting
    requires good { AreGood (pairs_in words.now) }
    requires asks { asks ≡ filter_map definition.ask_of (definition.parts_between 44 (definition.text_of command (pairs_in words.now) name.Ask)) }
    ensures { result ≡ record (definition.as_run command (pairs_in words.now)) { columns = ground.columns; size = ground.size; region = ground.region; max_split = ground.limits.max_split; max_splits = ground.limits.max_splits; max_split_regions = ground.limits.max_split_regions; group_districts = ground.limits.group_districts; group_share = ground.limits.group_share; source = ground.source; max_length = ground.limits.max_length } }
{
    Setting {
        command,
        columns: ground.columns,
        slack: number_at(words, Name::Slack),
        key: key_of(text_of(words, Name::Key)).unwrap(),
        walks: number_at(words, Name::Walks),
        steps: number_at(words, Name::Steps),
        ends: number_at(words, Name::Ends),
        hub_steps: number_at(words, Name::HubSteps),
        asks,
        workers: number_at(words, Name::Workers),
        budget: number_at(words, Name::Budget),
        save_every: number_at(words, Name::Save),
        resume: text_of(words, Name::Resume) == "yes",
        size: ground.size,
        max_cut: number_at(words, Name::MaxCut),
        shift: text_of(words, Name::Shift) == "yes",
        stop: number_at(words, Name::Stop),
        serial: text_of(words, Name::Serial) == "yes",
        region: ground.region,
        max_split: ground.limits.max_split,
        parts: number_at(words, Name::Parts),
        part: number_at(words, Name::Part),
        max_splits: ground.limits.max_splits,
        max_split_regions: ground.limits.max_split_regions,
        group_districts: ground.limits.group_districts,
        group_share: ground.limits.group_share,
        source: ground.source,
        first_id: 0,
        last_id: 0,
        thin: 1,
        max_length: ground.limits.max_length,
        cut_weight: weight_at(words),
        pairs: text_of(words, Name::Pairs) == "yes",
        blind: text_of(words, Name::Blind) == "yes",
    }
}

fn read_setting(alloc: Global, command: Command, words: &[String]) -> Result<Setting, Memory>
    requires run { AreGood (pairs_in words.now) }
    requires limits { AreGoodLimits (pairs_in words.now) }
    ensures { IfOk result (λ setting. setting ≡ definition.as_run command (pairs_in words.now)) }
{
    let asks = asks_of(alloc, text_of(words, Name::Ask))?;
    let region = copy_text(alloc, text_of(words, Name::Region))?;
    match columns_of(alloc, words) {
        Ok(columns) => {
            let ground = GraphFields {
                columns,
                size: 0,
                region,
                limits: limits_of(words),
                source: text_of(words, Name::Source) == "yes",
            };
            Ok(run_setting(command, words, ground, asks))
        }
        Err(fault) => Err(fault),
    }
}

fn trace_setting(alloc: Global, words: &[String]) -> Result<Setting, Memory>
    requires run { AreGood (pairs_in words.now) }
    requires limits { AreGoodLimits (pairs_in words.now) }
    requires ids { definition.is_good command.Check (pairs_in words.now) name.Ids ≡ true }
    requires thin { definition.is_good command.Check (pairs_in words.now) name.Thin ≡ true }
    ensures { IfOk result (λ setting. setting ≡ definition.setting_for command.Trace (pairs_in words.now)) }
{
    let (first, last) = range_of(text_of(words, Name::Ids));
    let first_id = number_in(first);
    let last_id = number_in(last);
    let thin = number_at(words, Name::Thin);
    let setting = read_setting(alloc, Command::Trace, words)?;
    Ok(Setting {
        first_id,
        last_id,
        thin,
        ..setting
    })
}

/// Returns the setting of a run on a generated grid, which has no regions, no group, no frozen
/// units and no origin.
fn made_setting(alloc: Global, words: &[String]) -> Result<Setting, Memory>
    requires run { AreGood (pairs_in words.now) }
    requires size { definition.is_good command.Make (pairs_in words.now) name.Size ≡ true }
    ensures { IfOk result (λ setting. setting ≡ definition.setting_for command.Make (pairs_in words.now)) }
{
    let asks = asks_of(alloc, text_of(words, Name::Ask))?;
    match columns_of_grid(alloc) {
        Ok(columns) => {
            let ground = GraphFields {
                columns,
                size: number_at(words, Name::Size),
                region: Text::new(alloc),
                limits: no_limits(),
                source: false,
            };
            Ok(run_setting(Command::Make, words, ground, asks))
        }
        Err(fault) => Err(fault),
    }
}

/// Returns the setting that the values give. The only error is out of memory.
pub fn setting_for(alloc: Global, command: Command, words: &[String]) -> Result<Setting, Memory>
    requires { AreReadable command (pairs_in words.now) }
    ensures { IfOk result (λ setting. setting ≡ definition.setting_for command (pairs_in words.now)) }
{
    match command {
        Command::Check => check_setting(alloc, words),
        Command::Run | Command::Plans => read_setting(alloc, command, words),
        Command::Make => made_setting(alloc, words),
        Command::Trace => trace_setting(alloc, words),
    }
}
