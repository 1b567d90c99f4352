//! From the arguments and the source to a job.

ghost use Rattle.std.specs.Prelude.{◌≡◌, ◌≤◌, ◌⊎◌, IfOk, IsTrue, MatchResult, Ok, Err, length};
ghost use Rattle.audit_model.specs.declared.fault.RegionFault.TheVariants as region;
ghost use Rattle.audit_model.specs.declared.setting.Columns.{Columns as ColumnsValue};
ghost use Rattle.audit_model.specs.Limits.{AreFrozen, AreRegions, AreWithin, IsGroup, IsSetting};
ghost use Rattle.audit_model.specs.JobOf.{IsJob};
ghost use Rattle.audit_model.specs.Parsed.{Parsed};
ghost use Rattle.dual_graph.specs.Read.{parsed_of};
ghost use Rattle.dual_json.specs.Numbered.{IsGraphText};
ghost use Rattle.audit_statement.specs.Reading.{reading};
ghost use Rattle.audit_model.specs.declared.setting.Command.TheVariants as command;
ghost use Rattle.audit_statement.specs.Accepted.{most_bytes};
ghost use Rattle.audit_statement.specs.Origin as definition;
ghost use Rattle.audit_statement.specs.Regions.{regions_by};
ghost use Rattle.report.specs.Ended.{word_ended, graph_ended, region_ended, plan_ended};
ghost use Rattle.audit_statement.specs.Endings.{is_reading};
ghost use Rattle.audit_start.specs.Steps.{IsMaking, Prepares, PreparesFor, Judges};
ghost use Rattle.audit_model.specs.State.{Stream};
ghost use Rattle.audit_words.specs.ArgumentBytes.{argument_bytes};
ghost use Rattle.audit_statement.specs.Grid.{grid};

use crate::reading::{ReadEnd, read_source};
use audit_io::source::Source;
use audit_model::fault::{GraphFault, PlanFault, RegionFault, WordFault};
use audit_model::lists::UnitList;
use audit_model::setting::{Columns, Command, Setting};
use audit_model::text::Text;
use audit_words::read;
use ckpt_format::origin::origin_of;
use dual_graph::parsed::Parsed as ReadParsed;
use dual_json::{read_graph, read_regions};
use grid_maker::made::read_made;
use plan_core::job::Job;
use report::ended::Ended;
use std::alloc::Global;

/// Converts a fault of the arguments to the reason why the call ends.
pub fn word_end(fault: WordFault) -> Ended
    ensures { result ≡ word_ended fault }
{
    match fault {
        WordFault::Memory => Ended::NoMemory,
        fault => Ended::BadWords(fault),
    }
}

fn graph_end(fault: GraphFault, columns: Columns) -> Ended
    ensures { result ≡ graph_ended columns fault }
{
    match fault {
        GraphFault::Memory => Ended::NoMemory,
        fault => Ended::BadGraph(fault, columns),
    }
}

fn region_end(fault: RegionFault, column: Text) -> Ended
    ensures { result ≡ region_ended column fault }
{
    match fault {
        RegionFault::Memory => Ended::NoMemory,
        fault => Ended::BadRegions(fault, column),
    }
}

fn plan_end(fault: PlanFault) -> Ended
    ensures { result ≡ plan_ended fault }
{
    match fault {
        PlanFault::Memory => Ended::NoMemory,
        fault => Ended::BadPlan(fault),
    }
}

// Returns the region of each unit, or an empty list if the setting names no column of regions.
fn regions_of(alloc: Global, bytes: &[u8], column: &Text) -> Result<UnitList, RegionFault>
    requires graph { IsGraphText bytes.now }
    ensures read { MatchResult result (λ regions. regions_by column.now bytes.now ≡ Ok regions)
        (λ f. (f ≡ region.Memory) ⊎ (regions_by column.now bytes.now ≡ Err f)) }
    ensures within { IfOk result (λ regions. (columns : ColumnsValue) (parsed : Parsed) → reading bytes.now columns ≡ Ok parsed → AreRegions parsed.graph.units regions) }
{
    if column.as_str().is_empty() {
        return Ok(UnitList::new(alloc));
    }
    read_regions(alloc, bytes, column)
}

// Gives the job the digest and the number of these bytes as its origin, if the setting requests an origin.
fn with_source(job: Job, bytes: &[u8]) -> Job
    ensures job { result ≡ definition.with_origin (definition.origin_of job.setting bytes.now) job }
    ensures sound { IsJob result }
{
    let origin = origin_of(job.setting(), bytes);
    job.with_origin(origin)
}

// Makes the job of a parsed graph, or returns the reason why there is none.
fn judge_read(
    alloc: Global,
    setting: Setting,
    bytes: &[u8],
    parsed: ReadParsed,
) -> Result<Job, Ended>
    requires few { length bytes.now ≤ most_bytes }
    requires setting { IsSetting setting }
    requires read { reading bytes.now setting.columns ≡ Ok (parsed_of parsed) }
    requires within { AreWithin parsed.graph parsed.counts parsed.start (length parsed.labels) }
    requires group { IsGroup parsed.graph.units parsed.group }
    requires frozen { AreFrozen parsed.graph.units parsed.frozen }
    ensures { Judges setting bytes.now result }
{
    match regions_of(alloc, bytes, &setting.region) {
        Ok(regions) => match Job::with_regions(alloc, parsed, setting, regions) {
            Ok(job) => Ok(with_source(job, bytes)),
            Err(fault) => Err(plan_end(fault)),
        },
        Err(fault) => Err(region_end(fault, setting.region)),
    }
}

// Makes the job of these bytes, or returns the reason why there is none.
fn judge(alloc: Global, setting: Setting, bytes: &[u8]) -> Result<Job, Ended>
    requires few { length bytes.now ≤ most_bytes }
    requires within { IsSetting setting }
    ensures { Judges setting bytes.now result }
{
    match read_graph(alloc, bytes, &setting.columns) {
        Ok(parsed) => judge_read(alloc, setting, bytes, parsed),
        Err(fault) => Err(graph_end(fault, setting.columns)),
    }
}

// Makes the job of a parsed grid, which has no regions and no origin, or returns the reason why there is none.
fn judge_made(alloc: Global, setting: Setting, parsed: ReadParsed) -> Result<Job, Ended>
    requires made { IsMaking setting }
    requires setting { IsSetting setting }
    requires read { reading (grid setting.size setting.key) setting.columns ≡ Ok (parsed_of parsed) }
    requires within { AreWithin parsed.graph parsed.counts parsed.start (length parsed.labels) }
    requires group { IsGroup parsed.graph.units parsed.group }
    requires frozen { AreFrozen parsed.graph.units parsed.frozen }
    ensures { Judges setting (grid setting.size setting.key) result }
{
    match Job::new(alloc, parsed, setting) {
        Ok(job) => Ok(job),
        Err(fault) => Err(plan_end(fault)),
    }
}

// Makes the job of the grid that the setting requests, or returns the reason why there is none. Reads no source, and
// makes no text of the grid: `read_made` gives the graph to which the text would be parsed.
fn prepare_grid(alloc: Global, setting: Setting) -> Result<Job, Ended>
    requires makes { setting.command ≡ command.Make }
    requires within { IsSetting setting }
    requires made { IsMaking setting }
    ensures { (source : Stream) → PreparesFor setting source source result }
{
    match read_made(alloc, setting.size, setting.key) {
        Ok(parsed) => judge_made(alloc, setting, parsed),
        Err(_) => Err(Ended::NoMemory),
    }
}

// Makes the job of the source's bytes, or returns the reason why there is none.
fn prepare_read<S: Source>(alloc: Global, setting: Setting, source: &mut S) -> Result<Job, Ended>
    requires reads { IsTrue (is_reading setting.command) }
    requires within { IsSetting setting }
    ensures { PreparesFor setting (S.state source.old) (S.state source.new) result }
{
    match read_source(alloc, source) {
        Ok(bytes) => judge(alloc, setting, bytes.as_slice()),
        Err(ReadEnd::Failed) => Err(Ended::ReadFault),
        Err(ReadEnd::TooMany) => Err(Ended::TooManyBytes),
        Err(ReadEnd::Memory) => Err(Ended::NoMemory),
    }
}

/// Makes the job of the arguments and the source, or returns the reason why there is none. The graph of `make` is a
/// grid, and the source is not read.
pub fn prepare<S: Source>(alloc: Global, words: &[String], source: &mut S) -> Result<Job, Ended>
    ensures { Prepares (argument_bytes words.now) (S.state source.old) (S.state source.new) result }
{
    match read(alloc, words) {
        Ok(setting) => match setting.command {
            Command::Check | Command::Run | Command::Plans | Command::Trace => {
                prepare_read(alloc, setting, source)
            }
            Command::Make => prepare_grid(alloc, setting),
        },
        Err(fault) => Err(word_end(fault)),
    }
}
