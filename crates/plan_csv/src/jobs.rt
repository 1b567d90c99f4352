//! The jobs of the command `plans`: one for the graph's own plan, and one for each plan of the
//! table.

ghost use Rattle.std.specs.Prelude.{◌≡◌, ◌⊎◌, ◌∷◌, [], Ok, Err, length, All, IfOk, MatchResult};
ghost use Rattle.audit_model.specs.declared.fault.RegionFault.TheVariants as region;
ghost use Rattle.audit_model.specs.declared.setting.Columns.{Columns as ColumnsValue};
ghost use Rattle.audit_model.specs.JobOf.{IsJob, job_of};
ghost use Rattle.audit_model.specs.Limits.{AreFrozen, AreRegions, AreWithin, IsGroup, IsSetting};
ghost use Rattle.audit_model.specs.Parsed.{Parsed as ParsedOf};
ghost use Rattle.dual_graph.specs.Read.{parsed_of};
ghost use Rattle.dual_json.specs.Numbered.{IsGraphText};
ghost use Rattle.audit_statement.specs.Reading.{reading};
ghost use Rattle.plan_csv.specs.Fit.{IsPlanOf};
ghost use Rattle.audit_model.specs.declared.fault.PlansFault.TheVariants as fault;
ghost use Rattle.plan_csv.specs.Named.{jobs_of, IsOneOf};
ghost use Rattle.audit_statement.specs.Jobs.{from_graph, from_others, jobs_over_regions, jobs_reading};
ghost use Rattle.audit_statement.specs.Regions.{regions_by};
ghost use Rattle.plan_csv.specs.Shared.{AreShared};
ghost use Rattle.plan_csv.specs.JobStages.{IsOwn, IsOwnFault};
ghost use Rattle.audit_model.specs.Several.{named_jobs};

use crate::fault::{of_graph, of_own, of_regions, of_table};
use crate::named::{Named, make_jobs};
use crate::parts::{Parts, parts_of};
use crate::read_plans;
use audit_model::fault::{PlansFault, RegionFault};
use audit_model::lists::UnitList;
use audit_model::memory::Memory;
use audit_model::origin::Origin;
use audit_model::plans::Assigned;
use audit_model::setting::Setting;
use audit_model::text::Text;
use ckpt_format::origin::origin_of;
use dual_graph::parsed::Parsed;
use dual_json::{read_graph, read_ids, read_regions};
use plan_core::job::Job;
use std::alloc::Global;

/// Reads the region of each unit, or returns an empty list if the setting names no column of
/// regions.
fn regions_of(alloc: Global, bytes: &[u8], column: &Text) -> Result<UnitList, RegionFault>
    requires graph { IsGraphText bytes.now }
    ensures read { MatchResult result (λ regions. regions_by column.now bytes.now ≡ Ok regions)
        (λ f. (f ≡ region.Memory) ⊎ (regions_by column.now bytes.now ≡ Err f)) }
    ensures within { IfOk result (λ regions. (columns : ColumnsValue) (parsed : ParsedOf) → reading bytes.now columns ≡ Ok parsed → AreRegions parsed.graph.units regions) }
{
    if column.as_str().is_empty() {
        return Ok(UnitList::new(alloc));
    }
    read_regions(alloc, bytes, column)
}

fn with_first(named: Vec<Named>, own: Named) -> Result<Vec<Named>, Memory>
    ensures { IfOk result (λ all. all.items ≡ own ∷ named.items) }
{
    let mut named = named;
    match named.insert(0, own) {
        Ok(()) => Ok(named),
        Err(_) => Err(Memory),
    }
}

/// Makes the jobs of the table's plans. Puts `own`, the job of the graph's own plan, before them.
fn join(alloc: Global, own: Named, plans: &[Assigned]) -> Result<Vec<Named>, PlansFault>
    requires sound { IsJob own.job }
    requires fit { All (IsPlanOf own.job.graph.units) plans.now }
    ensures read { MatchResult result (λ named. from_others own.name own.job (named_jobs own.job plans.now) ≡ Ok (jobs_of named.items))
        (λ f. (f ≡ fault.Memory) ⊎ (from_others own.name own.job (named_jobs own.job plans.now) ≡ Err f)) }
    ensures shared { IfOk result (λ named. AreShared own.job.setting named.items) }
{
    match make_jobs(alloc, &own.job, plans) {
        Err(fault) => Err(fault),
        Ok(named) => match with_first(named, own) {
            Ok(all) => Ok(all),
            Err(_) => Err(PlansFault::Memory),
        },
    }
}

/// Makes the job of the graph's own plan, named after its district column.
fn own_of(
    alloc: Global,
    setting: &Setting,
    origin: Option<Origin>,
    parsed: Parsed,
    regions: UnitList,
) -> Result<Named, PlansFault>
    requires within { AreWithin parsed.graph parsed.counts parsed.start (length parsed.labels) }
    requires group { IsGroup parsed.graph.units parsed.group }
    requires frozen { AreFrozen parsed.graph.units parsed.frozen }
    requires setting { IsSetting setting.now }
    requires regions { AreRegions parsed.graph.units regions }
    ensures { MatchResult result (IsOwn setting.now origin (parsed_of parsed) regions)
        (λ f. (f ≡ fault.Memory) ⊎ IsOwnFault (job_of (parsed_of parsed) setting.now regions) f) }
{
    let Ok(name) = setting.columns.district.copy() else {
        return Err(PlansFault::Memory);
    };
    let Ok(setting) = setting.copy() else {
        return Err(PlansFault::Memory);
    };
    match Job::with_regions(alloc, parsed, setting, regions) {
        Err(fault) => Err(of_own(fault)),
        Ok(job) => Ok(Named {
            name,
            job: job.with_origin(origin),
        }),
    }
}

/// Makes all jobs from a parsed graph, its regions and the table.
fn jobs_from(
    alloc: Global,
    setting: &Setting,
    parts: &Parts<'_>,
    origin: Option<Origin>,
    parsed: Parsed,
    regions: UnitList,
) -> Result<Vec<Named>, PlansFault>
    requires read { reading parts.now.graph.now setting.now.columns ≡ Ok (parsed_of parsed) }
    requires within { AreWithin parsed.graph parsed.counts parsed.start (length parsed.labels) }
    requires group { IsGroup parsed.graph.units parsed.group }
    requires frozen { AreFrozen parsed.graph.units parsed.frozen }
    requires setting { IsSetting setting.now }
    requires regions { AreRegions parsed.graph.units regions }
    ensures read { MatchResult result (λ named. jobs_over_regions setting.now origin parts.now.graph.now parts.now.table.now (parsed_of parsed) (Ok regions) ≡ Ok (jobs_of named.items))
        (λ f. (f ≡ fault.Memory) ⊎ (jobs_over_regions setting.now origin parts.now.graph.now parts.now.table.now (parsed_of parsed) (Ok regions) ≡ Err f)) }
    ensures shared { IfOk result (λ named. AreShared setting.now named.items) }
{
    let Ok(ids) = read_ids(alloc, parts.graph) else {
        return Err(PlansFault::Memory);
    };
    match read_plans(alloc, parts.table, &ids) {
        Err(fault) => Err(of_table(fault)),
        Ok(plans) => match own_of(alloc, setting, origin, parsed, regions) {
            Err(fault) => Err(fault),
            Ok(own) => join(alloc, own, plans.as_slice()),
        },
    }
}

/// Makes all jobs from a parsed graph and the table.
fn jobs_read(
    alloc: Global,
    setting: &Setting,
    parts: &Parts<'_>,
    origin: Option<Origin>,
    parsed: Parsed,
) -> Result<Vec<Named>, PlansFault>
    requires read { reading parts.now.graph.now setting.now.columns ≡ Ok (parsed_of parsed) }
    requires within { AreWithin parsed.graph parsed.counts parsed.start (length parsed.labels) }
    requires group { IsGroup parsed.graph.units parsed.group }
    requires frozen { AreFrozen parsed.graph.units parsed.frozen }
    requires setting { IsSetting setting.now }
    ensures read { MatchResult result (λ named. from_graph setting.now origin parts.now.graph.now parts.now.table.now (Ok (parsed_of parsed)) ≡ Ok (jobs_of named.items))
        (λ f. (f ≡ fault.Memory) ⊎ (from_graph setting.now origin parts.now.graph.now parts.now.table.now (Ok (parsed_of parsed)) ≡ Err f)) }
    ensures shared { IfOk result (λ named. AreShared setting.now named.items) }
{
    match regions_of(alloc, parts.graph, &setting.region) {
        Err(fault) => Err(of_regions(fault)),
        Ok(regions) => jobs_from(alloc, setting, parts, origin, parsed, regions),
    }
}

/// Makes the jobs of several plans on one graph.
///
/// The bytes before the first line feed are the graph, and those after it the table. The first job
/// is that of the graph's own plan, named after its district column. If the setting asks for
/// origins, the origin of each job is the digest and the number of all bytes.
///
/// # Errors
///
/// The first fault, in this order: of the graph, of its regions, of the table, of the graph's own
/// plan, of each plan of the table. The fault of a table's plan comes with the plan's name.
/// `Memory` may come at any point.
pub fn read_jobs(alloc: Global, setting: &Setting, bytes: &[u8]) -> Result<Vec<Named>, PlansFault>
    requires { IsSetting setting.now }
    ensures read { MatchResult result (λ named. jobs_reading setting.now bytes.now ≡ Ok (jobs_of named.items))
        (λ f. (f ≡ fault.Memory) ⊎ (jobs_reading setting.now bytes.now ≡ Err f)) }
    ensures shared { IfOk result (λ named. AreShared setting.now named.items) }
{
    let parts = parts_of(bytes);
    match read_graph(alloc, parts.graph, &setting.columns) {
        Err(fault) => Err(of_graph(fault)),
        Ok(parsed) => jobs_read(alloc, setting, &parts, origin_of(setting, bytes), parsed),
    }
}
