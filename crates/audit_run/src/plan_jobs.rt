//! From the arguments and the source to the jobs of several plans.

ghost use Rattle.std.specs.Prelude.{◌≡◌, ◌≤◌, MatchResult, length};
ghost use Rattle.std.specs.Io.KnownBytes.{IsAtEnd};
ghost use Rattle.audit_model.specs.Limits.{IsSetting};
ghost use Rattle.audit_run.specs.Stages.{ArePreparedFor, ArePlansPrepared, PlansRefused, PlansRunTo, plans_ended, read_ended};
ghost use Rattle.audit_statement.specs.Accepted.{most_bytes};
ghost use Rattle.audit_model.specs.State.{KeeperState, Stream};
ghost use Rattle.audit_model.specs.Observed.{IfObserved};
ghost use Rattle.audit_statement.specs.World.{world};
ghost use Rattle.audit_words.specs.ArgumentBytes.{argument_bytes};

use audit_io::source::Source;
use audit_model::fault::PlansFault;
use audit_model::setting::{Columns, Setting};
use audit_model::text::Text;
use audit_start::prepare::word_end;
use audit_start::reading::{ReadEnd, read_source};
use audit_words::read;
use plan_csv::named::Named;
use plan_csv::read_jobs;
use report::ended::Ended;
use std::alloc::Global;

fn columns_of(setting: Setting) -> Columns
    ensures { result ≡ setting.columns }
{
    setting.columns
}

fn region_of(setting: Setting) -> Text
    ensures { result ≡ setting.region }
{
    setting.region
}

fn plans_end(fault: PlansFault, setting: Setting) -> Ended
    ensures { result ≡ plans_ended setting fault }
{
    match fault {
        PlansFault::Graph(fault) => Ended::BadGraph(fault, columns_of(setting)),
        PlansFault::Regions(fault) => Ended::BadRegions(fault, region_of(setting)),
        PlansFault::Table(fault) => {
            drop(setting);
            Ended::BadTable(fault)
        }
        PlansFault::Own(fault) => {
            drop(setting);
            Ended::BadPlan(fault)
        }
        PlansFault::Other(name, fault) => {
            drop(setting);
            Ended::BadPlanNamed(name, fault)
        }
        PlansFault::Memory => {
            drop(setting);
            Ended::NoMemory
        }
    }
}

// Converts the reason why the source was not read to its end to the reason why the call ends.
fn read_end(end: ReadEnd) -> Ended
    ensures { result ≡ read_ended end }
{
    match end {
        ReadEnd::Failed => Ended::ReadFault,
        ReadEnd::TooMany => Ended::TooManyBytes,
        ReadEnd::Memory => Ended::NoMemory,
    }
}

// Makes the jobs of the source's bytes, or returns the reason why there are none.
fn judge_plans(alloc: Global, setting: Setting, bytes: &[u8]) -> Result<Vec<Named>, Ended>
    requires few { length bytes.now ≤ most_bytes }
    requires within { IsSetting setting }
    ensures { (before after : Stream) → IfObserved before.bytes (λ left. left ≡ bytes.now) → after.faults ≡ before.faults
        → MatchResult result (λ plans. IsAtEnd after.bytes → ArePreparedFor setting before after plans.items) (λ why. PlansRefused setting before after why) }
{
    match read_jobs(alloc, &setting, bytes) {
        Ok(plans) => {
            drop(setting);
            Ok(plans)
        }
        Err(fault) => Err(plans_end(fault, setting)),
    }
}

// Makes the jobs of the source, or returns the reason why there are none.
fn prepare_jobs<S: Source>(
    alloc: Global,
    setting: Setting,
    source: &mut S,
) -> Result<Vec<Named>, Ended>
    requires { IsSetting setting }
    ensures { MatchResult result (λ plans. ArePreparedFor setting (S.state source.old) (S.state source.new) plans.items)
        (λ why. PlansRefused setting (S.state source.old) (S.state source.new) why) }
{
    match read_source(alloc, source) {
        Ok(bytes) => judge_plans(alloc, setting, bytes.as_slice()),
        Err(end) => {
            drop(setting);
            Err(read_end(end))
        }
    }
}

/// Makes the jobs of the arguments and the source, or returns the reason why there are none.
pub fn prepare_plans<S: Source>(
    alloc: Global,
    words: &[String],
    source: &mut S,
) -> Result<Vec<Named>, Ended>
    ensures { MatchResult result (λ plans. ArePlansPrepared (argument_bytes words.now) (S.state source.old) (S.state source.new) plans.items)
        (λ why. (out : Stream) (keeper : KeeperState) → PlansRunTo (argument_bytes words.now) (world (S.state source.old) out keeper) (world (S.state source.new) out keeper) why) }
{
    match read(alloc, words) {
        Ok(setting) => prepare_jobs(alloc, setting, source),
        Err(fault) => Err(word_end(fault)),
    }
}
