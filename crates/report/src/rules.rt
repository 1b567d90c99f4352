//! The lines of the rules on plans.

ghost use Rattle.std.specs.Prelude.{◌≡◌, ◌<◌, ◌^◌, ℕ, ◌||◌, false, nat_lt, length, All};
ghost use Rattle.std.specs.List.{slice_index_or};
ghost use Rattle.audit_model.specs.Below.{count_below};
ghost use Rattle.audit_model.specs.Graph.{has};
ghost use Rattle.audit_model.specs.Length.{cut_length};
ghost use Rattle.audit_model.specs.Meets.{frozen_count, majorities, region_count};
ghost use Rattle.report.specs.Lines.{AppendsText};
ghost use Rattle.audit_statement.specs.Report as definition;
ghost use Rattle.audit_model.specs.Limits.{most_regions, most_splits};

use crate::lines::{Word, push_line};
use audit_model::buffers::Bytes;
use audit_model::memory::Memory;
use audit_model::setting::Setting;
use plan_core::job::Job;

/// The maximum number of regions. Regions are numbered from 0.
const REGIONS: usize = 5000;

/// Appends a line for each rule that limits the plans.
pub fn push_rule_lines(job: &Job, out: &mut Bytes) -> Result<(), Memory>
    ensures { AppendsText out.old out.new (definition.rule_lines job.now) result }
{
    push_cut_line(job, out)?;
    push_split_line(job, out)?;
    push_splits_line(job, out)?;
    push_group_line(job, out)?;
    push_share_line(job, out)?;
    push_frozen_line(job, out)?;
    push_length_lines(job, out)
}

/// Appends the line with the most cut edges, if they are limited.
fn push_cut_line(job: &Job, out: &mut Bytes) -> Result<(), Memory>
    ensures { AppendsText out.old out.new (definition.cut_line job.now) result }
{
    let most = job.setting().max_cut;
    if most >= 400_000 {
        return Ok(());
    }
    push_line(out, &[Word::Text("max-cut"), Word::Number(u64::from(most))])
}

/// Appends the line with the limit on districts per region and the number of regions, if there are regions.
fn push_split_line(job: &Job, out: &mut Bytes) -> Result<(), Memory>
    ensures { AppendsText out.old out.new (definition.split_line job.now.setting.max_split job.now.regions) result }
{
    let regions = regions_of(job);
    if regions.is_empty() {
        return Ok(());
    }
    push_line(
        out,
        &[
            Word::Text("max-split"),
            Word::Number(u64::from(job.setting().max_split)),
            Word::Text("regions"),
            Word::Number(u64::from(count_regions(regions))),
        ],
    )
}

/// Appends the line with the limits on splits in all and on split regions. The line is there if there are regions and
/// one of the two numbers is limited.
fn push_splits_line(job: &Job, out: &mut Bytes) -> Result<(), Memory>
    ensures { AppendsText out.old out.new (definition.splits_line job.now.setting.max_splits job.now.setting.max_split_regions job.now.regions) result }
{
    let setting = job.setting();
    if regions_of(job).is_empty() || !limits_splits(setting) {
        return Ok(());
    }
    push_line(
        out,
        &[
            Word::Text("max-splits"),
            Word::Number(u64::from(setting.max_splits)),
            Word::Text("max-split-regions"),
            Word::Number(u64::from(setting.max_split_regions)),
        ],
    )
}

/// Returns true if splits in all or split regions are limited.
fn limits_splits(setting: &Setting) -> bool
    ensures { result ≡ (nat_lt setting.now.max_splits most_splits || nat_lt setting.now.max_split_regions most_regions) }
{
    setting.max_splits < 995_000 || setting.max_split_regions < 5_000
}

/// Appends the line of the group, if there is one: the required number of majority districts, and the start plan's
/// number.
fn push_group_line(job: &Job, out: &mut Bytes) -> Result<(), Memory>
    ensures { AppendsText out.old out.new (definition.group_line job.now.setting.group_districts (majorities job.now.setting.group_share job.now.group job.now.start) job.now.group.members) result }
{
    if job.rules().group.members.as_slice().is_empty() {
        return Ok(());
    }
    push_line(
        out,
        &[
            Word::Text("group-districts"),
            Word::Number(u64::from(job.setting().group_districts)),
            Word::Text("of"),
            Word::Number(u64::from(job.majorities())),
        ],
    )
}

/// Appends the line of the share for a group's majority, if there is a group and the share is not
/// one half.
fn push_share_line(job: &Job, out: &mut Bytes) -> Result<(), Memory>
    ensures { AppendsText out.old out.new (definition.share_line job.now.setting.group_share job.now.group.members) result }
{
    let share = job.setting().group_share;
    if job.rules().group.members.as_slice().is_empty() || share == 5_000 {
        return Ok(());
    }
    push_line(
        out,
        &[Word::Text("group-share"), Word::Number(u64::from(share))],
    )
}

/// Appends the line with the number of frozen units, if there is a column of them.
fn push_frozen_line(job: &Job, out: &mut Bytes) -> Result<(), Memory>
    ensures { AppendsText out.old out.new (definition.frozen_line job.now.frozen) result }
{
    let frozen = frozen_of(job);
    if frozen.is_empty() {
        return Ok(());
    }
    push_line(
        out,
        &[
            Word::Text("frozen"),
            Word::Number(u64::from(count_frozen(frozen))),
        ],
    )
}

/// Appends the lines with the total length of the start plan's cut edges and with the limit.
fn push_length_lines(job: &Job, out: &mut Bytes) -> Result<(), Memory>
    ensures { AppendsText out.old out.new (definition.length_lines job.now) result }
{
    push_cut_length_line(job, out)?;
    push_length_line(job, out)
}

/// Appends the line with the total length of the start plan's cut edges, if a column of lengths is named and the report
/// is not blind.
fn push_cut_length_line(job: &Job, out: &mut Bytes) -> Result<(), Memory>
    ensures { AppendsText out.old out.new (definition.start_length_line job.now.setting.blind (cut_length job.now.graph job.now.counts.lengths job.now.start) job.now.setting.columns.length) result }
{
    if job.setting().blind || length_column(job).is_empty() {
        return Ok(());
    }
    push_line(
        out,
        &[Word::Text("cut-length"), Word::Number(job.cut_length())],
    )
}

/// Returns the column of the edges' lengths, or the empty text.
fn length_column(job: &Job) -> &str
    ensures { result.now ≡ job.now.setting.columns.length }
{
    job.setting().columns.length.as_str()
}

/// Appends the line with the greatest total length of cut edges, if it is limited.
fn push_length_line(job: &Job, out: &mut Bytes) -> Result<(), Memory>
    ensures { AppendsText out.old out.new (definition.length_line job.now.setting.max_length) result }
{
    let most = job.setting().max_length;
    if most >= 1_717_986_918_000_000 {
        return Ok(());
    }
    push_line(out, &[Word::Text("max-length"), Word::Number(most)])
}

fn frozen_of(job: &Job) -> &[u32]
    ensures value { result.now ≡ job.now.frozen }
    ensures few { length result.now < 2 ^ 32 }
{
    job.rules().frozen.as_slice()
}

/// Returns the number of frozen units.
fn count_frozen(frozen: &[u32]) -> u32
    requires { length frozen.now < 2 ^ 32 }
    ensures { result ≡ frozen_count frozen.now }
{
    let mut count = 0;
    for unit in 0..frozen.len() {
        if frozen[unit] > 0 {
            count += 1;
        }
    }
    count
}

fn regions_of(job: &Job) -> &[u32]
    ensures value { result.now ≡ job.now.regions }
    ensures few { All (λ r. r < most_regions) result.now }
{
    job.rules().regions.as_slice()
}

fn count_regions(regions: &[u32]) -> u32
    requires { All (λ r. r < most_regions) regions.now }
    ensures { result ≡ region_count regions.now }
{
    count_marked(&used_regions(regions))
}

/// Returns an array that is true at the index of each region that has a unit.
fn used_regions(regions: &[u32]) -> [bool; REGIONS]
    requires { All (λ r. r < most_regions) regions.now }
    ensures { (r : ℕ) → r < most_regions → slice_index_or result r false ≡ has regions.now r }
{
    let mut seen = [false; REGIONS];
    for &region in regions {
        seen[region as usize] = true;
    }
    seen
}

fn count_marked(seen: &[bool; REGIONS]) -> u32
    ensures { result ≡ count_below most_regions (λ r. slice_index_or seen.now r false) }
{
    let mut count = 0;
    for number in 0..REGIONS {
        if seen[number] {
            count += 1;
        }
    }
    count
}
