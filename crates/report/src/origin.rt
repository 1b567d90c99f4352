//! The lines on the origin of a job.

ghost use Rattle.std.specs.Prelude.{◌≡◌, ◌++◌};
ghost use Rattle.report.specs.Lines.{AppendsText, spaced};
ghost use Rattle.report.specs.Parts.{first_columns, last_columns, source_line};
ghost use Rattle.audit_statement.specs.Report as definition;

use crate::lines::{Word, push_line, push_word, push_words};
use audit_model::buffers::Bytes;
use audit_model::memory::Memory;
use audit_model::origin::Origin;
use audit_model::setting::{Columns, Setting};
use audit_model::text::Text;
use plan_core::job::Job;

/// Appends the source line and the columns line, if the job has an origin.
pub fn push_origin_lines(job: &Job, out: &mut Bytes) -> Result<(), Memory>
    ensures { AppendsText out.old out.new (definition.origin_lines job.now job.now.origin) result }
{
    match job.origin() {
        None => Ok(()),
        Some(origin) => push_origin(job.setting(), &origin, out),
    }
}

fn push_origin(setting: &Setting, origin: &Origin, out: &mut Bytes) -> Result<(), Memory>
    ensures { AppendsText out.old out.new (source_line origin.now ++ definition.columns_line setting.now.columns setting.now.region) result }
{
    push_source_line(origin, out)?;
    push_columns_line(&setting.columns, &setting.region, out)
}

/// Appends the line with the SHA-256 and the number of all bytes that were read.
fn push_source_line(origin: &Origin, out: &mut Bytes) -> Result<(), Memory>
    ensures { AppendsText out.old out.new (source_line origin.now) result }
{
    push_line(
        out,
        &[
            Word::Text("source"),
            Word::Text("sha256"),
            Word::Key(&origin.sha256),
            Word::Text("bytes"),
            Word::Number(origin.bytes),
        ],
    )
}

fn push_columns_line(columns: &Columns, region: &Text, out: &mut Bytes) -> Result<(), Memory>
    ensures { AppendsText out.old out.new (definition.columns_line columns.now region.now) result }
{
    push_columns(columns, region, out)?;
    out.push(b'\n')
}

/// Appends the columns line without its line feed.
fn push_columns(columns: &Columns, region: &Text, out: &mut Bytes) -> Result<(), Memory>
    ensures { AppendsText out.old out.new (first_columns columns.now region.now ++ last_columns columns.now) result }
{
    push_first_columns(columns, region, out)?;
    push_last_columns(columns, out)
}

/// Appends the first part of the columns line, up to the columns of the group.
fn push_first_columns(columns: &Columns, region: &Text, out: &mut Bytes) -> Result<(), Memory>
    ensures { AppendsText out.old out.new (first_columns columns.now region.now) result }
{
    push_word(out, &Word::Text("columns"))?;
    push_words(
        out,
        &[
            Word::Quoted(columns.population.as_str()),
            Word::Quoted(columns.first.as_str()),
            Word::Quoted(columns.second.as_str()),
            Word::Quoted(columns.district.as_str()),
        ],
    )?;
    push_region_words(region, out)?;
    push_group_words(columns, out)
}

/// Appends the last part of the columns line: the columns of frozen units and of lengths.
fn push_last_columns(columns: &Columns, out: &mut Bytes) -> Result<(), Memory>
    ensures { AppendsText out.old out.new (last_columns columns.now) result }
{
    push_frozen_words(&columns.frozen, out)?;
    push_length_words(&columns.length, out)
}

/// Appends the column of the regions, if one is named.
fn push_region_words(region: &Text, out: &mut Bytes) -> Result<(), Memory>
    ensures { AppendsText out.old out.new (spaced (definition.region_words region.now)) result }
{
    let name = region.as_str();
    if name.is_empty() {
        return Ok(());
    }
    push_words(out, &[Word::Text("region"), Word::Quoted(name)])
}

/// Appends the column of frozen units, if one is named.
fn push_frozen_words(frozen: &Text, out: &mut Bytes) -> Result<(), Memory>
    ensures { AppendsText out.old out.new (spaced (definition.frozen_words frozen.now)) result }
{
    let name = frozen.as_str();
    if name.is_empty() {
        return Ok(());
    }
    push_words(out, &[Word::Text("freeze"), Word::Quoted(name)])
}

/// Appends the column of the edges' lengths, if one is named.
fn push_length_words(length: &Text, out: &mut Bytes) -> Result<(), Memory>
    ensures { AppendsText out.old out.new (spaced (definition.length_words length.now)) result }
{
    let name = length.as_str();
    if name.is_empty() {
        return Ok(());
    }
    push_words(out, &[Word::Text("length"), Word::Quoted(name)])
}

/// Appends the columns of a group, if one is named.
fn push_group_words(columns: &Columns, out: &mut Bytes) -> Result<(), Memory>
    ensures { AppendsText out.old out.new (spaced (definition.group_words columns.now.group columns.now.whole)) result }
{
    let name = columns.group.as_str();
    if name.is_empty() {
        return Ok(());
    }
    push_words(
        out,
        &[
            Word::Text("group"),
            Word::Quoted(name),
            Word::Text("of"),
            Word::Quoted(columns.whole.as_str()),
        ],
    )
}
