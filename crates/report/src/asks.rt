//! The words of an ask, which all its lines share.

ghost use Rattle.std.specs.Prelude.{◌≡◌, ◌<◌, ◌≤◌, length};
ghost use Rattle.audit_model.specs.Job.{total_votes};
ghost use Rattle.audit_model.specs.JobOf.{IsJob};
ghost use Rattle.audit_model.specs.Score.{denominator};
ghost use Rattle.audit_model.specs.Trajectory.{plan_value};
ghost use Rattle.audit_statement.specs.Names.{score_name, tail_name};
ghost use Rattle.audit_statement.specs.Report.{fraction};
ghost use Rattle.report.specs.Lines.{word_text};
ghost use Rattle.report.specs.Parts.{ask_at};

use crate::lines::Word;
use crate::names::{score_text, tail_text};
use crate::values::denominator_of;
use audit_model::setting::Ask;
use plan_core::job::Job;

/// The words of an ask.
#[derive(Clone, Copy)]
pub struct AskWords {
    pub score: Word<'static>,
    pub tail: Word<'static>,
    /// The start plan's value.
    pub start: Word<'static>,
}

/// Returns the words of the ask with this index.
pub fn ask_words(job: &Job, place: usize) -> AskWords
    requires { place < length job.now.setting.asks }
    ensures score { word_text result.score ≡ score_name (ask_at job.now place).score }
    ensures tail { word_text result.tail ≡ tail_name (ask_at job.now place).tail }
    ensures start { word_text result.start ≡ fraction (plan_value job.now job.now.start (ask_at job.now place).score) (denominator (ask_at job.now place).score job.now.districts (total_votes job.now)) }
    ensures sound { IsJob job.now }
{
    let ask = asks_of(job)[place];
    AskWords {
        score: Word::Text(score_text(ask.score)),
        tail: Word::Text(tail_text(ask.tail)),
        start: Word::Fraction(
            start_value(job, place as u32),
            denominator_of(job, ask.score),
        ),
    }
}

/// Returns the start plan's value for the ask with this index.
pub fn start_value(job: &Job, place: u32) -> i64
    requires { place < length job.now.setting.asks }
    ensures { result ≡ plan_value job.now job.now.start (ask_at job.now place).score }
{
    job.start_value(place)
}

/// Returns the number of the job's asks, at most four.
pub fn ask_count(job: &Job) -> usize
    ensures value { result ≡ length job.now.setting.asks }
    ensures few { result ≤ 4 }
{
    asks_of(job).len()
}

/// Returns the job's asks.
pub fn asks_of(job: &Job) -> &[Ask]
    ensures value { result.now ≡ job.now.setting.asks }
    ensures sound { IsJob job.now }
{
    job.setting().asks.as_slice()
}
