//! The diagnostics of refused plans.

ghost use Rattle.std.specs.Prelude.{◌≡◌, ◌∷◌, codes, decimal, map, []};
ghost use Rattle.report.specs.Pieces.{piece_text};
ghost use Rattle.audit_statement.specs.DueText.{LetsText};
ghost use Rattle.audit_statement.specs.Endings.{AddsLine};
ghost use Rattle.audit_model.specs.declared.fault.PlanFault.TheVariants.{Disconnected, OutOfBounds, TooFewMajorities, TooLong, TooManySplit};
ghost use Rattle.audit_statement.specs.Note as terms;

use crate::note::line::{Line, line_of, text_line};
use crate::note::output::write_note;
use crate::piece::Piece::{Number, Text};
use audit_io::sink::Sink;
use audit_model::fault::PlanFault;
use audit_model::text;

/// Writes the diagnostic of a refused plan of a table, with the plan's name.
pub(crate) fn write_named<N: Sink>(note: &mut N, name: &text::Text, fault: &PlanFault)
    requires { LetsText N.lets (N.state note.old) (terms.as_line (codes "plan " ∷ name.now ∷ codes ": " ∷ terms.plan_note fault.now)) }
    ensures { AddsLine (N.state note.old) (N.state note.new) (terms.as_line (codes "plan " ∷ name.now ∷ codes ": " ∷ terms.plan_note fault.now)) }
{
    let name = name.as_str();
    write_note(
        note,
        &[Text("plan "), Text(name), Text(": ")],
        &plan_line(fault),
    );
}

/// Makes the diagnostic of a refused plan.
pub(crate) fn plan_line(fault: &PlanFault) -> Line<'static>
    ensures { terms.as_line (map piece_text result) ≡ terms.as_line (terms.plan_note fault.now) }
{
    match fault {
        PlanFault::NoVotes => text_line("no votes"),
        PlanFault::OutOfBounds {
            district,
            population,
            low,
            high,
        } => bounds_line(*district, *population, *low, *high),
        PlanFault::Disconnected {
            district,
            one,
            other,
        } => parts_line(*district, *one, *other),
        PlanFault::TooManyCut { cut, most } => above_line(*cut, " cut edges, more than ", *most),
        PlanFault::TooManySplit {
            region,
            districts,
            most,
        } => split_line(*region, *districts, *most),
        PlanFault::TooManySplits { splits, most } => {
            above_line(*splits, " splits of regions, more than ", *most)
        }
        PlanFault::TooManySplitRegions { regions, most } => {
            let words = " regions lie in more than one district, more than ";
            above_line(*regions, words, *most)
        }
        PlanFault::TooFewMajorities {
            districts,
            least,
            share,
        } => majorities_line(*districts, *least, *share),
        PlanFault::TooLong { length, most } => length_line(*length, *most),
        PlanFault::Memory => text_line("memory"),
    }
}

// Returns the line about a count above its limit.
fn above_line(count: u32, words: &'static str, most: u32) -> Line<'static>
    ensures { terms.as_line (map piece_text result) ≡ terms.as_line (decimal count ∷ words.now ∷ decimal most ∷ []) }
{
    line_of(&[
        Number(u64::from(count)),
        Text(words),
        Number(u64::from(most)),
    ])
}

// Returns the line about a population outside of its bounds.
fn bounds_line(district: u32, population: u64, low: u64, high: u64) -> Line<'static>
    ensures { terms.as_line (map piece_text result) ≡ terms.as_line (terms.plan_note (OutOfBounds district population low high)) }
{
    line_of(&[
        Text("district "),
        Number(u64::from(district)),
        Text(" has population "),
        Number(population),
        Text(", outside "),
        Number(low),
        Text(" to "),
        Number(high),
    ])
}

// Returns the line about a district that is not contiguous. No path in it joins the two units.
fn parts_line(district: u32, one: u32, other: u32) -> Line<'static>
    ensures { terms.as_line (map piece_text result) ≡ terms.as_line (terms.plan_note (Disconnected district one other)) }
{
    line_of(&[
        Text("district "),
        Number(u64::from(district)),
        Text(" has no path from unit "),
        Number(u64::from(one)),
        Text(" to unit "),
        Number(u64::from(other)),
    ])
}

// Returns the line about a region in too many districts.
fn split_line(region: u32, districts: u32, most: u32) -> Line<'static>
    ensures { terms.as_line (map piece_text result) ≡ terms.as_line (terms.plan_note (TooManySplit region districts most)) }
{
    line_of(&[
        Text("region "),
        Number(u64::from(region)),
        Text(" lies in "),
        Number(u64::from(districts)),
        Text(" districts, more than "),
        Number(u64::from(most)),
    ])
}

// Returns the line about too few districts with a majority of the group. The line gives the share
// only if it is not one half.
fn majorities_line(districts: u32, least: u32, share: u32) -> Line<'static>
    ensures { terms.as_line (map piece_text result) ≡ terms.as_line (terms.plan_note (TooFewMajorities districts least share)) }
{
    if share == 5_000 {
        return line_of(&[
            Text("the group has a majority in "),
            Number(u64::from(districts)),
            Text(" districts, fewer than "),
            Number(u64::from(least)),
        ]);
    }
    line_of(&[
        Text("the group has more than "),
        Number(u64::from(share)),
        Text(" of 10000 in "),
        Number(u64::from(districts)),
        Text(" districts, fewer than "),
        Number(u64::from(least)),
    ])
}

// Returns the line about cut edges of too great a total length.
fn length_line(length: u64, most: u64) -> Line<'static>
    ensures { terms.as_line (map piece_text result) ≡ terms.as_line (terms.plan_note (TooLong length most)) }
{
    line_of(&[
        Text("cut edges of total length "),
        Number(length),
        Text(", more than "),
        Number(most),
    ])
}
