//! A search of the rest that starts at all mates of a unit at once.
//!
//! Each mate has a *label*, a number from 1. The search gives the label of a visited unit to the
//! unit's unmarked neighbors. The units with one label form a *part* of the rest. If units of two
//! parts are adjacent, the parts *meet*, and their labels are joined. `roots` has a class number
//! for each label, and joined labels have the same number.
//!
//! In this module, `link`, `link_visited` and `are_linked` concern edges, not faces.

ghost use Rattle.std.specs.Prelude.{◌≡◌, ◌≢◌, ◌+◌, ◌<◌, ◌≤◌, ◌↔◌, ℕ, [], length, slice_index, slice_set, IsTrue, IsFalse};
ghost use Rattle.std.specs.List.{slice_index_or};
ghost use Rattle.audit_model.specs.Graph.{adjacent};
ghost use Rattle.audit_model.specs.Local.{is_mate, stays_behind, IsLocal, MayLeave};
ghost use Rattle.audit_model.specs.Path.{IsConnected};
ghost use Rattle.audit_model.specs.District.{in_district};
ghost use Rattle.contig.specs.Parts.{IsJoined, HoldsFoundParts, AllOne, AreTwo, NotOne, IsSpread, IsRowMarked, IsOnePart, HasLabels, LinksNeighbors, IsSeeded};

use crate::classes::join;
use audit_model::steps::Steps;
use dual_graph::graph::Graph;
use dual_graph::marks::Marks;
use dual_graph::member::Member;
use std::sync::ledger::Ledger;

/// The greatest label.
pub const MOST: usize = 16;

/// Returns true if a unit may leave its district, which must be connected.
///
/// The mates have the labels 1 to `last`. The search visits units in the order of marking, so the
/// parts grow in turn. The function returns true as soon as all labels are joined. It returns false
/// as soon as some part can no longer grow. `steps` counts the search.
#[inline(never)]
pub fn meet<L: Ledger>(
    leaving: Member,
    marks: &mut Marks,
    roots: &mut [u8; 17],
    last: usize,
    steps: &mut Steps<L>,
) -> bool
    requires some { 0 < last }
    requires seeded { IsSeeded leaving.graph.now leaving.plan.now leaving.unit last marks.old }
    requires joined { IsJoined leaving.graph.now (stays_behind leaving.plan.now leaving.unit) marks.old.labels roots.old }
    requires parted { NotOne roots.old last }
    ensures units { marks.new.units ≡ leaving.entry.graph.now.units }
    ensures leaves { let g = leaving.entry.graph.now in let plan = leaving.entry.plan.now in let u = leaving.entry.unit in
        IsConnected g (in_district plan (slice_index plan u)) → (IsTrue result ↔ MayLeave g plan u) }
    ensures cost { steps.new ≡ steps.old + 1 }
{
    steps.tick();
    let mut ends: [usize; 17] = [0, 1, 2, 3, 4, 5, 6, 7, 8, 9, 10, 11, 12, 13, 14, 15, 16];
    let mut at = 0;
    while at < marks.count() {
        let unit = marks.at(at);
        let label = marks.label(unit);
        let before = marks.count();
        at += 1;
        if joins_all(leaving, marks, roots, last, unit, label) {
            return true;
        }
        raise_end(&mut ends, label, before, marks.count());
        if !goes_on(roots, &ends, last, label, at) {
            return false;
        }
    }
    false
}

/// Joins the labels of adjacent mates. Returns true if the mates are connected among themselves.
/// The mates have the labels 1 to `last`.
///
/// An edge between mates is in the rows of both, so the row of the first mate is skipped.
pub fn are_linked(leaving: Member, marks: &Marks, roots: &mut [u8; 17], last: usize) -> bool
    requires some { 0 < last }
    requires seeded { IsSeeded leaving.graph.now leaving.plan.now leaving.unit last marks.now }
    requires joined { IsJoined leaving.graph.now (is_mate leaving.graph.now leaving.plan.now leaving.unit) marks.now.labels roots.old }
    ensures local { IsTrue result ↔ IsLocal leaving.entry.graph.now leaving.entry.plan.now leaving.entry.unit }
    ensures joined { IsJoined leaving.entry.graph.now (stays_behind leaving.entry.plan.now leaving.entry.unit) marks.now.labels roots.new }
    ensures parted { IsFalse result → NotOne roots.new last }
{
    for place in 1..marks.count() {
        link(leaving.graph, marks, roots, marks.at(place));
    }
    all_one(roots, last)
}

/// Marks the mates of a unit with the labels 1, 2 and so on. Returns the number of mates, or 17 if
/// there are more than 16.
pub fn mark_mates(leaving: Member, marks: &mut Marks) -> usize
    requires { marks.old.units ≡ leaving.graph.now.units }
    ensures units { marks.new.units ≡ leaving.entry.graph.now.units }
    ensures seeded { result ≤ 16 → IsSeeded leaving.entry.graph.now leaving.entry.plan.now leaving.entry.unit result marks.new }
{
    let plan = leaving.plan;
    let district = plan[leaving.unit as usize];
    let mut count = 0usize;
    marks.clear();
    for other in leaving.graph.neighbours(leaving.unit) {
        let v = *other;
        if plan[v as usize] == district {
            if count == MOST {
                return MOST + 1;
            }
            count += 1;
            marks.mark_as(v, count as u8);
        }
    }
    count
}

/// Returns true if the labels 1 to `last` are all joined.
fn all_one(roots: &[u8], last: usize) -> bool
    requires { last < length roots.now }
    ensures yes { IsTrue result → AllOne roots.now last }
    ensures no { IsFalse result → NotOne roots.now last }
{
    for label in 1..last + 1 {
        if roots[label] != roots[1] {
            return false;
        }
    }
    true
}

/// Returns the first label that is not joined with label 1.
pub fn other_part(roots: &[u8], last: usize) -> usize
    requires width { last < length roots.now }
    requires parted { NotOne roots.now last }
    ensures within { (0 < result) × (result ≤ last) }
    ensures other { slice_index roots.now result ≢ slice_index roots.now 1 }
{
    for label in 1..last + 1 {
        if roots[1] != roots[label] {
            return label;
        }
    }
    1
}

/// Returns true if each label is joined with label 1 or with `other`.
pub fn are_two_parts(roots: &[u8], last: usize, other: usize) -> bool
    requires { (last < length roots.now) × (other ≤ last) }
    ensures { IsTrue result → AreTwo roots.now last other }
{
    for label in 1..last + 1 {
        if roots[label] != roots[1] && roots[label] != roots[other] {
            return false;
        }
    }
    true
}

/// Visits a marked unit: gives its label to its unmarked neighbors in the rest. Returns true if it
/// has a marked neighbor whose label is not joined with its own.
///
/// The loop has no branch on districts or labels: such a branch would often be mispredicted.
#[inline]
fn spread(leaving: Member, marks: &mut Marks, roots: &[u8; 17], unit: u32, label: u8) -> bool
    requires unit { unit < leaving.graph.now.units }
    requires found { HoldsFoundParts leaving.graph.now (stays_behind leaving.plan.now leaving.unit) marks.old roots.now }
    requires label { (0 < label) × (slice_index marks.old.labels unit ≡ label) }
    ensures marked { IsRowMarked leaving.entry.graph.now (stays_behind leaving.entry.plan.now leaving.entry.unit) (slice_index_or leaving.entry.graph.now.neighbours unit [])
        label marks.old marks.new roots.now }
    ensures alone { IsFalse result → IsOnePart leaving.entry.graph.now (stays_behind leaving.entry.plan.now leaving.entry.unit) (slice_index_or leaving.entry.graph.now.neighbours unit [])
        label marks.new.labels roots.now }
{
    let plan = leaving.plan;
    let district = plan[leaving.unit as usize];
    let mine = roots[label as usize];
    let mut met = false;
    for other in leaving.graph.neighbours(unit) {
        let v = *other;
        let inside = (plan[v as usize] == district) & (v != leaving.unit);
        let there = marks.label(v);
        marks.mark_if(v, label, inside & (there == 0));
        met = met | ((there != 0) & (roots[there as usize] != mine));
    }
    met
}

/// Joins the label of a visited unit with the labels of its marked neighbors. Returns true if all
/// labels are joined then. A search has fewer calls than mates, since each call joins two labels.
#[cold]
#[inline(never)]
fn link_visited(graph: &Graph, marks: &Marks, roots: &mut [u8; 17], last: usize, unit: u32) -> bool
    requires last { last ≤ 16 }
    requires unit { unit < graph.now.units }
    requires marked { HasLabels graph.now marks.now }
    requires label { 0 < slice_index marks.now.labels unit }
    ensures linked { LinksNeighbors graph.now unit marks.now roots.old roots.new }
    ensures yes { IsTrue result → AllOne roots.new last }
    ensures no { IsFalse result → NotOne roots.new last }
{
    link(graph, marks, roots, unit);
    all_one(roots, last)
}

/// Visits a marked unit with `spread`, and joins its label with those of its marked neighbors.
/// Returns true if all labels are joined then.
#[inline]
fn joins_all(
    leaving: Member,
    marks: &mut Marks,
    roots: &mut [u8; 17],
    last: usize,
    unit: u32,
    label: u8,
) -> bool
    requires last { last ≤ 16 }
    requires unit { unit < leaving.graph.now.units }
    requires found { HoldsFoundParts leaving.graph.now (stays_behind leaving.plan.now leaving.unit) marks.old roots.old }
    requires label { (0 < label) × (slice_index marks.old.labels unit ≡ label) }
    requires parted { NotOne roots.old last }
    ensures spread { IsSpread leaving.entry.graph.now (stays_behind leaving.entry.plan.now leaving.entry.unit) (slice_index_or leaving.entry.graph.now.neighbours unit [])
        label marks.old marks.new roots.old roots.new }
    ensures yes { IsTrue result → AllOne roots.new last }
    ensures no { IsFalse result → NotOne roots.new last }
{
    if spread(leaving, marks, roots, unit, label) {
        return link_visited(leaving.graph, marks, roots, last, unit);
    }
    false
}

/// Raises the label's entry in `ends` to `count` if the number of marks rose from `before` to
/// `count`. It takes the maximum to do so without a branch.
#[inline]
fn raise_end(ends: &mut [usize; 17], label: u8, before: usize, count: usize)
    requires { label ≤ 16 }
    ensures others { ends.new ≡ slice_set ends.old label (slice_index ends.new label) }
    ensures rising { slice_index ends.old label ≤ slice_index ends.new label }
    ensures raised { before < count → count ≤ slice_index ends.new label }
{
    let old = ends[label as usize];
    let new = if count > before { count } else { 0 };
    ends[label as usize] = old.max(new);
}

/// Returns true if the part of a label, with the parts joined to it, can still grow: one of its
/// units is at position `at` or later.
#[inline]
fn goes_on(roots: &[u8], ends: &[usize], last: usize, label: u8, at: usize) -> bool
    requires widths { (last < length roots.now) × (last < length ends.now) }
    requires label { label ≤ last }
    ensures { IsFalse result → (l : ℕ) → 0 < l → l ≤ last → slice_index roots.now l ≡ slice_index roots.now label → slice_index ends.now l ≤ at }
{
    if ends[label as usize] > at {
        return true;
    }
    for other in 1..last + 1 {
        if roots[other] == roots[label as usize] && ends[other] > at {
            return true;
        }
    }
    false
}

/// Joins the label of a marked unit with the labels of its marked neighbors.
#[inline]
fn link(graph: &Graph, marks: &Marks, roots: &mut [u8; 17], unit: u32)
    requires unit { unit < graph.now.units }
    requires marked { HasLabels graph.now marks.now }
    requires label { 0 < slice_index marks.now.labels unit }
    ensures { LinksNeighbors graph.now unit marks.now roots.old roots.new }
{
    let label = marks.label(unit);
    for other in graph.neighbours(unit) {
        let there = marks.label(*other);
        if there != 0 && roots[there as usize] != roots[label as usize] {
            join(roots, there as usize, label as usize);
        }
    }
}
