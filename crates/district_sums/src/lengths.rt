//! The total length of the edges that a plan cuts, and its change when one unit moves.

ghost use Rattle.std.specs.Prelude.{◌≡◌, ◌+◌, ◌<◌, ◌≤◌, ◌&&◌, cond, length, slice_index, slice_set};
ghost use Rattle.audit_model.specs.Below.{sum_below};
ghost use Rattle.audit_model.specs.Length.{AreLengths, cut_length, degree};
ghost use Rattle.audit_model.specs.Limits.{most_length};
ghost use Rattle.district_sums.specs.Following.{length_apart};

use audit_model::lists::UnitList;
use dual_graph::graph::Graph;
use dual_graph::member::Member;

/// Adds up the lengths of the edges from a unit to its neighbors below `bound`. The first sum
/// leaves out neighbors in the district `one`, and the second leaves out neighbors in `other`. Both
/// sums take one scan of the neighbors.
fn lengths_apart(member: Member, lengths: &[u32], bound: u32, one: u32, other: u32) -> (u64, u64)
    requires lengths { AreLengths member.graph.now lengths.now }
    requires long { length lengths.now ≡ sum_below member.graph.now.units (degree member.graph.now) }
    ensures one { result.0 ≡ length_apart member.entry.graph.now lengths.now member.entry.plan.now member.entry.unit bound one }
    ensures other { result.1 ≡ length_apart member.entry.graph.now lengths.now member.entry.plan.now member.entry.unit bound other }
{
    let graph = member.graph;
    let plan = member.plan;
    let unit = member.unit;
    let begin = graph.arcs_before(unit);
    let row = graph.neighbours(unit);
    let mut first = 0u64;
    let mut second = 0u64;
    for place in 0..row.len() {
        let length = length_at(lengths, begin, place);
        let district = plan[row[place] as usize];
        let below = row[place] < bound;
        first += length_if(below, district != one, length);
        second += length_if(below, district != other, length);
    }
    (first, second)
}

/// Returns the length at the index `begin + place`.
#[inline]
fn length_at(lengths: &[u32], begin: usize, place: usize) -> u64
    requires { begin + place < length lengths.now }
    ensures value { result ≡ slice_index lengths.now (begin + place) }
    ensures small { result ≤ 4294967295 }
{
    u64::from(lengths[begin + place])
}

#[inline]
fn length_if(below: bool, apart: bool, length: u64) -> u64
    ensures { result ≡ cond (below && apart) length 0 }
{
    if below && apart { length } else { 0 }
}

/// Returns the total length of the edges that a plan cuts, or 0 if edges have no lengths. Allocates
/// nothing.
pub fn measure_cut(graph: &Graph, lengths: &UnitList, plan: &[u32]) -> u64
    requires plan { length plan.now ≡ graph.now.units }
    requires lengths { AreLengths graph.now lengths.now }
    ensures length { result ≡ cut_length graph.now lengths.now plan.now }
    ensures small { result ≤ most_length }
{
    if lengths.len() == 0 {
        return 0;
    }
    measure_edges(graph, lengths.as_slice(), plan)
}

/// Does the work of [`measure_cut`] if edges have lengths.
fn measure_edges(graph: &Graph, lengths: &[u32], plan: &[u32]) -> u64
    requires plan { length plan.now ≡ graph.now.units }
    requires lengths { AreLengths graph.now lengths.now }
    requires long { length lengths.now ≡ sum_below graph.now.units (degree graph.now) }
    ensures length { result ≡ cut_length graph.now lengths.now plan.now }
    ensures small { result ≤ most_length }
{
    let mut total = 0;
    for unit in 0..graph.units() {
        let home = plan[unit as usize];
        total += lengths_apart(Member { graph, plan, unit }, lengths, unit, home, home).0;
    }
    total
}

/// Returns the total length of the cut edges after the unit moves to `district`. `before` is the
/// total length before the move. Scans the unit's neighbors once. If edges have no lengths, both
/// totals are 0.
#[inline]
pub fn length_after(member: Member, lengths: &UnitList, before: u64, district: u32) -> u64
    requires lengths { AreLengths member.graph.now lengths.now }
    requires before { before ≡ cut_length member.graph.now lengths.now member.plan.now }
    ensures { result ≡ cut_length member.entry.graph.now lengths.now (slice_set member.entry.plan.now member.entry.unit district) }
{
    if lengths.len() == 0 {
        return before;
    }
    move_length(member, lengths.as_slice(), before, district)
}

/// Does the work of [`length_after`] if edges have lengths. Few jobs have lengths, so the code is kept
/// out of line.
#[inline(never)]
fn move_length(member: Member, lengths: &[u32], before: u64, district: u32) -> u64
    requires lengths { AreLengths member.graph.now lengths.now }
    requires long { length lengths.now ≡ sum_below member.graph.now.units (degree member.graph.now) }
    requires before { before ≡ cut_length member.graph.now lengths.now member.plan.now }
    ensures { result ≡ cut_length member.entry.graph.now lengths.now (slice_set member.entry.plan.now member.entry.unit district) }
{
    let home = member.plan[member.unit as usize];
    let (was, is) = lengths_apart(member, lengths, member.graph.units(), home, district);
    before + is - was
}
