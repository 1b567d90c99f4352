//! The open pairs. Only the flip of an open pair can be a move.

ghost use Rattle.std.specs.Int.{bit_at};
ghost use Rattle.std.specs.Prelude.{◌≡◌, ◌≢◌, ℕ, ◌+◌, ◌*◌, ◌/◌, ◌<◌, ◌≤◌, cond, false, [], List, length, slice_index, slice_set, replicate, IfOk, IsTrue};
ghost use Rattle.std.specs.List.{slice_index_or};
ghost use Rattle.flip_kernel.specs.Flags.{bit_of, flags_of};
ghost use Rattle.flip_kernel.specs.Nearby.{CountsNeighbors};
ghost use Rattle.audit_model.specs.Graph.{Graph as GraphValue, IsGraph};
ghost use Rattle.flip_kernel.specs.OpenPairs.{is_open, flag_of, MarksOpenPairs, MarksWithoutCounts, HasOpenedPairs};

use crate::nearby::NeighborCounts;
use audit_model::memory::Memory;
use dual_graph::graph::Graph;
use dual_graph::member::Member;
use std::alloc::Global;
use std::marker::Model;

/// One bit for each pair, at its place: true if the pair is open.
///
/// If `NeighborCounts` has a table, an entry there shows if its pair is open. There are then no bits here.
#[derive(Drop)]
pub struct OpenPairs {
    words: Vec<u64>,
}

impl Model for OpenPairs {
    ghost use Rattle.std.specs.Prelude.{Bool, List};
    ghost use Rattle.flip_kernel.specs.Flags.{flags_of};

    ghost Value = { List Bool };

    ghost view = { λ o. flags_of o.words.items };
}

impl OpenPairs {
    /// Allocates a bit for each pair if the table of `near` is empty. Fails if there is no memory.
    pub fn new(
        alloc: Global,
        units: u32,
        districts: u32,
        near: &NeighborCounts,
    ) -> Result<OpenPairs, Memory>
        ensures { IfOk result (λ o. length near.now ≡ 0 → units * districts ≤ length o) }
    {
        if near.is_stored() {
            return Ok(OpenPairs {
                words: Vec::new(alloc),
            });
        }
        Ok(OpenPairs {
            words: vec![in alloc; 0; place_of(units, 0, districts) / 64 + 1]?,
        })
    }

    /// Returns true if the pair at a place is open, by its entry of `near` or by its bit.
    #[inline]
    pub fn has(&self, place: usize, near: &NeighborCounts) -> bool
        requires entry { 0 < length near.now → place < length near.now }
        requires bit { length near.now ≡ 0 → place < length self.now }
        ensures { (g : GraphValue) (plan : List ℕ) (districts u d : ℕ) → IsGraph g → u < g.units → d < districts → place ≡ u * districts + d
            → CountsNeighbors g plan districts near.now → MarksWithoutCounts g plan districts near.now self.now → result ≡ is_open g plan u d }
    {
        if near.is_stored() {
            return near.has_open(place);
        }
        self.has_bit(place)
    }

    /// Returns the bit at a place.
    #[inline]
    fn has_bit(&self, place: usize) -> bool
        requires { place < length self.now }
        ensures { result ≡ slice_index_or self.now place false }
    {
        bit_of(&self.words, place)
    }

    /// Opens or closes a pair: its bit becomes `flag`.
    #[inline]
    fn put(&mut self, districts: u32, unit: u32, district: u32, flag: bool)
        requires { unit * districts + district < length self.old }
        ensures { self.new ≡ slice_set self.old (unit * districts + district) flag }
    {
        put_bit(&mut self.words, place_of(unit, district, districts), flag);
    }

    /// Opens or closes a pair, unless its district is `there`, the unit's own district. A pair with
    /// the unit's own district is closed already.
    #[inline]
    fn put_elsewhere(&mut self, districts: u32, unit: u32, district: u32, there: u32, flag: bool)
        requires inside { unit * districts + district < length self.old }
        requires closed { there ≡ district → flag_of self.old districts unit district ≡ false }
        requires own { there ≡ district → flag ≡ false }
        ensures { self.new ≡ slice_set self.old (unit * districts + district) flag }
    {
        if there != district {
            self.put(districts, unit, district, flag);
        }
    }

    fn clear(&mut self)
        ensures { self.new ≡ replicate (length self.old) false }
    {
        self.words.fill(0);
    }

    /// Opens the pairs of a unit with each other district in which it has a neighbor. All pairs of
    /// the unit must be closed before.
    fn open_beside(&mut self, graph: &Graph, plan: &[u32], districts: u32, unit: u32)
        requires plan { length plan.now ≡ graph.now.units }
        requires in_range { (u : ℕ) → u < graph.now.units → slice_index plan.now u < districts }
        requires unit { unit < graph.now.units }
        requires width { graph.now.units * districts ≤ length self.old }
        requires closed { (d : ℕ) → d < districts → flag_of self.old districts unit d ≡ false }
        ensures { HasOpenedPairs plan.now districts unit (slice_index_or graph.now.neighbours unit []) self.old self.new }
    {
        let home = plan[unit as usize];
        for other in graph.neighbours(unit) {
            let district = plan[*other as usize];
            self.put(districts, unit, district, home != district);
        }
    }

    /// Recomputes the open pairs for a plan if the table of `near` is empty. Allocates nothing.
    pub fn refill(&mut self, graph: &Graph, plan: &[u32], districts: u32, near: &NeighborCounts)
        requires plan { length plan.now ≡ graph.now.units }
        requires in_range { (u : ℕ) → u < graph.now.units → slice_index plan.now u < districts }
        requires width { length near.now ≡ 0 → graph.now.units * districts ≤ length self.old }
        ensures { MarksWithoutCounts graph.now plan.now districts near.now self.new }
    {
        if !near.is_stored() {
            self.refill_bits(graph, plan, districts);
        }
    }

    /// Recomputes all bits for a plan.
    fn refill_bits(&mut self, graph: &Graph, plan: &[u32], districts: u32)
        requires plan { length plan.now ≡ graph.now.units }
        requires in_range { (u : ℕ) → u < graph.now.units → slice_index plan.now u < districts }
        requires width { graph.now.units * districts ≤ length self.old }
        ensures { MarksOpenPairs graph.now plan.now districts self.new }
    {
        self.clear();
        for unit in 0..graph.units() {
            self.open_beside(graph, plan, districts, unit);
        }
    }

    /// Updates the open pairs after a unit has moved away from `home`, where it has a neighbor.
    ///
    /// It does nothing unless the table of `near` is empty, and allocates nothing.
    #[inline]
    pub fn update(&mut self, moved: Member, districts: u32, home: u32, near: &NeighborCounts)
        requires in_range { (u : ℕ) → u < moved.graph.now.units → slice_index moved.plan.now u < districts }
        requires home { home < districts }
        requires beside { IsTrue (is_open moved.graph.now moved.plan.now moved.unit home) }
        requires table { MarksWithoutCounts moved.graph.now (slice_set moved.plan.now moved.unit home) districts near.now self.old }
        ensures { MarksWithoutCounts moved.entry.graph.now moved.entry.plan.now districts near.now self.new }
    {
        if !near.is_stored() {
            self.update_bits(moved, districts, home);
        }
    }

    /// Updates the bits after a unit has moved away from `home`, where it has a neighbor.
    ///
    /// It scans the neighbors of each neighbor. Few graphs need it, so the code is kept out of line.
    #[inline(never)]
    fn update_bits(&mut self, moved: Member, districts: u32, home: u32)
        requires in_range { (u : ℕ) → u < moved.graph.now.units → slice_index moved.plan.now u < districts }
        requires home { home < districts }
        requires beside { IsTrue (is_open moved.graph.now moved.plan.now moved.unit home) }
        requires table { MarksOpenPairs moved.graph.now (slice_set moved.plan.now moved.unit home) districts self.old }
        ensures { MarksOpenPairs moved.entry.graph.now moved.entry.plan.now districts self.new }
    {
        let graph = moved.graph;
        let plan = moved.plan;
        let unit = moved.unit;
        let district = plan[unit as usize];
        for other in graph.neighbours(unit) {
            let v = *other;
            let there = plan[v as usize];
            let opens = scan_open(graph, plan, v, home);
            self.put(districts, v, district, there != district);
            self.put_elsewhere(districts, v, home, there, opens);
        }
        self.put(districts, unit, district, false);
        self.put(districts, unit, home, true);
    }
}

#[inline]
fn place_of(unit: u32, district: u32, districts: u32) -> usize
    ensures { result ≡ unit * districts + district }
{
    unit as usize * districts as usize + district as usize
}

#[inline]
fn with_bit(word: u64, bit: usize, flag: bool) -> u64
    requires { bit < 64 }
    ensures own { bit_at result bit ≡ cond flag 1 0 }
    ensures others { (i : ℕ) → i < 64 → i ≢ bit → bit_at result i ≡ bit_at word i }
{
    (word & !(1u64 << bit)) | (u64::from(flag) << bit)
}

#[inline]
fn bit_of(words: &[u64], place: usize) -> bool
    requires { place / 64 < length words.now }
    ensures { result ≡ bit_of words.now place }
{
    (words[place / 64] >> (place % 64)) & 1 == 1
}

#[inline]
fn put_bit(words: &mut [u64], place: usize, flag: bool)
    requires { place / 64 < length words.old }
    ensures { flags_of words.new ≡ slice_set (flags_of words.old) place flag }
{
    let word = words[place / 64];
    words[place / 64] = with_bit(word, place % 64, flag);
}

/// The greatest number of neighbors that are scanned without a branch.
const SHORT: usize = 16;

/// Returns true if the pair of the unit and the district is open.
///
/// A short list of neighbors is scanned to its end, without a branch that depends on the districts.
/// A long list is scanned only to the first neighbor in the district.
fn scan_open(graph: &Graph, plan: &[u32], unit: u32, district: u32) -> bool
    requires plan { length plan.now ≡ graph.now.units }
    requires unit { unit < graph.now.units }
    ensures { result ≡ is_open graph.now plan.now unit district }
{
    if plan[unit as usize] == district {
        return false;
    }
    let row = graph.neighbours(unit);
    if row.len() > SHORT {
        for one in row {
            if plan[*one as usize] == district {
                return true;
            }
        }
        return false;
    }
    let mut beside = false;
    for other in row {
        beside = beside | (plan[*other as usize] == district);
    }
    beside
}
