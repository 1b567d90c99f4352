//! The number of each unit's neighbors in each district.

ghost use Rattle.std.specs.Prelude.{◌≡◌, ◌≢◌, ℕ, ◌+◌, ◌*◌, ◌%◌, ◌<◌, ◌≤◌, ◌↔◌, [], length, slice_index, slice_set, IfOk, IsTrue, IsFalse};
ghost use Rattle.std.specs.List.{slice_index_or};
ghost use Rattle.audit_model.specs.Length.{degree};
ghost use Rattle.district_sums.specs.Following.{count_near};
ghost use Rattle.flip_kernel.specs.Nearby.{AreNear, HasCounted, HasLoneMate, HasMoved, HasPairs, HasPassed, HasShortRows, CountsNeighbors, IsLoneMate, entry, near_of, shows_open};

use audit_model::memory::Memory;
use district_sums::mates::scan_mates;
use dual_graph::graph::Graph;
use dual_graph::member::Member;
use std::alloc::Global;
use std::marker::Model;

/// The maximum number of pairs for which there is a table.
///
/// A larger table costs more by cache misses than it saves.
const MOST_PAIRS: u64 = 1 << 19;

/// The maximum number of a unit's neighbors: with `OWN`, more do not fit into a byte.
const MOST_NEIGHBORS: usize = 127;

/// The mark of a unit's own district, added to the number of neighbors there.
const OWN: u8 = 128;

/// For each pair of a unit and a district, one byte: the number of the unit's neighbors in the district, plus 128 if
/// the unit is in the district itself.
///
/// If there are too many pairs, or a unit has too many neighbors, the table is empty, and each call scans the
/// neighbors instead.
#[derive(Drop)]
pub struct NeighborCounts {
    table: Vec<u8>,
}

impl Model for NeighborCounts {
    ghost use Rattle.std.specs.Prelude.{ℕ, List};

    ghost Value = { List ℕ };

    ghost view = { λ c. c.table.items };
}

impl NeighborCounts {
    /// Allocates a table for all pairs, or an empty table if there are too many. Fails if there is no memory.
    pub fn zeros(alloc: Global, graph: &Graph, districts: u32) -> Result<NeighborCounts, Memory>
        ensures { IfOk result (λ c. HasPairs graph.now districts c) }
    {
        let pairs = u64::from(graph.units()) * u64::from(districts);
        if pairs > MOST_PAIRS || !has_short_rows(graph) {
            return Ok(NeighborCounts {
                table: Vec::new(alloc),
            });
        }
        Ok(NeighborCounts {
            table: vec![in alloc; 0; pairs as usize]?,
        })
    }

    /// Recounts the neighbors for a plan. Allocates nothing.
    pub fn refill(&mut self, graph: &Graph, plan: &[u32], districts: u32)
        requires plan { length plan.now ≡ graph.now.units }
        requires in_range { (u : ℕ) → u < graph.now.units → slice_index plan.now u < districts }
        requires pairs { HasPairs graph.now districts self.old }
        ensures counts { CountsNeighbors graph.now plan.now districts self.new }
        ensures width { length self.new ≡ length self.old }
    {
        if !self.table.is_empty() {
            count_all(graph, plan, districts, &mut self.table);
        }
    }

    /// Updates the numbers for a unit that is about to move to another district.
    ///
    /// It costs one pass over the unit's neighbors, and allocates nothing.
    #[inline(always)]
    pub fn follow(&mut self, leaving: Member, districts: u32, district: u32)
        requires in_range { (u : ℕ) → u < leaving.graph.now.units → slice_index leaving.plan.now u < districts }
        requires district { district < districts }
        requires elsewhere { slice_index leaving.plan.now leaving.unit ≢ district }
        requires table { CountsNeighbors leaving.graph.now leaving.plan.now districts self.old }
        ensures counts { CountsNeighbors leaving.entry.graph.now (slice_set leaving.entry.plan.now leaving.entry.unit district) districts self.new }
        ensures width { length self.new ≡ length self.old }
    {
        if !self.table.is_empty() {
            pass_unit(leaving, districts, district, &mut self.table);
        }
    }

    /// Returns true if the table is not empty.
    #[inline]
    pub fn is_stored(&self) -> bool
        ensures stored { IsTrue result → 0 < length self.now }
        ensures empty { IsFalse result → length self.now ≡ 0 }
    {
        !self.table.is_empty()
    }

    /// Returns the entry of a pair.
    #[inline]
    fn read(&self, member: Member, districts: u32, district: u32) -> u8
        requires stored { 0 < length self.now }
        requires district { district < districts }
        requires table { CountsNeighbors member.graph.now member.plan.now districts self.now }
        ensures value { result ≡ entry member.entry.graph.now member.entry.plan.now member.entry.unit district }
        ensures few { count_near member.entry.graph.now member.entry.plan.now member.entry.unit district < 128 }
    {
        self.table[member.unit as usize * districts as usize + district as usize]
    }

    /// Returns the number of a unit's neighbors in the district `one`, and then in `other`.
    #[inline]
    pub fn mates(&self, member: Member, districts: u32, one: u32, other: u32) -> (u64, u64)
        requires one { one < districts }
        requires other { other < districts }
        requires table { CountsNeighbors member.graph.now member.plan.now districts self.now }
        ensures one { result.0 ≡ count_near member.entry.graph.now member.entry.plan.now member.entry.unit one }
        ensures other { result.1 ≡ count_near member.entry.graph.now member.entry.plan.now member.entry.unit other }
    {
        if !self.is_stored() {
            return scan_for_mates(member, one, other);
        }
        let in_one = self.read(member, districts, one);
        let in_other = self.read(member, districts, other);
        (unmark(in_one), unmark(in_other))
    }

    /// Returns true if the table shows that a unit has exactly one neighbor in its own district.
    #[inline]
    pub fn has_one_mate(&self, member: Member, districts: u32) -> bool
        requires home { slice_index member.plan.now member.unit < districts }
        requires table { CountsNeighbors member.graph.now member.plan.now districts self.now }
        ensures { IsTrue result → count_near member.entry.graph.now member.entry.plan.now member.entry.unit (slice_index member.entry.plan.now member.entry.unit) ≡ 1 }
    {
        if !self.is_stored() {
            return false;
        }
        let home = member.plan[member.unit as usize];
        self.read(member, districts, home) == OWN + 1
    }

    /// Returns true if the table shows that a unit has two neighbors or more in its own district, and one of them has
    /// no other neighbor there. The unit then may not leave: the rest of the district would be in two parts.
    #[inline]
    pub fn has_lone_mate(&self, member: Member, districts: u32) -> bool
        requires home { slice_index member.plan.now member.unit < districts }
        requires table { CountsNeighbors member.graph.now member.plan.now districts self.now }
        ensures { IsTrue result → HasLoneMate member.entry.graph.now member.entry.plan.now member.entry.unit }
    {
        if !self.is_stored() {
            return false;
        }
        let home = member.plan[member.unit as usize];
        if self.read(member, districts, home) <= OWN + 1 {
            return false;
        }
        scan_for_lone_mate(member, districts, &self.table)
    }

    /// Returns true if the pair at a place is open, by its entry.
    #[inline]
    pub fn has_open(&self, place: usize) -> bool
        requires { place < length self.now }
        ensures { result ≡ shows_open (slice_index self.now place) }
    {
        let number = self.table[place];
        (number != 0) & (number < OWN)
    }
}

/// Returns the number of neighbors in an entry: the entry without its mark.
#[inline]
fn unmark(number: u8) -> u64
    ensures { result ≡ number % 128 }
{
    u64::from(number & (OWN - 1))
}

/// Returns true if some neighbor of a unit in the unit's district has no other neighbor there.
///
/// The loop has no branch on the entries, which a processor could not predict. The code is kept out
/// of line, so that its values take no registers from the tests before it.
#[inline(never)]
fn scan_for_lone_mate(member: Member, districts: u32, table: &[u8]) -> bool
    requires home { slice_index member.plan.now member.unit < districts }
    requires near { AreNear member.graph.now member.plan.now districts table.now }
    ensures { IsTrue result → (v : ℕ) × IsLoneMate member.entry.graph.now member.entry.plan.now member.entry.unit v }
{
    let home = member.plan[member.unit as usize] as usize;
    let mut found = false;
    for other in member.graph.neighbours(member.unit) {
        let number = table[*other as usize * districts as usize + home];
        found |= number == OWN + 1;
    }
    found
}

/// Does the work of `mates` without a table. Few graphs need it, so the code is kept out of line.
#[inline(never)]
fn scan_for_mates(member: Member, one: u32, other: u32) -> (u64, u64)
    ensures one { result.0 ≡ count_near member.entry.graph.now member.entry.plan.now member.entry.unit one }
    ensures other { result.1 ≡ count_near member.entry.graph.now member.entry.plan.now member.entry.unit other }
{
    scan_mates(member, one, other)
}

/// Returns true if the entries of each unit fit into a byte: none has more than `MOST_NEIGHBORS` neighbors.
fn has_short_rows(graph: &Graph) -> bool
    ensures { IsTrue result ↔ HasShortRows graph.now }
{
    for unit in 0..graph.units() {
        if graph.neighbours(unit).len() > MOST_NEIGHBORS {
            return false;
        }
    }
    true
}

/// Writes the entries of all pairs.
fn count_all(graph: &Graph, plan: &[u32], districts: u32, table: &mut [u8])
    requires plan { length plan.now ≡ graph.now.units }
    requires in_range { (u : ℕ) → u < graph.now.units → slice_index plan.now u < districts }
    requires short { HasShortRows graph.now }
    requires width { graph.now.units * districts ≤ length table.old }
    ensures { AreNear graph.now plan.now districts table.new }
{
    table.fill(0);
    for unit in 0..graph.units() {
        count_beside(Member { graph, plan, unit }, districts, table);
    }
}

/// Writes the entries of a unit. They must be 0 before.
fn count_beside(member: Member, districts: u32, table: &mut [u8])
    requires in_range { (u : ℕ) → u < member.graph.now.units → slice_index member.plan.now u < districts }
    requires short { HasShortRows member.graph.now }
    requires width { member.graph.now.units * districts ≤ length table.old }
    requires zeros { (d : ℕ) → d < districts → near_of table.old districts member.unit d ≡ 0 }
    ensures { HasCounted member.entry.plan.now districts member.entry.unit (slice_index_or member.entry.graph.now.neighbours member.entry.unit []) table.old table.new }
{
    let begin = member.unit as usize * districts as usize;
    let own = begin + member.plan[member.unit as usize] as usize;
    table[own] = OWN;
    for other in member.graph.neighbours(member.unit) {
        let place = begin + member.plan[*other as usize] as usize;
        table[place] += 1;
    }
}

/// Updates the entries of a unit that is about to move, and those of its neighbors.
#[inline]
fn pass_unit(leaving: Member, districts: u32, district: u32, table: &mut [u8])
    requires in_range { (u : ℕ) → u < leaving.graph.now.units → slice_index leaving.plan.now u < districts }
    requires district { district < districts }
    requires elsewhere { slice_index leaving.plan.now leaving.unit ≢ district }
    requires near { AreNear leaving.graph.now leaving.plan.now districts table.old }
    ensures counts { AreNear leaving.entry.graph.now (slice_set leaving.entry.plan.now leaving.entry.unit district) districts table.new }
    ensures width { length table.new ≡ length table.old }
{
    pass_neighbors(leaving, districts, district, table);
    let home = leaving.plan[leaving.unit as usize] as usize;
    let begin = leaving.unit as usize * districts as usize;
    pass_amount(table, begin + home, begin + district as usize, OWN);
}

/// Updates the entries of each neighbor of a unit that is about to move. The number for the old district falls by one,
/// and the number for the new district rises by one.
#[inline]
fn pass_neighbors(leaving: Member, districts: u32, district: u32, table: &mut [u8])
    requires in_range { (u : ℕ) → u < leaving.graph.now.units → slice_index leaving.plan.now u < districts }
    requires district { district < districts }
    requires elsewhere { slice_index leaving.plan.now leaving.unit ≢ district }
    requires near { AreNear leaving.graph.now leaving.plan.now districts table.old }
    ensures { HasMoved districts (slice_index leaving.entry.plan.now leaving.entry.unit) district (slice_index_or leaving.entry.graph.now.neighbours leaving.entry.unit []) table.old table.new }
{
    let home = leaving.plan[leaving.unit as usize] as usize;
    let into = district as usize;
    for other in leaving.graph.neighbours(leaving.unit) {
        let begin = *other as usize * districts as usize;
        pass_amount(table, begin + home, begin + into, 1);
    }
}

/// Subtracts an amount from the number at `from`, and adds it to the number at `to`.
#[inline]
fn pass_amount(table: &mut [u8], from: usize, to: usize, amount: u8)
    requires places { (from < length table.old) × (to < length table.old) }
    requires some { amount ≤ slice_index table.old from }
    requires few { slice_index table.old to + amount < 256 }
    ensures { HasPassed amount from to table.old table.new }
{
    table[from] -= amount;
    table[to] += amount;
}
