//! Finds and chooses long rings: rings of six to twelve units, such as the units round a lake or round
//! a place where many units meet.

ghost use Rattle.std.specs.Prelude.{◌<◌};

use crate::groups::{UnitGroup, add_groups_kept, add_rings_kept};
use crate::sides::{SIDES, Sides, side_after, side_of, sides_of};
use audit_model::memory::Memory;
use contig::face::{Candidate, Face, first_two, has_few_neighbors};
use contig::long::{LongRing, ROOM};
use dual_graph::graph::Graph;
use std::alloc::Global;

/// The least number of units on a long ring.
const LEAST: usize = 6;

/// The number of neighbors that the search from one unit may try.
const TRIES: usize = 1024;

/// The maximum number of long rings to find. The search ends with the last of them.
const MOST: usize = 256;

/// The maximum number of missing faces. With more of them, long rings seldom close all holes of a
/// district, and a look at all of them takes as long as what it saves.
const MOST_MISSING: usize = 64;

/// A unit on a path, and the position of the neighbor to try next.
#[derive(Clone, Copy)]
struct PathUnit {
    unit: u32,
    next: usize,
}

/// A search for long rings along sides that have room.
#[derive(Drop)]
struct RingSearch {
    path: Vec<PathUnit>,
    found: Vec<LongRing>,
}

impl RingSearch {
    /// Finds the long rings in which a unit is the least one. Ends early after `TRIES` steps.
    fn add_at(&mut self, graph: &Graph, sides: &Sides, unit: u32) -> Result<(), Memory>
        requires { unit < graph.now.units }
    {
        if !has_few_neighbors(graph, unit) {
            return Ok(());
        }
        self.path.clear();
        self.path.push(PathUnit { unit, next: 0 })?;
        for _ in 0..TRIES {
            if self.path.is_empty() || self.found.len() >= MOST {
                return Ok(());
            }
            self.step(graph, sides)?;
        }
        Ok(())
    }

    /// Tries the next neighbor of the path's last unit. Removes the unit if it has no next neighbor.
    fn step(&mut self, graph: &Graph, sides: &Sides) -> Result<(), Memory> {
        match self.path.pop() {
            None => Ok(()),
            Some(last) => {
                if let Some(unit) = neighbor_at(graph, last) {
                    self.path.push(PathUnit {
                        unit: last.unit,
                        next: last.next.wrapping_add(1),
                    })?;
                    if self.can_extend(graph, sides, last.unit, unit) {
                        self.extend(graph, sides, unit)?;
                    }
                }
                Ok(())
            }
        }
    }

    /// Returns true if the path can go on from its last unit to this neighbor.
    ///
    /// The neighbor is greater than the first unit, so that each ring is found at its least unit. A
    /// side with room between two units that are not next to each other on the path would part the
    /// ring into two shorter ones.
    fn can_extend(&self, graph: &Graph, sides: &Sides, last: u32, unit: u32) -> bool {
        if self.path.is_empty() || unit <= self.path[0].unit || unit >= graph.units() {
            return false;
        }
        if !sides.has_room(graph, last, unit) || !has_few_neighbors(graph, unit) {
            return false;
        }
        for place in 1..self.path.len() {
            let other = self.path[place].unit;
            if other == unit || other != last && have_room(graph, sides, other, unit) {
                return false;
            }
        }
        true
    }

    /// Appends a unit to the path. Where a side with room joins it to the first unit, closes the ring
    /// instead.
    fn extend(&mut self, graph: &Graph, sides: &Sides, unit: u32) -> Result<(), Memory> {
        let count = self.path.len();
        if count > 1 && have_room(graph, sides, self.path[0].unit, unit) {
            return self.close(unit);
        }
        if count.wrapping_add(1) < ROOM {
            self.path.push(PathUnit { unit, next: 0 })?;
        }
        Ok(())
    }

    /// Adds the ring of the path and a last unit, if it is long. Of the two directions of a ring, it
    /// takes the one whose second unit is less than the last one.
    fn close(&mut self, unit: u32) -> Result<(), Memory> {
        let count = self.path.len();
        if count.wrapping_add(1) < LEAST || count < 2 || unit <= self.path[1].unit {
            return Ok(());
        }
        let mut ring = LongRing::new();
        for place in 0..count {
            ring.push(self.path[place].unit);
        }
        if ring.push(unit) {
            self.found.push(ring)?;
        }
        Ok(())
    }
}

/// Returns the neighbor that a unit on a path tries next.
fn neighbor_at(graph: &Graph, last: PathUnit) -> Option<u32> {
    if last.unit >= graph.units() {
        return None;
    }
    let row = graph.neighbours(last.unit);
    if last.next < row.len() {
        Some(row[last.next])
    } else {
        None
    }
}

/// Returns true if two units are adjacent and their side has room.
fn have_room(graph: &Graph, sides: &Sides, x: u32, y: u32) -> bool {
    x < graph.units() && y < graph.units() && graph.adjacent(x, y) && sides.has_room(graph, x, y)
}

/// Finds long rings whose sides all have room.
fn find_long(alloc: Global, graph: &Graph, sides: &Sides) -> Result<Vec<LongRing>, Memory> {
    let mut search = RingSearch {
        path: Vec::new(alloc),
        found: Vec::new(alloc),
    };
    for unit in 0..graph.units() {
        search.add_at(graph, sides, unit)?;
    }
    let RingSearch { path: _path, found } = search;
    Ok(found)
}

/// Counts the rings and groups for which candidates stand at each side.
fn sides_kept(alloc: Global, graph: &Graph, order: &[Candidate]) -> Result<Sides, Memory> {
    let mut rings: Vec<Face> = Vec::new(alloc);
    let mut groups: Vec<UnitGroup> = Vec::new(alloc);
    add_rings_kept(order, &mut rings)?;
    add_groups_kept(order, &mut groups)?;
    Sides::of(alloc, graph, &rings, &groups, &[])
}

/// Long rings that were chosen.
#[derive(Drop)]
struct LongChoice {
    chosen: Vec<LongRing>,
    /// For each side, whether a chosen ring has it.
    occupied: Vec<bool>,
    /// For each side, whether an odd number of the rings that are added up has it.
    odd: Vec<bool>,
}

impl LongChoice {
    fn of(alloc: Global, graph: &Graph) -> Result<LongChoice, Memory> {
        let occupied = vec![in alloc; false; graph.arcs_before(graph.units())]?;
        let odd = vec![in alloc; false; graph.arcs_before(graph.units())]?;
        Ok(LongChoice {
            chosen: Vec::new(alloc),
            occupied,
            odd,
        })
    }

    /// Chooses a ring if its sides still have room, one of them is on no chosen ring, and the ring is
    /// no sum of candidates.
    fn add(
        &mut self,
        graph: &Graph,
        order: &[Candidate],
        sides: &mut Sides,
        ring: LongRing,
    ) -> Result<(), Memory> {
        if !have_all_room(graph, sides, ring.as_slice()) {
            return Ok(());
        }
        if let Some(turned) = self.turn_to_own(graph, ring.as_slice()) {
            if !self.is_sum(graph, order, turned.as_slice()) {
                self.occupy(graph, turned.as_slice());
                sides.add_long(graph, turned.as_slice());
                self.chosen.push(turned)?;
            }
        }
        Ok(())
    }

    /// Rotates a ring to begin with a side that is on no chosen ring.
    fn turn_to_own(&self, graph: &Graph, units: &[u32]) -> Option<LongRing> {
        for place in 0..units.len() {
            if !has_flag(&self.occupied, side_after(graph, units, place)) {
                let mut turned = LongRing::new();
                for unit in &units[place..] {
                    turned.push(*unit);
                }
                for unit in &units[..place] {
                    turned.push(*unit);
                }
                return Some(turned);
            }
        }
        None
    }

    fn occupy(&mut self, graph: &Graph, units: &[u32]) {
        for place in 0..units.len() {
            set_flag(&mut self.occupied, side_after(graph, units, place));
        }
    }

    /// Returns true if a ring is a sum of candidates: each side of the ring is on an odd number of
    /// them, and each other side on an even number.
    ///
    /// The own side of a candidate is on no earlier one. So, from the last candidate to the first,
    /// each must be added whose own side is still odd.
    fn is_sum(&mut self, graph: &Graph, order: &[Candidate], units: &[u32]) -> bool {
        for place in 0..units.len() {
            flip_flag(&mut self.odd, side_after(graph, units, place));
        }
        for back in 0..order.len() {
            let ring = order[order.len() - 1 - back].ring;
            let (a, b) = first_two(ring);
            if has_flag(&self.odd, side_of(graph, a, b)) {
                self.add_up(sides_of(graph, ring));
            }
        }
        self.is_even()
    }

    fn add_up(&mut self, sides: [u32; SIDES]) {
        for place in 0..SIDES {
            flip_flag(&mut self.odd, sides[place]);
        }
    }

    /// Returns true if no side is odd, and makes all sides even.
    fn is_even(&mut self) -> bool {
        let mut even = true;
        for place in 0..self.odd.len() {
            if self.odd[place] {
                even = false;
                self.odd[place] = false;
            }
        }
        even
    }
}

fn has_flag(flags: &[bool], side: u32) -> bool {
    let place = side as usize;
    place < flags.len() && flags[place]
}

fn set_flag(flags: &mut [bool], side: u32) {
    let place = side as usize;
    if place < flags.len() {
        flags[place] = true;
    }
}

fn flip_flag(flags: &mut [bool], side: u32) {
    let place = side as usize;
    if place < flags.len() {
        flags[place] = !flags[place];
    }
}

/// Returns true if each side of a ring has room.
fn have_all_room(graph: &Graph, sides: &Sides, units: &[u32]) -> bool {
    for place in 0..units.len() {
        let next = place.wrapping_add(1);
        let other = if next < units.len() {
            units[next]
        } else {
            units[0]
        };
        if !have_room(graph, sides, units[place], other) {
            return false;
        }
    }
    true
}

/// Chooses long rings beside these candidates, shorter ones first, and no more than `missing`. Fails
/// if there is no memory.
///
/// The first two units of each ring are a side of no ring chosen before.
pub fn choose_long(
    alloc: Global,
    graph: &Graph,
    order: &[Candidate],
    missing: usize,
) -> Result<Vec<LongRing>, Memory> {
    if missing == 0 || missing > MOST_MISSING {
        return Ok(Vec::new(alloc));
    }
    let mut sides = sides_kept(alloc, graph, order)?;
    let found = find_long(alloc, graph, &sides)?;
    let mut choice = LongChoice::of(alloc, graph)?;
    for length in LEAST..ROOM + 1 {
        for ring in &found {
            if ring.as_slice().len() == length && choice.chosen.len() < missing {
                choice.add(graph, order, &mut sides, *ring)?;
            }
        }
    }
    let LongChoice {
        chosen,
        occupied: _occupied,
        odd: _odd,
    } = choice;
    Ok(chosen)
}
