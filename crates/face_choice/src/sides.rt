//! The sides of rings and groups, and the remaining rings and groups at each side.

use crate::groups::UnitGroup;
use audit_model::memory::Memory;
use contig::face::Face;
use contig::long::LongRing;
use dual_graph::graph::Graph;
use std::alloc::Global;

/// The greatest number of sides of a ring.
pub const SIDES: usize = 5;

/// The number of sides of a group.
pub const GROUP_SIDES: usize = 6;

/// The number of the first group. The number of a ring is its index, which is less.
pub const FIRST_GROUP: u32 = 2147483648;

/// The number of each long ring. No ring has it as its index, because the rings are fewer.
const LONG: u32 = 2147483647;

/// Stands for the fourth and fifth side of a ring that has fewer sides. No side has this index.
const NO_SIDE: u32 = 4294967295;

/// The remaining rings and groups that have a side: how many there are, and the exclusive or of
/// their numbers. If one remains, the exclusive or is its number.
#[derive(Clone, Copy)]
struct RingCount {
    count: u32,
    sum: u32,
}

/// A group and the indices of its six sides.
#[derive(Clone, Copy)]
pub struct GroupSides {
    pub group: UnitGroup,
    pub ab: u32,
    pub ac: u32,
    pub ad: u32,
    pub bc: u32,
    pub bd: u32,
    pub cd: u32,
}

impl GroupSides {
    fn of(graph: &Graph, group: UnitGroup) -> GroupSides {
        let UnitGroup { a, b, c, d } = group;
        GroupSides {
            group,
            ab: side_of(graph, a, b),
            ac: side_of(graph, a, c),
            ad: side_of(graph, a, d),
            bc: side_of(graph, b, c),
            bd: side_of(graph, b, d),
            cd: side_of(graph, c, d),
        }
    }

    pub fn sides(self) -> [u32; GROUP_SIDES] {
        [self.ab, self.ac, self.ad, self.bc, self.bd, self.cd]
    }

    /// Rotates the units b, c, d, a to a, b, c, d.
    pub fn rotate(self) -> GroupSides {
        let UnitGroup { a, b, c, d } = self.group;
        GroupSides {
            group: UnitGroup {
                a: b,
                b: c,
                c: d,
                d: a,
            },
            ab: self.bc,
            ac: self.bd,
            ad: self.ab,
            bc: self.cd,
            bd: self.ac,
            cd: self.ad,
        }
    }

    /// Rotates the units a, c, d, b to a, b, c, d.
    pub fn rotate_last(self) -> GroupSides {
        let UnitGroup { a, b, c, d } = self.group;
        GroupSides {
            group: UnitGroup {
                a,
                b: c,
                c: d,
                d: b,
            },
            ab: self.ac,
            ac: self.ad,
            ad: self.ab,
            bc: self.cd,
            bd: self.bc,
            cd: self.bd,
        }
    }

    /// Exchanges the last two units.
    pub fn swap_last(self) -> GroupSides {
        let UnitGroup { a, b, c, d } = self.group;
        GroupSides {
            group: UnitGroup { a, b, c: d, d: c },
            ab: self.ab,
            ac: self.ad,
            ad: self.ac,
            bc: self.bd,
            bd: self.bc,
            cd: self.cd,
        }
    }
}

/// The sides of rings and groups, and the ring count of each side in a graph.
///
/// Each entry of the units' lists of neighbors has an index. The index of a side is that of the
/// greater unit in the list of the lesser unit.
pub struct Sides {
    /// The sides of each ring, beginning with its own side. They are searched once and kept.
    pub rings: Vec<[u32; SIDES]>,
    pub groups: Vec<GroupSides>,
    counts: Vec<RingCount>,
    /// Sides that had a single ring or group when they were added here.
    singles: Vec<u32>,
}

/// Drops the fields one by one. Written by hand so that a caller's proof has one call here, not one
/// per field.
impl Drop for Sides {
    fn drop(self) {
        let Sides {
            rings: _rings,
            groups: _groups,
            counts: _counts,
            singles: _singles,
        } = self;
    }
}

/// Returns the index of the side of two units.
pub fn side_of(graph: &Graph, a: u32, b: u32) -> u32 {
    let (low, high) = if a < b { (a, b) } else { (b, a) };
    if low >= graph.units() {
        return NO_SIDE;
    }
    let place = position_in(graph.neighbours(low), high);
    index_of(graph.arcs_before(low).wrapping_add(place))
}

/// Returns the index of the side between the unit at a place of a ring and the next one.
pub fn side_after(graph: &Graph, units: &[u32], place: usize) -> u32 {
    let next = place.wrapping_add(1);
    if place >= units.len() {
        NO_SIDE
    } else if next < units.len() {
        side_of(graph, units[place], units[next])
    } else {
        side_of(graph, units[place], units[0])
    }
}

/// Returns the position of a unit in a list, or the length of the list. The lists are short: units
/// on rings have few neighbors.
fn position_in(row: &[u32], unit: u32) -> usize {
    for place in 0..row.len() {
        if row[place] == unit {
            return place;
        }
    }
    row.len()
}

/// Narrows an index, which is less than `NO_SIDE`.
fn index_of(side: usize) -> u32 {
    if side < 4294967295 {
        side as u32
    } else {
        NO_SIDE
    }
}

/// Returns the indices of a ring's sides, beginning with its own side.
pub fn sides_of(graph: &Graph, ring: Face) -> [u32; SIDES] {
    match ring {
        Face::Triangle(a, b, c) => [
            side_of(graph, a, b),
            side_of(graph, b, c),
            side_of(graph, c, a),
            NO_SIDE,
            NO_SIDE,
        ],
        Face::Square(a, b, c, d) => [
            side_of(graph, a, b),
            side_of(graph, b, c),
            side_of(graph, c, d),
            side_of(graph, d, a),
            NO_SIDE,
        ],
        Face::Pentagon(a, b, c, d, e) => [
            side_of(graph, a, b),
            side_of(graph, b, c),
            side_of(graph, c, d),
            side_of(graph, d, e),
            side_of(graph, e, a),
        ],
    }
}

impl Sides {
    /// Counts the rings, groups and long rings at each side of the graph. Fails if there is no
    /// memory. Long rings are never removed.
    pub fn of(
        alloc: Global,
        graph: &Graph,
        rings: &[Face],
        groups: &[UnitGroup],
        long: &[LongRing],
    ) -> Result<Sides, Memory> {
        let none = RingCount { count: 0, sum: 0 };
        let mut sides = Sides {
            rings: Vec::with_capacity(alloc, rings.len())?,
            groups: Vec::with_capacity(alloc, groups.len())?,
            counts: vec![in alloc; none; graph.arcs_before(graph.units())]?,
            singles: Vec::new(alloc),
        };
        sides.add_rings(graph, rings)?;
        sides.add_groups(graph, groups)?;
        for ring in long {
            sides.add_long(graph, ring.as_slice());
        }
        sides.see_all()?;
        Ok(sides)
    }

    /// Returns true if fewer than two of the remaining rings and groups and of the long rings have this
    /// side. The two units must be adjacent.
    pub fn has_room(&self, graph: &Graph, a: u32, b: u32) -> bool {
        let side = side_of(graph, a, b) as usize;
        side < self.counts.len() && self.counts[side].count < 2
    }

    /// Returns true if one of the remaining rings and groups has this side.
    pub fn is_single(&self, side: u32) -> bool {
        let place = side as usize;
        place < self.counts.len() && self.counts[place].count == 1
    }

    fn add_rings(&mut self, graph: &Graph, rings: &[Face]) -> Result<(), Memory> {
        let mut number = 0u32;
        for ring in rings {
            let sides = sides_of(graph, *ring);
            self.rings.push(sides)?;
            for place in 0..SIDES {
                self.add_to(sides[place], number);
            }
            number = number.wrapping_add(1);
        }
        Ok(())
    }

    fn add_groups(&mut self, graph: &Graph, groups: &[UnitGroup]) -> Result<(), Memory> {
        let mut number = FIRST_GROUP;
        for group in groups {
            let group = GroupSides::of(graph, *group);
            self.groups.push(group)?;
            let sides = group.sides();
            for place in 0..GROUP_SIDES {
                self.add_to(sides[place], number);
            }
            number = number.wrapping_add(1);
        }
        Ok(())
    }

    /// Adds a long ring to its sides.
    pub fn add_long(&mut self, graph: &Graph, units: &[u32]) {
        for place in 0..units.len() {
            self.add_to(side_after(graph, units, place), LONG);
        }
    }

    /// Adds the ring or group `number` to a side.
    fn add_to(&mut self, side: u32, number: u32) {
        let place = side as usize;
        if place < self.counts.len() {
            let before = self.counts[place];
            self.counts[place] = RingCount {
                count: before.count.wrapping_add(1),
                sum: before.sum ^ number,
            };
        }
    }

    /// Removes the ring `number` from its sides.
    pub fn remove_ring(&mut self, sides: [u32; SIDES], number: u32) -> Result<(), Memory> {
        for place in 0..SIDES {
            self.remove_from(sides[place], number)?;
        }
        Ok(())
    }

    /// Removes the group `number` from its sides.
    pub fn remove_group(&mut self, group: GroupSides, number: u32) -> Result<(), Memory> {
        let sides = group.sides();
        for place in 0..GROUP_SIDES {
            self.remove_from(sides[place], number)?;
        }
        Ok(())
    }

    /// Removes the ring or group `number` from a side. Adds the side to `singles` if it then has a
    /// single ring or group.
    fn remove_from(&mut self, side: u32, number: u32) -> Result<(), Memory> {
        let place = side as usize;
        if place < self.counts.len() {
            let before = self.counts[place];
            self.counts[place] = RingCount {
                count: before.count.wrapping_sub(1),
                sum: before.sum ^ number,
            };
            self.see(side)?;
        }
        Ok(())
    }

    fn see_all(&mut self) -> Result<(), Memory> {
        for side in 0..self.counts.len() {
            self.see(index_of(side))?;
        }
        Ok(())
    }

    /// Adds a side to `singles` if it has a single ring or group.
    fn see(&mut self, side: u32) -> Result<(), Memory> {
        if self.is_single(side) {
            self.singles.push(side)?;
        }
        Ok(())
    }

    /// Takes a side from `singles` that still has a single ring or group. Returns the side and the
    /// number of the ring or group.
    pub fn next(&mut self) -> Option<(u32, u32)> {
        for _ in 0..u64::MAX {
            match self.singles.pop() {
                None => return None,
                Some(side) => {
                    let place = side as usize;
                    if place < self.counts.len() && self.counts[place].count == 1 {
                        return Some((side, self.counts[place].sum));
                    }
                }
            }
        }
        None
    }

    /// Counts the rings and groups at each side, with those taken off. Fails if there is no memory.
    pub fn count_all(&self, alloc: Global) -> Result<Vec<u32>, Memory> {
        let mut counts: Vec<u32> = vec![in alloc; 0; self.counts.len()]?;
        for sides in &self.rings {
            for place in 0..SIDES {
                count_side(&mut counts, sides[place]);
            }
        }
        self.count_groups(&mut counts);
        Ok(counts)
    }

    fn count_groups(&self, counts: &mut [u32]) {
        for group in &self.groups {
            let sides = group.sides();
            for place in 0..GROUP_SIDES {
                count_side(counts, sides[place]);
            }
        }
    }
}

/// Adds one to the count of a side.
fn count_side(counts: &mut [u32], side: u32) {
    let place = side as usize;
    if place < counts.len() {
        counts[place] = counts[place].wrapping_add(1);
    }
}

/// Counts the crowded sides among these. `counts` has the number of rings and groups at
/// each side.
pub fn count_crowded(counts: &[u32], sides: [u32; SIDES]) -> u8 {
    let mut crowded = 0u8;
    for place in 0..SIDES {
        let side = sides[place] as usize;
        if side < counts.len() && counts[side] > 2 {
            crowded = crowded.wrapping_add(1);
        }
    }
    crowded
}

/// Rotates a ring to make a side its own side. `sides` are the ring's sides.
pub fn rotate_to(ring: Face, sides: [u32; SIDES], side: u32) -> Face {
    let mut turn = ring;
    for place in 0..SIDES {
        if sides[place] == side {
            return turn;
        }
        turn = turn.rotate();
    }
    ring
}
