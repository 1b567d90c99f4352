//! Puts rings and groups in an order in which they can become faces. The order is not proved: it
//! only decides how many of them the list of faces accepts.

use crate::groups::UnitGroup;
use crate::sides::{FIRST_GROUP, GroupSides, SIDES, Sides, count_crowded, rotate_to};
use audit_model::memory::Memory;
use contig::face::{Candidate, Face, first_two, length_of};
use contig::long::LongRing;
use dual_graph::graph::Graph;
use std::alloc::Global;

/// The weight of a crowded side, where each neighbor has weight 1. A side is *crowded* if more than
/// two rings and groups have it. In a plane graph, at most two faces share a side.
const CROWDED: usize = 4;

/// The number of classes, which `class_of` explains: one more than the greatest weight of a ring. A
/// pentagon with 32 neighbors per unit and five crowded sides has the greatest weight.
const CLASSES: usize = 181;

/// The number of triangles that stand for a group.
const TRIANGLES: usize = 3;

/// Rings and groups that are taken off one by one.
#[derive(Drop)]
struct Peeling {
    /// The sides of the rings and groups, with the counts of those that remain.
    sides: Sides,
    /// For each ring, whether it remains.
    left: Vec<bool>,
    /// For each group, whether it remains.
    left_groups: Vec<bool>,
}

impl Peeling {
    fn of(
        alloc: Global,
        graph: &Graph,
        rings: &[Face],
        groups: &[UnitGroup],
        long: &[LongRing],
    ) -> Result<Peeling, Memory> {
        let left = vec![in alloc; true; rings.len()]?;
        let left_groups = vec![in alloc; true; groups.len()]?;
        Ok(Peeling {
            sides: Sides::of(alloc, graph, rings, groups, long)?,
            left,
            left_groups,
        })
    }

    /// Takes a ring off, and returns its sides. Returns none if the ring was taken off before.
    fn take_off(&mut self, number: u32) -> Result<Option<[u32; SIDES]>, Memory> {
        let ring = number as usize;
        if ring >= self.sides.rings.len() || ring >= self.left.len() || !self.left[ring] {
            return Ok(None);
        }
        self.left[ring] = false;
        let sides = self.sides.rings[ring];
        self.sides.remove_ring(sides, number)?;
        Ok(Some(sides))
    }

    /// Takes a ring off and adds it to `kept`, turned to begin with this side.
    fn keep(
        &mut self,
        rings: &[Face],
        side: u32,
        number: u32,
        kept: &mut Vec<Candidate>,
    ) -> Result<(), Memory> {
        if let Some(sides) = self.take_off(number)? {
            if (number as usize) < rings.len() {
                let ring = rotate_to(rings[number as usize], sides, side);
                kept.push(Candidate { ring, spare: None })?;
            }
        }
        Ok(())
    }

    /// Takes a group off if it gives at least `least` triangles, and adds these to `kept`. `place`
    /// is the index of the group.
    fn keep_group(
        &mut self,
        place: u32,
        least: usize,
        kept: &mut Vec<Candidate>,
    ) -> Result<(), Memory> {
        let group = place as usize;
        if group >= self.sides.groups.len()
            || group >= self.left_groups.len()
            || !self.left_groups[group]
        {
            return Ok(());
        }
        let sides = self.sides.groups[group];
        if self.count_single(sides) < least {
            return Ok(());
        }
        let order = self.order_of(sides);
        if self.count_triangles(order) < least {
            return Ok(());
        }
        self.left_groups[group] = false;
        self.add_triangles(order, kept)?;
        self.sides.remove_group(order, place | FIRST_GROUP)
    }

    /// Counts the sides of a group that no other remaining ring or group has.
    fn count_single(&self, group: GroupSides) -> usize {
        let mut single = 0usize;
        for side in group.sides() {
            if self.sides.is_single(side) {
                single = single.wrapping_add(1);
            }
        }
        single
    }

    /// Counts the triangles that `add_triangles` adds, if it adds the first. Otherwise returns 0.
    fn count_triangles(&self, order: GroupSides) -> usize {
        let sides = &self.sides;
        if !sides.is_single(order.ab) {
            return 0;
        }
        let second = sides.is_single(order.ac) || sides.is_single(order.ad);
        let third = sides.is_single(order.bc)
            || sides.is_single(order.cd)
            || sides.is_single(order.bd);
        1 + second as usize + third as usize
    }

    /// Orders the units of a group so that `add_triangles` adds as many triangles as possible, and
    /// among such orders so that all these triangles have the last unit of the group, if it can.
    fn order_of(&self, group: GroupSides) -> GroupSides {
        let center = group.group.d;
        let (mut best, mut most) = (group, 0usize);
        let mut order = group;
        for turn in 0..12u32 {
            let is_central = order.group.c == center || order.group.d == center;
            let triangles = self.count_triangles(order);
            let score = triangles.wrapping_mul(2).wrapping_add(is_central as usize);
            if score > most {
                (best, most) = (order, score);
            }
            order = order.rotate_last();
            if turn % 3 == 2 {
                order = order.rotate();
            }
        }
        if best.group.d == center {
            best.swap_last()
        } else {
            best
        }
    }

    /// Adds the triangles of a group that have own sides: a, b, c with the spare d; a, c, d; and b,
    /// c, d. All have the unit `c`. No own side belongs to a triangle that is added later.
    fn add_triangles(&self, order: GroupSides, kept: &mut Vec<Candidate>) -> Result<(), Memory> {
        let UnitGroup { a, b, c, d } = order.group;
        if self.sides.is_single(order.ab) {
            let ring = Face::Triangle(a, b, c);
            kept.push(Candidate {
                ring,
                spare: Some(d),
            })?;
        }
        if let Some(ring) = self.second_of(order) {
            kept.push(Candidate { ring, spare: None })?;
        }
        if let Some(ring) = self.third_of(order) {
            kept.push(Candidate { ring, spare: None })?;
        }
        Ok(())
    }

    /// Returns the triangle a, c, d if it has an own side at `a`.
    fn second_of(&self, order: GroupSides) -> Option<Face> {
        let UnitGroup { a, c, d, .. } = order.group;
        if self.sides.is_single(order.ac) {
            Some(Face::Triangle(a, c, d))
        } else if self.sides.is_single(order.ad) {
            Some(Face::Triangle(d, a, c))
        } else {
            None
        }
    }

    /// Returns the triangle b, c, d if it has an own side.
    fn third_of(&self, order: GroupSides) -> Option<Face> {
        let UnitGroup { b, c, d, .. } = order.group;
        if self.sides.is_single(order.bc) {
            Some(Face::Triangle(b, c, d))
        } else if self.sides.is_single(order.cd) {
            Some(Face::Triangle(c, d, b))
        } else if self.sides.is_single(order.bd) {
            Some(Face::Triangle(d, b, c))
        } else {
            None
        }
    }

    /// Takes off and keeps rings that alone have some side, and groups that give three triangles,
    /// until none of these remains.
    fn keep_singles(&mut self, rings: &[Face], kept: &mut Vec<Candidate>) -> Result<(), Memory> {
        for _ in 0..u64::MAX {
            match self.sides.next() {
                None => return Ok(()),
                Some((side, number)) => {
                    if number < FIRST_GROUP {
                        self.keep(rings, side, number, kept)?
                    } else {
                        self.keep_group(number ^ FIRST_GROUP, TRIANGLES, kept)?
                    }
                }
            }
        }
        Ok(())
    }

    /// Drops the rings that remain, in this order. Before each next one, what is ready is kept.
    fn drop_rings(
        &mut self,
        rings: &[Face],
        order: &[u32],
        kept: &mut Vec<Candidate>,
    ) -> Result<(), Memory> {
        for number in order {
            self.take_off(*number)?;
            self.keep_singles(rings, kept)?;
        }
        Ok(())
    }

    /// Takes off the groups that remain and keeps the triangles that each gives. Before each next
    /// one, what is ready is kept.
    fn drop_groups(&mut self, rings: &[Face], kept: &mut Vec<Candidate>) -> Result<(), Memory> {
        let mut place = 0u32;
        for _ in 0..self.left_groups.len() {
            self.keep_group(place, 0, kept)?;
            self.keep_singles(rings, kept)?;
            place = place.wrapping_add(1);
        }
        Ok(())
    }

    /// Adds as many candidates as it can to `kept`, in the order in which they are taken off.
    fn peel(
        &mut self,
        alloc: Global,
        graph: &Graph,
        rings: &[Face],
        kept: &mut Vec<Candidate>,
    ) -> Result<(), Memory> {
        self.keep_singles(rings, kept)?;
        if kept.len() < count_most(rings.len(), self.left_groups.len()) {
            let order = drop_order(alloc, graph, &self.sides, rings)?;
            self.drop_rings(rings, &order, kept)?;
            self.drop_groups(rings, kept)?;
        }
        Ok(())
    }
}

/// Returns the greatest number of candidates that rings and groups can give.
fn count_most(rings: usize, groups: usize) -> usize {
    rings.saturating_add(groups.saturating_mul(TRIANGLES))
}

/// Orders rings, and the triangles that stand for groups, so that each has a side that no earlier
/// one has, and rotates each to begin with this side. No earlier spare and no long ring has this
/// side.
///
/// The order is built from its end. A ring is *ready* if it has a side that no other remaining ring
/// or group has. A group is ready if three of its triangles have such sides, which holds if its
/// other sides contain no cycle. As long as one is ready, it is taken off and kept. If none is
/// ready, a ring is dropped. If no ring remains, a group is dropped, and those of its triangles are
/// kept that have own sides. The long rings always remain.
pub fn order_by_peeling(
    alloc: Global,
    graph: &Graph,
    rings: &[Face],
    groups: &[UnitGroup],
    long: &[LongRing],
) -> Result<Vec<Candidate>, Memory> {
    let mut order = Vec::with_capacity(alloc, count_most(rings.len(), groups.len()))?;
    let mut peeling = Peeling::of(alloc, graph, rings, groups, long)?;
    peeling.peel(alloc, graph, rings, &mut order)?;
    order.reverse();
    Ok(order)
}

/// Returns the indices of the rings in the order in which to drop them, by rising class. It is a
/// counting sort.
fn drop_order(
    alloc: Global,
    graph: &Graph,
    sides: &Sides,
    rings: &[Face],
) -> Result<Vec<u32>, Memory> {
    let mut places = [0usize; CLASSES];
    let classes = classes_of(alloc, graph, sides, rings, &mut places)?;
    begin_classes(&mut places);
    let mut order: Vec<u32> = vec![in alloc; 0; rings.len()]?;
    let mut number = 0u32;
    for class in &classes {
        put(&mut order, &mut places, *class, number);
        number = number.wrapping_add(1);
    }
    Ok(order)
}

/// Lists the class of each ring, and adds the number of rings in each class to `sizes`. Sides are
/// crowded by all rings and groups, including those already taken off.
fn classes_of(
    alloc: Global,
    graph: &Graph,
    sides: &Sides,
    rings: &[Face],
    sizes: &mut [usize],
) -> Result<Vec<usize>, Memory> {
    let all = sides.count_all(alloc)?;
    let mut classes = Vec::with_capacity(alloc, rings.len())?;
    for number in 0..rings.len() {
        let class = if number < sides.rings.len() {
            class_of(
                graph,
                rings[number],
                count_crowded(&all, sides.rings[number]),
            )
        } else {
            0
        };
        count_one(sizes, class);
        classes.push(class)?;
    }
    Ok(classes)
}

fn count_one(sizes: &mut [usize], class: usize) {
    if class < sizes.len() {
        sizes[class] = sizes[class].wrapping_add(1);
    }
}

/// Returns the class of a ring. Rings with more neighbors and with more crowded sides have lower
/// classes and are dropped sooner.
///
/// A ring that encloses units has neighbors inside and outside. A face of the map has neighbors
/// outside only, so its units tend to have fewer neighbors.
///
/// Of the four triangles of four adjacent units, at most three become faces. If the four units are
/// no chosen group, the three with the most neighbors form the triangle to drop.
fn class_of(graph: &Graph, ring: Face, crowded_sides: u8) -> usize {
    let crowded = CROWDED.wrapping_mul(crowded_sides as usize);
    let weight = neighbours_of(graph, ring).saturating_add(crowded);
    (CLASSES - 1).saturating_sub(weight)
}

/// Adds up the numbers of neighbors of a ring's units.
fn neighbours_of(graph: &Graph, ring: Face) -> usize {
    let mut all = 0usize;
    let mut turn = ring;
    for _ in 0..length_of(ring) {
        let (unit, _) = first_two(turn);
        if unit < graph.units() {
            all = all.wrapping_add(graph.neighbours(unit).len());
        }
        turn = turn.rotate();
    }
    all
}

/// Replaces the size of each class by the position at which the class begins.
fn begin_classes(places: &mut [usize]) {
    let mut end = 0usize;
    for class in 0..places.len() {
        let count = places[class];
        places[class] = end;
        end = end.wrapping_add(count);
    }
}

/// Puts the index of a ring at the next position of its class.
fn put(order: &mut [u32], places: &mut [usize], class: usize, number: u32) {
    if class < places.len() && places[class] < order.len() {
        let place = places[class];
        order[place] = number;
        places[class] = place.wrapping_add(1);
    }
}
