//! Finds groups: four units that are all adjacent, such as units that meet at a corner. The choice
//! of groups is not proved.
//!
//! At most three of the four triangles of a group can be faces. These three, one of them with a
//! spare, stand for the group.

ghost use Rattle.std.specs.Prelude.{◌<◌};

use audit_model::memory::Memory;
use contig::face::{Candidate, Face};
use dual_graph::graph::Graph;
use std::alloc::Global;

/// The number of ranks, which `rank_of` explains.
const RANKS: u8 = 3;

/// Common neighbors of two units are counted up to this number.
const MANY: u32 = 4;

/// Four units that are all adjacent. The unit `d` is in all triangles of the group that become
/// faces, if possible: it is one of those with the fewest neighbors, such as a unit that the others
/// enclose.
#[derive(Clone, Copy)]
pub struct UnitGroup {
    pub a: u32,
    pub b: u32,
    pub c: u32,
    pub d: u32,
}

impl UnitGroup {
    /// Returns the four triangles of the group. The units of each are in the group's order.
    fn triangles(self) -> [(u32, u32, u32); 4] {
        let UnitGroup { a, b, c, d } = self;
        [(a, b, c), (a, b, d), (a, c, d), (b, c, d)]
    }

    fn has(self, unit: u32) -> bool {
        (unit == self.a) | ((unit == self.b) | ((unit == self.c) | (unit == self.d)))
    }

    /// Returns true if the ring is a triangle of the group.
    fn has_triangle(self, ring: Face) -> bool {
        match ring {
            Face::Triangle(x, y, z) => self.has(x) && self.has(y) && self.has(z),
            _ => false,
        }
    }
}

/// Adds the groups whose two least units are `a` and `b`. From the position `begin` on, the rings
/// have the triangles of `a`, `b` and a greater unit.
pub fn add_groups(
    graph: &Graph,
    rings: &[Face],
    begin: usize,
    groups: &mut Vec<UnitGroup>,
) -> Result<(), Memory> {
    for place in begin..rings.len() {
        if let Face::Triangle(a, b, c) = rings[place] {
            if c < graph.units() {
                add_groups_of(graph, &rings[place..], (a, b, c), groups)?;
            }
        }
    }
    Ok(())
}

/// Adds the groups of three units and a fourth: the third unit of one of these triangles.
fn add_groups_of(
    graph: &Graph,
    rings: &[Face],
    units: (u32, u32, u32),
    groups: &mut Vec<UnitGroup>,
) -> Result<(), Memory>
    requires { units.2 < graph.now.units }
{
    let (a, b, c) = units;
    for ring in rings {
        if let Face::Triangle(_, _, d) = *ring {
            if d > c && graph.adjacent(c, d) {
                groups.push(UnitGroup { a, b, c, d })?;
            }
        }
    }
    Ok(())
}

/// Chooses groups of which no two share a triangle. Removes their triangles from the rings, which
/// must be in the order in which `short_rings` finds them.
pub fn choose_groups(
    alloc: Global,
    graph: &Graph,
    found: &[UnitGroup],
    rings: &mut Vec<Face>,
) -> Result<Vec<UnitGroup>, Memory> {
    let mut choice = Choice {
        groups: Vec::new(alloc),
        covered: vec![in alloc; false; rings.len()]?,
    };
    let ranks = ranks_of(alloc, graph, found)?;
    for rank in 0..RANKS {
        choice.add_rank(rings, found, &ranks, rank)?;
    }
    let Choice {
        mut groups,
        covered,
    } = choice;
    remove_covered(rings, &covered);
    for group in &mut groups {
        *group = end_by_fewest(graph, *group);
    }
    Ok(groups)
}

/// Groups that were chosen.
#[derive(Drop)]
struct Choice {
    groups: Vec<UnitGroup>,
    /// For each ring, whether it is a triangle of a chosen group.
    covered: Vec<bool>,
}

impl Choice {
    /// Chooses the groups of a rank that share no triangle with a chosen group.
    fn add_rank(
        &mut self,
        rings: &[Face],
        found: &[UnitGroup],
        ranks: &[u8],
        rank: u8,
    ) -> Result<(), Memory> {
        for number in 0..found.len() {
            if number < ranks.len() && ranks[number] == rank {
                self.add(rings, found[number])?;
            }
        }
        Ok(())
    }

    /// Chooses a group if its four triangles are among the rings and not covered.
    fn add(&mut self, rings: &[Face], group: UnitGroup) -> Result<(), Memory> {
        let [one, two, three, four] = group.triangles();
        let places = [
            place_of(rings, one),
            place_of(rings, two),
            place_of(rings, three),
            place_of(rings, four),
        ];
        if self.are_open(places) {
            self.cover(places);
            self.groups.push(group)?;
        }
        Ok(())
    }

    fn are_open(&self, places: [usize; 4]) -> bool {
        for number in 0..4 {
            let place = places[number];
            if place >= self.covered.len() || self.covered[place] {
                return false;
            }
        }
        true
    }

    fn cover(&mut self, places: [usize; 4]) {
        for number in 0..4 {
            let place = places[number];
            if place < self.covered.len() {
                self.covered[place] = true;
            }
        }
    }
}

/// Returns the position of a triangle, or the number of rings if there is none. The rings must be
/// in rising order by `key_of`.
pub fn place_of(rings: &[Face], triangle: (u32, u32, u32)) -> usize {
    let mut low = 0usize;
    let mut high = rings.len();
    for _ in 0..64 {
        if low >= high || high > rings.len() {
            return rings.len();
        }
        let middle = low + (high - low) / 2;
        let key = key_of(rings[middle]);
        if key == triangle {
            return middle;
        }
        if is_less(key, triangle) {
            low = middle + 1;
        } else {
            high = middle;
        }
    }
    rings.len()
}

/// Returns the units by which triangles and squares are ordered. No square has the key of a
/// triangle, because the second and the third unit of the key are adjacent only in a triangle.
fn key_of(ring: Face) -> (u32, u32, u32) {
    match ring {
        Face::Triangle(a, b, d) => (a, b, d),
        Face::Square(a, b, _, d) => (a, b, d),
        Face::Pentagon(a, b, _, _, e) => (a, b, e),
    }
}

fn is_less(one: (u32, u32, u32), other: (u32, u32, u32)) -> bool {
    if one.0 != other.0 {
        return one.0 < other.0;
    }
    if one.1 != other.1 {
        return one.1 < other.1;
    }
    one.2 < other.2
}

/// Removes the covered rings and keeps the order of the others.
fn remove_covered(rings: &mut Vec<Face>, covered: &[bool]) {
    let mut end = 0usize;
    for place in 0..covered.len() {
        if place < rings.len() && end < rings.len() && !covered[place] {
            rings[end] = rings[place];
            end = end.wrapping_add(1);
        }
    }
    rings.truncate(end);
}

/// Lists the rank of each group.
fn ranks_of(alloc: Global, graph: &Graph, groups: &[UnitGroup]) -> Result<Vec<u8>, Memory> {
    let mut ranks = Vec::with_capacity(alloc, groups.len())?;
    for group in groups {
        ranks.push(rank_of(graph, *group))?;
    }
    Ok(ranks)
}

/// Returns the rank of a group. Groups of a lower rank are chosen first: units that meet at a
/// corner, then a unit enclosed by three others, then others. A group is not chosen if each of its
/// edges is in more than three triangles, as in a graph where all units within some distance are
/// adjacent. There, triangles by themselves yield more faces.
fn rank_of(graph: &Graph, group: UnitGroup) -> u8 {
    let UnitGroup { a, b, c, d } = group;
    let sides = [(a, d), (b, c), (a, b), (c, d), (a, c), (b, d)];
    if are_crossed(graph, sides[0], sides[1])
        || are_crossed(graph, sides[2], sides[3])
        || are_crossed(graph, sides[4], sides[5])
    {
        return 0;
    }
    if is_enclosed(graph, a)
        || is_enclosed(graph, b)
        || is_enclosed(graph, c)
        || is_enclosed(graph, d)
    {
        return 1;
    }
    if has_loose_side(graph, sides) {
        2
    } else {
        RANKS
    }
}

/// Returns true if one of these edges is in at most three triangles.
fn has_loose_side(graph: &Graph, sides: [(u32, u32); 6]) -> bool {
    for number in 0..6 {
        let (x, y) = sides[number];
        if common_of(graph, x, y) < MANY {
            return true;
        }
    }
    false
}

/// Returns true if two edges of a group are diagonals that cross at a corner: the ends of each have
/// no common neighbors but those of the other.
fn are_crossed(graph: &Graph, one: (u32, u32), other: (u32, u32)) -> bool {
    common_of(graph, one.0, one.1) == 2 && common_of(graph, other.0, other.1) == 2
}

/// Returns true if a unit has exactly three neighbors.
fn is_enclosed(graph: &Graph, unit: u32) -> bool {
    unit < graph.units() && graph.neighbours(unit).len() == 3
}

/// Orders the units of a group so that none has fewer neighbors than the last.
fn end_by_fewest(graph: &Graph, group: UnitGroup) -> UnitGroup {
    let UnitGroup { a, b, c, d } = group;
    let (a, d) = end_by_fewer(graph, a, d);
    let (b, d) = end_by_fewer(graph, b, d);
    let (c, d) = end_by_fewer(graph, c, d);
    UnitGroup { a, b, c, d }
}

fn end_by_fewer(graph: &Graph, x: u32, y: u32) -> (u32, u32) {
    if x < graph.units()
        && y < graph.units()
        && graph.neighbours(x).len() < graph.neighbours(y).len()
    {
        (y, x)
    } else {
        (x, y)
    }
}

/// Counts the common neighbors of two units, up to `MANY`.
pub fn common_of(graph: &Graph, x: u32, y: u32) -> u32 {
    if x >= graph.units() || y >= graph.units() {
        return 0;
    }
    count_common(graph.neighbours(x), graph.neighbours(y))
}

/// Counts the units that two rising lists share, up to `MANY`.
fn count_common(xs: &[u32], ys: &[u32]) -> u32 {
    let (mut i, mut j, mut common) = (0usize, 0usize, 0u32);
    for _ in 0..xs.len().saturating_add(ys.len()) {
        if i >= xs.len() || j >= ys.len() || common == MANY {
            return common;
        }
        let (x, y) = (xs[i], ys[j]);
        if x == y {
            common = common.wrapping_add(1);
        }
        if x <= y {
            i = i.wrapping_add(1);
        }
        if y <= x {
            j = j.wrapping_add(1);
        }
    }
    common
}

/// Returns the group for which a candidate with a spare stands.
fn group_of(candidate: Candidate) -> Option<UnitGroup> {
    match (candidate.ring, candidate.spare) {
        (Face::Triangle(a, b, c), Some(d)) => Some(UnitGroup { a, b, c: d, d: c }),
        _ => None,
    }
}

/// Adds the groups for which these candidates stand.
pub fn add_groups_kept(order: &[Candidate], groups: &mut Vec<UnitGroup>) -> Result<(), Memory> {
    for candidate in order {
        if let Some(group) = group_of(*candidate) {
            groups.push(group)?;
        }
    }
    Ok(())
}

/// Adds the rings of those candidates that stand for no group.
pub fn add_rings_kept(order: &[Candidate], rings: &mut Vec<Face>) -> Result<(), Memory> {
    for place in 0..order.len() {
        if !is_of_group(order, place) {
            rings.push(order[place].ring)?;
        }
    }
    Ok(())
}

/// Returns true if a candidate stands for a group. The last of the three candidates of a group has
/// the spare.
fn is_of_group(order: &[Candidate], place: usize) -> bool {
    for step in 0..3usize {
        let next = place.wrapping_add(step);
        if place < order.len() && next < order.len() {
            if let Some(group) = group_of(order[next]) {
                if group.has_triangle(order[place].ring) {
                    return true;
                }
            }
        }
    }
    false
}
