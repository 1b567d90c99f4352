//! Finds rings of three to five units in a graph, and puts them in order.

ghost use Rattle.std.specs.Prelude.{◌<◌};

use crate::groups::{UnitGroup, add_groups, add_groups_kept, add_rings_kept, choose_groups};
use crate::long_rings::choose_long;
use crate::peel::order_by_peeling;
use crate::sides::Sides;
use crate::uncovered::add_spares;
use audit_model::memory::Memory;
use contig::face::{Candidate, Face, has_few_neighbors};
use contig::long::LongRing;
use dual_graph::graph::Graph;
use std::alloc::Global;
use std::mem;

/// The maximum number of triangles and squares. A graph with more of them gets no faces. The search
/// for groups ends if more groups are found.
const MOST: usize = 4000000;

/// The number of paths that the search for pentagons may try, per unit of the graph.
const WAYS: usize = 16;

/// Candidates for the faces of a graph, each list in an order in which its candidates can become
/// faces. No candidate of three to five units has its own side on a long one.
#[derive(Drop)]
pub struct FaceChoice {
    /// The candidates of three to five units.
    pub short: Vec<Candidate>,
    /// The candidates of more units.
    pub long: Vec<LongRing>,
}

/// Chooses candidates for the faces of a graph. Fails if there is no memory.
///
/// The candidates are triangles, squares and groups. If these do not yield the greatest possible
/// number of faces, pentagons are candidates too, and then long rings.
pub fn candidates_of(alloc: Global, graph: &Graph) -> Result<FaceChoice, Memory> {
    let mut found = rings_of(alloc, graph)?;
    found.in_order(alloc, graph)
}

/// Returns the greatest number of faces that a connected graph can have beside `rings` faces.
///
/// The faces are independent cycles, because each face has its own side. A connected graph has one
/// independent cycle for each edge beyond those of a spanning tree.
fn count_missing(graph: &Graph, rings: usize) -> usize {
    let most = (graph.edges() as usize).saturating_add(1);
    most.saturating_sub(rings.saturating_add(graph.units() as usize))
}

/// Rings and groups found so far.
#[derive(Drop)]
struct Rings {
    rings: Vec<Face>,
    groups: Vec<UnitGroup>,
    /// The number of paths that the search for pentagons may still try.
    ways: usize,
}

impl Rings {
    /// Returns the candidates in an order in which they can become faces, with pentagons and long
    /// rings where these may yield more faces. Returns none if there are more than `MOST` triangles
    /// and squares.
    fn in_order(&mut self, alloc: Global, graph: &Graph) -> Result<FaceChoice, Memory> {
        if self.rings.len() > MOST {
            return Ok(FaceChoice {
                short: Vec::new(alloc),
                long: Vec::new(alloc),
            });
        }
        if self.groups.is_empty() {
            return self.order_with_long(alloc, graph);
        }
        self.order_with_spares(alloc, graph)
    }

    /// Chooses groups, returns the candidates in order and gives uncovered triangles to them as
    /// spares. The rings found are copied, because the triangles of the chosen groups are removed
    /// from them.
    fn order_with_spares(&mut self, alloc: Global, graph: &Graph) -> Result<FaceChoice, Memory> {
        let found = self.rings.clone()?;
        self.groups = choose_groups(alloc, graph, &self.groups, &mut self.rings)?;
        let mut choice = self.order_with_long(alloc, graph)?;
        add_spares(alloc, graph, &found, &mut choice.short)?;
        Ok(choice)
    }

    /// Returns the candidates without spares, with long rings where these yield more faces.
    fn order_with_long(&mut self, alloc: Global, graph: &Graph) -> Result<FaceChoice, Memory> {
        let short = self.order_rings(alloc, graph)?;
        let long = choose_long(alloc, graph, &short, count_missing(graph, short.len()))?;
        if long.is_empty() {
            return Ok(FaceChoice { short, long });
        }
        let beside = order_by_peeling(alloc, graph, &self.rings, &self.groups, &long)?;
        if beside.len().saturating_add(long.len()) > short.len() {
            return Ok(FaceChoice {
                short: beside,
                long,
            });
        }
        Ok(FaceChoice {
            short,
            long: Vec::new(alloc),
        })
    }

    /// Returns the rings, the triangles of the groups, and pentagons where these may yield more
    /// faces, in an order in which they can become faces.
    fn order_rings(&mut self, alloc: Global, graph: &Graph) -> Result<Vec<Candidate>, Memory> {
        let order = order_by_peeling(alloc, graph, &self.rings, &self.groups, &[])?;
        if count_missing(graph, order.len()) == 0 {
            return Ok(order);
        }
        self.add_pentagons_to(alloc, graph, order)
    }

    /// Returns these candidates and further pentagons in an order in which they can become faces.
    fn add_pentagons_to(
        &mut self,
        alloc: Global,
        graph: &Graph,
        order: Vec<Candidate>,
    ) -> Result<Vec<Candidate>, Memory> {
        self.replace_by_kept(&order)?;
        let mut kept = self.replace_by_pentagons(alloc, graph)?;
        let pentagons = self.rings.len();
        self.rings.append(&mut kept)?;
        if pentagons == 0 {
            return Ok(order);
        }
        order_by_peeling(alloc, graph, &self.rings, &self.groups, &[])
    }

    /// Replaces the rings and groups by those for which these candidates stand.
    fn replace_by_kept(&mut self, order: &[Candidate]) -> Result<(), Memory> {
        self.rings.clear();
        self.groups.clear();
        add_rings_kept(order, &mut self.rings)?;
        add_groups_kept(order, &mut self.groups)
    }

    /// Replaces the rings by the pentagons whose sides all have room beside them and the groups.
    /// Returns the rings.
    fn replace_by_pentagons(&mut self, alloc: Global, graph: &Graph) -> Result<Vec<Face>, Memory> {
        let sides = Sides::of(alloc, graph, &self.rings, &self.groups, &[])?;
        let kept = mem::replace(&mut self.rings, Vec::new(alloc));
        self.add_pentagons(graph, &sides)?;
        Ok(kept)
    }

    /// Adds the triangles and squares of the graph. Stops early if there are more than `MOST`.
    fn add_short(&mut self, graph: &Graph) -> Result<(), Memory> {
        for a in 0..graph.units() {
            self.add_at(graph, a)?;
            if self.rings.len() > MOST {
                return Ok(());
            }
        }
        Ok(())
    }

    /// Adds the squares a, b, c, d in which `c` is greater than `a` and not adjacent to `a`.
    fn add_squares(&mut self, graph: &Graph, a: u32, b: u32, d: u32) -> Result<(), Memory>
        requires units { (a < graph.now.units) × (b < graph.now.units) × (d < graph.now.units) }
    {
        for other in graph.neighbours(b) {
            let c = *other;
            if c > a
                && has_few_neighbors(graph, c)
                && graph.adjacent(c, d)
                && !graph.adjacent(c, a)
            {
                self.rings.push(Face::Square(a, b, c, d))?;
            }
        }
        Ok(())
    }

    /// Adds the triangles and squares in which `a` is the least unit, and `b` is the smaller of the
    /// two units next to `a`. Adds the groups in which these two are the least units.
    fn add_beside(&mut self, graph: &Graph, a: u32, b: u32) -> Result<(), Memory>
        requires units { (a < graph.now.units) × (b < graph.now.units) }
    {
        let begin = self.rings.len();
        let mut triangles = 0u32;
        for other in graph.neighbours(a) {
            let d = *other;
            if d > b && has_few_neighbors(graph, d) {
                if !graph.adjacent(b, d) {
                    self.add_squares(graph, a, b, d)?;
                } else {
                    self.rings.push(Face::Triangle(a, b, d))?;
                    triangles = triangles.wrapping_add(1);
                }
            }
        }
        if triangles > 1 && self.groups.len() <= MOST {
            add_groups(graph, &self.rings, begin, &mut self.groups)?;
        }
        Ok(())
    }

    /// Adds the triangles and squares in which `a` is the least unit.
    fn add_at(&mut self, graph: &Graph, a: u32) -> Result<(), Memory>
        requires unit { a < graph.now.units }
    {
        if has_few_neighbors(graph, a) {
            for b in graph.neighbours(a) {
                if *b > a && has_few_neighbors(graph, *b) {
                    self.add_beside(graph, a, *b)?;
                }
            }
        }
        Ok(())
    }

    /// Returns true if a pentagon may have a side from `from` to `to`. The unit `to` must have few
    /// neighbors, and the side must have room: at most one of the faces found so far
    /// has it.
    fn goes_on(&self, graph: &Graph, sides: &Sides, from: u32, to: u32) -> bool
        requires { to < graph.now.units }
    {
        has_few_neighbors(graph, to) && sides.has_room(graph, from, to)
    }

    /// Adds the pentagons a, b, c, d, e for each fitting unit `d`. `ring` is a, b, c, e.
    fn add_fifth(
        &mut self,
        graph: &Graph,
        sides: &Sides,
        ring: (u32, u32, u32, u32),
    ) -> Result<(), Memory>
        requires units { (ring.0 < graph.now.units) × (ring.1 < graph.now.units) × (ring.2 < graph.now.units) × (ring.3 < graph.now.units) }
    {
        let (a, b, c, e) = ring;
        for other in graph.neighbours(c) {
            let d = *other;
            if d > a
                && self.goes_on(graph, sides, c, d)
                && graph.adjacent(d, e)
                && !graph.adjacent(d, a)
                && !graph.adjacent(d, b)
                && sides.has_room(graph, d, e)
            {
                self.rings.push(Face::Pentagon(a, b, c, d, e))?;
            }
        }
        Ok(())
    }

    /// Adds the pentagons in which `a` is the least unit and stands between `b` and `e`.
    fn add_row(
        &mut self,
        graph: &Graph,
        sides: &Sides,
        b: u32,
        a: u32,
        e: u32,
    ) -> Result<(), Memory>
        requires units { (a < graph.now.units) × (b < graph.now.units) × (e < graph.now.units) }
    {
        for other in graph.neighbours(b) {
            let c = *other;
            if self.ways == 0 {
                return Ok(());
            }
            self.ways -= 1;
            if c > a
                && self.goes_on(graph, sides, b, c)
                && !graph.adjacent(c, a)
                && !graph.adjacent(c, e)
            {
                self.add_fifth(graph, sides, (a, b, c, e))?;
            }
        }
        Ok(())
    }

    /// Adds the pentagons in which `a` is the least unit, and `b` is the smaller of the two units
    /// next to `a`.
    fn add_pentagons_beside(
        &mut self,
        graph: &Graph,
        sides: &Sides,
        a: u32,
        b: u32,
    ) -> Result<(), Memory>
        requires units { (a < graph.now.units) × (b < graph.now.units) }
    {
        for other in graph.neighbours(a) {
            let e = *other;
            if e > b && self.goes_on(graph, sides, a, e) && !graph.adjacent(b, e) {
                self.add_row(graph, sides, b, a, e)?;
            }
        }
        Ok(())
    }

    /// Adds the pentagons in which `a` is the least unit.
    fn add_pentagons_at(&mut self, graph: &Graph, sides: &Sides, a: u32) -> Result<(), Memory>
        requires unit { a < graph.now.units }
    {
        if has_few_neighbors(graph, a) {
            for b in graph.neighbours(a) {
                if *b > a && self.goes_on(graph, sides, a, *b) {
                    self.add_pentagons_beside(graph, sides, a, *b)?;
                }
            }
        }
        Ok(())
    }

    /// Adds the pentagons whose sides all have room. Stops when no more paths may be tried.
    fn add_pentagons(&mut self, graph: &Graph, sides: &Sides) -> Result<(), Memory> {
        self.ways = (graph.units() as usize).wrapping_mul(WAYS);
        for a in 0..graph.units() {
            self.add_pentagons_at(graph, sides, a)?;
        }
        Ok(())
    }
}

/// Finds the triangles, squares and groups of a graph. Stops early if there are more than `MOST`.
fn rings_of(alloc: Global, graph: &Graph) -> Result<Rings, Memory> {
    let mut found = Rings {
        rings: Vec::new(alloc),
        groups: Vec::new(alloc),
        ways: 0,
    };
    found.add_short(graph)?;
    Ok(found)
}
