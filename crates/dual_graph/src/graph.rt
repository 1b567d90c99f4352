//! The graph of units.

ghost use Rattle.std.specs.Prelude.{◌≡◌, ◌<◌, ◌≤◌, ◌↔◌, ℕ, true, [], length, slice_index, All, IfOk, IsTrue};
ghost use Rattle.dual_graph.specs.Pairs.{ArePairs, Joins};
ghost use Rattle.std.specs.List.{slice_index_or};
ghost use Rattle.audit_model.specs.Below.{sum_below};
ghost use Rattle.audit_model.specs.Graph.{adjacent, count_edges};
ghost use Rattle.audit_model.specs.Length.{degree};
ghost use Rattle.audit_model.specs.Limits.{most_units, most_edges};

use crate::filling::{begins_of, degrees_of, near_of};
use crate::member::Member;
use audit_model::memory::Memory;
use std::alloc::Global;
use std::marker::Model;

/// An immutable undirected graph in compressed rows. The neighbors of unit `u` are
/// `near[begins[u]..begins[u + 1]]`, in rising order.
#[derive(Drop)]
pub struct Graph {
    units: u32,
    edges: u32,
    begins: Vec<u32>,
    near: Vec<u32>,
}

impl Model for Graph {
    ghost use Rattle.audit_model.specs.Graph.{Graph as GraphValue};
    ghost use Rattle.audit_model.specs.Graph.{IsGraph};
    ghost use Rattle.dual_graph.specs.Flat.{graph_of, HasRows, HasEdges};

    ghost Value = { GraphValue };

    ghost view = { λ g. graph_of g.units g.begins.items g.near.items };

    ghost invariant = { λ g. HasRows g.units g.begins.items g.near.items × IsGraph (graph_of g.units g.begins.items g.near.items)
        × HasEdges (graph_of g.units g.begins.items g.near.items) g.edges };
}

impl Graph {
    ghost use Rattle.audit_model.specs.Graph.{IsGraph};

    /// Builds the graph of `units` units whose edges are `pairs`.
    ///
    /// Each pair has its smaller unit first, and the pairs are sorted without duplicates. Fails if there is no memory.
    pub fn from_pairs(alloc: Global, units: u32, pairs: &[(u32, u32)]) -> Result<Graph, Memory>
        requires few { (units ≤ most_units) × (length pairs.now ≤ most_edges) }
        requires pairs { ArePairs units pairs.now }
        ensures units { IfOk result (λ g. g.units ≡ units) }
        ensures edges { IfOk result (λ g. (u v : ℕ) → IsTrue (adjacent g u v) ↔ Joins pairs.now u v) }
        ensures amount { IfOk result (λ g. count_edges g (λ u v. true) ≡ length pairs.now) }
        ensures sound { IfOk result (λ g. IsGraph g) }
    {
        let degrees = degrees_of(alloc, units, pairs)?;
        let begins = begins_of(alloc, &degrees)?;
        let near = near_of(alloc, units, pairs, &begins)?;
        Ok(Graph {
            units,
            edges: pairs.len() as u32,
            begins,
            near,
        })
    }

    /// Returns the number of units.
    #[inline]
    pub fn units(&self) -> u32
        ensures units { result ≡ self.now.units }
        ensures few { self.now.units ≤ most_units }
        ensures few_edges { count_edges self.now (λ u v. true) ≤ most_edges }
        ensures sound { IsGraph self.now }
    {
        // Reading a field makes the type's invariant known to the prover.
        let _ = &self.near;
        self.units
    }

    /// Returns the number of edges, each counted once.
    #[inline]
    pub fn edges(&self) -> u32
        ensures edges { result ≡ count_edges self.now (λ u v. true) }
        ensures few { count_edges self.now (λ u v. true) ≤ most_edges }
    {
        // Reading a field makes the type's invariant known to the prover.
        let _ = &self.near;
        self.edges
    }

    /// Returns the neighbors of a unit, in rising order.
    #[inline]
    pub fn neighbours(&self, unit: u32) -> &[u32]
        requires { unit < self.now.units }
        ensures list { result.now ≡ slice_index_or self.now.neighbours unit [] }
        ensures below { All (λ v. v < self.now.units) result.now }
        ensures few { self.now.units ≤ most_units }
        ensures few_edges { count_edges self.now (λ u v. true) ≤ most_edges }
        ensures sound { IsGraph self.now }
    {
        let begin = self.begins[unit as usize] as usize;
        let end = self.begins[unit as usize + 1] as usize;
        &self.near[begin..end]
    }

    /// Combines a unit with its graph and a plan on the graph.
    #[inline]
    pub fn member<'a>(&'a self, plan: &'a [u32], unit: u32) -> Member<'a>
        requires plan { length plan.now ≡ self.now.units }
        requires unit { unit < self.now.units }
        ensures graph { result.graph.now ≡ self.now }
        ensures plan { result.plan.now ≡ plan.now }
        ensures unit { result.unit ≡ unit }
    {
        // Reading a field makes the type's invariant known to the prover.
        let _ = &self.near;
        Member {
            graph: self,
            plan,
            unit,
        }
    }

    /// Returns the number of directed edges that start at units below this one. This is the index of the unit's first
    /// directed edge in a list of all, such as `lengths` of `Counts`.
    #[inline]
    pub fn arcs_before(&self, unit: u32) -> usize
        requires { unit ≤ self.now.units }
        ensures { result ≡ sum_below unit (degree self.now) }
    {
        self.begins[unit as usize] as usize
    }

    /// Returns true if two units are adjacent. Scans the neighbors of `unit`.
    pub fn adjacent(&self, unit: u32, other: u32) -> bool
        requires { unit < self.now.units }
        ensures { result ≡ adjacent self.now unit other }
    {
        for neighbour in self.neighbours(unit) {
            if *neighbour == other {
                return true;
            }
        }
        false
    }

    /// Copies the graph. Fails if there is no memory.
    pub fn copy(&self) -> Result<Graph, Memory>
        ensures { IfOk result (λ g. g ≡ self.now) }
    {
        Ok(Graph {
            units: self.units,
            edges: self.edges,
            begins: self.begins.clone()?,
            near: self.near.clone()?,
        })
    }
}
