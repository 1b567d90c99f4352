//! A unit with its graph and a plan.

ghost use Rattle.std.specs.Prelude.{◌≡◌, ◌<◌, ◌≤◌, true, length};
ghost use Rattle.audit_model.specs.Graph.{IsGraph, count_edges};
ghost use Rattle.audit_model.specs.Limits.{most_edges, most_units};

use crate::graph::Graph;

/// A unit, its graph, and a plan on the graph. The plan has the district of each unit.
#[derive(Clone, Copy)]
pub struct Member<'a> {
    pub graph: &'a Graph,
    pub plan: &'a [u32],
    pub unit: u32,
    pub ghost complete: { length plan.now ≡ graph.now.units },
    pub ghost within: { unit < graph.now.units },
    pub ghost sound: { IsGraph graph.now },
    pub ghost few: { graph.now.units ≤ most_units },
    pub ghost few_edges: { count_edges graph.now (λ u v. true) ≤ most_edges },
}
