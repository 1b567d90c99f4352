//! Reading a graph and the data of its units.

ghost use Rattle.std.specs.Prelude.{◌≡◌, ◌≤◌, ◌⊎◌, true, None, Some, Ok, Err, cond, length, codes, option_map, IfOk, MatchResult};
ghost use Rattle.std.specs.Str.{is_utf8};
ghost use Rattle.serde_json.specs.Read.{read};
ghost use Rattle.dual_json.specs.Kept.{is_wanted, keep};
ghost use Rattle.dual_json.specs.Values.{value_data};
ghost use Rattle.audit_model.specs.declared.fault.GraphFault.TheVariants as fault;
ghost use Rattle.audit_model.specs.Graph.{IsGraph, count_edges};
ghost use Rattle.audit_model.specs.Limits.{AreFrozen, AreWithin, IsGroup, most_districts, most_units, most_edges};
ghost use Rattle.dual_graph.specs.Read.{parsed_of};
ghost use Rattle.audit_statement.specs.Reading.{graph, parsed, reading, refusal};
ghost use Rattle.dual_json.specs.Districts.{district_count_fault, different_count, AreDistricts};
ghost use Rattle.dual_json.specs.Places.{labels_from, repeated_label, AreLabels};
ghost use Rattle.dual_json.specs.Lengths.{fault_if_named, lengths_if_named};
ghost use Rattle.dual_json.specs.Shape.{lists_in, views, document_of_parts};
ghost use Rattle.dual_json.specs.Stages.{ids_fault, graph_fault, labels_fault, AreNumbers};

use crate::columns::{check_columns, check_numbers, counts_of, frozen_of, group_of};
use crate::districts::{check_count, different, labels_of, start_of};
use crate::edges::graph_of;
use crate::index::Index;
use crate::lengths::{Listed, lengths_of};
use crate::names::{NodeName, Unnamed, names_at};
use crate::parse::parse;
use crate::required::{Required, check_entries};
use crate::shape::{RootParts, check_frame, parts_of};
use crate::value::Value;
use crate::wanted::Wanted;
use audit_model::fault::GraphFault;
use audit_model::lists::{LabelList, UnitList};
use audit_model::memory::Memory;
use audit_model::outcome::Counts;
use audit_model::rules::Group;
use audit_model::setting::Columns;
use audit_model::text::Text;
use dual_graph::graph::Graph;
use dual_graph::parsed::Parsed;
use json::{Error, Scratch};
use std::alloc::Global;
use std::str::from_utf8;

/// Parses bytes as JSON. Returns `NotJson` if they are no UTF-8 or no JSON.
pub(crate) fn value_of<'t>(
    alloc: Global,
    bytes: &'t [u8],
    scratch: &'t mut Scratch,
) -> Result<Value<'t>, GraphFault>
    ensures { MatchResult result (λ root. cond (is_utf8 bytes.now) (read bytes.now) None ≡ Some (value_data root))
        (λ f. (f ≡ fault.Memory) ⊎ ((f ≡ fault.NotJson) × (cond (is_utf8 bytes.now) (read bytes.now) None ≡ None))) }
{
    parse_wanted(alloc, bytes, scratch, Wanted::All)
}

/// Does the work of [`value_of`], and keeps the wanted members alone.
fn parse_wanted<'t>(
    alloc: Global,
    bytes: &'t [u8],
    scratch: &'t mut Scratch,
    wanted: Wanted<'_>,
) -> Result<Value<'t>, GraphFault>
    ensures { MatchResult result (λ root. option_map (keep (is_wanted wanted.entry)) (cond (is_utf8 bytes.now) (read bytes.now) None) ≡ Some (value_data root))
        (λ f. (f ≡ fault.Memory) ⊎ ((f ≡ fault.NotJson) × (cond (is_utf8 bytes.now) (read bytes.now) None ≡ None))) }
{
    let Ok(text) = from_utf8(bytes) else {
        return Err(GraphFault::NotJson);
    };
    match parse(alloc, text, scratch, wanted) {
        Ok(value) => Ok(value),
        Err(Error::Invalid) => Err(GraphFault::NotJson),
        Err(_) => Err(GraphFault::Memory),
    }
}

/// The numbers and flags that the columns of the nodes give.
struct Numbers {
    counts: Counts,
    group: Group,
    frozen: UnitList,
}

/// The districts of the start plan: the index of each node's district, and the districts' labels.
struct Districts {
    start: UnitList,
    labels: LabelList,
}

/// Drops the fields one by one. Written by hand so that a caller's proof has one call here, not one
/// per field.
impl Drop for Districts {
    fn drop(self) {
        let Districts {
            start: _start,
            labels: _labels,
        } = self;
    }
}

impl Districts {
    /// Adds the graph, the lengths of its edges, and the numbers and flags.
    fn with(self, graph: Graph, lengths: UnitList, numbers: Numbers) -> Parsed
        ensures { result ≡ record { graph = graph; counts = record numbers.counts { lengths = lengths }; group = numbers.group; frozen = numbers.frozen; start = self.start; labels = self.labels } }
    {
        let Districts { start, labels } = self;
        let Numbers {
            counts,
            group,
            frozen,
        } = numbers;
        Parsed {
            graph,
            counts: with_lengths(counts, lengths),
            group,
            frozen,
            start,
            labels,
        }
    }
}

/// Reads the graph, its counts, the start plan and the district labels from JSON in networkx's
/// adjacency format. Reads the group, the frozen units and the lengths of edges if `cols` names
/// them.
///
/// # Errors
///
/// The first fault in the order of the variants of [`GraphFault`]. Each fault is tested on all nodes before the next
/// fault is tested, and reported at the least node that has it.
pub fn read_graph(alloc: Global, bytes: &[u8], cols: &Columns) -> Result<Parsed, GraphFault>
    ensures read { MatchResult result (λ p. reading bytes.now cols.now ≡ Ok (parsed_of p))
        (λ f. (f ≡ fault.Memory) ⊎ (reading bytes.now cols.now ≡ Err f)) }
    ensures within { IfOk result (λ p. AreWithin p.graph p.counts p.start (length p.labels)) }
    ensures group { IfOk result (λ p. IsGroup p.graph.units p.group) }
    ensures frozen { IfOk result (λ p. AreFrozen p.graph.units p.frozen) }
{
    let mut scratch = Scratch::new(alloc);
    read_beside(alloc, bytes, cols, &mut scratch)
}

/// Does the work of [`read_graph`]. The buffer receives texts whose escapes are decoded.
fn read_beside<'t>(
    alloc: Global,
    bytes: &'t [u8],
    cols: &Columns,
    scratch: &'t mut Scratch,
) -> Result<Parsed, GraphFault>
    ensures read { MatchResult result (λ p. reading bytes.now cols.now ≡ Ok (parsed_of p))
        (λ f. (f ≡ fault.Memory) ⊎ (reading bytes.now cols.now ≡ Err f)) }
    ensures within { IfOk result (λ p. AreWithin p.graph p.counts p.start (length p.labels)) }
    ensures group { IfOk result (λ p. IsGroup p.graph.units p.group) }
    ensures frozen { IfOk result (λ p. AreFrozen p.graph.units p.frozen) }
{
    let root = parse_wanted(alloc, bytes, scratch, Wanted::Of(cols))?;
    match parts_of(&root) {
        Ok(parts) => {
            let parsed = read_parts(alloc, &parts, cols);
            drop(root);
            parsed
        }
        Err(part) => {
            drop(root);
            Err(GraphFault::BadShape(part))
        }
    }
}

/// Reads the ids of the nodes and maps each to its node. Returns `BadId` or `SameId` if this fails.
fn ids_of<'v>(alloc: Global, nodes: &[Value<'v>]) -> Result<Index<'v>, GraphFault>
    requires { length nodes.now ≤ most_units }
    ensures { MatchResult result (λ index. (ids_fault (views nodes.now) ≡ None) × AreLabels (codes "id") (views nodes.now) index × (repeated_label index ≡ None))
        (λ f. (f ≡ fault.Memory) ⊎ (ids_fault (views nodes.now) ≡ Some f)) }
{
    match names_at(alloc, nodes, "id") {
        Ok(names) => Index::of(alloc, names),
        Err(Unnamed::At(node)) => Err(GraphFault::BadId(node)),
        Err(Unnamed::Memory) => Err(GraphFault::Memory),
    }
}

/// A graph, and the map from the ids of its nodes to the nodes.
struct IndexedGraph<'v> {
    graph: Graph,
    index: Index<'v>,
}

/// Drops the fields one by one. Written by hand so that a caller's proof has one call here, not one
/// per field.
impl Drop for IndexedGraph<'_> {
    fn drop(self) {
        let IndexedGraph {
            graph: _graph,
            index: _index,
        } = self;
    }
}

impl IndexedGraph<'_> {
    /// Returns the graph and drops the map.
    fn into_graph(self) -> Graph
        ensures { result ≡ self.entry.graph }
    {
        let IndexedGraph {
            graph,
            index: _index,
        } = self;
        graph
    }
}

/// Builds the graph from the parts of the root, with the map from ids to nodes.
fn graph_in<'v>(alloc: Global, parts: &RootParts<'_, 'v>) -> Result<IndexedGraph<'v>, GraphFault>
    ensures { MatchResult result
        (λ made. (graph_fault (document_of_parts parts.now) ≡ None) × (graph (document_of_parts parts.now) ≡ made.graph) × (length parts.now.nodes.now ≤ most_units) × IsGraph made.graph
        × (count_edges made.graph (λ u v. true) ≤ most_edges) × AreLabels (codes "id") (views parts.now.nodes.now) made.index × (length made.index ≡ length parts.now.adjacency.now))
        (λ f. (f ≡ fault.Memory) ⊎ (graph_fault (document_of_parts parts.now) ≡ Some f)) }
{
    check_frame(parts)?;
    let index = ids_of(alloc, parts.nodes)?;
    check_entries(parts.adjacency, Required::Id)?;
    match graph_of(alloc, parts.nodes.len() as u32, parts.adjacency, &index) {
        Ok(graph) => Ok(IndexedGraph { graph, index }),
        Err(fault) => Err(fault),
    }
}

/// Reads the lengths of the edges, or returns an empty list if the arguments name no attribute of
/// lengths.
fn lengths_in<'v>(
    alloc: Global,
    made: &IndexedGraph<'v>,
    adjacency: &[Value<'v>],
    key: &Text,
) -> Result<UnitList, GraphFault>
    requires as_many { length made.now.index ≡ length adjacency.now }
    requires few { length adjacency.now ≤ most_units }
    requires units { made.now.graph.units ≡ length made.now.index }
    ensures { MatchResult result
        (λ lengths. (fault_if_named key.now made.now.index (lists_in adjacency.now) ≡ None)
        × (lengths ≡ lengths_if_named key.now made.now.index (lists_in adjacency.now) made.now.graph))
        (λ f. (f ≡ fault.Memory) ⊎ (fault_if_named key.now made.now.index (lists_in adjacency.now) ≡ Some f)) }
{
    let listed = Listed {
        adjacency,
        index: &made.index,
        key: key.as_str(),
    };
    lengths_of(alloc, &made.graph, listed)
}

/// Adds the lengths of edges to the counts.
fn with_lengths(mut counts: Counts, lengths: UnitList) -> Counts
    ensures { result ≡ record counts { lengths = lengths } }
{
    counts.lengths = lengths;
    counts
}

/// Checks the columns, then the numbers and flags, then the district labels, and returns each node's
/// label. The definitions fix this order of faults.
fn names_in<'v>(
    alloc: Global,
    nodes: &[Value<'v>],
    columns: &Columns,
) -> Result<Vec<NodeName<'v>>, GraphFault>
    requires { length nodes.now ≤ most_units }
    ensures { MatchResult result
        (λ names. (labels_fault columns.now (views nodes.now) ≡ None) × AreLabels columns.now.district (views nodes.now) (labels_from names.items))
        (λ f. (f ≡ fault.Memory) ⊎ (labels_fault columns.now (views nodes.now) ≡ Some f)) }
{
    check_columns(nodes, columns)?;
    check_numbers(nodes, columns)?;
    match names_at(alloc, nodes, columns.district.as_str()) {
        Ok(names) => Ok(names),
        Err(Unnamed::At(node)) => Err(GraphFault::BadLabel(node)),
        Err(Unnamed::Memory) => Err(GraphFault::Memory),
    }
}

/// Reads the columns of numbers and flags.
fn read_numbers(alloc: Global, nodes: &[Value<'_>], columns: &Columns) -> Result<Numbers, Memory>
    ensures { IfOk result (λ read. AreNumbers columns.now (views nodes.now) read.counts read.group read.frozen) }
{
    let frozen = frozen_of(alloc, nodes, columns)?;
    let group = group_of(alloc, nodes, columns)?;
    match counts_of(alloc, nodes, columns) {
        Ok(counts) => Ok(Numbers {
            counts,
            group,
            frozen,
        }),
        Err(_) => Err(Memory),
    }
}

/// Returns the districts that the nodes' labels give. Returns `DistrictCount` if there are too few or
/// too many.
fn districts_of(alloc: Global, names: &[NodeName<'_>]) -> Result<Districts, GraphFault>
    requires { length names.now ≤ most_units }
    ensures { MatchResult result
        (λ d. (district_count_fault (different_count (labels_from names.now)) ≡ None) × AreDistricts (labels_from names.now) d.labels d.start
        × (2 ≤ length d.labels) × (length d.labels ≤ most_districts))
        (λ f. (f ≡ fault.Memory) ⊎ (district_count_fault (different_count (labels_from names.now)) ≡ Some f)) }
{
    let found = different(alloc, names)?;
    let start = start_of(alloc, names, &found)?;
    check_count(found.len())?;
    match labels_of(alloc, &found) {
        Ok(labels) => Ok(Districts { start, labels }),
        Err(fault) => Err(fault),
    }
}

/// Builds the graph and reads all columns from the parts of the root.
fn read_parts(
    alloc: Global,
    parts: &RootParts<'_, '_>,
    columns: &Columns,
) -> Result<Parsed, GraphFault>
    ensures read { MatchResult result
        (λ p. (refusal (document_of_parts parts.now) columns.now ≡ None) × (parsed (document_of_parts parts.now) columns.now ≡ parsed_of p))
        (λ f. (f ≡ fault.Memory) ⊎ (refusal (document_of_parts parts.now) columns.now ≡ Some f)) }
    ensures within { IfOk result (λ p. AreWithin p.graph p.counts p.start (length p.labels)) }
    ensures group { IfOk result (λ p. IsGroup p.graph.units p.group) }
    ensures frozen { IfOk result (λ p. AreFrozen p.graph.units p.frozen) }
{
    let made = graph_in(alloc, parts)?;
    let names = names_in(alloc, parts.nodes, columns)?;
    let districts = districts_of(alloc, &names)?;
    let lengths = lengths_in(alloc, &made, parts.adjacency, &columns.length)?;
    match read_numbers(alloc, parts.nodes, columns) {
        Ok(numbers) => Ok(districts.with(made.into_graph(), lengths, numbers)),
        Err(_) => Err(GraphFault::Memory),
    }
}
