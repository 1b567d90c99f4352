//! The diagnostics of refused graphs and regions.

ghost use Rattle.std.specs.Prelude.{◌≡◌, ◌∷◌, codes, decimal, map, []};
ghost use Rattle.report.specs.Pieces.{piece_text};
ghost use Rattle.audit_statement.specs.Note as terms;

use crate::note::line::{
    Line, count_line, counts_line, line_of, numbered_line, text_line, two_line, words_line,
};
use crate::piece::Piece::{Number, Text};
use audit_model::fault::{Column, GraphFault, Part, RegionFault};
use audit_model::setting::Columns;
use audit_model::text;

/// Makes the diagnostic of a refused graph.
pub(crate) fn graph_line<'a>(fault: &GraphFault, columns: &'a Columns) -> Line<'a>
    ensures { terms.as_line (map piece_text result) ≡ terms.as_line (terms.graph_note columns.now fault.now) }
{
    match fault {
        GraphFault::NotJson => text_line("not JSON"),
        GraphFault::BadShape(part) => words_line("bad shape of ", part_name(*part)),
        GraphFault::Directed => text_line("directed"),
        GraphFault::LengthsDiffer { nodes, adjacency } => {
            counts_line(*nodes, " nodes and ", *adjacency, " adjacency entries")
        }
        GraphFault::TooManyUnits(n) => count_line(*n, " units, more than 100000"),
        GraphFault::BadId(node) => node_line(*node, " has no usable id"),
        GraphFault::SameId { first, second } => {
            two_line("nodes ", *first, *second, " have the same id")
        }
        GraphFault::BadNeighbour { node, place } => {
            neighbor_line(*place, *node, " has no usable id")
        }
        GraphFault::UnknownNeighbour { node, place } => {
            neighbor_line(*place, *node, " is unknown")
        }
        GraphFault::TooManyEdges(n) => count_line(*n, " edges, more than 400000"),
        GraphFault::Missing { node, column } => {
            column_line(*node, " has no column ", columns, *column)
        }
        GraphFault::BadNumber { node, column } => {
            column_line(*node, no_value(*column), columns, *column)
        }
        GraphFault::BadLabel(node) => node_line(*node, " has no usable label"),
        GraphFault::DistrictCount(n) => count_line(*n, " districts, not 2 to 200"),
        GraphFault::MissingLength { node, place } => {
            length_line(*place, *node, " has no attribute ", columns, "")
        }
        GraphFault::BadLength { node, place } => {
            let words = " has no whole number from 0 to 4294967295 in attribute ";
            length_line(*place, *node, words, columns, "")
        }
        GraphFault::UnequalLengths { node, place } => {
            let before = " has another number in attribute ";
            length_line(*place, *node, before, columns, " than the same edge before")
        }
        GraphFault::Memory => text_line("memory"),
    }
}

// Returns the line about a node.
fn node_line(node: u32, words: &str) -> Line<'_>
    ensures { terms.as_line (map piece_text result) ≡ terms.as_line (codes "node " ∷ decimal node ∷ words.now ∷ []) }
{
    numbered_line("node ", u64::from(node), words)
}

// Returns the line about a node and one of the columns.
fn column_line<'a>(node: u32, words: &'static str, columns: &'a Columns, column: Column) -> Line<'a>
    ensures { terms.as_line (map piece_text result) ≡ terms.as_line (codes "node " ∷ decimal node ∷ words.now ∷ terms.column_name columns.now column ∷ []) }
{
    line_of(&[
        Text("node "),
        Number(u64::from(node)),
        Text(words),
        Text(column_name(columns, column)),
    ])
}

// Returns the line about a neighbor of a node.
fn neighbor_line(place: u64, node: u32, words: &str) -> Line<'_>
    ensures { terms.as_line (map piece_text result) ≡ terms.as_line (codes "neighbour " ∷ decimal place ∷ codes " of node " ∷ decimal node ∷ words.now ∷ []) }
{
    line_of(&[
        Text("neighbour "),
        Number(place),
        Text(" of node "),
        Number(u64::from(node)),
        Text(words),
    ])
}

// Returns the line about the length of an edge. `before` and `after` stand around the name of the
// column.
fn length_line<'a>(
    place: u64,
    node: u32,
    before: &'static str,
    columns: &'a Columns,
    after: &'static str,
) -> Line<'a>
    ensures { terms.as_line (map piece_text result) ≡ terms.as_line (codes "neighbour " ∷ decimal place ∷ codes " of node " ∷ decimal node ∷ before.now ∷ columns.now.length ∷ after.now ∷ []) }
{
    line_of(&[
        Text("neighbour "),
        Number(place),
        Text(" of node "),
        Number(u64::from(node)),
        Text(before),
        Text(columns.length.as_str()),
        Text(after),
    ])
}

/// Makes the diagnostic of refused regions.
pub(crate) fn region_line<'a>(fault: &RegionFault, column: &'a text::Text) -> Line<'a>
    ensures { terms.as_line (map piece_text result) ≡ terms.as_line (terms.region_note column.now fault.now) }
{
    match fault {
        RegionFault::Missing(node) => label_line(*node, " has no column ", column),
        RegionFault::BadLabel(node) => {
            label_line(*node, " has no usable label in column ", column)
        }
        RegionFault::TooMany(n) => count_line(*n, " regions, more than 5000"),
        RegionFault::Memory => text_line("memory"),
    }
}

// Returns the line about a node and the column of the regions.
fn label_line<'a>(node: u32, words: &'static str, column: &'a text::Text) -> Line<'a>
    ensures { terms.as_line (map piece_text result) ≡ terms.as_line (codes "node " ∷ decimal node ∷ words.now ∷ column.now ∷ []) }
{
    line_of(&[
        Text("node "),
        Number(u64::from(node)),
        Text(words),
        Text(column.as_str()),
    ])
}

fn part_name<'a>(part: Part) -> &'a str
    ensures { result.now ≡ terms.part_name part }
{
    match part {
        Part::Root => "root",
        Part::Nodes => "nodes",
        Part::Adjacency => "adjacency",
        Part::Directed => "directed",
        Part::Multigraph => "multigraph",
    }
}

fn column_name(columns: &Columns, column: Column) -> &str
    ensures { result.now ≡ terms.column_name columns.now column }
{
    match column {
        Column::Population => columns.population.as_str(),
        Column::First => columns.first.as_str(),
        Column::Second => columns.second.as_str(),
        Column::District => columns.district.as_str(),
        Column::Group => columns.group.as_str(),
        Column::Whole => columns.whole.as_str(),
        Column::Frozen => columns.frozen.as_str(),
    }
}

// Returns the words that come before the name of a column in which a node has no valid value.
fn no_value(column: Column) -> &'static str
    ensures { result.now ≡ terms.no_value column }
{
    match column {
        Column::Frozen => " has no true, false or whole number from 0 to 1000000000 in column ",
        Column::Population
        | Column::First
        | Column::Second
        | Column::District
        | Column::Group
        | Column::Whole => " has no whole number from 0 to 1000000000 in column ",
    }
}
