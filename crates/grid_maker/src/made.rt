//! The grid as parsed data, built without the text of its JSON.

ghost use Rattle.std.specs.Prelude.{◌≡◌, ◌-◌, ◌*◌, ◌/◌, ◌≤◌, [], Ok, pos, length, IfOk, OnOk};
ghost use Rattle.audit_model.specs.declared.setting.Label.TheVariants.{Whole};
ghost use Rattle.audit_model.specs.Below.{map_below};
ghost use Rattle.audit_model.specs.Limits.{AreFrozen, AreWithin, IsGroup};
ghost use Rattle.audit_statement.specs.Grid.{grid, grid_side, first_votes_of};
ghost use Rattle.dual_graph.specs.Read.{parsed_of};
ghost use Rattle.audit_statement.specs.Reading.{reading};
ghost use Rattle.grid_maker.specs.Columns.{grid_columns};
ghost use Rattle.grid_maker.specs.Pairs.{extended, pairs_until};

use crate::adjacency::{find_below, find_right};
use crate::nodes::VOTES_STREAM;
use crate::square::Square;
use audit_model::lists::{LabelList, NumList, UnitList};
use audit_model::memory::Memory;
use audit_model::outcome::Counts;
use audit_model::rules::Group;
use audit_model::setting::Label;
use chacha_draws::Draws;
use dual_graph::graph::Graph;
use dual_graph::parsed::Parsed;
use std::alloc::Global;

/// Builds the data that a parse of the text of [`crate::make`] would give. Fails if there is no
/// memory.
pub fn read_made(alloc: Global, size: u32, key: [u8; 32]) -> Result<Parsed, Memory>
    requires { (1 ≤ size) × (size ≤ 30) }
    ensures read { IfOk result (λ p. reading (grid size key) grid_columns ≡ Ok (parsed_of p)) }
    ensures within { IfOk result (λ p. AreWithin p.graph p.counts p.start (length p.labels)) }
    ensures group { IfOk result (λ p. IsGroup p.graph.units p.group) }
    ensures frozen { IfOk result (λ p. AreFrozen p.graph.units p.frozen) }
{
    let square = Square { size };
    let side = 10 * size;
    let pairs = pairs_of(alloc, square)?;
    let graph = Graph::from_pairs(alloc, side * side, &pairs)?;
    let counts = counts_of(alloc, square, key)?;
    let start = start_of(alloc, square)?;
    let labels = ten_labels(alloc)?;
    Ok(Parsed {
        graph,
        counts,
        group: no_group(alloc),
        frozen: none_frozen(alloc),
        start,
        labels,
    })
}

/// Appends the edge from a unit to a neighbor, if there is a neighbor.
fn push_pair(pairs: &mut Vec<(u32, u32)>, unit: u32, other: Option<u32>) -> Result<(), Memory>
    ensures { OnOk result (pairs.new.items ≡ extended pairs.old.items unit other) }
{
    if let Some(neighbour) = other {
        pairs.push((unit, neighbour))?;
    }
    Ok(())
}

/// Lists the edges in rising order, each with its smaller unit first.
fn pairs_of(alloc: Global, square: Square) -> Result<Vec<(u32, u32)>, Memory>
    ensures { IfOk result (λ pairs. pairs.items ≡ pairs_until (grid_side square.size) (grid_side square.size * grid_side square.size)) }
{
    let side = 10 * square.size;
    let mut pairs = Vec::new(alloc);
    for unit in 0..side * side {
        push_pair(&mut pairs, unit, find_right(square, unit))?;
        push_pair(&mut pairs, unit, find_below(square, unit))?;
    }
    Ok(pairs)
}

/// Draws the votes of each unit. Each unit has 100 people, who all vote.
fn counts_of(alloc: Global, square: Square, key: [u8; 32]) -> Result<Counts, Memory>
    ensures population { IfOk result (λ counts. counts.population ≡ map_below (grid_side square.size * grid_side square.size) (λ u. 100)) }
    ensures first { IfOk result (λ counts. counts.first ≡ map_below (grid_side square.size * grid_side square.size) (first_votes_of key)) }
    ensures second { IfOk result (λ counts. counts.second ≡ map_below (grid_side square.size * grid_side square.size) (λ u. 100 - first_votes_of key u)) }
    ensures lengths { IfOk result (λ counts. counts.lengths ≡ []) }
{
    let mut draws = Draws::new(key, VOTES_STREAM);
    let mut population = NumList::new(alloc);
    let mut first = NumList::new(alloc);
    let mut second = NumList::new(alloc);
    let side = 10 * square.size;
    for _unit in 0..side * side {
        let votes = draws.next() % 101;
        population.push(100)?;
        first.push(votes)?;
        second.push(100 - votes)?;
    }
    Ok(Counts {
        population,
        first,
        second,
        lengths: UnitList::new(alloc),
    })
}

/// Returns an empty group, because the grid has no group column.
fn no_group(alloc: Global) -> Group
    ensures { result ≡ record { members = []; whole = [] } }
{
    Group {
        members: NumList::new(alloc),
        whole: NumList::new(alloc),
    }
}

/// Returns an empty list, because the grid has no column of frozen units.
fn none_frozen(alloc: Global) -> UnitList
    ensures { result ≡ [] }
{
    UnitList::new(alloc)
}

/// Returns the district of each unit. A district has `size` full rows.
fn start_of(alloc: Global, square: Square) -> Result<UnitList, Memory>
    ensures { IfOk result (λ start. start ≡ map_below (grid_side square.size * grid_side square.size) (λ u. u / grid_side square.size / square.size)) }
{
    let mut start = UnitList::new(alloc);
    let side = 10 * square.size;
    for unit in 0..side * side {
        start.push(unit / side / square.size)?;
    }
    Ok(start)
}

/// Returns the labels 0 to 9 of the ten districts.
fn ten_labels(alloc: Global) -> Result<LabelList, Memory>
    ensures { IfOk result (λ labels. labels ≡ map_below 10 (λ d. Whole (pos d))) }
{
    let mut labels = LabelList::new(alloc);
    for district in 0..10u32 {
        labels.push(Label::Whole(i128::from(district)))?;
    }
    Ok(labels)
}
