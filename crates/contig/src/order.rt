//! The order of a unit's neighbors round it.

ghost use Rattle.std.specs.Prelude.{◌≡◌, ◌<◌, ◌≤◌, ◌⊎◌, ℕ, List, [], length, map, slice_set, All, IsTrue, IsFalse, IfOk, OnOk};
ghost use Rattle.std.specs.List.{slice_index_or};
ghost use Rattle.contig.specs.Corners.{IsOnRow, units_of};
ghost use Rattle.contig.specs.Order.{AreUnfaced, HasNear, HasOrder, HasSeats, HasSectors, IsOnGraph, IsPut, before, blank_at, sector_at};

use crate::corner::{Corner, CornerLists};
use crate::sector::{Sector, SectorLists};
use audit_model::memory::Memory;
use dual_graph::graph::Graph;
use std::alloc::Global;

/// Returns the neighbor that a corner joins to this one.
fn other_end(row: &[u32], corner: Corner, unit: u32) -> Option<u32>
    requires one { corner.one < length row.now }
    requires other { corner.other < length row.now }
{
    let one = row[corner.one as usize];
    let other = row[corner.other as usize];
    if one == unit {
        return Some(other);
    }
    if other == unit {
        return Some(one);
    }
    None
}

/// Returns the position of a neighbor, from `place` on, or the number of sectors.
fn find_from(sectors: &[Sector], place: usize, unit: u32) -> usize
    ensures { result ≤ length sectors.now }
{
    for found in place..sectors.len() {
        if sectors[found].near == unit {
            return found;
        }
    }
    sectors.len()
}

/// Returns the position, from `place` on, of a neighbor that some corner joins to `unit`, or the
/// number of sectors.
fn place_beside(
    graph: &Graph,
    row: &[u32],
    corners: &[Corner],
    sectors: &[Sector],
    place: usize,
    unit: u32,
) -> usize
    requires placed { All (IsOnRow graph.now row.now) corners.now }
    ensures { result ≤ length sectors.now }
{
    for corner in corners {
        if let Some(other) = other_end(row, *corner, unit) {
            let found = find_from(sectors, place, other);
            if found < sectors.len() {
                return found;
            }
        }
    }
    sectors.len()
}

/// Returns true if at most one corner has this neighbor.
fn is_end(graph: &Graph, row: &[u32], corners: &[Corner], unit: u32) -> bool
    requires placed { All (IsOnRow graph.now row.now) corners.now }
{
    let mut found = false;
    for corner in corners {
        if other_end(row, *corner, unit).is_some() {
            if found {
                return false;
            }
            found = true;
        }
    }
    true
}

/// Chooses the sector that is to stand at `place`, and returns its position. A corner joins its
/// neighbor to the one before, if possible. Otherwise its neighbor has at most one corner, if
/// possible.
fn next_place(
    graph: &Graph,
    row: &[u32],
    corners: &[Corner],
    sectors: &[Sector],
    place: usize,
) -> usize
    requires placed { All (IsOnRow graph.now row.now) corners.now }
    requires place { place < length sectors.now }
    ensures { result < length sectors.now }
{
    if place > 0 {
        let before = sectors[place - 1].near;
        let found = place_beside(graph, row, corners, sectors, place, before);
        if found < sectors.len() {
            return found;
        }
    }
    if corners.len() < sectors.len() {
        for found in place..sectors.len() {
            if is_end(graph, row, corners, sectors[found].near) {
                return found;
            }
        }
    }
    place
}

/// Exchanges two sectors.
fn exchange(sectors: &mut Vec<Sector>, one: usize, other: usize)
    requires one { one < length sectors.old.items }
    requires other { other < length sectors.old.items }
    ensures { sectors.new.items ≡ slice_set (slice_set sectors.old.items one (sector_at sectors.old.items other)) other (sector_at sectors.old.items one) }
{
    let before = sectors[one];
    sectors[one] = sectors[other];
    sectors[other] = before;
}

/// Sorts the sectors of a unit so that a corner joins each neighbor to the one before, where there
/// is such a corner. Nothing is proved of the order: `put_faces` tests it.
fn sort_round(graph: &Graph, row: &[u32], corners: &[Corner], sectors: &mut Vec<Sector>)
    requires placed { All (IsOnRow graph.now row.now) corners.now }
    requires unfaced { AreUnfaced graph.now row.now sectors.old.items }
    ensures { AreUnfaced graph.now row.now sectors.new.items }
{
    let count = sectors.len();
    if count < 2 {
        return;
    }
    for place in 0..count - 1 {
        let from = next_place(graph, row, corners, sectors, place);
        exchange(sectors, place, from);
    }
}

/// Replaces sectors by sectors without faces, one for each neighbor.
fn set_blank(sectors: &mut Vec<Sector>, row: &[u32]) -> Result<(), Memory>
    ensures { OnOk result (sectors.new.items ≡ map blank_at row.now) }
{
    sectors.clear();
    for unit in row {
        sectors.push(Sector {
            near: *unit,
            far: *unit,
            faced: false,
        })?;
    }
    Ok(())
}

/// Returns the position before this one, among `count` round a unit.
fn position_before(count: usize, place: usize) -> usize
    requires { place < count }
    ensures value { result ≡ before count place }
    ensures within { result < count }
{
    if place == 0 { count - 1 } else { place - 1 }
}

/// Returns true if two units are these two, in either order.
fn is_pair(here: u32, there: u32, one: u32, other: u32) -> bool
    ensures { IsTrue result → ((here ≡ one) × (there ≡ other)) ⊎ ((here ≡ other) × (there ≡ one)) }
{
    if here == one && there == other {
        return true;
    }
    here == other && there == one
}

/// Puts the face of a corner into a sector without a face between its two neighbors. Returns false
/// if there is none.
fn put_face(sectors: &mut Vec<Sector>, one: u32, other: u32, far: u32) -> bool
    ensures width { length sectors.new.items ≡ length sectors.old.items }
    ensures unchanged { IsFalse result → sectors.new.items ≡ sectors.old.items }
    ensures put { IsTrue result → IsPut one other far sectors.old.items sectors.new.items }
{
    for place in 0..sectors.len() {
        let here = sectors[place];
        let there = sectors[position_before(sectors.len(), place)].near;
        if !here.faced && is_pair(here.near, there, one, other) {
            sectors[place] = Sector {
                near: here.near,
                far,
                faced: true,
            };
            return true;
        }
    }
    false
}

/// Puts the face of each corner into its sector. Returns false if some corner has none.
fn put_faces(graph: &Graph, row: &[u32], corners: &[Corner], sectors: &mut Vec<Sector>) -> bool
    requires placed { All (IsOnRow graph.now row.now) corners.now }
    requires unfaced { AreUnfaced graph.now row.now sectors.old.items }
    ensures near { HasNear row.now sectors.new.items }
    ensures within { All (IsOnGraph graph.now) sectors.new.items }
    ensures seats { IsTrue result → HasSeats (map (units_of row.now) corners.now) sectors.new.items }
{
    for corner in corners {
        let one = row[corner.one as usize];
        let other = row[corner.other as usize];
        if corner.far != corner.further {
            return false;
        }
        if !put_face(sectors, one, other, corner.far) {
            return false;
        }
    }
    true
}

/// Replaces sectors by those of a unit. There are none if its neighbors have no order round it, or
/// if a face has five units. Fails if there is no memory.
fn set_sectors(
    graph: &Graph,
    unit: u32,
    corners: &[Corner],
    sectors: &mut Vec<Sector>,
) -> Result<(), Memory>
    requires unit { unit < graph.now.units }
    requires placed { All (IsOnRow graph.now (slice_index_or graph.now.neighbours unit [])) corners.now }
    ensures { OnOk result (HasOrder graph.now unit corners.now sectors.new.items) }
{
    let row = graph.neighbours(unit);
    set_blank(sectors, row)?;
    sort_round(graph, row, corners, sectors);
    if put_faces(graph, row, corners, sectors) {
        return Ok(());
    }
    sectors.clear();
    Ok(())
}

/// Lists the sectors of each unit. Fails if there is no memory.
pub fn all_sectors(alloc: Global, graph: &Graph, rows: &CornerLists) -> Result<SectorLists, Memory>
    requires width { length rows.now ≡ graph.now.units }
    requires placed { (u : ℕ) → u < graph.now.units → All (IsOnRow graph.now (slice_index_or graph.now.neighbours u [])) (slice_index_or rows.now u []) }
    ensures { IfOk result (λ all. HasSectors graph.now rows.now all) }
{
    let mut all = SectorLists::with_room(alloc, rows.units())?;
    let mut sectors = Vec::new(alloc);
    for unit in 0..graph.units() {
        set_sectors(graph, unit, rows.at(unit), &mut sectors)?;
        all.push(&sectors)?;
    }
    Ok(all)
}
