//! Links between the mates of a unit.

ghost use Rattle.std.specs.Prelude.{◌≡◌, ◌≢◌, ◌<◌, ◌≤◌, ◌↔◌, ℕ, List, [], length, map, slice_index, All, IsTrue, IsFalse, MatchOption};
ghost use Rattle.std.specs.List.{slice_index_or};
ghost use Rattle.audit_model.specs.Graph.{IsGraph, IsIn};
ghost use Rattle.audit_model.specs.Local.{is_mate};
ghost use Rattle.contig.specs.Corners.{IsOnRow, units_of, corners_at, spares_at};
ghost use Rattle.contig.specs.Links.{AreClasses, AreLinks, AreMerged, is_active_at, is_inner, is_link};
ghost use Rattle.contig.specs.Faces.{SparedFace, AreFaces, AreRings, AreLinked, AreLinkedBy, own_rings};
ghost use Rattle.contig.specs.Order.{AreSectors, IsOnGraph};
ghost use Rattle.audit_model.specs.Replaced.{Replaced};

use crate::classes::join;
use crate::corner::Corner;
use crate::counts::{are_inside, with_one};
use crate::sector::Sector;
use dual_graph::member::Member;

/// The limit on the neighbors of a unit: with more of them, links are not computed.
pub const MOST: usize = 32;

/// Returns true if the mates of a unit are linked. `corners` are the corners at the unit, and
/// `spares` are those of its spares.
///
/// It serves units whose neighbors are in no order, and units with an active spare. They are few on
/// most maps, so the code is kept out of line.
#[inline(never)]
pub fn are_linked(leaving: Member, corners: &[Corner], spares: &[Corner]) -> bool
    requires few { length (slice_index_or leaving.graph.now.neighbours leaving.unit []) ≤ 32 }
    requires placed { All (IsOnRow leaving.graph.now (slice_index_or leaving.graph.now.neighbours leaving.unit [])) corners.now }
    requires spares { All (IsOnRow leaving.graph.now (slice_index_or leaving.graph.now.neighbours leaving.unit [])) spares.now }
    ensures { let g = leaving.entry.graph.now in let u = leaving.entry.unit in
        (faces : List SparedFace) → AreFaces g faces → map (units_of (slice_index_or g.neighbours u [])) corners.now ≡ corners_at u (own_rings faces)
        → map (units_of (slice_index_or g.neighbours u [])) spares.now ≡ spares_at u faces → IsTrue result ↔ AreLinked g faces leaving.entry.plan.now u }
{
    match first_mate(leaving) {
        None => false,
        Some(first) => {
            let mut classes: [u8; 32] = [
                0, 1, 2, 3, 4, 5, 6, 7, 8, 9, 10, 11, 12, 13, 14, 15, 16, 17, 18, 19, 20, 21, 22,
                23, 24, 25, 26, 27, 28, 29, 30, 31,
            ];
            merge(leaving, corners, false, &mut classes);
            merge(leaving, spares, true, &mut classes);
            all_of(leaving, &classes, classes[first])
        }
    }
}

/// Returns true if a corner is inner.
#[inline]
fn is_inner(leaving: Member, corner: Corner) -> bool
    requires { IsOnRow leaving.graph.now (slice_index_or leaving.graph.now.neighbours leaving.unit []) corner }
    ensures { result ≡ is_inner leaving.entry.graph.now leaving.entry.plan.now leaving.entry.unit corner }
{
    let district = leaving.plan[leaving.unit as usize];
    are_inside(leaving, corner, district, district).0
}

/// Returns true if a corner of a spare is active.
#[inline]
fn is_active_at(leaving: Member, corner: Corner) -> bool
    requires { IsOnRow leaving.graph.now (slice_index_or leaving.graph.now.neighbours leaving.unit []) corner }
    ensures { result ≡ is_active_at leaving.entry.graph.now leaving.entry.plan.now leaving.entry.unit corner }
{
    let plan = leaving.plan;
    let row = leaving.graph.neighbours(leaving.unit);
    let district = plan[leaving.unit as usize];
    (plan[row[corner.one as usize] as usize] == district)
        & ((plan[row[corner.other as usize] as usize] == district)
            & ((plan[corner.far as usize] == district)
                & (plan[corner.further as usize] != district)))
}

/// Returns true if one of these corners of spares is active.
#[inline]
pub fn has_active(leaving: Member, spares: &[Corner]) -> bool
    requires placed { All (IsOnRow leaving.graph.now (slice_index_or leaving.graph.now.neighbours leaving.unit [])) spares.now }
    ensures none { let g = leaving.entry.graph.now in let u = leaving.entry.unit in
        IsFalse result → (k : ℕ) (d : Corner) → k < length spares.now → IsFalse (is_active_at g leaving.entry.plan.now u (slice_index_or spares.now k d)) }
    ensures some { let g = leaving.entry.graph.now in let u = leaving.entry.unit in
        IsTrue result → (k : ℕ) × (k < length spares.now) × ((d : Corner) → IsTrue (is_active_at g leaving.entry.plan.now u (slice_index_or spares.now k d))) }
{
    for spare in spares {
        if is_active_at(leaving, *spare) {
            return true;
        }
    }
    false
}

/// Returns true if a corner of a spare is active, or if a corner of a ring is inner.
#[inline]
fn is_link(leaving: Member, corner: Corner, spare: bool) -> bool
    requires { IsOnRow leaving.graph.now (slice_index_or leaving.graph.now.neighbours leaving.unit []) corner }
    ensures { result ≡ is_link leaving.entry.graph.now leaving.entry.plan.now leaving.entry.unit spare corner }
{
    if spare {
        return is_active_at(leaving, corner);
    }
    is_inner(leaving, corner)
}

/// Merges, for each link, the classes of its two mates. The corners are those of spares or those of
/// rings.
#[inline]
fn merge(leaving: Member, corners: &[Corner], spare: bool, classes: &mut [u8; 32])
    requires few { length (slice_index_or leaving.graph.now.neighbours leaving.unit []) ≤ 32 }
    requires placed { All (IsOnRow leaving.graph.now (slice_index_or leaving.graph.now.neighbours leaving.unit [])) corners.now }
    ensures merged { AreMerged leaving.entry.graph.now leaving.entry.plan.now leaving.entry.unit spare corners.now classes.new }
    ensures coarser { (i j : ℕ) → i < 32 → j < 32 → slice_index classes.old i ≡ slice_index classes.old j → slice_index classes.new i ≡ slice_index classes.new j }
    ensures linked { let g = leaving.entry.graph.now in let plan = leaving.entry.plan.now in let u = leaving.entry.unit in
        (rings : List (List ℕ)) → AreRings g rings → AreLinks g rings plan u spare corners.now → AreClasses g rings plan u classes.old → AreClasses g rings plan u classes.new }
{
    for corner in corners {
        if is_link(leaving, *corner, spare)
            && classes[corner.one as usize] != classes[corner.other as usize]
        {
            join(classes, corner.one as usize, corner.other as usize);
        }
    }
}

/// Returns the position of the first mate in the list of neighbors, or `None` if there is no mate.
#[inline]
fn first_mate(leaving: Member) -> Option<usize>
    ensures { let g = leaving.entry.graph.now in let plan = leaving.entry.plan.now in let u = leaving.entry.unit in
        MatchOption result ((v : ℕ) → IsIn g (is_mate g plan u) v → ⊥) (λ i. (i < length (slice_index_or g.neighbours u [])) × IsIn g (is_mate g plan u) (slice_index (slice_index_or g.neighbours u []) i)) }
{
    let plan = leaving.plan;
    let row = leaving.graph.neighbours(leaving.unit);
    let district = plan[leaving.unit as usize];
    for place in 0..row.len() {
        if plan[row[place] as usize] == district {
            return Some(place);
        }
    }
    None
}

/// Returns true if all mates are in this class.
#[inline]
fn all_of(leaving: Member, classes: &[u8; 32], class: u8) -> bool
    requires { length (slice_index_or leaving.graph.now.neighbours leaving.unit []) ≤ 32 }
    ensures yes { let g = leaving.entry.graph.now in let u = leaving.entry.unit in
        IsTrue result → (i : ℕ) → i < length (slice_index_or g.neighbours u []) → IsIn g (is_mate g leaving.entry.plan.now u) (slice_index (slice_index_or g.neighbours u []) i) → slice_index classes.now i ≡ class }
    ensures no { let g = leaving.entry.graph.now in let u = leaving.entry.unit in
        IsFalse result → (i : ℕ) × (i < length (slice_index_or g.neighbours u [])) × IsIn g (is_mate g leaving.entry.plan.now u) (slice_index (slice_index_or g.neighbours u []) i) × (slice_index classes.now i ≢ class) }
{
    let plan = leaving.plan;
    let row = leaving.graph.neighbours(leaving.unit);
    let district = plan[leaving.unit as usize];
    let mut all = true;
    for place in 0..row.len() {
        all = all & ((plan[row[place] as usize] != district) | (classes[place] == class));
    }
    all
}

/// Returns true if the mates of a unit are linked, one to the next, through faces inside their
/// district. The sectors are those of the unit.
///
/// Mates in the order of the faces are linked if at most one of them has no link to the one before.
/// If each has a link, either all neighbors are mates or none is, so the last neighbor decides.
/// The loop has no branch that depends on the plan.
#[inline(always)]
pub fn are_linked_in_order(leaving: Member, sectors: &[Sector]) -> bool
    requires some { 0 < length sectors.now }
    requires placed { All (IsOnGraph leaving.graph.now) sectors.now }
    ensures { let g = leaving.entry.graph.now in let u = leaving.entry.unit in
        (faces : List (List ℕ)) → AreRings g faces → AreSectors g faces u sectors.now → IsTrue result ↔ AreLinkedBy g faces leaving.entry.plan.now u }
{
    let plan = leaving.plan;
    let district = plan[leaving.unit as usize];
    let last = sectors[sectors.len() - 1];
    let mut before = plan[last.near as usize] == district;
    let mut starts: u64 = 0;
    for sector in sectors {
        let inside = plan[sector.near as usize] == district;
        let joined = sector.faced & inside & before & (plan[sector.far as usize] == district);
        starts = with_one(starts, inside & !joined);
        before = inside;
    }
    (starts == 1) | (before & (starts == 0))
}
