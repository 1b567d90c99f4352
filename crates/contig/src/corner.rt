//! Corners: faces as seen from one of their units.

ghost use Rattle.std.specs.Prelude.{◌≡◌, ◌+◌, ◌<◌, ℕ, List, ◌∷◌, [], ◌++◌, length, slice_index, slice_set, IfOk, OnOk};
ghost use Rattle.std.specs.List.{slice_index_or};
ghost use Rattle.audit_model.specs.Below.{sum_below};
ghost use Rattle.audit_model.specs.Length.{degree};
ghost use Rattle.contig.specs.declared.corner.Corner.{Corner};
ghost use Rattle.contig.specs.Spans.{IsWithin, part, span_at};

use crate::span::Span;
use audit_model::memory::Memory;
use dual_graph::graph::Graph;
use std::alloc::Global;
use std::marker::Model;

/// A face as seen from one of its units.
///
/// `one` and `other` are the two units next to the unit on the face, as positions in the unit's
/// list of neighbors. `far` and `further` are units of the face: in a pentagon the other two units,
/// in a square twice the one other unit, in a triangle twice the neighbor at `other`.
///
/// The spare triangle a, b, d of a triangle a, b, c has a corner at each of a, b, d and c. `one`,
/// `other` and `far` are then units of the spare triangle, and `further` is c.
#[derive(Clone, Copy)]
pub struct Corner {
    pub one: u32,
    pub other: u32,
    pub far: u32,
    pub further: u32,
}

/// A list of corners for each unit. All are stored in one list, which spares an allocation for each
/// unit: each has room there, up to a limit, and moves to the end if it outgrows its room.
#[derive(Drop)]
pub struct CornerLists {
    spans: Vec<Span>,
    limits: Vec<usize>,
    corners: Vec<Corner>,
}

impl Model for CornerLists {
    ghost use Rattle.std.specs.Prelude.{List, map};
    ghost use Rattle.contig.specs.declared.corner.Corner.{Corner};
    ghost use Rattle.contig.specs.Spans.{HaveRoom, part};

    ghost Value = { List (List Corner) };

    ghost view = { λ l. map (part l.corners.items) l.spans.items };

    ghost invariant = { λ l. HaveRoom l.spans.items l.limits.items l.corners.items };
}

impl CornerLists {
    /// Creates an empty list for each unit, with room for a corner at each neighbor: more are rare.
    /// Fails if there is no memory.
    pub fn of(alloc: Global, graph: &Graph) -> Result<CornerLists, Memory>
        ensures width { IfOk result (λ l. length l ≡ graph.now.units) }
        ensures none { IfOk result (λ l. (u : ℕ) → slice_index_or l u [] ≡ []) }
    {
        let blank = Corner {
            one: 0,
            other: 0,
            far: 0,
            further: 0,
        };
        Ok(CornerLists {
            spans: empty_spans(alloc, graph)?,
            limits: limits_of(alloc, graph)?,
            corners: vec![in alloc; blank; graph.arcs_before(graph.units())]?,
        })
    }

    /// Creates no lists.
    pub fn none(alloc: Global) -> CornerLists
        ensures { result ≡ [] }
    {
        CornerLists {
            spans: Vec::new(alloc),
            limits: Vec::new(alloc),
            corners: Vec::new(alloc),
        }
    }

    /// Creates an empty list for each unit, without room for corners. Fails if there is no memory.
    pub fn without_room(alloc: Global, graph: &Graph) -> Result<CornerLists, Memory>
        ensures width { IfOk result (λ l. length l ≡ graph.now.units) }
        ensures none { IfOk result (λ l. (u : ℕ) → slice_index_or l u [] ≡ []) }
    {
        let units = graph.units() as usize;
        Ok(CornerLists {
            spans: vec![in alloc; Span { begin: 0, end: 0 }; units]?,
            limits: vec![in alloc; 0; units]?,
            corners: Vec::new(alloc),
        })
    }

    /// Returns the number of units.
    #[inline]
    pub fn units(&self) -> usize
        ensures { result ≡ length self.now }
    {
        self.spans.len()
    }

    /// Returns the corners at a unit in order.
    #[inline]
    pub fn at(&self, unit: u32) -> &[Corner]
        requires { unit < length self.now }
        ensures { result.now ≡ slice_index_or self.now unit [] }
    {
        let span = self.spans[unit as usize];
        &self.corners[span.begin..span.end]
    }

    /// Appends a corner at a unit. Fails if there is no memory.
    pub fn push(&mut self, unit: u32, corner: Corner) -> Result<(), Memory>
        requires { unit < length self.old }
        ensures width { length self.new ≡ length self.old }
        ensures ok { OnOk result (self.new ≡ slice_set self.old unit (slice_index_or self.old unit [] ++ corner ∷ [])) }
    {
        let span = self.spans[unit as usize];
        if span.end < self.limits[unit as usize] {
            self.corners[span.end] = corner;
            self.spans[unit as usize] = Span {
                begin: span.begin,
                end: span.end + 1,
            };
            return Ok(());
        }
        let begin = self.corners.len();
        copy_with(&mut self.corners, span, corner)?;
        let end = self.corners.len();
        add_room(&mut self.corners, span, corner)?;
        self.spans[unit as usize] = Span { begin, end };
        self.limits[unit as usize] = self.corners.len();
        Ok(())
    }
}

/// Lists an empty span for each unit, each where the unit's neighbors begin in a list of all. Fails
/// if there is no memory.
fn empty_spans(alloc: Global, graph: &Graph) -> Result<Vec<Span>, Memory>
    ensures width { IfOk result (λ spans. length spans.items ≡ graph.now.units) }
    ensures each { IfOk result (λ spans. (u : ℕ) → u < graph.now.units
        → ((span_at spans.items u).begin ≡ sum_below u (degree graph.now)) × ((span_at spans.items u).end ≡ sum_below u (degree graph.now))) }
{
    let mut spans = Vec::with_capacity(alloc, graph.units() as usize)?;
    for unit in 0..graph.units() {
        let begin = graph.arcs_before(unit);
        spans.push(Span { begin, end: begin })?;
    }
    Ok(spans)
}

/// Lists the limit of each unit's corners: where its neighbors end in a list of all. Fails if there
/// is no memory.
fn limits_of(alloc: Global, graph: &Graph) -> Result<Vec<usize>, Memory>
    ensures width { IfOk result (λ limits. length limits.items ≡ graph.now.units) }
    ensures each { IfOk result (λ limits. (u : ℕ) → u < graph.now.units → slice_index limits.items u ≡ sum_below (u + 1) (degree graph.now)) }
{
    let mut limits = Vec::with_capacity(alloc, graph.units() as usize)?;
    for unit in 0..graph.units() {
        limits.push(graph.arcs_before(unit + 1))?;
    }
    Ok(limits)
}

/// Appends a copy of a part, and one more corner. Fails if there is no memory, maybe with some of
/// them appended.
fn copy_with(corners: &mut Vec<Corner>, span: Span, corner: Corner) -> Result<(), Memory>
    requires { IsWithin corners.old.items span }
    ensures ok { OnOk result (corners.new.items ≡ corners.old.items ++ (part corners.old.items span ++ corner ∷ [])) }
    ensures more { (rest : List Corner) × (corners.new.items ≡ corners.old.items ++ rest) }
{
    for place in span.begin..span.end {
        let moved = corners[place];
        corners.push(moved)?;
    }
    corners.push(corner)?;
    Ok(())
}

/// Appends as many corners as a part has, to be replaced later. Fails if there is no memory, maybe
/// with some of them appended.
fn add_room(corners: &mut Vec<Corner>, span: Span, corner: Corner) -> Result<(), Memory>
    ensures { (rest : List Corner) × (corners.new.items ≡ corners.old.items ++ rest) }
{
    for _ in span.begin..span.end {
        corners.push(corner)?;
    }
    Ok(())
}
