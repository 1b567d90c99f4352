//! A list of marked units, the buffer of a search from one unit.

ghost use Rattle.std.specs.Prelude.{◌≡◌, ◌<◌, ◌↔◌, ◌++◌, ◌∷◌, [], length, slice_index, slice_set, IsTrue, IsFalse, IfOk};
ghost use Rattle.audit_model.specs.Graph.{has};

use audit_model::memory::Memory;
use std::alloc::Global;
use std::marker::Model;

/// A list of distinct marked units, each with a label above 0. Unmarking all costs one write per
/// marked unit, not one per unit of the graph.
#[derive(Drop)]
pub struct MarkList {
    labels: Vec<u8>,
    // One place more than there are units: `mark_if` writes behind the marked units also if it
    // marks nothing.
    order: Vec<u32>,
    count: usize,
}

impl Model for MarkList {
    ghost use Rattle.std.specs.Prelude.{◌≡◌, ◌+◌, ◌≤◌, length, take, vec_len};
    ghost use Rattle.dual_graph.specs.Marked.{Marked, IsMarked};

    ghost Value = { Marked };

    ghost view = { λ m. record { units = length m.labels.items; items = take m.count m.order.items; labels = m.labels.items } };

    ghost invariant = { λ m. (length m.order.items ≡ length m.labels.items + 1) × (m.count ≤ length m.labels.items)
        × IsMarked (record { units = length m.labels.items; items = take m.count m.order.items; labels = m.labels.items }) };
}

impl MarkList {
    ghost use Rattle.dual_graph.specs.Marked.{IsMarked};

    /// Allocates a list for the marks of `units` units, of which none is marked. Fails if there is
    /// no memory.
    pub fn new(alloc: Global, units: u32) -> Result<MarkList, Memory>
        ensures units { IfOk result (λ m. m.units ≡ units) }
        ensures items { IfOk result (λ m. m.items ≡ []) }
    {
        Ok(MarkList {
            labels: vec![in alloc; 0; units as usize]?,
            order: vec![in alloc; 0; units as usize + 1]?,
            count: 0,
        })
    }

    /// Unmarks all units.
    pub fn clear(&mut self)
        ensures units { self.new.units ≡ self.old.units }
        ensures items { self.new.items ≡ [] }
        ensures sound { IsMarked self.new }
    {
        for place in 0..self.count {
            let unit = self.order[place];
            self.labels[unit as usize] = 0;
        }
        self.count = 0;
    }

    /// Returns the number of marked units.
    #[inline]
    pub fn count(&self) -> usize
        ensures { result ≡ length self.now.items }
    {
        self.count
    }

    /// Returns a unit's label, or 0 if the unit is not marked.
    #[inline]
    pub fn label(&self, unit: u32) -> u8
        requires { unit < self.now.units }
        ensures { result ≡ slice_index self.now.labels unit }
    {
        self.labels[unit as usize]
    }

    /// Returns the unit that was marked at this position, counted from 0.
    #[inline]
    pub fn at(&self, place: usize) -> u32
        requires { place < length self.now.items }
        ensures { result ≡ slice_index self.now.items place }
    {
        self.order[place]
    }

    /// Marks an unmarked unit with this label.
    #[inline]
    pub fn mark_as(&mut self, unit: u32, label: u8)
        requires unit { unit < self.old.units }
        requires label { 0 < label }
        requires absent { slice_index self.old.labels unit ≡ 0 }
        ensures units { self.new.units ≡ self.old.units }
        ensures items { self.new.items ≡ self.old.items ++ unit ∷ [] }
        ensures labels { self.new.labels ≡ slice_set self.old.labels unit label }
        ensures sound { IsMarked self.new }
    {
        self.labels[unit as usize] = label;
        self.order[self.count] = unit;
        self.count += 1;
    }

    /// Marks an unmarked unit with this label if `fresh` is true, and marks nothing otherwise.
    ///
    /// Both cases take the same instructions, since a branch on `fresh` would often be mispredicted
    /// in a search.
    #[inline]
    pub fn mark_if(&mut self, unit: u32, label: u8, fresh: bool)
        requires unit { unit < self.old.units }
        requires label { 0 < label }
        requires absent { IsTrue fresh → slice_index self.old.labels unit ≡ 0 }
        ensures units { self.new.units ≡ self.old.units }
        ensures items { IsTrue fresh → self.new.items ≡ self.old.items ++ unit ∷ [] }
        ensures labels { IsTrue fresh → self.new.labels ≡ slice_set self.old.labels unit label }
        ensures unchanged { IsFalse fresh → self.new ≡ self.old }
        ensures sound { IsMarked self.new }
    {
        let before = self.labels[unit as usize];
        let after = if fresh { label } else { before };
        self.labels[unit as usize] = after;
        self.order[self.count] = unit;
        self.count += usize::from(fresh);
    }

    /// Returns true if the unit is marked.
    #[inline]
    pub fn has(&self, unit: u32) -> bool
        requires { unit < self.now.units }
        ensures { IsTrue result ↔ IsTrue (has self.now.items unit) }
    {
        self.labels[unit as usize] != 0
    }

    /// Marks the unit with label 1 unless it is marked already. Returns true if it was not marked.
    #[inline]
    pub fn mark(&mut self, unit: u32) -> bool
        requires { unit < self.old.units }
        ensures units { self.new.units ≡ self.old.units }
        ensures new { IsTrue result ↔ IsFalse (has self.old.items unit) }
        ensures appended { IsTrue result → self.new.items ≡ self.old.items ++ unit ∷ [] }
        ensures unchanged { IsFalse result → self.new ≡ self.old }
        ensures sound { IsMarked self.new }
    {
        // Reading a field makes the type's invariant known to the prover.
        let _ = &self.labels;
        if self.label(unit) == 0 {
            self.mark_as(unit, 1);
            true
        } else {
            false
        }
    }

    /// Returns the marked units in the order of marking.
    #[inline]
    pub fn list(&self) -> &[u32]
        ensures { result.now ≡ self.now.items }
    {
        &self.order[..self.count]
    }
}
