//! Neighbors of a unit in the order of the faces round it.

ghost use Rattle.std.specs.Prelude.{◌≡◌, ◌<◌, ◌≤◌, List, [], ◌∷◌, ◌++◌, length, slice_range, IfOk, OnOk};
ghost use Rattle.std.specs.List.{slice_index_or};
ghost use Rattle.contig.specs.declared.sector.Sector.{Sector};

use audit_model::memory::Memory;
use std::alloc::Global;
use std::marker::Model;

/// A neighbor of a unit, and the face between it and the neighbor before it, if there is one.
///
/// `far` is the unit opposite in a square, and the neighbor itself in a triangle. `faced` is false if
/// there is no face.
#[derive(Clone, Copy)]
pub struct Sector {
    pub near: u32,
    pub far: u32,
    pub faced: bool,
}

/// The maximum number of all sectors, so that a place among them has 32 bits. A graph has fewer.
const MOST: usize = 4294967295;

/// A list of sectors for each unit. All are stored in one list, which spares an allocation for each
/// unit. A unit's list ends where the next one begins: one place per unit is read faster than two.
#[derive(Drop)]
pub struct SectorLists {
    /// The place where each list begins, and last the place where the next list will begin.
    starts: Vec<u32>,
    sectors: Vec<Sector>,
}

impl Model for SectorLists {
    ghost use Rattle.std.specs.Prelude.{List, map};
    ghost use Rattle.contig.specs.declared.sector.Sector.{Sector};
    ghost use Rattle.contig.specs.Spans.{HaveStarts, part, spans_between};

    ghost Value = { List (List Sector) };

    ghost view = { λ l. map (part l.sectors.items) (spans_between l.starts.items) };

    ghost invariant = { λ l. HaveStarts l.starts.items l.sectors.items };
}

impl SectorLists {
    /// Creates an empty list, with room for the lists of `units` units. Fails if there is no memory.
    pub fn with_room(alloc: Global, units: usize) -> Result<SectorLists, Memory>
        ensures { IfOk result (λ l. l ≡ []) }
    {
        let mut starts = Vec::with_capacity(alloc, units.saturating_add(1))?;
        starts.push(0)?;
        Ok(SectorLists {
            starts,
            sectors: Vec::new(alloc),
        })
    }

    /// Returns the sectors of a unit in order.
    #[inline]
    pub fn at(&self, unit: u32) -> &[Sector]
        requires { unit < length self.now }
        ensures { result.now ≡ slice_index_or self.now unit [] }
    {
        let begin = self.starts[unit as usize];
        let end = self.starts[unit as usize + 1];
        part_of(&self.sectors, begin, end)
    }

    /// Appends the sectors of the next unit. Fails if there is no memory, also for more than `MOST`.
    pub fn push(&mut self, sectors: &[Sector]) -> Result<(), Memory>
        ensures { OnOk result (self.new ≡ self.old ++ sectors.now ∷ []) }
    {
        let begin = self.starts[self.starts.len() - 1];
        self.sectors.truncate(begin as usize);
        self.sectors.extend_from_slice(sectors)?;
        let end = self.sectors.len();
        if end > MOST {
            return Err(Memory);
        }
        self.starts.push(end as u32)?;
        Ok(())
    }
}

/// Returns the sectors between two places.
#[inline]
fn part_of(sectors: &[Sector], begin: u32, end: u32) -> &[Sector]
    requires rises { begin ≤ end }
    requires within { end ≤ length sectors.now }
    ensures { result.now ≡ slice_range sectors.now begin end }
{
    &sectors[begin as usize..end as usize]
}
