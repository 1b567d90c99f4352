//! Short lists of units, without allocation.

ghost use Rattle.std.specs.Prelude.{◌≡◌, []};
ghost use Rattle.contig.specs.Fillers.{units_in};

use crate::fillers::is_hopeless;

/// The maximum number of units in a list.
pub const ROOM: usize = 12;

/// A list of at most `ROOM` units, for a district. `missing` is the number of missing faces that the
/// district had when the list was updated last.
#[derive(Clone, Copy)]
pub struct ShortList {
    pub missing: u64,
    count: usize,
    units: [u32; 12],
}

impl ShortList {
    /// Returns an empty list.
    pub fn new() -> ShortList
        ensures { units_in result ≡ [] }
    {
        ShortList {
            missing: 0,
            count: 0,
            units: [0; 12],
        }
    }

    /// Returns the units in the order in which they were added.
    #[inline]
    pub fn as_slice(&self) -> &[u32]
        ensures { result.now ≡ units_in self.now }
    {
        let count = if self.count < ROOM { self.count } else { ROOM };
        &self.units[..count]
    }

    /// Returns the list of a district that now has this number of missing faces. The list is empty if
    /// it would not help.
    pub fn with_missing(self, missing: u64) -> ShortList {
        let mut list = if is_hopeless(missing) {
            ShortList::new()
        } else {
            self
        };
        list.missing = missing;
        list
    }

    /// Returns true if a unit is in the list.
    pub fn has(&self, unit: u32) -> bool {
        for other in self.as_slice() {
            if *other == unit {
                return true;
            }
        }
        false
    }

    /// Appends a unit. Returns false if the list is full.
    pub fn push(&mut self, unit: u32) -> bool {
        if self.count >= ROOM {
            return false;
        }
        self.units[self.count] = unit;
        self.count += 1;
        true
    }

    /// Removes a unit if it is in the list.
    pub fn remove(&mut self, unit: u32) {
        let mut kept = ShortList::new();
        for other in self.as_slice() {
            if *other != unit {
                kept.push(*other);
            }
        }
        kept.missing = self.missing;
        *self = kept;
    }

    /// Removes the units that are in a district of a plan.
    pub fn remove_inside(&mut self, plan: &[u32], district: u32) {
        let mut kept = ShortList::new();
        for unit in self.as_slice() {
            let place = *unit as usize;
            if place < plan.len() && plan[place] != district {
                kept.push(*unit);
            }
        }
        kept.missing = self.missing;
        *self = kept;
    }

    /// Removes the oldest unit.
    pub fn remove_first(&mut self) {
        let mut kept = ShortList::new();
        let units = self.as_slice();
        for place in 1..units.len() {
            kept.push(units[place]);
        }
        kept.missing = self.missing;
        *self = kept;
    }
}
