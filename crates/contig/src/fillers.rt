//! Units that may fill the holes of districts.

ghost use Rattle.std.specs.Prelude.{◌≡◌, ℕ, [], length, IfOk};
ghost use Rattle.std.specs.List.{slice_index_or};

use crate::counts::{FaceCounts, fills_alone};
use crate::diagonals::Diagonals;
use crate::pocket::pocket_of;
use crate::short_list::ShortList;
use crate::table::FaceTable;
use audit_model::memory::Memory;
use dual_graph::graph::Graph;
use dual_graph::member::Member;
use std::alloc::Global;
use std::marker::Model;

/// The greatest number of missing faces of a district that has a list. With more, filling takes about
/// as long as a search, and seldom decides.
const MOST_MISSING: u64 = 3;

/// For each district, a short list of fillers.
///
/// A list grows as units move and faces of its district go missing. It is empty if no face is
/// missing, or more than three are. Nothing is proved of which units are listed: whoever uses a list tests them.
#[derive(Drop)]
pub struct Fillers {
    lists: Vec<ShortList>,
    diagonals: Diagonals,
    /// The number of lists whose district had missing faces when the list was updated last.
    holed: u32,
}

impl Model for Fillers {
    ghost use Rattle.std.specs.Prelude.{ℕ, List, map};
    ghost use Rattle.contig.specs.Fillers.{units_in};

    ghost Value = { List (List ℕ) };

    ghost view = { λ f. map units_in f.lists.items };
}

impl Fillers {
    /// Creates an empty list for each district. Fails if there is no memory.
    ///
    /// The ends of a diagonal and their two common neighbors are all adjacent. Of such four units, a
    /// face has a spare. So there are no diagonals to look for where no face has a spare.
    pub fn new(
        alloc: Global,
        graph: &Graph,
        faces: &FaceTable,
        districts: u32,
    ) -> Result<Fillers, Memory>
        ensures width { IfOk result (λ f. length f ≡ districts) }
        ensures none { IfOk result (λ f. (d : ℕ) → slice_index_or f d [] ≡ []) }
    {
        let diagonals = if faces.has_spares() {
            Diagonals::of(alloc, graph)?
        } else {
            Diagonals::none(alloc)
        };
        Ok(Fillers {
            lists: vec![in alloc; ShortList::new(); districts as usize]?,
            diagonals,
            holed: 0,
        })
    }

    /// Empties all lists.
    pub fn clear(&mut self)
        ensures width { length self.new ≡ length self.old }
        ensures none { (d : ℕ) → slice_index_or self.new d [] ≡ [] }
    {
        self.lists.fill(ShortList::new());
        self.holed = 0;
    }

    /// Returns the list of a district. It is empty if there is no such district.
    #[inline]
    pub fn of(&self, district: u32) -> &[u32]
        ensures { result.now ≡ slice_index_or self.now district [] }
    {
        let place = district as usize;
        if place >= self.lists.len() {
            return &[];
        }
        self.lists[place].as_slice()
    }

    /// Updates the lists of both districts after a unit has moved from `home` to another one.
    ///
    /// Most moves change no list: no district has missing faces before the move and after it.
    #[inline]
    pub fn follow(&mut self, table: &FaceTable, moved: Member, home: u32, counts: &FaceCounts)
        requires { table.now.graph ≡ moved.graph.now }
    {
        let joined = moved.plan[moved.unit as usize];
        if self.holed != 0 || counts.may_miss(home) || counts.may_miss(joined) {
            let missing = (counts.missing(home), counts.missing(joined));
            self.update(table, moved, home, missing);
        }
    }

    /// Updates the lists of both districts after a unit has moved from `home` to another one.
    /// `missing` has the numbers of missing faces of `home`, and then of the other district.
    #[inline(never)]
    pub fn update(&mut self, table: &FaceTable, moved: Member, home: u32, missing: (u64, u64))
        requires { table.now.graph ≡ moved.graph.now }
    {
        self.update_joined(table, moved, missing.1);
        self.update_left(moved, home, missing.0);
    }

    /// Updates the list of the district that a unit has joined. `now` is the number of its missing
    /// faces.
    fn update_joined(&mut self, table: &FaceTable, moved: Member, now: u64)
        requires { table.now.graph ≡ moved.graph.now }
    {
        let place = moved.plan[moved.unit as usize] as usize;
        if place >= self.lists.len() {
            return;
        }
        let before = self.lists[place].missing;
        self.holed = count_holed(self.holed, before, now);
        self.lists[place] = self.lists[place].with_missing(now);
        if is_hopeless(now) {
            return;
        }
        self.lists[place].remove(moved.unit);
        if now > before || self.lists[place].as_slice().is_empty() {
            discover(&mut self.lists[place], &self.diagonals, table, moved);
        }
    }

    /// Updates the list of the district that a unit has left. `now` is the number of its missing
    /// faces.
    fn update_left(&mut self, moved: Member, home: u32, now: u64) {
        let place = home as usize;
        if place >= self.lists.len() {
            return;
        }
        let before = self.lists[place].missing;
        self.holed = count_holed(self.holed, before, now);
        self.lists[place] = self.lists[place].with_missing(now);
        if is_hopeless(now) {
            return;
        }
        if now > before || (now == before && is_beside(&self.lists[place], moved, home)) {
            append(&mut self.lists[place], moved.plan, home, moved.unit);
        }
    }
}

/// Counts the districts with missing faces, after one of them has `now` in place of `before`.
fn count_holed(holed: u32, before: u64, now: u64) -> u32 {
    holed
        .wrapping_add(u32::from(now != 0))
        .wrapping_sub(u32::from(before != 0))
}

/// Returns true if a district with this number of missing faces needs no list: it has no hole, or too
/// many to be filled at little cost.
pub(crate) fn is_hopeless(missing: u64) -> bool {
    missing == 0 || missing > MOST_MISSING
}

/// Appends a unit to the list of a district, unless it is in the list. If the list is full, units
/// in the district are removed first, then the oldest.
fn append(list: &mut ShortList, plan: &[u32], district: u32, unit: u32) {
    if list.has(unit) || list.push(unit) {
        return;
    }
    list.remove_inside(plan, district);
    if !list.push(unit) {
        list.remove_first();
        list.push(unit);
    }
}

/// Appends units to the list of a district.
fn append_all(list: &mut ShortList, plan: &[u32], district: u32, units: &[u32]) {
    for unit in units {
        append(list, plan, district, *unit);
    }
}

/// Returns true if a neighbor of the unit is in the list of a district, and is outside the district.
fn is_beside(list: &ShortList, moved: Member, district: u32) -> bool {
    for other in moved.graph.neighbours(moved.unit) {
        if moved.plan[*other as usize] != district && list.has(*other) {
            return true;
        }
    }
    false
}

/// Looks for holes round a unit that has joined a district, and appends units that fill them.
fn discover(list: &mut ShortList, diagonals: &Diagonals, table: &FaceTable, moved: Member)
    requires { table.now.graph ≡ moved.graph.now }
{
    let district = moved.plan[moved.unit as usize];
    for other in moved.graph.neighbours(moved.unit) {
        if moved.plan[*other as usize] != district {
            let beside = moved.graph.member(moved.plan, *other);
            look_from(list, diagonals, table, beside, district);
        }
    }
}

/// Appends the pocket of a unit outside a district. If it has none, appends the unit if the unit
/// alone fills a hole.
fn look_from(
    list: &mut ShortList,
    diagonals: &Diagonals,
    table: &FaceTable,
    from: Member,
    district: u32,
)
    requires { table.now.graph ≡ from.graph.now }
{
    match pocket_of(diagonals, from, district) {
        Some(pocket) => append_all(list, from.plan, district, pocket.as_slice()),
        None => {
            if fills_alone(table, from, district) {
                append(list, from.plan, district, from.unit);
            }
        }
    }
}
