//! Pockets: small sets of units outside a district that the district encloses. Nothing is proved of
//! them: they only guide the search for fillers.

ghost use Rattle.std.specs.Prelude.{◌<◌};

use crate::diagonals::Diagonals;
use crate::short_list::ShortList;
use dual_graph::member::Member;

/// The maximum number of units in a pocket.
const MOST: usize = 6;

/// Finds the units that can be reached from a unit outside a district without entering the district
/// and without crossing a corner. Returns `None` if there are more than `MOST` of them.
pub fn pocket_of(diagonals: &Diagonals, from: Member, district: u32) -> Option<ShortList> {
    let mut found = ShortList::new();
    found.push(from.unit);
    for place in 0..MOST {
        let units = found.as_slice();
        if place >= units.len() {
            return Some(found);
        }
        let unit = units[place];
        if unit >= from.graph.units() {
            return None;
        }
        let next = from.graph.member(from.plan, unit);
        if !add_beside(diagonals, next, district, &mut found) {
            return None;
        }
    }
    Some(found)
}

/// Adds the neighbors of a unit that are outside the district and not across a corner. Returns
/// false if there are then more than `MOST` units.
fn add_beside(diagonals: &Diagonals, from: Member, district: u32, found: &mut ShortList) -> bool {
    let row = from.graph.neighbours(from.unit);
    let begin = from.graph.arcs_before(from.unit);
    for place in 0..row.len() {
        let other = row[place];
        if from.plan[other as usize] != district
            && !diagonals.has(begin.wrapping_add(place))
            && !found.has(other)
        {
            if found.as_slice().len() >= MOST {
                return false;
            }
            found.push(other);
        }
    }
    true
}
