//! Decides if a unit may leave its district: if the district without the unit is nonempty and
//! connected. The district must be connected.
//!
//! Words of this crate:
//!
//! - The *mates* of a unit are its neighbors in its own district. The *rest* is the district
//!   without the unit.
//! - A *ring* is three to five distinct units, each adjacent to the next and the last to the first.
//!   A *side* of a ring is two units next to each other on the ring.
//! - A *face* is a ring in a list of faces. Its *own side* is a side of no ring and of no spare ring
//!   that was added to the list before. The definitions in `specs/` have the list in reverse, so
//!   there the own side belongs to no later ring.
//! - A *long face* is a ring of six to twelve units in a list of its own, again with an own side. The
//!   own side of a face is a side of no long face. In `specs/`, a *cycle* is a ring of any length.
//! - A face is *at* each unit of its ring. A *corner* is a face as seen from one of its units.
//! - A triangle a, b, c may have a *spare*: a fourth unit d whose *spare ring* is a, b, d. Both rings
//!   have the own side a, b. The spare is *active* in a district that has a, b and d, but not c: its
//!   spare ring then counts in place of the triangle.
//! - An edge, a ring or a corner is *inner* if all its units are in one district. The *inner faces*
//!   of a district are its inner rings and its active spares.
//! - A district *has no hole* if it has fewer inner edges than units and inner faces together.
//! - A *link* joins two mates of a unit if both are next to the unit on the ring of one inner face.
//!   The mates are *linked* if there is a mate and links connect all of them.
//! - A *class* is a set of items that were merged. `links` merges two mates that a link joins.
//! - The mates are *connected among themselves* if there is a mate and edges between mates connect
//!   all of them. The unit is then *local*: it has a *local certificate*.
//! - The *missing faces* of a district are the inner faces that it would need in addition to have
//!   no hole. There are none if it has no hole.
//! - A *filler* of a district is a unit of another district that is listed because it may fill a
//!   hole: with it, the district may miss fewer faces. A *pocket* is a few units of other districts
//!   that the district encloses.
//! - A *diagonal* is an edge between two units that meet at a corner of four units only.
//! - A *search* visits the units of a rest. The *counter* of searches, `Steps`, exists in proofs
//!   only.
//!
//! The tests, from the cheapest to the costliest:
//!
//! 1. Links: if the mates are linked, the unit may leave.
//! 2. Counts: otherwise, if the district has no hole, the unit may not leave.
//! 3. Long faces: otherwise, if at least as many long faces lie in the district as faces are missing,
//!    and none of these has the unit, the unit may not leave.
//! 4. Mates: otherwise, if the mates are connected among themselves, the unit may leave.
//! 5. Search: otherwise a search decides. If the edges between mates join them into two sets, it
//!    starts at one mate of each set, and else at all mates.
//!
//! For a unit with more than 32 neighbors, only tests 4 and 5 are made.
//!
//! `face` has the candidates for faces, which the crate `face_choice` chooses, and `list` keeps faces
//! of them. `long` lists long faces and makes test 3. `corner`, `rows`, `spare` and `table` store the
//! faces and their spares by unit. `sector` and `order` store the neighbors of a unit in the order of
//! the faces round it, where there is such an order. `span` has the parts of a list in which such
//! lists are stored. `classes` and `links` make test 1. `counts` keeps the counts of a plan and makes
//! test 2. `parts` and `flood` make tests 4 and 5. `leave` has the calls that decide. `fill` decides by
//! tests 1 to 3 after filling holes, and `missing` counts the faces that a filler leaves missing.
//! `fillers` keeps units to fill holes with, `pocket` and `diagonals` find these, and `short_list`
//! stores them.
#![tactic(auto)]

mod classes;
mod corner;
pub mod counts;
mod diagonals;
pub mod face;
pub mod fill;
pub mod fillers;
mod flood;
pub mod laws;
pub mod leave;
pub mod links;
pub mod list;
pub mod long;
mod missing;
mod order;
mod parts;
mod pocket;
mod rows;
mod sector;
mod short_list;
mod span;
mod spare;
pub mod table;

pub use counts::FaceCounts;
pub use face::{Candidate, Face};
pub use fill::decide_by_filling;
pub use fillers::Fillers;
pub use leave::{decide_by_counting, local_holds, may_leave, search_holds};
pub use links::MOST;
pub use list::{FaceList, list_faces};
pub use table::FaceTable;
