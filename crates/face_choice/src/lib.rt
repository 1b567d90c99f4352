//! Chooses candidates for the faces of a graph. Only safety is proved of the choice: `contig` tests
//! each candidate.
//!
//! `contig` explains rings, faces and spares. A *group* is four units that are all adjacent. Three of
//! its triangles can be faces.
//!
//! `short_rings` finds rings of three to five units, and `groups` finds and chooses groups.
//! `long_rings` finds and chooses longer rings. `peel` puts rings and groups in an order in which they
//! can become faces, and `sides` has their sides. `uncovered` gives spares to faces.
#![tactic(auto)]

mod groups;
mod long_rings;
mod peel;
pub mod short_rings;
mod sides;
mod uncovered;

pub use short_rings::{FaceChoice, candidates_of};
