//! The single-flip chain: the proposal of a draw, the plan after it, and the draw that leads back.
//!
//! Words of this crate:
//!
//! - A *draw* is a number of 64 bits.
//! - A *pair* is a unit and a district. The *place* of a pair is the unit times the number of
//!   districts, plus the district.
//! - A *block* is a run of consecutive draws, one for each pair. The first block begins at draw 0,
//!   and each other block where the one before ends. After the last whole block, a few draws are
//!   left.
//! - A draw *proposes* the pair whose place is the position of the draw in its block. The draws
//!   after the last whole block propose nothing.
//! - A pair is *open* if the unit is in another district and has a neighbor in the district of the
//!   pair.
//! - A *flip* is a unit and a district to which it may go. A flip is a *move* if the plan after it
//!   is legal. *Home* is the district of the unit before the flip.
//! - A *step* takes a draw. If the draw proposes an open pair, the flip to this pair is a move, and
//!   the draw takes its change of cut edges, the step makes the move. Otherwise the plan stays the
//!   same. Without a weight on cut edges, every draw takes every change.
//! - The *mirror* of a draw is the draw whose step leads back: from the plan after the draw to the
//!   plan before it. With a weight, it leads back from steps that take no cut edges away.
//! - The *constraint* of a job allows or forbids a plan by rules beyond population, contiguity and
//!   the length of cut edges. Its trait is `Judge`.
//! - The *board* is the current plan with its sums and tables. The *state* is the board with the
//!   constraint.
//! - A *search* is a search in a district, made by `contig`. `Steps` counts searches, in proofs
//!   only.
#![tactic(auto)]

mod board;
mod bounds;
mod filling;
pub mod flip;
pub mod laws;
mod moving;
mod nearby;
mod open_pairs;
mod permission;
pub mod proposal;
mod replacing;
mod start;
pub mod state;
mod weight;
mod writing;

pub use flip::{mirror, try_flip};
pub use proposal::propose;
pub use state::State;
