//! The worker runtime of all runs: resources, walkers, start tokens and threads.

pub mod counted;
pub mod gated;
pub mod lender;
pub mod runtime;
pub mod spawn;
pub mod walkers;

pub use gated::{GatedWalker, StartToken};
pub use lender::Lender;
pub use runtime::Runtime;
pub use spawn::run_workers;
pub use walkers::make_walkers;
