//! The threads, the allocator and the gate of a run.

use std::alloc::Global;

/// The threads, the allocator and the gate of a run. No contract mentions them, because the outcomes do not depend on
/// them.
#[derive(Drop)]
pub struct Runtime<'a, R, G> {
    pub threads: &'a R,
    pub alloc: Global,
    pub gate: &'a G,
}
