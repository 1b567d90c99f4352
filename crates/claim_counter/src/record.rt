//! Records of passes, for proofs only. No value of these types exists at run time, except for `Size`.
use std::collections::LinkedList;

/// The history of a pass.
pub struct PassRecord {
    /// The numbers that were drawn with the pass.
    pub claims: LinkedList<u32>,
    /// The number of draws that found no number left.
    pub past_end: u64,
    /// The number of passes that are joined in this one, counting this one.
    pub weight: u64,
    /// The number of passes that can still be split off this one.
    pub spare: u64,
    /// True if each of the joined passes has made a draw that found no number left.
    pub ended: bool,
}

/// The facts about a counter that proofs know from one pass: the counter's size, and the history of the pass.
pub struct View {
    pub size: Size,
    pub own: PassRecord,
}

/// The size of a counter. All numbers are below `limit`, and there are at most `seats` passes.
#[derive(Clone, Copy)]
pub struct Size {
    pub limit: u32,
    pub seats: u32,
}
