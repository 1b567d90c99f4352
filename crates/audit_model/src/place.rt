//! The position of a save.

/// The slot of a checkpoint, 0 or 1, and its generation, 0 to 2. The generations of two slots tell
/// which slot is the newest.
#[derive(Clone, Copy)]
pub struct Place {
    pub slot: u8,
    pub generation: u8,
}
