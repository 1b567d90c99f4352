//! Posts at a desk.

/// A post: its ticket, its id, and its mark. `saved` is true if a save was made with this post and succeeded.
#[derive(Clone, Copy)]
pub struct Entry {
    pub ticket: u64,
    pub id: u32,
    pub saved: bool,
}
