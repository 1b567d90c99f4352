//! Parts of a list.

/// The indices at which a part of a list begins and ends.
#[derive(Clone, Copy)]
pub struct Span {
    pub begin: usize,
    pub end: usize,
}
