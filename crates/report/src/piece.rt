//! Pieces of a diagnostic.

/// A piece of a diagnostic.
#[derive(Clone, Copy)]
pub enum Piece<'a> {
    /// A text, written as it is.
    Text(&'a str),
    /// A number, written in decimal digits.
    Number(u64),
    /// A digest, written in hexadecimal digits.
    Digest(&'a [u8; 32]),
}
