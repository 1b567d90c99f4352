//! Lines that are written piece by piece.

ghost use Rattle.std.specs.Prelude.{◌≡◌, ◌++◌, ◌∷◌, List, ℕ, flat_map, map, []};
ghost use Rattle.hex.specs.Hex.{encode_lower};
ghost use Rattle.report.specs.Pieces.{piece_text};
ghost use Rattle.report.specs.AddedText.{AddsText, HasAdded, LetsNext};
ghost use Rattle.audit_statement.specs.DueText.{LetsText};
ghost use Rattle.audit_statement.specs.Endings.{AddsLine};
ghost use Rattle.audit_model.specs.State.{Stream};
ghost use Rattle.audit_statement.specs.Note as terms;

use crate::piece::Piece;
use crate::piece::Piece::{Digest, Number, Text};
use crate::writing::write_all;
use audit_io::sink::Sink;
use hex::encode_to_slice;
use itoa::Buffer;

/// Writes these pieces as one line. Writes nothing if `going` is false, which means that an earlier
/// write failed. Returns true if no write has failed.
pub fn add_line<N: Sink>(note: &mut N, going: bool, first: &[Piece], pieces: &[Piece]) -> bool
    requires { LetsNext N.lets (N.state note.old) going (terms.as_line (map piece_text first.now ++ map piece_text pieces.now)) }
    ensures { AddsText (N.state note.old) (N.state note.new) going (terms.as_line (map piece_text first.now ++ map piece_text pieces.now)) result }
{
    let going = add_pieces(note, going, first);
    let going = add_pieces(note, going, pieces);
    add(note, going, b"\n")
}

/// Writes these pieces as one line.
pub(crate) fn write_note<N: Sink>(note: &mut N, first: &[Piece], pieces: &[Piece])
    requires { LetsText N.lets (N.state note.old) (terms.as_line (map piece_text first.now ++ map piece_text pieces.now)) }
    ensures { AddsLine (N.state note.old) (N.state note.new) (terms.as_line (map piece_text first.now ++ map piece_text pieces.now)) }
{
    // The line is the last output, so nothing depends on the result.
    let _ended = add_line(note, true, first, pieces);
}

/// Writes this text as a line.
pub(crate) fn write_text<N: Sink>(note: &mut N, text: &str)
    requires { LetsText N.lets (N.state note.old) (terms.as_line (text.now ∷ [])) }
    ensures { AddsLine (N.state note.old) (N.state note.new) (terms.as_line (text.now ∷ [])) }
{
    write_note(note, &[Text(text)], &[]);
}

// Writes these pieces of a line, if `going` is true. Returns false after a failure.
fn add_pieces<N: Sink>(note: &mut N, going: bool, pieces: &[Piece]) -> bool
    requires { LetsNext N.lets (N.state note.old) going (flat_map piece_text pieces.now) }
    ensures { (start : Stream) (text_so_far : List ℕ) → HasAdded start (N.state note.old) text_so_far going
        → HasAdded start (N.state note.new) (text_so_far ++ flat_map piece_text pieces.now) result }
{
    let mut going = going;
    for piece in pieces {
        going = add_piece(note, going, piece);
    }
    going
}

// Writes this piece of a line, if `going` is true. Returns false after a failure.
fn add_piece<N: Sink>(note: &mut N, going: bool, piece: &Piece) -> bool
    requires { LetsNext N.lets (N.state note.old) going (piece_text piece.now) }
    ensures { (start : Stream) (text_so_far : List ℕ) → HasAdded start (N.state note.old) text_so_far going
        → HasAdded start (N.state note.new) (text_so_far ++ piece_text piece.now) result }
{
    match piece {
        Text(text) => add(note, going, text.as_bytes()),
        Number(number) => {
            let mut buffer = Buffer::new();
            add(note, going, buffer.format(*number).as_bytes())
        }
        Digest(digest) => add(note, going, &digits_of(digest)),
    }
}

// Writes these bytes of a line, if `going` is true. Returns false after a failure.
fn add<N: Sink>(note: &mut N, going: bool, piece: &[u8]) -> bool
    requires { LetsNext N.lets (N.state note.old) going piece.now }
    ensures { (start : Stream) (text_so_far : List ℕ) → HasAdded start (N.state note.old) text_so_far going
        → HasAdded start (N.state note.new) (text_so_far ++ piece.now) result }
{
    if !going {
        return false;
    }
    match write_all(note, piece) {
        Ok(()) => true,
        Err(_) => false,
    }
}

fn digits_of(digest: &[u8; 32]) -> [u8; 64]
    ensures { result ≡ encode_lower digest.now }
{
    let mut digits = [0; 64];
    // The call fails only if the buffer is not twice as long as the digest. It is: 64 bytes for 32.
    let _ = encode_to_slice(digest.as_slice(), &mut digits);
    digits
}
