//! Draws that are read in advance.

ghost use Rattle.std.specs.Prelude.{◌≡◌, ◌+◌, ◌*◌, ◌<◌, ◌≤◌, ◌^◌, ℕ, List};
ghost use Rattle.rand_chacha.specs.ChaCha.{key_of};
ghost use Rattle.chacha_draws.specs.Ahead.{IsAhead, IsFilled, IsRead};

use rand_chacha::ChaCha20Rng;
use rand_core::utils::next_u64_via_u32;

/// The number of draws in a buffer. The generator computes as many at a time.
pub const ROOM: usize = 32;

/// The number of words in a buffer: two for each draw.
const WORDS: u128 = 64;

/// A generator, and the draws that were read from it last.
///
/// `block` is the number of full buffers before these draws. `next` is the index of the next draw. A draw that is taken
/// from a buffer costs half of what two words of the generator cost.
#[derive(Drop)]
pub struct Buffer {
    pub words: ChaCha20Rng,
    pub draws: [u64; 32],
    pub block: u32,
    pub next: usize,
}

/// Reads the next draws if all draws in the buffer were taken.
#[inline(always)]
pub fn turn(buffer: &mut Buffer)
    requires next { buffer.old.next ≤ 32 }
    requires few { 32 * buffer.old.block + buffer.old.next ≤ 2 ^ 32 }
    ensures next { buffer.new.next < 32 }
    ensures place { 32 * buffer.new.block + buffer.new.next ≡ 32 * buffer.old.block + buffer.old.next }
    ensures stream { buffer.new.words.stream ≡ buffer.old.words.stream }
    ensures ahead { (key : List ℕ) → IsFilled key buffer.old → IsAhead key buffer.new }
{
    if buffer.next >= ROOM {
        turn_over(buffer);
    }
}

/// Reads the next draws.
///
/// Few calls of `turn` get this far, so the code is kept out of line.
#[inline(never)]
fn turn_over(buffer: &mut Buffer)
    requires next { buffer.old.next ≡ 32 }
    requires few { 32 * buffer.old.block + 32 ≤ 2 ^ 32 }
    ensures next { buffer.new.next ≡ 0 }
    ensures block { buffer.new.block ≡ buffer.old.block + 1 }
    ensures stream { buffer.new.words.stream ≡ buffer.old.words.stream }
    ensures ahead { (key : List ℕ) → IsFilled key buffer.old → IsAhead key buffer.new }
{
    buffer.block += 1;
    buffer.next = 0;
    refill(buffer);
}

/// Reads the draws of the buffer's block.
///
/// `set_word_pos` tells the compiler where the generator stands in its own block. The tests of this place then vanish
/// from the code, and the words are copied in pairs.
#[inline(always)]
pub fn refill(buffer: &mut Buffer)
    requires few { buffer.old.block ≤ 2 ^ 27 }
    ensures next { buffer.new.next ≡ buffer.old.next }
    ensures block { buffer.new.block ≡ buffer.old.block }
    ensures stream { buffer.new.words.stream ≡ buffer.old.words.stream }
    ensures read { (key : List ℕ) → buffer.old.words.key ≡ key_of key → IsRead key (32 * buffer.old.block) 32 buffer.new }
{
    buffer.words.set_word_pos(u128::from(buffer.block) * WORDS);
    read_16(buffer, 0);
    read_16(buffer, 16);
}

#[inline(always)]
fn read_16(buffer: &mut Buffer, first: usize)
    requires room { first + 16 ≤ 32 }
    ensures next { buffer.new.next ≡ buffer.old.next }
    ensures block { buffer.new.block ≡ buffer.old.block }
    ensures stream { buffer.new.words.stream ≡ buffer.old.words.stream }
    ensures read { (key : List ℕ) (start : ℕ) → start ≤ 2 ^ 32 → IsRead key start first buffer.old → IsRead key start (first + 16) buffer.new }
{
    read_4(buffer, first);
    read_4(buffer, first + 4);
    read_4(buffer, first + 8);
    read_4(buffer, first + 12);
}

#[inline(always)]
fn read_4(buffer: &mut Buffer, first: usize)
    requires room { first + 4 ≤ 32 }
    ensures next { buffer.new.next ≡ buffer.old.next }
    ensures block { buffer.new.block ≡ buffer.old.block }
    ensures stream { buffer.new.words.stream ≡ buffer.old.words.stream }
    ensures read { (key : List ℕ) (start : ℕ) → start ≤ 2 ^ 32 → IsRead key start first buffer.old → IsRead key start (first + 4) buffer.new }
{
    read_draw(buffer, first);
    read_draw(buffer, first + 1);
    read_draw(buffer, first + 2);
    read_draw(buffer, first + 3);
}

/// Reads one draw, and writes it at an index. A draw is the next two 32-bit words of the stream; the first word is the
/// lower half.
#[inline(always)]
fn read_draw(buffer: &mut Buffer, at: usize)
    requires room { at < 32 }
    ensures next { buffer.new.next ≡ buffer.old.next }
    ensures block { buffer.new.block ≡ buffer.old.block }
    ensures stream { buffer.new.words.stream ≡ buffer.old.words.stream }
    ensures read { (key : List ℕ) (start : ℕ) → start ≤ 2 ^ 32 → IsRead key start at buffer.old → IsRead key start (at + 1) buffer.new }
{
    buffer.draws[at] = next_u64_via_u32(&mut buffer.words);
}
