//! Numbered draws of a key: 64-bit numbers from ChaCha20 (the block function of RFC 8439).
#![tactic(auto)]

mod buffer;

ghost use Rattle.std.specs.Prelude.{◌≡◌, ◌+◌, ◌%◌, ◌<◌, ◌≤◌, ◌^◌, ℕ, length, slice_index};
ghost use Rattle.audit_statement.specs.Draw.{draw};
ghost use Rattle.rand_chacha.specs.ChaCha.{key_of};

use crate::buffer::{Buffer, refill, turn};
use rand_chacha::ChaCha20Rng;
use rand_core::SeedableRng;
use std::marker::Model;

/// A position in one stream of a key.
#[derive(Drop)]
pub struct Draws {
    key: [u8; 32],
    buffer: Buffer,
}

impl Model for Draws {
    ghost use Rattle.std.specs.Prelude.{◌+◌, ◌*◌};
    ghost use Rattle.chacha_draws.specs.Ahead.{IsAhead};
    ghost use Rattle.chacha_draws.specs.DrawPlace.{DrawPlace};

    ghost Value = { DrawPlace };

    ghost view = { λ d. record { key = d.key; stream = d.buffer.words.stream; place = 32 * d.buffer.block + d.buffer.next } };

    ghost invariant = { λ d. IsAhead d.key d.buffer };
}

impl Draws {
    /// Starts at the first draw of a stream.
    pub fn new(key: [u8; 32], stream: u64) -> Draws
        ensures key { result.key ≡ key }
        ensures stream { result.stream ≡ stream }
        ensures place { result.place ≡ 0 }
    {
        let mut words = generator_of(key);
        words.set_stream(stream);
        let mut buffer = Buffer {
            words,
            draws: [0; 32],
            block: 0,
            next: 0,
        };
        refill(&mut buffer);
        Draws { key, buffer }
    }

    /// Returns the next draw. A draw is the next two 32-bit words of the stream; the first word is
    /// the lower half.
    #[inline]
    pub fn next(&mut self) -> u64
        requires { self.old.place < 2 ^ 32 }
        ensures value { result ≡ draw self.old.key self.old.stream self.old.place }
        ensures moved { self.new ≡ record self.old { place = self.old.place + 1 } }
    {
        let draw = self.buffer.draws[self.buffer.next];
        self.buffer.next += 1;
        turn(&mut self.buffer);
        draw
    }

    /// Returns the next draws that are in the buffer. There is at least one.
    #[inline]
    pub fn waiting(&self) -> &[u64]
        ensures some { 0 < length result.now }
        ensures count { self.now.place % 32 + length result.now ≡ 32 }
        ensures values { (k : ℕ) → k < length result.now → slice_index result.now k ≡ draw self.now.key self.now.stream (self.now.place + k) }
    {
        &self.buffer.draws[self.buffer.next..]
    }

    /// Takes draws that are in the buffer.
    #[inline]
    pub fn skip(&mut self, count: usize)
        requires waiting { self.old.place % 32 + count ≤ 32 }
        requires place { self.old.place + count ≤ 2 ^ 32 }
        ensures { self.new ≡ record self.old { place = self.old.place + count } }
    {
        self.buffer.next += count;
        turn(&mut self.buffer);
    }

    /// Returns the number of draws that were taken.
    #[inline]
    pub fn place(&self) -> u64
        ensures { result ≡ self.now.place }
    {
        32 * u64::from(self.buffer.block) + self.buffer.next as u64
    }
}

/// Returns the generator of a key, at the first word of stream 0.
///
/// A call out of line hides the generator's position from the compiler. `set_stream` then keeps its
/// own call of the code that computes blocks.
#[inline(never)]
fn generator_of(key: [u8; 32]) -> ChaCha20Rng
    ensures { result ≡ record { key = key_of key; stream = 0; word_pos = 0 } }
{
    ChaCha20Rng::from_seed(key)
}
