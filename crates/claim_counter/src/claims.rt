//! The counter from which workers draw numbers.
ghost use Rattle.std.specs.Prelude.{◌≡◌, ◌≤◌};
ghost use Rattle.audit_model.specs.Limits.{most_trajectories};

use crate::pass::Pass;
use crate::record::{Size, View};
use crate::rule::{Draw, EachOnce, Look, OnePass};
use atomic_table::Table;
use audit_model::memory::Memory;
use std::alloc::Global;

/// A lock-free counter that gives each number below a limit to at most one pass.
#[derive(Drop)]
pub struct Claims {
    pub(crate) table: Table<(), View, Size, EachOnce, Global>,
    limit: u32,
    ghost one_word: { table.shared.table_id.words ≡ 1 },
    ghost no_slots: { table.shared.table_id.slots ≡ 0 },
    ghost limit_is: { table.shared.key.limit ≡ limit },
    ghost small: { (limit ≤ most_trajectories) × (table.shared.key.seats ≤ 33) },
}

/// The result of closing a counter.
#[derive(Clone, Copy)]
pub struct Closed {
    /// The least number that was not given out. All numbers below it were.
    pub drawn: u32,
}

impl Claims {
    ghost use Rattle.std.specs.Prelude.{◌≡◌, ◌-◌, ◌<◌, ◌≤◌, true, false, length, IfOk, IfSome, IfNone};
    ghost use Rattle.claim_counter.specs.Records.{fresh, with_claim, at_end, with_less_spare, joined_passes, AreDifferentBelow, AreAllBelow};
    ghost use Rattle.audit_model.specs.Times.{times};
    ghost use Rattle.claim_counter.specs.Views.{HasAllSeats};
    ghost use Rattle.claim_counter.specs.Passes.{own, size_of, BelongsTo};

    /// Makes a counter of the numbers below `limit`, and its first pass. `seats` is the largest number of passes, from
    /// 1 to 33. The other passes are split off the first one. Fails if there is no memory.
    pub fn new(alloc: Global, limit: u32, seats: u32) -> Result<(Claims, Pass), Memory>
        requires limit { limit ≤ most_trajectories }
        requires seats { (1 ≤ seats) × (seats ≤ 33) }
        ensures size { IfOk result (λ c. size_of c.0 ≡ record { limit = limit; seats = seats }) }
        ensures pass { IfOk result (λ c. BelongsTo c.0 c.1 × (own c.1 ≡ fresh (seats - 1))) }
    {
        let size = Size { limit, seats };
        let (table, seat) = Table::of_words(alloc, &[0], &size)?;
        Ok((
            Claims { table, limit },
            Pass {
                seat,
                spare: seats - 1,
                ended: false,
            },
        ))
    }

    /// Splits a new pass off `pass`. The new pass has drawn nothing. The number of passes that can still be split off
    /// `pass` falls by one.
    pub fn split(&self, pass: &mut Pass) -> Pass
        requires pass { BelongsTo self.now pass.old }
        requires spare { 0 < (own pass.old).spare }
        ensures rest { BelongsTo self.now pass.new × (own pass.new ≡ with_less_spare (own pass.old)) }
        ensures new { BelongsTo self.now result × (own result ≡ fresh 0) }
    {
        let seat = self.table.shared.split_seat::<OnePass>(&mut pass.seat);
        pass.spare -= 1;
        Pass {
            seat,
            spare: 0,
            ended: false,
        }
    }

    /// Draws the next number in one atomic step. No other pass of this counter ever gets the same number. Returns
    /// `None` if no number is left. The pass has then ended, and must not draw again.
    pub fn claim(&self, pass: &mut Pass) -> Option<u32>
        requires pass { BelongsTo self.now pass.old }
        requires before_end { (own pass.old).ended ≡ false }
        ensures pass { BelongsTo self.now pass.new }
        ensures below { IfSome result (λ n. n < (size_of self.now).limit) }
        ensures unclaimed { IfSome result (λ n. times n (own pass.old).claims ≡ 0) }
        ensures number { IfSome result (λ n. own pass.new ≡ with_claim n (own pass.old)) }
        ensures end { IfNone result (own pass.new ≡ at_end (own pass.old)) }
        ensures different { AreDifferentBelow (size_of self.now).limit (own pass.new).claims }
        ensures few { length (own pass.new).claims ≤ (size_of self.now).limit }
        ensures all { IfNone result (HasAllSeats (size_of self.now).seats (own pass.old) → AreAllBelow (size_of self.now).limit (own pass.new).claims) }
    {
        let drawn = self.table.shared.fetch_add::<Draw>(&mut pass.seat, 0, 1);
        if drawn < u64::from(self.limit) {
            Some(drawn as u32)
        } else {
            pass.ended = true;
            None
        }
    }

    /// Joins two passes into one that has the numbers of both. The joined pass has ended if both passes have.
    pub fn join(&self, first: Pass, second: Pass) -> Pass
        requires first { BelongsTo self.now first }
        requires second { BelongsTo self.now second }
        ensures pass { BelongsTo self.now result }
        ensures both { own result ≡ joined_passes (own first) (own second) }
        ensures different { AreDifferentBelow (size_of self.now).limit (own result).claims }
        ensures all { HasAllSeats (size_of self.now).seats (own result) → (own result).ended ≡ true → AreAllBelow (size_of self.now).limit (own result).claims }
    {
        let Pass {
            mut seat,
            spare,
            ended,
        } = first;
        let Pass {
            seat: other_seat,
            spare: other_spare,
            ended: other_ended,
        } = second;
        self.table
            .shared
            .join_seat::<OnePass>(&mut seat, other_seat);
        // The join alone tells the proof nothing about the claims of both passes together. This read of the counter
        // tells the proof that all these claims are distinct.
        self.table.shared.load::<Look>(&mut seat, 0);
        Pass {
            seat,
            spare: spare + other_spare,
            ended: ended && other_ended,
        }
    }

    /// Closes the counter. `pass` must have all seats: every other pass was joined into it, or was never split off.
    pub fn close(self, pass: Pass) -> Closed
        requires pass { BelongsTo self pass }
        requires only { HasAllSeats (size_of self).seats (own pass) }
        ensures drawn { AreAllBelow result.drawn (own pass).claims }
        ensures below { result.drawn ≤ (size_of self).limit }
        ensures all { (own pass).ended ≡ true → result.drawn ≡ (size_of self).limit }
    {
        let Claims { table, limit } = self;
        let Pass {
            seat,
            spare: _,
            ended: _,
        } = pass;
        let closed = table.close_with(seat);
        let word = closed.word(0);
        closed.free();
        Closed {
            drawn: word.min(u64::from(limit)) as u32,
        }
    }
}
