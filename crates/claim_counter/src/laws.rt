//! Laws of the counter's invariant (`EachOnce`), which is about the records of all passes. The laws below call it the
//! *rule*. Each law is the contract of a function with an empty body.
//!
//! The work queue of `tally_desk` has a larger invariant, which contains this rule and is proved with
//! these laws, too.
ghost use Rattle.claim_counter.specs.RecordLaws.{StartIsCounted, NumberKeeps, EndKeeps, SplitKeeps, JoinKeeps, ClaimsAreDrawn, ClaimsDiffer, EndIsTrue, SoleHasAll, CountIsBounded, AllAreOnce, DifferentAreFew};

/// Shows that the rule holds at the start, when one pass has all seats.
pub fn start_is_counted()
    ensures { StartIsCounted }
{}

/// Shows that a draw below the limit keeps the rule, and that no pass had the drawn number before.
pub fn number_keeps()
    ensures { NumberKeeps }
{}

/// Shows that a draw at or above the limit keeps the rule, if the pass had not ended before.
pub fn end_keeps()
    ensures { EndKeeps }
{}

/// Shows that splitting a pass off another keeps the rule.
pub fn split_keeps()
    ensures { SplitKeeps }
{}

/// Shows that joining two passes keeps the rule.
pub fn join_keeps()
    ensures { JoinKeeps }
{}

/// Shows that the claims of all passes together are the drawn numbers, each once.
pub fn claims_are_drawn()
    ensures { ClaimsAreDrawn }
{}

/// Shows that no number belongs to two passes.
pub fn claims_differ()
    ensures { ClaimsDiffer }
{}

/// Shows that no number is left once a pass has ended.
pub fn end_is_true()
    ensures { EndIsTrue }
{}

/// Shows that a pass that has all seats has claimed each drawn number.
pub fn sole_has_all()
    ensures { SoleHasAll }
{}

/// Shows that the number of draws is at most the limit plus the number of seats. The counter's word thus never wraps.
pub fn count_is_bounded()
    ensures { CountIsBounded }
{}

/// Shows that two ways to say "all numbers below a limit, each once" are equivalent.
pub fn all_are_once()
    ensures { AllAreOnce }
{}

/// Shows that a list of distinct numbers below a limit is at most as long as the limit.
pub fn different_are_few()
    ensures { DifferentAreFew }
{}
