//! Laws of unions of outcomes. Each law is the contract of a function with an empty body.

ghost use Rattle.outcome_book.specs.Laws.{GroupingDoesNotMatter, ConsistentOutcomesAgree, OrderDoesNotMatter, TwiceChangesNothing, UnionsAreConsistent, UnionsAreOne, UnionsAreRight, UnionsFit};

/// Shows that a union of plausible outcomes is plausible.
pub fn unions_fit()
    ensures { UnionsFit }
{}

/// Shows that the outcomes of one job's trajectories never contradict each other, and that their
/// union is again a list of such outcomes.
///
/// The clauses `agree` and `consistent` are about outcomes with their histograms or without. The
/// clause `right` is about outcomes that have histograms exactly if the job asks for them.
pub fn unions_are_right()
    ensures agree { ConsistentOutcomesAgree }
    ensures consistent { UnionsAreConsistent }
    ensures right { UnionsAreRight }
{}

/// Shows that a union is unique, that lists may be grouped in any way, and that adding a list twice
/// changes nothing. The order of two lists does not matter if they do not contradict each other.
pub fn unions_are_one()
    ensures one { UnionsAreOne }
    ensures order { OrderDoesNotMatter }
    ensures groups { GroupingDoesNotMatter }
    ensures twice { TwiceChangesNothing }
{}
