//! Ranks of the start plan.

ghost use Rattle.std.specs.Prelude.{◌≡◌, ◌+◌, ◌-◌, ◌<◌, ◌∷◌, [], slice_index, unsigned_abs};
ghost use Rattle.serial_test.specs.Ranks.{rank_of, ranks_of};

/// Returns the rank for each of the four asks, from the numbers of plans in the tail of both runs.
pub fn ranks(forward: [i64; 4], backward: [i64; 4]) -> [u64; 4]
    ensures { result ≡ ranks_of forward backward }
{
    [
        rank(forward[0], backward[0]),
        rank(forward[1], backward[1]),
        rank(forward[2], backward[2]),
        rank(forward[3], backward[3]),
    ]
}

/// Adds the numbers of plans in the tail of both runs. Both runs count the start plan, so the sum
/// is reduced by one. Past the last ask both numbers are 0, and the rank is 0.
fn rank(forward: i64, backward: i64) -> u64
    ensures { result ≡ rank_of forward backward }
{
    forward.unsigned_abs() + backward.unsigned_abs().saturating_sub(1)
}
