//! The five scores of a plan, computed from the sums of its districts. A score is a fraction, given
//! by a numerator and a denominator.
#![tactic(auto)]

ghost use Rattle.std.specs.Prelude.{◌≡◌, ◌*◌, ◌+◌, ◌^◌, ◌-◌, ◌/◌, ◌<◌, ◌≤◌, ◌-ℤ◌, pos, length, sum, All};
ghost use Rattle.audit_model.specs.Score as definition;
ghost use Rattle.scores.specs.Votes.{AreShares, AreVotes};
ghost use Rattle.audit_model.specs.Limits.{most_districts};

mod last_plan;
mod median;
mod room;

use audit_model::outcome::SumsView;
use audit_model::setting::Score;
use median::sort_for_median;
pub use room::Room;

const BILLION: u64 = 1_000_000_000;

/// Returns the numerator of a plan's score.
///
/// `room` is scratch memory with at least one entry per district. Its contents afterwards are
/// unspecified.
pub fn value(score: Score, sums: &SumsView, room: &mut [u64]) -> i64
    requires votes { AreVotes sums.now.first sums.now.second }
    requires short { sums.now.length < 2 ^ 63 }
    requires room { length sums.now.first ≤ length room.old }
    ensures { result ≡ definition.value score sums.now }
{
    match score {
        Score::Seats => i64::from(seats(sums)),
        Score::MeanMedian => median_less_mean(sums, room),
        Score::Gap => efficiency_gap(sums),
        Score::CutEdges => i64::from(sums.cut),
        Score::CutLength => sums.length as i64,
    }
}

/// Returns the denominator of a score, which is the same for all plans of a job. `votes` is the
/// total of both parties.
pub fn denominator(score: Score, districts: u32, votes: u64) -> u64
    requires { votes ≤ 2 * 10 ^ 14 }
    ensures value { result ≡ definition.denominator score districts votes }
    ensures signed { result < 2 ^ 63 }
{
    match score {
        Score::Seats => 1,
        Score::MeanMedian => 2 * u64::from(districts) * BILLION,
        Score::Gap => 2 * votes,
        Score::CutEdges => 1,
        Score::CutLength => 1,
    }
}

/// Counts the districts in which the first party has more votes than the second.
#[tactic(auto, using(crate::proofs::Below::count_below_yes, crate::proofs::Below::count_below_no, audit_model::proofs::Below::count_below_zero, audit_model::proofs::Below::count_below_le))]
fn seats(sums: &SumsView) -> u32
    requires { AreVotes sums.now.first sums.now.second }
    ensures { result ≡ definition.seats sums.now }
{
    let first = sums.first.as_slice();
    let second = sums.second.as_slice();
    let mut seats = 0;
    for district in 0..first.len() {
        if first[district] > second[district] {
            seats += 1;
        }
    }
    seats
}

/// Returns twice the difference of wasted votes, the second party's minus the first party's.
/// Without the factor two, the value could be half an integer.
#[tactic(auto, using(crate::proofs::Below::sum_below_more))]
fn efficiency_gap(sums: &SumsView) -> i64
    requires { AreVotes sums.now.first sums.now.second }
    ensures { result ≡ definition.efficiency_gap sums.now }
{
    let first = sums.first.as_slice();
    let second = sums.second.as_slice();
    let mut first_wasted = 0;
    let mut second_wasted = 0;
    for district in 0..first.len() {
        if first[district] > second[district] {
            first_wasted += first[district] - second[district];
            second_wasted += 2 * second[district];
        } else {
            first_wasted += 2 * first[district];
            second_wasted += second[district] - first[district];
        }
    }
    second_wasted as i64 - first_wasted as i64
}

/// Returns the median share minus the mean share, in billionths, times twice the number of
/// districts. With one or two districts, median and mean are equal and no share is computed.
fn median_less_mean(sums: &SumsView, room: &mut [u64]) -> i64
    requires votes { AreVotes sums.now.first sums.now.second }
    requires room { length sums.now.first ≤ length room.old }
    ensures { result ≡ definition.mean_median (definition.shares sums.now) }
{
    if sums.first.len() <= 2 {
        return 0;
    }
    let shares = &mut room[..sums.first.len()];
    write_shares(sums, shares);
    mean_median(shares)
}

/// Writes the first party's share of the votes in each district, in billionths.
#[tactic(auto, using(crate::proofs::Below::map_below_more))]
fn write_shares(sums: &SumsView, shares: &mut [u64])
    requires votes { AreVotes sums.now.first sums.now.second }
    requires room { length shares.old ≡ length sums.now.first }
    ensures { shares.new ≡ definition.shares sums.now }
{
    let first = sums.first.as_slice();
    let second = sums.second.as_slice();
    for district in 0..first.len() {
        shares[district] = share(first[district], second[district]);
    }
}

/// Returns the first party's share of the votes in billionths, rounded down, or one half if there
/// are no votes. Nearly all counts are small enough for the 64-bit division, which is much faster
/// than the one with 128 bits.
fn share(first: u64, second: u64) -> u64
    requires { first + second < 2 ^ 64 }
    ensures { result ≡ definition.share first second }
{
    let all = first + second;
    if all == 0 {
        BILLION / 2
    } else if first <= u64::MAX / BILLION {
        first * BILLION / all
    } else {
        (u128::from(first) * u128::from(BILLION) / u128::from(all)) as u64
    }
}

/// Returns the median share minus the mean share, in billionths, times twice the number of
/// districts. Sorts the shares.
fn mean_median(shares: &mut [u64]) -> i64
    requires { AreShares shares.old }
    ensures { result ≡ definition.mean_median shares.old }
{
    let all = total(shares);
    let districts = shares.len() as u64;
    difference(districts, sort_for_median(shares), all)
}

/// Returns the median minus the mean, times twice the number of districts, from twice the median
/// and the total of the shares.
#[inline]
fn difference(districts: u64, twice: u64, all: u64) -> i64
    requires few { districts ≤ 200 }
    requires median { twice ≤ 2 * 10 ^ 9 }
    requires total { all ≤ 200 * 10 ^ 9 }
    ensures { result ≡ pos (districts * twice) -ℤ pos (2 * all) }
{
    (districts * twice) as i64 - (2 * all) as i64
}

fn total(shares: &[u64]) -> u64
    requires { AreShares shares.now }
    ensures value { result ≡ sum shares.now }
    ensures small { result ≤ 200 * 10 ^ 9 }
{
    let mut total = 0;
    for share in shares {
        total += share;
    }
    total
}
