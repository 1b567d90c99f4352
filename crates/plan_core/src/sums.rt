//! Sums of columns.

ghost use Rattle.std.specs.Prelude.{◌≡◌, ◌+◌, ◌^◌, ◌*◌, ◌<◌, ◌≤◌, ℕ, length, slice_index, All, sum};
ghost use Rattle.audit_model.specs.District.{district_sum};
ghost use Rattle.audit_model.specs.Limits.{IsColumn, most_units, most_people, most_districts};

use audit_model::outcome::Counts;

/// Returns the sum of a column over all units.
pub fn sum_of(column: &[u64]) -> u64
    requires few { length column.now ≤ most_units }
    requires small { All (λ n. n ≤ most_people) column.now }
    ensures { result ≡ sum column.now }
{
    let mut total = 0;
    for number in column {
        total += *number;
    }
    total
}

/// Returns the sum of a column over the units of each district. Districts that the plan does not
/// have get 0.
pub fn district_sums(column: &[u64], plan: &[u32]) -> [u64; 200]
    requires column { IsColumn (length plan.now) column.now }
    requires few { length plan.now ≤ most_units }
    requires districts { (u : ℕ) → u < length plan.now → slice_index plan.now u < most_districts }
    ensures sums { (d : ℕ) → d < most_districts → slice_index result d ≡ district_sum column.now plan.now d }
    ensures small { (d : ℕ) → d < most_districts → slice_index result d ≤ most_people * most_units }
{
    let mut sums = [0; 200];
    for unit in 0..plan.len() {
        let district = plan[unit] as usize;
        sums[district] += column[unit];
    }
    sums
}

/// Returns the votes of both parties in all units.
pub fn sum_votes(counts: &Counts) -> u64
    requires first { (length counts.now.first ≤ most_units) × All (λ n. n ≤ most_people) counts.now.first }
    requires second { (length counts.now.second ≤ most_units) × All (λ n. n ≤ most_people) counts.now.second }
    ensures { result ≡ sum counts.now.first + sum counts.now.second }
{
    sum_of(counts.first.as_slice()) + sum_of(counts.second.as_slice())
}
