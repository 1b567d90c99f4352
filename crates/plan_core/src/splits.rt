//! The regions that a plan splits.

ghost use Rattle.std.specs.Prelude.{◌≡◌, ◌<◌, ◌≤◌, ℕ, None, Some, false, length, slice_index, All, MatchResult};
ghost use Rattle.std.specs.List.{slice_index_or};
ghost use Rattle.audit_model.specs.Below.{above_all, count_below};
ghost use Rattle.audit_model.specs.Meets.{split_of, split_regions, splits_in_all};
ghost use Rattle.plan_core.specs.Splits.{first_split};
ghost use Rattle.audit_model.specs.Limits.{most_regions, most_districts};

use audit_model::fault::PlanFault;

/// The splits of a plan. `splits` is the number of splits in all: the sum, over all regions, of the
/// region's districts less one. `regions` is the number of regions that lie in several districts.
#[derive(Clone, Copy, Drop)]
pub struct Splits {
    pub splits: u32,
    pub regions: u32,
}

/// Returns one more than the greatest number, or 0 for an empty list.
fn above_all(numbers: &[u32]) -> u32
    requires { All (λ n. n < most_regions) numbers.now }
    ensures { result ≡ above_all numbers.now }
{
    let mut above = 0;
    for number in numbers {
        if above <= *number {
            above = *number + 1;
        }
    }
    above
}

fn count_marked(seen: &[bool; 200]) -> u32
    ensures { result ≡ count_below most_districts (λ d. slice_index_or seen.now d false) }
{
    let mut count = 0;
    for place in 0..200usize {
        if seen[place] {
            count += 1;
        }
    }
    count
}

/// Returns the number of districts in which a region has units.
fn split_of(regions: &[u32], plan: &[u32], region: u32) -> u32
    requires lengths { length regions.now ≤ length plan.now }
    requires districts { (u : ℕ) → u < length plan.now → slice_index plan.now u < most_districts }
    ensures split { result ≡ split_of regions.now plan.now region }
    ensures few { result ≤ most_districts }
{
    let mut seen = [false; 200];
    for unit in 0..regions.len() {
        let district = plan[unit] as usize;
        seen[district] = seen[district] || regions[unit] == region;
    }
    count_marked(&seen)
}

/// Counts the splits of a plan. Returns `TooManySplit` with the least region that lies in more than
/// `most` districts, if there is one.
pub fn count_splits(regions: &[u32], plan: &[u32], most: u32) -> Result<Splits, PlanFault>
    requires lengths { length regions.now ≤ length plan.now }
    requires few { All (λ r. r < most_regions) regions.now }
    requires districts { (u : ℕ) → u < length plan.now → slice_index plan.now u < most_districts }
    ensures { MatchResult result (λ counted. (first_split regions.now plan.now most ≡ None)
        × (counted.splits ≡ splits_in_all regions.now plan.now) × (counted.regions ≡ split_regions regions.now plan.now))
        (λ fault. first_split regions.now plan.now most ≡ Some fault) }
{
    let mut splits = 0;
    let mut split = 0;
    for region in 0..above_all(regions) {
        let districts = split_of(regions, plan, region);
        if most < districts {
            return Err(PlanFault::TooManySplit {
                region,
                districts,
                most,
            });
        }
        if 1 < districts {
            splits += districts - 1;
            split += 1;
        }
    }
    Ok(Splits {
        splits,
        regions: split,
    })
}
