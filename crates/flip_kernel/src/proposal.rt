//! The proposal of a draw: the pair at the place of the draw in its block.

ghost use Rattle.std.specs.Prelude.{◌≡◌, ◌+◌, ◌*◌, ◌/◌, ◌%◌, ◌^◌, ◌<◌, ◌≤◌, cond, None, Some};
ghost use Rattle.audit_model.specs.Proposal.{proposal};
ghost use Rattle.flip_kernel.specs.Blocks.{AreBlocks, place_in};
ghost use Rattle.audit_model.specs.Limits.{most_units, most_districts};

use crate::weight::{largest_change, last_weighed};

/// The pairs of a unit and a district, and the numbers that find the pair of a draw.
#[derive(Drop)]
pub struct Pairs {
    pub districts: u32,
    pub count: u64,
    /// The greatest draw at which a whole block can begin.
    pub last: u64,
    /// 2^64 - 1 divided by `count` and rounded down. With it, `divide` multiplies instead of
    /// dividing.
    pub inverse: u64,
    /// 2^64 - 1 divided by `districts` and rounded down.
    pub district_inverse: u64,
    /// With a weight, the largest change of the number of cut edges in one step.
    pub largest_change: u32,
    /// With a weight, the greatest draw that counts.
    pub last_weighed: u64,
}

impl Pairs {
    /// Computes the numbers for pairs of this many units and districts.
    pub fn of(units: u32, districts: u32) -> Pairs
        requires units { (0 < units) × (units ≤ most_units) }
        requires districts { (0 < districts) × (districts ≤ most_districts) }
        ensures districts { result.districts ≡ districts }
        ensures count { result.count ≡ units * districts }
        ensures blocks { AreBlocks result }
    {
        let count = u64::from(units) * u64::from(districts);
        Pairs {
            districts,
            count,
            last: u64::MAX - (count - 1),
            inverse: u64::MAX / count,
            district_inverse: u64::MAX / u64::from(districts),
            largest_change: largest_change(count),
            last_weighed: last_weighed(count),
        }
    }

    /// Returns the remainder of a draw by `count`: the place of the draw in its block.
    #[inline]
    pub fn rest(&self, draw: u64) -> u64
        requires { AreBlocks self.now }
        ensures { result ≡ draw % self.now.count }
    {
        divide(draw, self.count, self.inverse).1
    }

    /// Returns the quotient of a draw by `count`: the number of whole blocks before its own.
    #[inline]
    pub fn quotient(&self, draw: u64) -> u64
        requires { AreBlocks self.now }
        ensures { result ≡ draw / self.now.count }
    {
        divide(draw, self.count, self.inverse).0
    }

    /// Returns true if a draw with the remainder `rest` lies after the last whole block. Such a
    /// draw proposes nothing.
    #[inline]
    pub fn is_past(&self, draw: u64, rest: u64) -> bool
        requires blocks { AreBlocks self.now }
        requires rest { rest ≡ draw % self.now.count }
        ensures { place_in self.now.count draw ≡ cond result None (Some rest) }
    {
        draw - rest > self.last
    }

    /// Returns the place of a draw in its block, or `None` if the draw lies after the last whole
    /// block.
    #[inline]
    pub fn place(&self, draw: u64) -> Option<u64>
        requires { AreBlocks self.now }
        ensures { result ≡ place_in self.now.count draw }
    {
        let place = self.rest(draw);
        if self.is_past(draw, place) {
            return None;
        }
        Some(place)
    }

    /// Returns the unit and the district of the pair at a place.
    #[inline]
    pub fn at(&self, place: u64) -> (u32, u32)
        requires blocks { AreBlocks self.now }
        requires few { place < 2 ^ 32 }
        ensures { result ≡ (place / self.now.districts, place % self.now.districts) }
    {
        let (unit, district) = divide_small(
            place,
            u64::from(self.districts),
            self.district_inverse,
        );
        (unit as u32, district as u32)
    }
}

/// Returns the quotient and the remainder of a number. `inverse` is 2^64 - 1 divided by `divisor`
/// and rounded down.
///
/// The high half of the product of `number` and `inverse` is the quotient or one less.
#[inline]
fn divide(number: u64, divisor: u64, inverse: u64) -> (u64, u64)
    requires some { 0 < divisor }
    requires enough { inverse * divisor < 2 ^ 64 }
    requires most { 2 ^ 64 ≤ inverse * divisor + divisor }
    ensures { result ≡ (number / divisor, number % divisor) }
{
    let quotient = ((u128::from(number) * u128::from(inverse)) >> 64) as u64;
    let rest = number - quotient * divisor;
    if rest < divisor {
        (quotient, rest)
    } else {
        (quotient + 1, rest - divisor)
    }
}

/// Returns the quotient and the remainder of a small number. `inverse` is 2^64 - 1 divided by
/// `divisor` and rounded down.
///
/// The high half of the product of `number + 1` and `inverse` is the quotient, so nothing is
/// corrected afterwards.
#[inline]
fn divide_small(number: u64, divisor: u64, inverse: u64) -> (u64, u64)
    requires some { 0 < divisor }
    requires small { number * divisor < 2 ^ 64 }
    requires enough { inverse * divisor < 2 ^ 64 }
    requires most { 2 ^ 64 ≤ inverse * divisor + divisor }
    requires next { number + 1 < 2 ^ 64 }
    ensures { result ≡ (number / divisor, number % divisor) }
{
    let quotient = ((u128::from(number + 1) * u128::from(inverse)) >> 64) as u64;
    (quotient, number - quotient * divisor)
}

/// Returns the unit and the district that a draw proposes.
///
/// Draws after the last whole block propose nothing. Each pair is thus proposed by the same number
/// of draws.
#[inline]
pub fn propose(draw: u64, units: u32, districts: u32) -> Option<(u32, u32)>
    requires units { (0 < units) × (units ≤ most_units) }
    requires districts { (0 < districts) × (districts ≤ most_districts) }
    ensures { result ≡ proposal units districts draw }
{
    match Pairs::of(units, districts).place(draw) {
        None => None,
        Some(pair) => {
            let place = pair as u32;
            Some((place / districts, place % districts))
        }
    }
}
