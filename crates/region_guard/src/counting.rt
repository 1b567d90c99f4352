//! Counts of units by region and district, and sums by district.

ghost use Rattle.std.specs.Prelude.{◌≡◌, ℕ, ◌+◌, ◌-◌, ◌*◌, ◌^◌, ◌<◌, ◌≤◌, nat_lt, length, slice_index, slice_set};
ghost use Rattle.audit_model.specs.Below.{above_all, count_below, sum_below};
ghost use Rattle.audit_model.specs.District.{district_sum};
ghost use Rattle.region_guard.specs.Standing.{cell, units_among};
ghost use Rattle.audit_model.specs.Limits.{most_regions, most_districts, most_people, most_units};

use audit_model::lists::{NumList, UnitList};

/// Counts the units of each region in each district. `cells` has `rows` rows of `districts` cells,
/// one row per region.
pub(crate) fn count_units(
    regions: &UnitList,
    plan: &[u32],
    rows: usize,
    districts: usize,
    cells: &mut NumList,
)
    requires lengths { length regions.now ≤ length plan.now }
    requires few_rows { rows ≤ most_regions }
    requires few { districts ≤ most_districts }
    requires places { length cells.old ≡ rows * districts }
    requires regions { (u : ℕ) → u < length regions.now → slice_index regions.now u < rows }
    requires districts { (u : ℕ) → u < length regions.now → slice_index plan.now u < districts }
    ensures places { length cells.new ≡ length cells.old }
    ensures counted { (region district : ℕ) → region < rows → district < districts →
        cell districts cells.new region district ≡ units_among (length regions.now) regions.now plan.now region district }
{
    count_cells(
        regions.as_slice(),
        plan,
        rows,
        districts,
        cells.as_mut_slice(),
    );
}

fn count_cells(regions: &[u32], plan: &[u32], rows: usize, districts: usize, cells: &mut [u64])
    requires lengths { length regions.now ≤ length plan.now }
    requires few_rows { rows ≤ most_regions }
    requires few { districts ≤ most_districts }
    requires places { length cells.old ≡ rows * districts }
    requires regions { (u : ℕ) → u < length regions.now → slice_index regions.now u < rows }
    requires districts { (u : ℕ) → u < length regions.now → slice_index plan.now u < districts }
    ensures { (region district : ℕ) → region < rows → district < districts →
        cell districts cells.new region district ≡ units_among (length regions.now) regions.now plan.now region district }
{
    cells.fill(0);
    let units = regions.len();
    for unit in 0..units {
        cells[regions[unit] as usize * districts + plan[unit] as usize] += 1;
    }
}

/// Counts the districts of each region.
pub(crate) fn count_widths(cells: &NumList, districts: usize, widths: &mut UnitList)
    requires few_rows { length widths.old ≤ most_regions }
    requires few { districts ≤ most_districts }
    requires places { length cells.now ≡ length widths.old * districts }
    ensures places { length widths.new ≡ length widths.old }
    ensures counted { (region : ℕ) → region < length widths.old →
        slice_index widths.new region ≡ count_below districts (λ district. nat_lt 0 (cell districts cells.now region district)) }
{
    count_rows(cells.as_slice(), districts, widths.as_mut_slice());
}

fn count_rows(cells: &[u64], districts: usize, widths: &mut [u32])
    requires few_rows { length widths.old ≤ most_regions }
    requires few { districts ≤ most_districts }
    requires places { length cells.now ≡ length widths.old * districts }
    ensures { (region : ℕ) → region < length widths.old →
        slice_index widths.new region ≡ count_below districts (λ district. nat_lt 0 (cell districts cells.now region district)) }
{
    let rows = widths.len();
    for region in 0..rows {
        widths[region] = width(cells, rows, districts, region);
    }
}

/// Moves one unit from one cell to another. `units` serves the contract only: no count may exceed
/// it.
#[inline]
pub(crate) fn move_unit(cells: &mut NumList, from: usize, to: usize, units: usize)
    requires from { from < length cells.old }
    requires to { to < length cells.old }
    requires some { 1 ≤ slice_index cells.old from }
    requires room { slice_index (slice_set cells.old from (slice_index cells.old from - 1)) to + 1 ≤ units }
    ensures { let less = slice_set cells.old from (slice_index cells.old from - 1) in cells.new ≡ slice_set less to (slice_index less to + 1) }
{
    move_one(cells.as_mut_slice(), from, to, units);
}

#[inline]
fn move_one(cells: &mut [u64], from: usize, to: usize, units: usize)
    requires from { from < length cells.old }
    requires to { to < length cells.old }
    requires some { 1 ≤ slice_index cells.old from }
    requires room { slice_index (slice_set cells.old from (slice_index cells.old from - 1)) to + 1 ≤ units }
    ensures { let less = slice_set cells.old from (slice_index cells.old from - 1) in cells.new ≡ slice_set less to (slice_index less to + 1) }
{
    cells[from] -= 1;
    cells[to] += 1;
}

/// Writes the number of districts of a region.
#[inline]
pub(crate) fn set_width(widths: &mut UnitList, region: usize, width: u32)
    requires region { region < length widths.old }
    ensures { widths.new ≡ slice_set widths.old region width }
{
    write_width(widths.as_mut_slice(), region, width);
}

#[inline]
fn write_width(widths: &mut [u32], region: usize, width: u32)
    requires region { region < length widths.old }
    ensures { widths.new ≡ slice_set widths.old region width }
{
    widths[region] = width;
}

/// Returns the splits in all: the sum over regions of the number of districts less one.
pub(crate) fn count_in_all(widths: &[u32]) -> u32
    requires few_rows { length widths.now ≤ most_regions }
    requires few { (region : ℕ) → region < length widths.now → slice_index widths.now region ≤ most_districts }
    ensures { result ≡ sum_below (length widths.now) (λ region. slice_index widths.now region - 1) }
{
    let mut in_all = 0;
    for width in widths {
        in_all += width.saturating_sub(1);
    }
    in_all
}

/// Returns the number of split regions.
pub(crate) fn count_split(widths: &[u32]) -> u32
    requires few_rows { length widths.now ≤ most_regions }
    ensures { result ≡ count_below (length widths.now) (λ region. nat_lt 1 (slice_index widths.now region)) }
{
    let mut split = 0;
    for width in widths {
        if *width > 1 {
            split += 1;
        }
    }
    split
}

/// Recomputes each district's sum of a column.
pub(crate) fn refill(column: &NumList, plan: &[u32], sums: &mut NumList)
    requires entries { length column.now ≤ length plan.now }
    requires few { length column.now ≤ most_units }
    requires small { (u : ℕ) → u < length column.now → slice_index column.now u ≤ most_people }
    requires districts { (u : ℕ) → u < length plan.now → slice_index plan.now u < length sums.old }
    ensures places { length sums.new ≡ length sums.old }
    ensures added { (district : ℕ) → district < length sums.old → slice_index sums.new district ≡ district_sum column.now plan.now district }
{
    add_up(column.as_slice(), plan, sums.as_mut_slice());
}

fn add_up(column: &[u64], plan: &[u32], sums: &mut [u64])
    requires entries { length column.now ≤ length plan.now }
    requires few { length column.now ≤ most_units }
    requires small { (u : ℕ) → u < length column.now → slice_index column.now u ≤ most_people }
    requires districts { (u : ℕ) → u < length plan.now → slice_index plan.now u < length sums.old }
    ensures { (district : ℕ) → district < length sums.old → slice_index sums.new district ≡ district_sum column.now plan.now district }
{
    sums.fill(0);
    for unit in 0..column.len() {
        sums[plan[unit] as usize] += column[unit];
    }
}

/// Moves a unit's value in `column` from one district's sum to another's.
#[inline]
pub(crate) fn shift(column: &NumList, unit: u32, from: u32, to: u32, sums: &mut NumList)
    requires unit { unit < length column.now }
    requires from { from < length sums.old }
    requires to { to < length sums.old }
    requires some { slice_index column.now unit ≤ slice_index sums.old from }
    requires room { slice_index (slice_set sums.old from (slice_index sums.old from - slice_index column.now unit)) to + slice_index column.now unit < 2 ^ 64 }
    ensures { let amount = slice_index column.now unit in
        let less = slice_set sums.old from (slice_index sums.old from - amount) in sums.new ≡ slice_set less to (slice_index less to + amount) }
{
    let amount = column.as_slice()[unit as usize];
    move_amount(amount, from as usize, to as usize, sums.as_mut_slice());
}

#[inline]
fn move_amount(amount: u64, from: usize, to: usize, sums: &mut [u64])
    requires from { from < length sums.old }
    requires to { to < length sums.old }
    requires some { amount ≤ slice_index sums.old from }
    requires room { slice_index (slice_set sums.old from (slice_index sums.old from - amount)) to + amount < 2 ^ 64 }
    ensures { let less = slice_set sums.old from (slice_index sums.old from - amount) in sums.new ≡ slice_set less to (slice_index less to + amount) }
{
    sums[from] -= amount;
    sums[to] += amount;
}

/// Returns one more than the greatest region number, or 0 without regions.
pub(crate) fn row_count(regions: &[u32]) -> u32
    requires { (u : ℕ) → u < length regions.now → slice_index regions.now u < most_regions }
    ensures { result ≡ above_all regions.now }
{
    let mut rows = 0;
    for region in regions {
        if *region >= rows {
            rows = *region + 1;
        }
    }
    rows
}

/// Returns the number of districts that have units of a region.
fn width(cells: &[u64], rows: usize, districts: usize, region: usize) -> u32
    requires few_rows { rows ≤ most_regions }
    requires few { districts ≤ most_districts }
    requires places { length cells.now ≡ rows * districts }
    requires region { region < rows }
    ensures { result ≡ count_below districts (λ district. nat_lt 0 (cell districts cells.now region district)) }
{
    let mut width = 0;
    for district in 0..districts {
        if cells[region * districts + district] > 0 {
            width += 1;
        }
    }
    width
}
