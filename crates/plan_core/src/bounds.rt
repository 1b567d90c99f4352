//! Population bounds.

ghost use Rattle.std.specs.Prelude.{◌≡◌, ◌+◌, ◌-◌, ◌*◌, ◌/◌, ◌^◌, ◌<◌, ◌≤◌, length};
ghost use Rattle.audit_model.specs.Rounded.{quotient_up};
ghost use Rattle.plan_core.specs.Outside.{first_outside};
ghost use Rattle.audit_model.specs.Limits.{most_districts};

use audit_model::fault::PlanFault;

/// Returns the least and the greatest population that the slack allows a district.
///
/// `slack` is in units of 1/10,000 of the ideal population, which is `total / districts`.
pub fn limits_of(total: u64, slack: u32, districts: u32) -> (u64, u64)
    requires total { total ≤ 10 ^ 14 }
    requires slack { slack ≤ 10000 }
    requires districts { (0 < districts) × (districts ≤ most_districts) }
    ensures low { result.0 ≡ quotient_up ((10000 - slack) * total) (10000 * districts) }
    ensures high { result.1 ≡ (10000 + slack) * total / (10000 * districts) }
{
    let parts = 10_000 * u64::from(districts);
    let low = u64::from(10_000 - slack) * total;
    let high = u64::from(10_000 + slack) * total;
    ((low + parts - 1) / parts, high / parts)
}

/// Returns `OutOfBounds` with the least district whose population is below `low` or above `high`.
pub fn first_outside(populations: &[u64], districts: u32, low: u64, high: u64) -> Option<PlanFault>
    requires { districts ≤ length populations.now }
    ensures { result ≡ first_outside populations.now districts low high }
{
    for district in 0..districts {
        let population = populations[district as usize];
        if population < low || high < population {
            return Some(PlanFault::OutOfBounds {
                district,
                population,
                low,
                high,
            });
        }
    }
    None
}
