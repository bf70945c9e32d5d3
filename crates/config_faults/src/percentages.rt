//! Percentages, in ten-thousandths of a percent.
ghost use Rattle.std.specs.Prelude.{◌≡◌};
ghost use Rattle.toml.specs.View.{view};
ghost use Rattle.config_faults.specs.Percentages as spec;

use std::num::saturating_f64_to_u32;
use toml::Value;

/// The ten-thousandths of a percent that a value has: a whole number from 0 to 100, or a number between with at most
/// four decimals.
pub fn percentage_of(value: &Value) -> Option<u32>
    ensures { result ≡ spec.percentage_of (view value.now) }
{
    match value {
        Value::Integer(number) if 0 <= *number && *number <= 100 => Some(*number as u32 * 10_000),
        Value::Float(number) => ten_thousandths(*number),
        _ => None,
    }
}

/// The ten-thousandths that a float has, where it is the one nearest to a number with at most four decimals.
#[tactic(auto, unfolding(crate::specs::Percentages::ten_thousandths))]
fn ten_thousandths(percentage: f64) -> Option<u32>
    ensures { result ≡ spec.ten_thousandths percentage }
{
    let ten_thousand = f64::from(10_000u32);
    // Found by a multiplication, and taken where the division gives the very float that was read (D-042).
    let count = saturating_f64_to_u32((percentage * ten_thousand).round());
    if count <= 1_000_000 && f64::from(count) / ten_thousand == percentage {
        Some(count)
    } else {
        None
    }
}
