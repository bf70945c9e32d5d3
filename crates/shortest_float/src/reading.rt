//! Whether a decimal reads as a float.
ghost use Rattle.std.specs.Prelude.{◌≡◌, ◌≤◌, ◌<◌};
ghost use Rattle.shortest_float.specs.Decimals.{reads};

use fast_float::nearest_bits;

/// The largest power of ten of which a multiple is tried, 10 ^ 308: a power stands for 10 ^ (power - 342).
pub(crate) const LARGEST_POWER: u64 = 650;

/// Whether `digits` * 10 ^ (`power` - 342) reads as the float with these bits, which is above 0.
#[inline(always)]
pub(crate) fn reads_as(bits: u64, power: u64, digits: u64) -> bool
    requires { (0 < bits) × (power ≤ 650) }
    ensures { result ≡ reads bits power digits }
{
    digits > 0 && nearest_bits::<f64>(digits, power) == bits
}
