//! The number of a connection in a script.
ghost use Rattle.std.specs.Prelude.{◌≡◌, ◌<◌, ◌%◌, IfSome};
ghost use Rattle.script_line.specs.Connections.{number_of};

use span_ids::ConnKey;

/// The number in a script of a connection, where there are so many lanes: a script has a connection of this number on the
/// same lane. `None`: it would pass 2^64-1.
pub fn connection_number(key: ConnKey, lanes: u64) -> Option<u64>
    ensures number { IfSome result (λ number. number ≡ number_of lanes key) }
    ensures lane { key.lane < lanes → IfSome result (λ number. number % lanes ≡ key.lane) }
{
    // A script's connection lies on the lane of its number modulo the lanes (D-396).
    numbered(key, lanes)
}

/// The connections before it over all lanes, if each lane had as many, and its lane.
fn numbered(key: ConnKey, lanes: u64) -> Option<u64>
    ensures { IfSome result (λ number. number ≡ number_of lanes key) }
{
    key.ordinal
        .checked_mul(lanes)?
        .checked_add(u64::from(key.lane))
}
