//! When a row is added to the history.
ghost use Rattle.std.specs.Prelude.{◌≡◌};
ghost use Rattle.status_json.specs.Due.{is_row_due};

/// How many milliseconds pass between two rows of the history.
pub const HISTORY_PACE: u64 = 10_000;

/// How many rows a history has at most: the caller lets the oldest go where there is one more.
pub const HISTORY_ROWS: usize = 60;

/// Whether a row is to be added now, where the last one was added at a moment, or none was. Moments are milliseconds
/// since 1970. A row that lies ahead, as the wall clock went back, keeps none from being added.
pub fn is_row_due(last: Option<u64>, now: u64) -> bool
    ensures { result ≡ is_row_due last now }
{
    match last {
        Some(at) => now < at || now - at >= HISTORY_PACE,
        None => true,
    }
}
