//! The number in a script of a connection of one of some runs.
ghost use Rattle.std.specs.Prelude.{◌≡◌, ◌<◌, ◌%◌, IfSome};
ghost use Rattle.ledger_text.specs.Connections.{pending_number, among_runs};

use script_line::connection_number;
use span_ids::ConnKey;

/// The number in a script of a connection of the run of this number among `runs`, from 0, where there are so many lanes: a
/// script has a connection of this number on the same lane. `None`: it would pass 2^64-1.
pub fn pending_connection(key: ConnKey, run: u64, runs: u64, lanes: u64) -> Option<u64>
    ensures number { IfSome result (λ number. number ≡ pending_number runs lanes run key) }
    ensures lane { key.lane < lanes → IfSome result (λ number. number % lanes ≡ key.lane) }
{
    connection_number(among_runs(key, run, runs)?, lanes)
}

/// The connection as if there were one run, in which the runs took turns.
fn among_runs(key: ConnKey, run: u64, runs: u64) -> Option<ConnKey>
    ensures { IfSome result (λ among. among ≡ among_runs runs run key) }
{
    let ordinal = key.ordinal.checked_mul(runs)?.checked_add(run)?;
    Some(ConnKey {
        lane: key.lane,
        ordinal,
    })
}
