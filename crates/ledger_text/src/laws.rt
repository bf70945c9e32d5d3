//! That the connections of some runs stay apart in a script.
ghost use Rattle.ledger_text.specs.Connections.{PendingStayApart};

use script_line::connections_stay_apart;

/// Two connections of some runs and the same lanes that have one number are one connection of one run.
pub fn pending_stay_apart()
    ensures { PendingStayApart }
{
    connections_stay_apart();
}
