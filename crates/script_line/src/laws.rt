//! What lines say when they stand one behind the other, and that connections stay apart.
ghost use Rattle.script_line.specs.Connections.{ConnectionsStayApart};
ghost use Rattle.script_line.specs.Entries.{EntriesReadBack};

/// The lines of requests and ticks, one behind the other, are a script that says just these, in this order, and then its
/// end.
pub fn entries_read_back()
    ensures { EntriesReadBack }
{}

/// Two connections of the same lanes that have one number are one connection.
pub fn connections_stay_apart()
    ensures { ConnectionsStayApart }
{}
