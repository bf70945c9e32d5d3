//! What holds of the connections of every lane. Each function does nothing: its contract is the law.

ghost use Rattle.connection_laws.specs.Connections.{AreServedByTurns, TurnsAreOnePiece, BytesDecide};

use lane_queue::Port;
use otlp_types::Item;

/// In whatever turns the bytes of a connection came, whenever, and whatever other connections of its lane had in
/// between: what was done for them is what one read of them all brings. Beside it at most a request that took too long
/// was answered, as the last thing.
pub fn connections_in_any_pieces<P: Port<Item>>()
    ensures served { AreServedByTurns P.takes P.refuses }
    ensures one_piece { TurnsAreOnePiece }
{}

/// Two connections, of one lane or of two, that are given the same bytes, and for them the same answers of memory, stop
/// mark, clock, ports, counter and writer, submit the same requests and get the same answers, with the same counts, and
/// end alike: in whatever turns the bytes came, and whatever other connections had in between. Both lanes keep doubles,
/// or both discard them.
pub fn bytes_decide<P: Port<Item>, Q: Port<Item>>()
    ensures { BytesDecide P.takes P.refuses Q.takes Q.refuses }
{}
