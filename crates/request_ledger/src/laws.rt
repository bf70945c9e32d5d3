//! Laws of the ledger.
ghost use Rattle.request_ledger.specs.Laws.{RecordsReadBack, TurnedByteIsFound};
ghost use Rattle.request_ledger.specs.Pending.{NothingEndsTwice, EndsAllOrNone, EndedStayEnded, OverIsTold, PendingComesAgain, HandedIsOver, CountedIsOver};

/// Records that were put one behind the other are read back in order, whatever stands behind them.
pub fn records_read_back()
    ensures { RecordsReadBack }
{}

/// Where one byte of a record's payload was turned to another value, no record is read there.
pub fn turned_byte_is_found()
    ensures { TurnedByteIsFound }
{}

/// No more spans have ended than the ends say.
pub fn nothing_ends_twice()
    ensures { NothingEndsTwice }
{}

/// Each end ends just as many spans as it says, or none.
pub fn ends_all_or_none()
    ensures { EndsAllOrNone }
{}

/// A span that has ended stays so when more ends follow.
pub fn ended_stay_ended()
    ensures { EndedStayEnded }
{}

/// A trace is left out at the next start only where the ends say of as many spans as it has that they have ended.
pub fn over_is_told()
    ensures { OverIsTold }
{}

/// Nothing is lost: where no more ends were told than spans had one, a trace of which a span has none is received again.
pub fn pending_comes_again()
    ensures { PendingComesAgain }
{}

/// A trace each of whose spans was handed over is left out.
pub fn handed_is_over()
    ensures { HandedIsOver }
{}

/// A trace whose spans were counted is left out.
pub fn counted_is_over()
    ensures { CountedIsOver }
{}
