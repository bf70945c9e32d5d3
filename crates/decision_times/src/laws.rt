//! When a trace is decided, in every run of the core. Each function does nothing: its contract is the law.

ghost use Rattle.world_theory.specs.Headline.{OfEachRun};
ghost use Rattle.decision_times.specs.Laws.{NeverTooEarly, NeverTooLate, DecidedBeforeNextItem, NothingAfterAllEnds};

/// Each decision of a shard was made for a cause, at the first item at which there was one: at a tick, `decision_wait`
/// after the trace's first span was taken or `root_wait` after a root of it; when its spans had more bytes than a trace
/// may have; or as all senders had ended. It is on just the spans that the trace had then.
pub fn never_too_early()
    ensures { OfEachRun NeverTooEarly }
{}

/// Where a shard has nothing to decide, each trace that waits in it has its time to come: at the last tick less than
/// `decision_wait` had gone by since its first span was taken, and less than `root_wait` since any root of it; its
/// spans don't have more bytes than a trace may have; and not all senders have ended.
pub fn never_too_late()
    ensures { OfEachRun NeverTooLate }
{}

/// A shard that has something to decide takes no item before that is done.
pub fn decided_before_next_item()
    ensures { DecidedBeforeNextItem }
{}

/// A shard takes nothing after the Ends of all its senders.
pub fn nothing_after_all_ends()
    ensures { OfEachRun NothingAfterAllEnds }
{}
