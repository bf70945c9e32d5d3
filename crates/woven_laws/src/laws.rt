//! What holds of the threads of every run. Each function does nothing: its contract is the law.

ghost use Rattle.woven_laws.specs.Laws.{ThreadsDecideInTime, ThreadsHandOverSampled, ThreadsHandOverNoOther};
ghost use Rattle.woven_laws.specs.Routes.{EachIsTakenByItsShard, TracesStayTogether};

/// Each decision of a shard was made for a cause, at the first of the items that its thread popped at which there was
/// one: at a tick, `decision_wait` after the trace's first span was taken or `root_wait` after a root of it; when its
/// spans had more bytes than a trace may have; or as all senders had ended.
pub fn threads_decide_in_time()
    ensures { ThreadsDecideInTime }
{}

/// Each span on which a shard's thread decided a trace as sampled was handed over, or its batch was given up, for want
/// of memory or because the sink had failed. And each span that was handed over is of a trace that a shard's thread
/// decided so.
pub fn threads_hand_over_what_was_sampled()
    ensures sampled { ThreadsHandOverSampled }
    ensures only { ThreadsHandOverNoOther }
{}

/// Each span that a shard's thread took is of a trace of that shard, by the trace's id alone, on whichever lane it
/// came. So all spans of a trace that are taken are taken by one shard, which decides them together.
pub fn traces_stay_together()
    ensures each { EachIsTakenByItsShard }
    ensures together { TracesStayTogether }
{}
