//! What holds of every script that is played. Each function does nothing: its contract is the law.

ghost use Rattle.script_laws.specs.Laws.{ScriptsDecideInTime, ScriptsHandOverSampled, ScriptsHandOverNoOther};
ghost use Rattle.script_laws.specs.Windows.{ScriptsGrantInAnyWindow};

/// Each decision of a shard was made for a cause, at the first of the items that it took at which there was one: at a
/// tick, `decision_wait` after the trace's first span was taken or `root_wait` after a root of it; when its spans had
/// more bytes than a trace may have; or as all senders had ended.
pub fn scripts_decide_in_time()
    ensures { ScriptsDecideInTime }
{}

/// Once a script is closed, each span on which a trace was decided as sampled was handed over, or its batch was given
/// up, for want of memory or because the sink had failed. And each span that was handed over is of a trace that was
/// decided so.
pub fn scripts_hand_over_what_was_sampled()
    ensures sampled { ScriptsHandOverSampled }
    ensures only { ScriptsHandOverNoOther }
{}

/// In any T seconds a `bytes_limiting` policy grants to the traces of a script at most its burst and T times its rate,
/// and a `rate_limiting` one at most its limit times T + 1, over all shards. The moments of a script may go back: an
/// asking counts in the greatest second asked up to it at its node.
pub fn scripts_grant_in_any_window()
    ensures { ScriptsGrantInAnyWindow }
{}
