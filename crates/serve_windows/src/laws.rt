//! What holds of the limiters of every run. The function does nothing: its contract is the law.

ghost use Rattle.serve_windows.specs.Laws.{LimitersGrantInAnyWindow};

/// In any T seconds a `bytes_limiting` policy grants to all shards together at most its burst and T times its rate, and
/// a `rate_limiting` one at most its limit times T + 1: by the one history of its node that has the askings of each
/// shard's decisions. An asking counts in the greatest second asked up to it at its node.
pub fn limiters_grant_in_any_window()
    ensures { LimitersGrantInAnyWindow }
{}
