//! What holds of a run of threads and a script whose one shard took the same. The function does nothing: its contract
//! is the law.
ghost use Rattle.agreement_laws.specs.Same.{ServeIsReplay, ItemsDecide};

/// Where the one shard of running threads and that of a script, with the same settings, took the same items in the same
/// order, and its limiter gave the same answers, both decided each trace alike, both released the same spans in the
/// same order, and both count as many spans under each reason. Where no batch was given up, both handed over the same
/// spans in the same order. Where no policy asks a limiter, the same items are enough.
pub fn serve_is_replay()
    ensures same { ServeIsReplay }
    ensures items { ItemsDecide }
{}
