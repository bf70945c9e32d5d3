//! What holds of every script of requests and ticks. Each function does nothing: its contract is the law.
ghost use Rattle.record_laws.specs.Recorded.{EachConnectionReceives, AnyOrderWillDo, RecordsReplay};

/// On each connection of a script just the spans of the requests are received that came on it and were read, one
/// request after the other, numbered from 0 on, each with its request's moment; whatever other connections say meanwhile.
pub fn each_connection_receives()
    ensures { EachConnectionReceives }
{}

/// Two scripts in which a connection says the same, in the same order, bring it the same spans, with the same numbers
/// and moments, however its requests stand among those of others; where no memory was refused and no write failed.
pub fn any_order_will_do()
    ensures { AnyOrderWillDo }
{}

/// The lines of what came are such a script: its run receives on each connection the spans of the requests that were
/// recorded of it, in their order; where no memory was refused and no write failed. Each run of a script is a run of
/// the core ([`script_run::scripts_are_runs_of_the_core`]).
pub fn records_replay()
    ensures { RecordsReplay }
{}
