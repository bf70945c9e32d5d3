//! What holds of every run of the core. Each function does nothing: its contract is the law.

ghost use Rattle.world_theory.specs.Headline.{OfEachRun, InOnePlace, PlaceFitsFate, CountedWithCause, InReceivedOrder, MeetsRemembered, OnlyReleased, ShipsOutput, EndsLast, NothingAfterClose, Headline};

/// Received spans are numbered by their connections, each is in one place, and no other span is in any.
pub fn in_one_place()
    ensures { OfEachRun InOnePlace }
{}

/// Each span that a shard took is in the place that its fate gives it.
pub fn place_fits_fate()
    ensures { OfEachRun PlaceFitsFate }
{}

/// A received span that is counted under a reason has that reason's cause.
pub fn counted_with_cause()
    ensures { OfEachRun CountedWithCause }
{}

/// Spans of one connection and trace are handed over in received order.
pub fn in_received_order()
    ensures { OfEachRun (λ c w. InReceivedOrder w) }
{}

/// A span that a shard took while its trace was remembered stands where the remembered verdict puts it, then and ever
/// after, and that verdict is the policies' on the spans that the episode had when it was decided.
pub fn meets_remembered()
    ensures { OfEachRun MeetsRemembered }
{}

/// What was handed over was received as it stands, and its shard's journal releases it.
pub fn only_released()
    ensures { OfEachRun OnlyReleased }
{}

/// What a shard has shipped, followed by what it has still to ship, is what its journal released.
pub fn ships_output()
    ensures { OfEachRun ShipsOutput }
{}

/// A shard that took a lane's End has no span of that lane to come.
pub fn ends_last()
    ensures { OfEachRun (λ c w. EndsLast w) }
{}

/// From a closed world nothing but a failure of the sink is enabled, which changes neither what was handed over nor
/// the counts.
pub fn nothing_after_close()
    ensures { OfEachRun NothingAfterClose }
{}

/// The headline: all of the above holds of every run, for every configuration that keeps a trace, every number of
/// lanes and shards, and every list of steps.
pub fn headline()
    ensures { Headline }
{}
