//! What holds of every run of the core. Each function does nothing: its contract is the law.

ghost use Rattle.world_theory.specs.Headline.{OfEachRun};
ghost use Rattle.core_laws.specs.Sums.{AddsUp, AddsUpClosed};
ghost use Rattle.core_laws.specs.Sampled.{SampledComesOut, LateFollowsOut, OnlySampledComesOut, NoneAgainst, AlwaysSampleSamplesAll};
ghost use Rattle.core_laws.specs.Untaken.{UntakenIsCounted};
ghost use Rattle.core_laws.specs.Percentages.{HundredPercentChoosesAll};
ghost use Rattle.core_laws.specs.Bounds.{WaitingTracesAreFew, WaitingBytesAreFew};

/// As many spans were received as wait, were handed over, and are counted under the seven reasons. Once the run is
/// closed none waits.
pub fn counts_add_up()
    ensures always { OfEachRun AddsUp }
    ensures closed { OfEachRun AddsUpClosed }
{}

/// In a closed run each span on which a trace was decided as sampled was handed over, or was given up with its batch:
/// counted under 3 for want of memory, or under 7 where the sink had failed. So was each late span that met such a
/// decision. In every run each span that was handed over is of a trace that was decided as sampled.
pub fn sampled_comes_out()
    ensures decided { OfEachRun SampledComesOut }
    ensures late { OfEachRun LateFollowsOut }
    ensures only { OfEachRun OnlySampledComesOut }
{}

/// In a closed run a received span is counted under 1 exactly where its ids are invalid, and under 2 exactly where they
/// are valid and no shard took it. So each span with valid ids was taken by a shard, or is counted under 2.
pub fn untaken_is_counted()
    ensures { OfEachRun UntakenIsCounted }
{}

/// Where the policies sample all spans whatever a limiter answers, as `always_sample` does, and a trace may have any
/// size, no span is counted under 5 or 6: none is decided against, and no late one meets such a decision.
pub fn always_sample_drops_none()
    ensures none { OfEachRun NoneAgainst }
    ensures always { AlwaysSampleSamplesAll }
{}

/// A `probabilistic` policy of a hundred percent chooses each trace, whatever its id and the salt.
pub fn hundred_percent_chooses_all()
    ensures { HundredPercentChoosesAll }
{}

/// With a limit on traces at most so many wait in a shard. With a maximum size of traces too, the spans that wait in a
/// shard that has nothing to decide have at most so many times that many bytes.
pub fn waiting_is_bounded()
    ensures traces { OfEachRun WaitingTracesAreFew }
    ensures bytes { OfEachRun WaitingBytesAreFew }
{}
