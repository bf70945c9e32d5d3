//! What a span finds of its trace, by what is noted.
ghost use Rattle.std.specs.Prelude.{◌≡◌};
ghost use Rattle.journal_theory.specs.Journal.{in_buffer, is_in_buffer, cache_size, is_cached, is_remembered, finding};
ghost use Rattle.shard_journal.specs.Settings.{settings_of};
ghost use Rattle.shard_journal.specs.Found.{the_finding};

use crate::noted::{
    Notes, Opening, count_touched, has_opening_at, has_touch_at, last_of, touches_since,
};
use crate::settings::Settings;
use span_ids::{TraceId, Verdict};

/// What a span finds of its trace.
#[derive(Clone, Copy)]
pub enum FoundTrace {
    /// Its trace stands undecided in the buffer: it joins that episode.
    Joins(Opening),
    /// Its trace is remembered, by the verdict of that episode: it is late.
    Meets(Opening, Verdict),
    /// Neither: it opens an episode.
    Opens,
}

/// What a span of this trace finds.
pub fn finding(settings: &Settings, noted: &Notes, trace: TraceId) -> FoundTrace
    ensures { the_finding result ≡ finding (settings_of settings.now) noted.now trace }
{
    let Some(opening) = noted.latest_episode(trace) else {
        return FoundTrace::Opens;
    };
    match noted.decided_as(opening.at()) {
        None => {
            if is_in_buffer(settings, noted, opening.at()) {
                FoundTrace::Joins(opening)
            } else {
                FoundTrace::Opens
            }
        }
        Some(verdict) => {
            if is_remembered(settings, noted, &opening, verdict) {
                FoundTrace::Meets(opening, verdict)
            } else {
                FoundTrace::Opens
            }
        }
    }
}

/// The openings of the episodes in the buffer, the newest first.
pub fn in_buffer<'a>(settings: &Settings, noted: &'a Notes) -> &'a [Opening]
    ensures { result.now ≡ in_buffer (settings_of settings.now) noted.now }
{
    last_of(settings.num_traces, noted.openings())
}

/// Whether the episode that opened at this position is in the buffer.
pub fn is_in_buffer(settings: &Settings, noted: &Notes, opened_at: usize) -> bool
    ensures { result ≡ is_in_buffer (settings_of settings.now) noted.now opened_at }
{
    has_opening_at(in_buffer(settings, noted), opened_at)
}

/// The size of the cache of a verdict.
pub fn cache_size(settings: &Settings, verdict: Verdict) -> usize
    ensures { result ≡ cache_size (settings_of settings.now) verdict }
{
    match verdict {
        Verdict::Sampled => settings.sampled_cache_size,
        Verdict::NotSampled => settings.non_sampled_cache_size,
    }
}

fn is_cached(settings: &Settings, noted: &Notes, opening: &Opening, verdict: Verdict) -> bool
    ensures { result ≡ is_cached (settings_of settings.now) noted.now opening.now verdict }
{
    let touches = noted.touches();
    let since = touches_since(opening.trace(), touches);
    has_touch_at(touches, opening.at())
        && count_touched(verdict, since) < cache_size(settings, verdict)
}

fn is_remembered(settings: &Settings, noted: &Notes, opening: &Opening, verdict: Verdict) -> bool
    ensures { result ≡ is_remembered (settings_of settings.now) noted.now opening.now verdict }
{
    is_in_buffer(settings, noted, opening.at()) || is_cached(settings, noted, opening, verdict)
}
