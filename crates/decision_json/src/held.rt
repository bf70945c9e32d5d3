//! What the shards hold of a trace, written.
ghost use Rattle.std.specs.Prelude.{◌≡◌, ◌<◌, ◌^◌, ◌∷◌, [], OnOk, codes};
ghost use Rattle.json.specs.Token.{begin_object, key, string};
ghost use Rattle.json.specs.Tree.{json_tokens};
ghost use Rattle.decision_json.specs.Putting.{IsHeldCounted, IsKnownCounted, PutsAll};
ghost use Rattle.decision_json.specs.Value.{held_value, kept_word, known_value, state_value};
ghost use Rattle.decision_line.specs.Line.{count};
ghost use Rattle.json.specs.Json.{string as text};

use crate::putting::{put_count, put_text};
use crate::words::kept_word;
use decision_line::TraceHeld;
use json::Writer;
use span_ids::Verdict;
use std::alloc::AllocError;

/// Begins an object whose first member is this state.
fn begin_state(writer: &mut Writer, state: &str) -> Result<(), AllocError>
    ensures { PutsAll result writer.old writer.new (begin_object ∷ key (codes "state") ∷ string state.now ∷ []) }
{
    writer.begin_object()?;
    put_text(writer, "state", state)
}

/// Writes that a trace waits since a moment, with so many spans.
fn put_waiting(writer: &mut Writer, since: u64, spans: u64) -> Result<(), AllocError>
    ensures tokens { PutsAll result writer.old writer.new (json_tokens (state_value (codes "waiting") ((codes "since_ms", count since) ∷ (codes "spans", count spans) ∷ []))) }
    ensures range { (since < 2 ^ 64) × (spans < 2 ^ 64) }
{
    begin_state(writer, "waiting")?;
    put_count(writer, "since_ms", since)?;
    put_count(writer, "spans", spans)?;
    writer.end_object()
}

/// Writes that a trace stands so, with a verdict.
fn put_verdict(writer: &mut Writer, state: &str, verdict: Verdict) -> Result<(), AllocError>
    ensures { PutsAll result writer.old writer.new (json_tokens (state_value state.now ((codes "verdict", text (kept_word verdict)) ∷ []))) }
{
    begin_state(writer, state)?;
    put_text(writer, "verdict", kept_word(verdict))?;
    writer.end_object()
}

/// Writes that no shard holds anything of a trace.
fn put_unknown(writer: &mut Writer) -> Result<(), AllocError>
    ensures { PutsAll result writer.old writer.new (json_tokens (state_value (codes "unknown") [])) }
{
    begin_state(writer, "unknown")?;
    writer.end_object()
}

/// Writes what the shards hold of a trace.
fn put_known(writer: &mut Writer, held: TraceHeld) -> Result<(), AllocError>
    ensures tokens { PutsAll result writer.old writer.new (json_tokens (known_value held)) }
    ensures range { OnOk result (IsKnownCounted held) }
{
    match held {
        TraceHeld::Waiting { since, spans } => put_waiting(writer, since, spans),
        TraceHeld::Decided(verdict) => put_verdict(writer, "decided", verdict),
        TraceHeld::Remembered(verdict) => put_verdict(writer, "remembered", verdict),
        TraceHeld::Unknown => put_unknown(writer),
    }
}

/// Writes what the shards hold of a trace, or `null` where they haven't all answered yet.
pub fn put_held(writer: &mut Writer, held: Option<TraceHeld>) -> Result<(), AllocError>
    ensures tokens { PutsAll result writer.old writer.new (json_tokens (held_value held)) }
    ensures range { OnOk result (IsHeldCounted held) }
{
    match held {
        None => writer.null(),
        Some(held) => put_known(writer, held),
    }
}
