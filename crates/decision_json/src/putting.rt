//! Members of objects, and what became of a trace, written.
ghost use Rattle.std.specs.Prelude.{◌≡◌, ◌<◌, ◌^◌, ◌∷◌, [], OnOk, codes, decimal, map, string_bytes};
ghost use Rattle.json.specs.Token.{begin_object, key, number, string};
ghost use Rattle.json.specs.Tree.{items_tokens, json_tokens};
ghost use Rattle.span_ids.specs.Id.{id_text};
ghost use Rattle.decision_line.specs.Line.{decider_value};
ghost use Rattle.decision_json.specs.Putting.{IsCounted, PutsAll, begun};
ghost use Rattle.decision_json.specs.Value.{answer_items, answer_value, decided_members, evicted_members, news_members, news_value};

use crate::news::TraceNews;
use crate::words::{answer_word, because_word, ended_word, kept_word};
use decision_line::{DecidedTrace, EvictedTrace, Said};
use json::Writer;
use std::alloc::{AllocError, Global};

/// Writes a member whose value is a text.
pub fn put_text(writer: &mut Writer, name: &str, text: &str) -> Result<(), AllocError>
    ensures { PutsAll result writer.old writer.new (key name.now ∷ string text.now ∷ []) }
{
    writer.key(name)?;
    writer.string(text)
}

/// Writes a member whose value is a number.
pub fn put_count(writer: &mut Writer, name: &str, count: u64) -> Result<(), AllocError>
    ensures tokens { PutsAll result writer.old writer.new (key name.now ∷ number (decimal count) ∷ []) }
    ensures range { count < 2 ^ 64 }
{
    writer.key(name)?;
    writer.u64(count)
}

/// Begins an object whose first member is a trace's id, by its bytes.
pub fn begin_trace(writer: &mut Writer, alloc: Global, id: &[u8]) -> Result<(), AllocError>
    ensures { PutsAll result writer.old writer.new (begin_object ∷ key (codes "trace_id") ∷ string (id_text id.now) ∷ []) }
{
    let text = hex::encode(alloc, id)?;
    writer.begin_object()?;
    put_text(writer, "trace_id", text.as_str())
}

/// Writes the policy that decided, or `null`.
fn put_decider(
    writer: &mut Writer,
    names: &[String],
    decider: Option<usize>,
) -> Result<(), AllocError>
    ensures { PutsAll result writer.old writer.new (key (codes "policy") ∷ json_tokens (decider_value (map string_bytes names.now) decider)) }
{
    writer.key("policy")?;
    match decider {
        Some(place) if place < names.len() => writer.string(names[place].as_str()),
        _ => writer.null(),
    }
}

/// Writes a policy, and what it answered.
fn put_answer(writer: &mut Writer, name: &str, said: Said) -> Result<(), AllocError>
    ensures { PutsAll result writer.old writer.new (json_tokens (answer_value name.now said)) }
{
    writer.begin_object()?;
    put_text(writer, "policy", name)?;
    put_text(writer, "answer", answer_word(said))?;
    writer.end_object()
}

/// Writes the policies, each with what it answered, and the end of their array.
fn put_answers(writer: &mut Writer, names: &[String], said: &[Said]) -> Result<(), AllocError>
    ensures { PutsAll result writer.old writer.new (items_tokens (answer_items (map string_bytes names.now) said.now)) }
{
    for (place, name) in names.iter().enumerate() {
        let said = said.get(place).copied().unwrap_or(Said::NotAsked);
        put_answer(writer, name.as_str(), said)?;
    }
    writer.end_array()
}

/// Writes a decided trace, but for the end of its object.
fn begin_decided(
    writer: &mut Writer,
    alloc: Global,
    names: &[String],
    said: &[Said],
    decision: &DecidedTrace,
) -> Result<(), AllocError>
    ensures tokens { PutsAll result writer.old writer.new (begun (decided_members (map string_bytes names.now) said.now decision.now)) }
    ensures range { OnOk result ((decision.now.moment < 2 ^ 64) × (decision.now.spans < 2 ^ 64)) }
{
    begin_trace(writer, alloc, &decision.trace.bytes())?;
    put_text(writer, "state", "decided")?;
    put_count(writer, "decided_ms", decision.moment)?;
    put_text(writer, "verdict", kept_word(decision.verdict))?;
    let because = because_word(decision.decider, decision.cause);
    put_text(writer, "because", because)?;
    put_decider(writer, names, decision.decider)?;
    put_count(writer, "spans", decision.spans)?;
    let waited = decision.moment.saturating_sub(decision.opened);
    put_count(writer, "wait_ms", waited)?;
    put_text(writer, "ended_wait", ended_word(decision.cause))?;
    writer.key("answers")?;
    writer.begin_array()?;
    put_answers(writer, names, said)
}

/// Writes an evicted trace, but for the end of its object.
fn begin_evicted(
    writer: &mut Writer,
    alloc: Global,
    evicted: &EvictedTrace,
) -> Result<(), AllocError>
    ensures tokens { PutsAll result writer.old writer.new (begun (evicted_members evicted.now)) }
    ensures range { OnOk result ((evicted.now.moment < 2 ^ 64) × (evicted.now.spans < 2 ^ 64)) }
{
    begin_trace(writer, alloc, &evicted.trace.bytes())?;
    put_text(writer, "state", "evicted")?;
    put_count(writer, "decided_ms", evicted.moment)?;
    put_count(writer, "spans", evicted.spans)
}

/// Writes what became of a trace, but for the end of its object.
pub fn begin_news(
    writer: &mut Writer,
    alloc: Global,
    names: &[String],
    news: &TraceNews,
) -> Result<(), AllocError>
    ensures tokens { PutsAll result writer.old writer.new (begun (news_members (map string_bytes names.now) news.now)) }
    ensures range { OnOk result (IsCounted news.now) }
{
    match news {
        TraceNews::Decided { trace, said, asked } => {
            let said = said.as_slice();
            let asked = (*asked).min(said.len());
            begin_decided(writer, alloc, names, &said[..asked], trace)
        }
        TraceNews::Evicted(trace) => begin_evicted(writer, alloc, trace),
    }
}

/// Writes what became of a trace.
pub fn put_news(
    writer: &mut Writer,
    alloc: Global,
    names: &[String],
    news: &TraceNews,
) -> Result<(), AllocError>
    ensures tokens { PutsAll result writer.old writer.new (json_tokens (news_value (map string_bytes names.now) news.now)) }
    ensures range { OnOk result (IsCounted news.now) }
{
    begin_news(writer, alloc, names, news)?;
    writer.end_object()
}
