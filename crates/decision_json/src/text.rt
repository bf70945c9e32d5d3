//! The texts.
ghost use Rattle.std.specs.Prelude.{◌≡◌, ◌<◌, ◌^◌, ◌++◌, [], codes, map, string_bytes, IfOk, IfSome, OnOk, option_copied};
ghost use Rattle.json.specs.Print.{print};
ghost use Rattle.json.specs.Tree.{items_tokens, json_tokens};
ghost use Rattle.decision_line.specs.Line.{ReadsBack, line_of};
ghost use Rattle.decision_json.specs.News.{newest_of};
ghost use Rattle.decision_json.specs.Putting.{AreCounted, IsCounted, IsHeldCounted, PutsAll, begun};
ghost use Rattle.decision_json.specs.Value.{decisions_value, found_members, news_items, told_value, trace_value};

use crate::held::put_held;
use crate::news::TraceNews;
use crate::putting::{begin_news, begin_trace, put_count, put_news, put_text};
use decision_line::TraceHeld;
use json::Writer;
use std::alloc::{AllocError, Global};

/// Writes what became of each trace, and the end of their array.
fn put_all(
    writer: &mut Writer,
    alloc: Global,
    names: &[String],
    news: &[TraceNews],
) -> Result<(), AllocError>
    ensures tokens { PutsAll result writer.old writer.new (items_tokens (news_items (map string_bytes names.now) news.now)) }
    ensures range { OnOk result (AreCounted news.now) }
{
    for one in news {
        put_news(writer, alloc, names, one)?;
    }
    writer.end_array()
}

/// Writes what became of the last traces.
fn put_decisions(
    writer: &mut Writer,
    alloc: Global,
    now: u64,
    remembers: u64,
    names: &[String],
    news: &[TraceNews],
) -> Result<(), AllocError>
    ensures tokens { PutsAll result writer.old writer.new (json_tokens (decisions_value now remembers (map string_bytes names.now) news.now)) }
    ensures range { OnOk result ((now < 2 ^ 64) × (remembers < 2 ^ 64) × AreCounted news.now) }
{
    writer.begin_object()?;
    put_count(writer, "now_ms", now)?;
    put_count(writer, "remembers", remembers)?;
    writer.key("decisions")?;
    writer.begin_array()?;
    put_all(writer, alloc, names, news)?;
    writer.end_object()
}

/// Writes what became of the trace with this id, if that is known, but for the end of its object.
fn begin_found(
    writer: &mut Writer,
    alloc: Global,
    names: &[String],
    id: &[u8],
    found: Option<&TraceNews>,
) -> Result<(), AllocError>
    ensures tokens { PutsAll result writer.old writer.new (begun (found_members (map string_bytes names.now) id.now (option_copied found.entry))) }
    ensures range { OnOk result (IfSome (option_copied found.entry) IsCounted) }
{
    if let Some(news) = found {
        return begin_news(writer, alloc, names, news);
    }
    begin_trace(writer, alloc, id)?;
    put_text(writer, "state", "unknown")
}

/// Writes what became of the trace with this id, if that is known, and what the shards hold of it.
fn put_told(
    writer: &mut Writer,
    alloc: Global,
    names: &[String],
    id: &[u8],
    found: Option<&TraceNews>,
    held: Option<TraceHeld>,
) -> Result<(), AllocError>
    ensures tokens { PutsAll result writer.old writer.new (json_tokens (told_value (map string_bytes names.now) id.now (option_copied found.entry) held)) }
    ensures range { OnOk result (IfSome (option_copied found.entry) IsCounted × IsHeldCounted held) }
{
    begin_found(writer, alloc, names, id, found)?;
    writer.key("held")?;
    put_held(writer, held)?;
    writer.end_object()
}

/// What became at last of the trace with this id, of what is told, the newest first.
fn newest_of<'a>(id: &[u8], news: &'a [TraceNews]) -> Option<&'a TraceNews>
    ensures { option_copied result ≡ newest_of id.now news.now }
{
    news.iter().find(|one| one.is_of(id))
}

/// What was written, as a line.
fn line_of(writer: Writer) -> Result<String, AllocError>
    requires { writer.before ≡ [] }
    ensures { IfOk result (λ text. string_bytes text ≡ print writer.tokens ++ codes "\n") }
{
    let Ok(mut text) = String::from_utf8(writer.into_inner()) else {
        unreachable!()
    };
    text.push('\n')?;
    Ok(text)
}

/// What became of the last traces, in the order in which they are given, at this moment, in milliseconds since 1970, of
/// `remembers` that are remembered at most: one line of JSON with no blanks. `names` are those of all policies, in the
/// configuration's order.
pub fn decisions_text(
    alloc: Global,
    now: u64,
    remembers: u64,
    names: &[String],
    news: &[TraceNews],
) -> Result<String, AllocError>
    ensures text { IfOk result (λ text. string_bytes text ≡ line_of (decisions_value now remembers (map string_bytes names.now) news.now)) }
    ensures back { OnOk result (ReadsBack (decisions_value now remembers (map string_bytes names.now) news.now)) }
{
    let mut writer = Writer::new(Vec::new(alloc));
    put_decisions(&mut writer, alloc, now, remembers, names, news)?;
    line_of(writer)
}

/// What became at last of the trace whose id has these bytes, of what is remembered, the newest first, or that nothing was
/// told of it; and what the shards hold of it, once they have answered: one line of JSON with no blanks.
pub fn trace_text(
    alloc: Global,
    names: &[String],
    id: &[u8; 16],
    news: &[TraceNews],
    held: Option<TraceHeld>,
) -> Result<String, AllocError>
    ensures text { IfOk result (λ text. string_bytes text ≡ line_of (trace_value (map string_bytes names.now) id.now news.now held)) }
    ensures back { OnOk result (ReadsBack (trace_value (map string_bytes names.now) id.now news.now held)) }
{
    let mut writer = Writer::new(Vec::new(alloc));
    put_told(&mut writer, alloc, names, id, newest_of(id, news), held)?;
    line_of(writer)
}
