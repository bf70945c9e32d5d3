//! The lines.
ghost use Rattle.std.specs.Prelude.{◌≡◌, ◌++◌, ◌<◌, codes, false, map, nat_lt, string_bytes, OnErr, OnOk};
ghost use Rattle.json.specs.Print.{print, print_from};
ghost use Rattle.json.specs.Tree.{items_tokens, json_tokens};
ghost use Rattle.decision_line.specs.Appending.{Appends};
ghost use Rattle.decision_line.specs.Line.{ReadsBack, decided_line, decided_value, decider_value, evicted_line, evicted_value, late_line, late_value, policy_items, policy_value};

use crate::decision::{DecidedTrace, EvictedTrace, LateSpans, Said};
use crate::members::{cause_member, said_member, verdict_member};
use crate::putting::{put, put_escaped, put_number, put_trace};
use std::alloc::AllocError;

/// Room for a line but for its policies, in bytes: about 50 of them for the name of the policy that decided.
const LINE_ROOM: usize = 256;

/// Room for a policy in a line but for its name, in bytes.
const POLICY_ROOM: usize = 40;

/// Room for a line whose names need no escapes, in bytes.
fn room(names: &[String]) -> usize {
    let mut room = LINE_ROOM;
    for name in names {
        room = room.saturating_add(POLICY_ROOM).saturating_add(name.len());
    }
    room
}

/// Appends the name of the policy that decided, or `null`.
fn put_decider(
    line: &mut Vec<u8>,
    names: &[String],
    decider: Option<usize>,
) -> Result<(), AllocError>
    ensures { Appends result line.old.items line.new.items
        (codes ",\"policy\":" ++ print (json_tokens (decider_value (map string_bytes names.now) decider))) }
{
    match decider {
        Some(place) if place < names.len() => {
            put_escaped(line, ",\"policy\":\"", names[place].as_str(), "\"")
        }
        _ => put(line, ",\"policy\":null"),
    }
}

/// Appends the policy at a place, and what it said.
fn put_policy(line: &mut Vec<u8>, place: usize, name: &str, said: Said) -> Result<(), AllocError>
    ensures { Appends result line.old.items line.new.items
        (print_from (nat_lt 0 place) (json_tokens (policy_value name.now said))) }
{
    let before = if place == 0 {
        "{\"name\":\""
    } else {
        ",{\"name\":\""
    };
    put_escaped(line, before, name, said_member(said))
}

/// Appends the policies, each with what it said, and the bracket behind them.
fn put_policies(line: &mut Vec<u8>, names: &[String], said: &[Said]) -> Result<(), AllocError>
    ensures { Appends result line.old.items line.new.items
        (print_from false (items_tokens (policy_items (map string_bytes names.now) said.now))) }
{
    for (place, name) in names.iter().enumerate() {
        let said = said.get(place).copied().unwrap_or(Said::NotAsked);
        put_policy(line, place, name.as_str(), said)?;
    }
    put(line, "]")
}

/// Appends the line of a decided trace. An `Err` may leave some of it behind the bytes that were there.
fn append_decided(
    line: &mut Vec<u8>,
    names: &[String],
    said: &[Said],
    decision: &DecidedTrace,
) -> Result<(), AllocError>
    ensures text { Appends result line.old.items line.new.items
        (decided_line (map string_bytes names.now) said.now decision.now) }
    ensures back { OnOk result (ReadsBack (decided_value (map string_bytes names.now) said.now decision.now)) }
{
    put_trace(line, "{\"traceId\":\"", decision.trace)?;
    put_number(line, "\",\"moment\":", decision.moment)?;
    put(line, verdict_member(decision.verdict))?;
    put_decider(line, names, decision.decider)?;
    put_number(line, cause_member(decision.cause), decision.spans)?;
    let waited = decision.moment.saturating_sub(decision.opened);
    put_number(line, ",\"waitedMs\":", waited)?;
    put(line, ",\"policies\":[")?;
    put_policies(line, names, said)?;
    put(line, "}\n")
}

/// Appends the line of a decided trace. `names` are those of all policies, in the configuration's order, and `said` what
/// the first of them said: the others were not asked. It takes memory at most once, but for long names and those with
/// escapes. `Err` where memory was refused: the bytes are as they were.
pub fn put_decided(
    line: &mut Vec<u8>,
    names: &[String],
    said: &[Said],
    decision: &DecidedTrace,
) -> Result<(), AllocError>
    ensures line { OnOk result (line.new.items ≡ line.old.items ++ decided_line (map string_bytes names.now) said.now decision.now) }
    ensures back { OnOk result (ReadsBack (decided_value (map string_bytes names.now) said.now decision.now)) }
    ensures same { OnErr result (line.new.items ≡ line.old.items) }
{
    line.reserve(room(names))?;
    let before = line.len();
    let put = append_decided(line, names, said, decision);
    if put.is_err() {
        line.truncate(before);
    }
    put
}

/// Appends the line of an evicted trace. An `Err` may leave some of it behind the bytes that were there.
fn append_evicted(line: &mut Vec<u8>, evicted: &EvictedTrace) -> Result<(), AllocError>
    ensures text { Appends result line.old.items line.new.items (evicted_line evicted.now) }
    ensures back { OnOk result (ReadsBack (evicted_value evicted.now)) }
{
    put_trace(line, "{\"traceId\":\"", evicted.trace)?;
    put_number(line, "\",\"moment\":", evicted.moment)?;
    put_number(line, ",\"verdict\":\"evicted\",\"spans\":", evicted.spans)?;
    put(line, "}\n")
}

/// Appends the line of an evicted trace. It takes memory at most once. `Err` where memory was refused: the bytes are as
/// they were.
pub fn put_evicted(line: &mut Vec<u8>, evicted: &EvictedTrace) -> Result<(), AllocError>
    ensures line { OnOk result (line.new.items ≡ line.old.items ++ evicted_line evicted.now) }
    ensures back { OnOk result (ReadsBack (evicted_value evicted.now)) }
    ensures same { OnErr result (line.new.items ≡ line.old.items) }
{
    line.reserve(LINE_ROOM)?;
    let before = line.len();
    let put = append_evicted(line, evicted);
    if put.is_err() {
        line.truncate(before);
    }
    put
}

/// Appends the line of late spans. An `Err` may leave some of it behind the bytes that were there.
fn append_late(line: &mut Vec<u8>, late: &LateSpans) -> Result<(), AllocError>
    ensures text { Appends result line.old.items line.new.items (late_line late.now) }
    ensures back { OnOk result (ReadsBack (late_value late.now)) }
{
    put_trace(line, "{\"traceId\":\"", late.trace)?;
    put_number(line, "\",\"moment\":", late.moment)?;
    put(line, verdict_member(late.verdict))?;
    put_number(line, ",\"by\":\"late\",\"spans\":", late.spans)?;
    put(line, "}\n")
}

/// Appends the line of late spans. It takes memory at most once. `Err` where memory was refused: the bytes are as they
/// were.
pub fn put_late(line: &mut Vec<u8>, late: &LateSpans) -> Result<(), AllocError>
    ensures line { OnOk result (line.new.items ≡ line.old.items ++ late_line late.now) }
    ensures back { OnOk result (ReadsBack (late_value late.now)) }
    ensures same { OnErr result (line.new.items ≡ line.old.items) }
{
    line.reserve(LINE_ROOM)?;
    let before = line.len();
    let put = append_late(line, late);
    if put.is_err() {
        line.truncate(before);
    }
    put
}
