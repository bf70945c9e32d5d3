//! How many spans an answer says were rejected (OTLP 1.x, `ExportTracePartialSuccess`).
ghost use Rattle.std.specs.Prelude.{◌≡◌, ℕ, List};
ghost use Rattle.serde_json.specs.Data.{number, string, unsigned};
ghost use Rattle.serde_json.specs.View.{view};
ghost use Rattle.protobuf_wire.specs.Seen.{seen_field};
ghost use Rattle.otlp_protobuf.specs.Kinds.{merged};
ghost use Rattle.otlp_encoding.specs.declared.encoding.Encoding.TheVariants.{Protobuf};
ghost use Rattle.post_socket.specs.Rejected as spec;

use otlp_encoding::Encoding;
use protobuf_wire::{Fields, WireFault, WireField, WireValue};
use serde_json::Value;
use std::alloc::Global;

/// One more than the greatest `int64`.
const TOO_MANY: u64 = 0x8000_0000_0000_0000;

/// The spans that the body of an answer in this encoding says were rejected. 0 where there is no such number, where the
/// body is no message, and where there is no memory to read it.
pub fn rejected_in(alloc: Global, encoding: Encoding, body: &[u8]) -> u64
    ensures { encoding ≡ Protobuf → result ≡ spec.rejected_in body.now }
{
    match encoding {
        Encoding::Json => rejected_in_json(alloc, body),
        Encoding::Protobuf => rejected_in_protobuf(body),
    }
}

/// The same of a body in protobuf. A negative number is none.
fn rejected_in_protobuf(body: &[u8]) -> u64
    ensures { result ≡ spec.rejected_in body.now }
{
    match response(body) {
        Ok(number) if number < TOO_MANY => number,
        _ => 0,
    }
}

/// The rejected spans of a response.
fn response(body: &[u8]) -> Result<u64, WireFault>
    ensures { spec.Reads result (merged spec.response_step 0 body.now) }
{
    let mut rejected = 0;
    let mut fields = Fields::of(body);
    'fields: while let Some(field) = fields.next()? {
        rejected = response_with(rejected, field)?;
    }
    Ok(rejected)
}

/// Those of a response that has a field more.
fn response_with(before: u64, field: WireField<'_>) -> Result<u64, WireFault>
    ensures { spec.Reads result (spec.response_step before (seen_field field.entry)) }
{
    match field.value {
        WireValue::Bytes(inside) if field.number == 1 => partial_success(before, inside),
        _ => Ok(before),
    }
}

/// Those of a partial success that begins with this number.
fn partial_success(before: u64, bytes: &[u8]) -> Result<u64, WireFault>
    ensures { spec.Reads result (merged spec.spans_step before bytes.now) }
{
    let mut rejected = before;
    let mut fields = Fields::of(bytes);
    'inside: while let Some(field) = fields.next()? {
        rejected = spans_with(rejected, field);
    }
    Ok(rejected)
}

/// Those of a partial success that has a field more.
fn spans_with(before: u64, field: WireField<'_>) -> u64
    ensures { result ≡ spec.spans_by before (seen_field field.entry).number (seen_field field.entry).value }
{
    match field.value {
        WireValue::Varint(number) if field.number == 1 => number,
        _ => before,
    }
}

/// The number at `partialSuccess.rejectedSpans`, which may stand there as a text, as 64-bit numbers do in the JSON
/// encoding.
fn rejected_in_json(alloc: Global, body: &[u8]) -> u64 {
    if body.is_empty() {
        return 0;
    }
    let Ok(value) = Value::from_slice(alloc, body) else {
        return 0;
    };
    match value.pointer("/partialSuccess/rejectedSpans") {
        Some(told) => number_of(told),
        None => 0,
    }
}

/// The number that a value tells, or the digits of a text; 0: none.
fn number_of(value: &Value) -> u64
    ensures number { (n : ℕ) → view value.now ≡ number (unsigned n) → result ≡ n }
    ensures text { (digits : List ℕ) → view value.now ≡ string digits → spec.IsToldBy digits result }
{
    match value {
        Value::Number(number) => number.as_u64().unwrap_or(0),
        Value::String(text) => text.as_str().parse::<u64>().unwrap_or(0),
        _ => 0,
    }
}
