//! What a span and an event have, and what they were sent under.
ghost use Rattle.std.specs.Prelude.{◌≡◌, ◌≤◌, length, IsUtf8};
ghost use Rattle.std.specs.Option.{option_copied, option_map};
ghost use Rattle.span_ids.specs.Id.{id_text};
ghost use Rattle.ottl_condition.specs.Values.{value_of, answer_of};
ghost use Rattle.ottl_condition.specs.Subjects.{subject_of};
ghost use Rattle.ottl_condition.specs.Paths as spec;

use crate::eval_error::EvalError;
use crate::subject::Subject;
use crate::value::Value;
use arrayvec::ArrayString;
use hex::encode_to_slice;
use otlp_types::{AnyValue, Ids, KeyValue, Record};
use ottl_equality::pair_of;
use ottl_text::{Key, Path, Root};
use span_ids::{SpanId, TraceId};

/// The digits that stand for no id of a span.
const NO_SPAN: &str = "0000000000000000";

/// The digits that stand for no id of a trace.
const NO_TRACE: &str = "00000000000000000000000000000000";

/// A kind's name; other numbers have none.
fn kind_text(kind: i32) -> &'static str
    ensures { result.now ≡ spec.kind_text kind }
{
    match kind {
        0 => "Unspecified",
        1 => "Internal",
        2 => "Server",
        3 => "Client",
        4 => "Producer",
        5 => "Consumer",
        // A number that isn't known has an empty text (D-300).
        _ => "",
    }
}

/// Hex digits as a text.
fn digits_text(digits: &[u8]) -> ArrayString<32>
    requires short { length digits.now ≤ 32 }
    requires utf8 { IsUtf8 digits.now }
    ensures { result.bytes ≡ digits.now }
{
    match str::from_utf8(digits) {
        Ok(text) => short_text(text),
        Err(_) => unreachable!(),
    }
}

/// A text of at most 32 bytes.
pub(crate) fn short_text(text: &str) -> ArrayString<32>
    requires { length text.now ≤ 32 }
    ensures { result.bytes ≡ text.now }
{
    match ArrayString::from(text) {
        Ok(text) => text,
        Err(_) => unreachable!(),
    }
}

fn trace_digits(id: TraceId) -> ArrayString<32>
    ensures { result.bytes ≡ id_text id }
{
    let mut digits = [b'0'; 32];
    let _written = encode_to_slice(id.bytes(), &mut digits);
    digits_text(&digits)
}

fn span_digits(id: SpanId) -> ArrayString<32>
    ensures { result.bytes ≡ id_text id }
{
    let mut digits = [b'0'; 16];
    let _written = encode_to_slice(id.bytes(), &mut digits);
    digits_text(&digits)
}

/// The parent, where there is one.
fn parent_of(ids: Option<Ids>) -> Option<SpanId>
    ensures { result ≡ spec.parent_of ids }
{
    match ids {
        Some(ids) => ids.parent,
        None => None,
    }
}

/// Whether the span has no parent.
pub(crate) fn is_root(sent: &Record) -> bool
    ensures { result ≡ spec.is_root (spec.parent_of sent.now.span.ids) }
{
    parent_of(sent.span.get().ids).is_none()
}

/// An id of a span as a value; none is zeros.
fn span_id_value<'a, 'r>(id: Option<SpanId>) -> Value<'a, 'r>
    ensures { value_of result ≡ spec.span_id_value id }
{
    match id {
        Some(id) => Value::Digits(span_digits(id)),
        None => Value::Text(NO_SPAN),
    }
}

/// The ids of a span as values; those of none are zeros.
fn id_value<'a, 'r>(root: Root, ids: Option<Ids>) -> Value<'a, 'r>
    ensures { value_of result ≡ spec.id_value root ids }
{
    // A span of which one id isn't valid has none of the three (D-299).
    match (root, ids) {
        (Root::ParentSpanIdText, ids) => span_id_value(parent_of(ids)),
        (Root::SpanIdText, Some(ids)) => Value::Digits(span_digits(ids.span)),
        (Root::SpanIdText, None) => Value::Text(NO_SPAN),
        (_, Some(ids)) => Value::Digits(trace_digits(ids.trace)),
        (_, None) => Value::Text(NO_TRACE),
    }
}

/// The value of a path before its keys: of an event just where one is asked.
fn begun<'a, 'r>(root: Root, subject: &Subject<'a>) -> Value<'a, 'r>
    ensures { value_of result ≡ spec.begun root (subject_of subject.now) }
{
    match (root, subject) {
        (Root::EventName, Subject::Event(_, event)) => Value::Text(event.name.as_str()),
        (Root::EventTime, Subject::Event(_, event)) => {
            Value::Int(event.time_unix_nano.cast_signed())
        }
        (Root::EventMoment, Subject::Event(_, event)) => {
            Value::Time(event.time_unix_nano.cast_signed())
        }
        (Root::EventAttributes, Subject::Event(_, event)) => {
            Value::Map(event.attributes.as_slice())
        }
        (Root::EventDroppedAttributes, Subject::Event(_, event)) => {
            Value::Int(i64::from(event.dropped_attributes_count))
        }
        _ => root_value(root, subject.sent()),
    }
}

/// The pairs with which a path begins, if it begins with some.
pub(crate) fn attributes_at<'a>(root: Root, subject: &Subject<'a>) -> Option<&'a [KeyValue]>
    ensures { option_copied result ≡ spec.pairs_in (spec.begun root (subject_of subject.now)) }
{
    match (root, subject) {
        (Root::Attributes, _) => Some(subject.sent().span.get().attributes.as_slice()),
        (Root::ResourceAttributes, _) => Some(subject.sent().resource.get().attributes.as_slice()),
        (Root::ScopeAttributes, _) => Some(subject.sent().scope.get().attributes.as_slice()),
        (Root::EventAttributes, Subject::Event(_, event)) => Some(event.attributes.as_slice()),
        _ => None,
    }
}

/// What a span has.
fn root_value<'a, 'r>(root: Root, sent: &'a Record) -> Value<'a, 'r>
    ensures { value_of result ≡ spec.root_value root sent.now }
{
    // Times from 2^63 on are negative below, as Go's `int64` is (D-301).
    let span = sent.span.get();
    match root {
        Root::Name => Value::Text(span.name.as_str()),
        Root::Kind => Value::Int(i64::from(span.kind)),
        Root::KindText => Value::Text(kind_text(span.kind)),
        Root::StatusCode => Value::Int(i64::from(span.status.code)),
        Root::StatusMessage => Value::Text(span.status.message.as_str()),
        Root::TraceState => Value::Text(span.trace_state.as_str()),
        Root::TraceIdText | Root::SpanIdText | Root::ParentSpanIdText => id_value(root, span.ids),
        Root::StartTime => Value::Int(span.start_time_unix_nano.cast_signed()),
        Root::EndTime => Value::Int(span.end_time_unix_nano.cast_signed()),
        Root::StartMoment => Value::Time(span.start_time_unix_nano.cast_signed()),
        Root::EndMoment => Value::Time(span.end_time_unix_nano.cast_signed()),
        Root::Attributes => Value::Map(span.attributes.as_slice()),
        Root::DroppedAttributes => Value::Int(i64::from(span.dropped_attributes_count)),
        Root::DroppedEvents => Value::Int(i64::from(span.dropped_events_count)),
        Root::DroppedLinks => Value::Int(i64::from(span.dropped_links_count)),
        _ => outer_value(root, sent),
    }
}

/// The value of a path of what the span was sent under.
fn outer_value<'a, 'r>(root: Root, sent: &'a Record) -> Value<'a, 'r>
    ensures { value_of result ≡ spec.outer_value root sent.now }
{
    let resource = sent.resource.get();
    let scope = sent.scope.get();
    match root {
        Root::ResourceAttributes => Value::Map(resource.attributes.as_slice()),
        Root::ResourceDroppedAttributes => {
            Value::Int(i64::from(resource.dropped_attributes_count))
        }
        Root::ScopeName => Value::Text(scope.name.as_str()),
        Root::ScopeVersion => Value::Text(scope.version.as_str()),
        Root::ScopeAttributes => Value::Map(scope.attributes.as_slice()),
        Root::ScopeDroppedAttributes => Value::Int(i64::from(scope.dropped_attributes_count)),
        _ => Value::Nil,
    }
}

/// The value of the first pair of a key, if there is one.
fn look_up<'a, 'r>(key: &str, pairs: &'a [KeyValue]) -> Option<Value<'a, 'r>>
    ensures { option_map value_of result ≡ spec.look_up key.now pairs.now }
{
    // Of two attributes with one key the first counts (D-309).
    match pair_of(key, pairs) {
        Some(pair) => Some(Value::of_attribute(&pair.value)),
        None => None,
    }
}

/// The value at a place, from 0.
fn value_at<'a, 'r>(place: i64, values: &'a [AnyValue]) -> Option<Value<'a, 'r>>
    ensures { option_map value_of result ≡ spec.value_at place values.now }
{
    if place < 0 {
        return None;
    }
    match values.get(place as usize) {
        Some(value) => Some(Value::of_attribute(value)),
        None => None,
    }
}

/// What a key finds in a value: a map may have nothing under it, a list has to have the place.
fn step_into<'a, 'r>(value: &Value<'a, 'r>, key: &Key) -> Result<Option<Value<'a, 'r>>, EvalError>
    ensures { spec.found_of result ≡ spec.step_into (value_of value.now) key.now }
{
    match (value, key) {
        (Value::Map(pairs), Key::Text(text)) => Ok(look_up(text.as_str(), pairs)),
        (Value::Map(_), Key::Index(_)) => Err(EvalError::KeyIsNoText),
        (Value::List(values), Key::Index(place)) => match value_at(*place, values) {
            Some(value) => Ok(Some(value)),
            None => Err(EvalError::OutOfBounds),
        },
        (Value::List(_), Key::Text(_)) => Err(EvalError::KeyIsNoIndex),
        _ => Err(EvalError::NoKeysInside),
    }
}

/// What keys find, one inside the other.
fn walk<'a, 'r>(value: &Value<'a, 'r>, keys: &[Key]) -> Result<Value<'a, 'r>, EvalError>
    ensures { answer_of result ≡ spec.walk (value_of value.now) keys.now }
{
    match keys.split_first() {
        None => Ok(value.again()),
        Some((first, rest)) => match step_into(value, first) {
            Ok(Some(inside)) => walk(&inside, rest),
            // Behind a missing key every other one is missing, too (D-302).
            Ok(None) => Ok(Value::Nil),
            Err(error) => Err(error),
        },
    }
}

/// What a path finds. (Where one key follows attributes, which is most often so, no map is made a value.)
#[tactic(auto, using(crate::proofs::Comparisons::key_found))]
pub(crate) fn path_on<'a, 'r>(
    subject: &Subject<'a>,
    path: &Path,
) -> Result<Value<'a, 'r>, EvalError>
    ensures { answer_of result ≡ spec.walk (spec.begun path.now.root (subject_of subject.now)) path.now.keys }
{
    match (path.keys.as_slice(), attributes_at(path.root, subject)) {
        ([], _) => Ok(begun(path.root, subject)),
        ([Key::Text(key)], Some(pairs)) => match look_up(key.as_str(), pairs) {
            Some(value) => Ok(value),
            None => Ok(Value::Nil),
        },
        (keys, _) => walk(&begun(path.root, subject), keys),
    }
}
