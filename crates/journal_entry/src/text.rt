//! A record's text.
ghost use Rattle.std.specs.Prelude.{◌≡◌, ◌≤◌, ◌⊎◌, [], ◌∷◌, true, IfOk, IfErr};
ghost use Rattle.serde_json.specs.Data.{depth};
ghost use Rattle.otlp_json.specs.Writing.{data_of};
ghost use Rattle.otlp_reading.specs.Decoding.{IsRequest};
ghost use Rattle.journal_entry.specs.Bytes.{request_with, text_of};
ghost use Rattle.journal_entry.specs.Reading.{IsTextOf, IsNoText};

use crate::error::EntryError;
use otlp_flatten::flatten;
use otlp_json::{decode, encode};
use otlp_reading::DecodeError;
use otlp_types::{List, Record, Request, ResourceSpans, ScopeSpans, TryClone};
use std::alloc::{AllocError, Global};

/// The request of one record: a copy.
fn request_with(alloc: Global, rec: &Record) -> Result<Request, AllocError>
    ensures { IfOk result (λ request. request ≡ request_with rec.now) }
{
    let mut spans = List::new(alloc);
    spans.push(rec.span.get().try_clone(alloc)?)?;
    let mut scope_spans = List::new(alloc);
    scope_spans.push(ScopeSpans {
        scope: rec.scope.get().try_clone(alloc)?,
        spans,
        schema_url: rec.scope_schema_url.get().try_clone(alloc)?,
    })?;
    let mut resource_spans = List::new(alloc);
    resource_spans.push(ResourceSpans {
        resource: rec.resource.get().try_clone(alloc)?,
        scope_spans,
        schema_url: rec.resource_schema_url.get().try_clone(alloc)?,
    })?;
    Ok(Request { resource_spans })
}

/// The text of a record.
pub(crate) fn text_of(alloc: Global, rec: &Record) -> Result<Vec<u8>, AllocError>
    ensures text { IfOk result (λ text. text.items ≡ text_of rec.now) }
    ensures back { IfOk result (λ text. depth (data_of (request_with rec.now)) ≤ 127 → IsRequest true (text_of rec.now) (request_with rec.now)) }
{
    let request = request_with(alloc, rec)?;
    encode(alloc, &request)
}

/// The record that a text reads as.
pub(crate) fn record_in(alloc: Global, text: &[u8]) -> Result<Record, EntryError>
    ensures ok { IfOk result (λ r. IsTextOf text.now r) }
    ensures err { IfErr result (λ error. (error ≡ EntryError.NoMemory) ⊎ ((error ≡ EntryError.Unreadable) × IsNoText text.now)) }
{
    let request = match decode(alloc, true, text) {
        Ok(request) => request,
        Err(DecodeError::NoMemory) => return Err(EntryError::NoMemory),
        Err(DecodeError::Json | DecodeError::Shape) => return Err(EntryError::Unreadable),
    };
    let mut records = flatten(alloc, request)?;
    match records.pop() {
        Some(rec) if records.is_empty() => Ok(rec),
        _ => Err(EntryError::Unreadable),
    }
}
