//! Spans, with their events and links (OTLP 1.x, `trace.proto` v1).
ghost use Rattle.std.specs.Prelude.{◌≡◌, None, IfOk};
ghost use Rattle.otlp_types.specs.Empty.{plain_span};

use crate::list::{List, Text, TryClone, both};
use crate::value::KeyValue;
use span_ids::{SpanId, TraceId};
use std::alloc::{AllocError, Global};

/// The ids of a span, where all of them are valid. A root has no parent.
#[derive(Clone, Copy, PartialEq, Eq)]
pub struct Ids {
    pub trace: TraceId,
    pub span: SpanId,
    pub parent: Option<SpanId>,
}

/// Something that happened during a span (`trace.proto` v1, `Span.Event`).
#[derive(Drop)]
pub struct Event {
    /// Nanoseconds since 1970.
    pub time_unix_nano: u64,
    pub name: Text,
    pub attributes: List<KeyValue>,
    pub dropped_attributes_count: u32,
}

/// A pointer to another span (`trace.proto` v1, `Span.Link`). Its ids are kept as the text that came.
#[derive(Drop)]
pub struct Link {
    pub trace_id: Text,
    pub span_id: Text,
    pub trace_state: Text,
    pub attributes: List<KeyValue>,
    pub dropped_attributes_count: u32,
    pub flags: u32,
}

/// The status of a span (`trace.proto` v1, `Status`).
#[derive(Drop)]
pub struct Status {
    pub message: Text,
    /// 0 unset, 1 ok, 2 error; other numbers are kept.
    pub code: i32,
}

/// One operation of a trace (`trace.proto` v1, `Span`).
#[derive(Drop)]
pub struct Span {
    /// `None` where an id is missing or invalid.
    pub ids: Option<Ids>,
    pub trace_state: Text,
    pub flags: u32,
    pub name: Text,
    /// 0 unspecified, 1 internal, 2 server, 3 client, 4 producer, 5 consumer; other numbers are kept.
    pub kind: i32,
    /// Nanoseconds since 1970.
    pub start_time_unix_nano: u64,
    /// Nanoseconds since 1970.
    pub end_time_unix_nano: u64,
    pub attributes: List<KeyValue>,
    pub dropped_attributes_count: u32,
    pub events: List<Event>,
    pub dropped_events_count: u32,
    pub links: List<Link>,
    pub dropped_links_count: u32,
    pub status: Status,
}

impl Span {
    /// A span of which nothing is told: no ids, and every text and list empty. It takes no memory.
    pub fn empty(alloc: Global) -> Span
        ensures { result ≡ plain_span None 0 0 0 }
    {
        Span {
            ids: None,
            trace_state: Text::new(alloc),
            flags: 0,
            name: Text::new(alloc),
            kind: 0,
            start_time_unix_nano: 0,
            end_time_unix_nano: 0,
            attributes: List::new(alloc),
            dropped_attributes_count: 0,
            events: List::new(alloc),
            dropped_events_count: 0,
            links: List::new(alloc),
            dropped_links_count: 0,
            status: Status {
                message: Text::new(alloc),
                code: 0,
            },
        }
    }
}

impl TryClone for Ids {
    /// It takes no memory.
    fn try_clone(&self, _alloc: Global) -> Result<Ids, AllocError> {
        Ok(*self)
    }
}

impl TryClone for Event {
    fn try_clone(&self, alloc: Global) -> Result<Event, AllocError> {
        let (name, attributes) = both(alloc, &self.name, &self.attributes)?;
        Ok(Event {
            time_unix_nano: self.time_unix_nano,
            name,
            attributes,
            dropped_attributes_count: self.dropped_attributes_count,
        })
    }
}

impl TryClone for Link {
    fn try_clone(&self, alloc: Global) -> Result<Link, AllocError> {
        let (trace_id, span_id) = both(alloc, &self.trace_id, &self.span_id)?;
        let (trace_state, attributes) = both(alloc, &self.trace_state, &self.attributes)?;
        Ok(Link {
            trace_id,
            span_id,
            trace_state,
            attributes,
            dropped_attributes_count: self.dropped_attributes_count,
            flags: self.flags,
        })
    }
}

impl TryClone for Status {
    fn try_clone(&self, alloc: Global) -> Result<Status, AllocError> {
        Ok(Status {
            message: self.message.try_clone(alloc)?,
            code: self.code,
        })
    }
}

impl TryClone for Span {
    fn try_clone(&self, alloc: Global) -> Result<Span, AllocError> {
        let (trace_state, name) = both(alloc, &self.trace_state, &self.name)?;
        let (attributes, events) = both(alloc, &self.attributes, &self.events)?;
        let (links, status) = both(alloc, &self.links, &self.status)?;
        Ok(Span {
            ids: self.ids,
            trace_state,
            flags: self.flags,
            name,
            kind: self.kind,
            start_time_unix_nano: self.start_time_unix_nano,
            end_time_unix_nano: self.end_time_unix_nano,
            attributes,
            dropped_attributes_count: self.dropped_attributes_count,
            events,
            dropped_events_count: self.dropped_events_count,
            links,
            dropped_links_count: self.dropped_links_count,
            status,
        })
    }
}
