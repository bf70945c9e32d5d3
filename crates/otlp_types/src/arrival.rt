//! Records, arrivals, and what goes through the queues.
ghost use Rattle.std.specs.Prelude.{◌≡◌, IfOk};

use crate::boxed::Boxed;
use crate::list::{Text, TryClone};
use crate::request::{Resource, Scope};
use crate::shared::Shared;
use crate::span::Span;
use span_ids::{ArrivalKey, Moment};
use std::alloc::{AllocError, Global};

/// A span with the resource and the scope that it was sent under, and the schema URLs of both.
///
/// What it was sent under it shares with the other spans of its request. The span lies in memory of its own, so that a
/// record, and each slot of a queue, takes few bytes before a span is there.
#[derive(Drop)]
pub struct Record {
    pub resource: Shared<Resource>,
    pub resource_schema_url: Shared<Text>,
    pub scope: Shared<Scope>,
    pub scope_schema_url: Shared<Text>,
    pub span: Boxed<Span>,
}

/// A received span.
#[derive(Drop)]
pub struct Arrival {
    /// Its place among all received spans.
    pub key: ArrivalKey,
    /// When its request was read, in milliseconds.
    pub moment: Moment,
    /// What was received.
    pub rec: Record,
}

/// What a shard takes.
#[derive(Drop)]
pub enum Item {
    /// A span of one of the shard's traces.
    Span(Arrival),
    /// The present moment, in milliseconds.
    Tick(Moment),
    /// The sender of this number sends nothing more.
    End(u16),
}

impl TryClone for Record {
    fn try_clone(&self, alloc: Global) -> Result<Record, AllocError> {
        Ok(Record {
            resource: self.resource.share()?,
            resource_schema_url: self.resource_schema_url.share()?,
            scope: self.scope.share()?,
            scope_schema_url: self.scope_schema_url.share()?,
            span: Boxed::new(alloc, self.span.get().try_clone(alloc)?)?,
        })
    }
}

impl TryClone for Arrival {
    fn try_clone(&self, alloc: Global) -> Result<Arrival, AllocError> {
        Ok(Arrival {
            key: self.key,
            moment: self.moment,
            rec: self.rec.try_clone(alloc)?,
        })
    }
}
