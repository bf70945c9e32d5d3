//! How many records at the head of a list have one resource, or one scope.
ghost use Rattle.std.specs.Prelude.{◌≡◌, ◌<◌, ◌↔◌, ℕ, List, length, IsTrue};
ghost use Rattle.otlp_types.specs.declared.arrival.Record.{Record};
ghost use Rattle.otlp_types.specs.declared.request.Resource.{Resource};
ghost use Rattle.otlp_types.specs.declared.request.Scope.{Scope};
ghost use Rattle.otlp_flatten.specs.Runs.{resource_of, scope_of, IsKeyRun};

use crate::same::Same;
use otlp_types::{Arrival, Record, Span};
use std::alloc::Global;

/// What holds a record.
pub trait HasRecord {
    /// The record that it holds.
    ghost record_in: { Self → Record };

    /// The record that it holds.
    fn rec(&self) -> &Record
        ensures { result.now ≡ record_in self.now };

    /// Moves the record's span out; what it leaves in its place (an empty one) isn't promised. It takes no memory.
    fn take_span(&mut self, alloc: Global) -> Span
        ensures { result ≡ (record_in self.old).span };
}

impl HasRecord for Record {
    ghost record_in = { λ r. r };

    fn rec(&self) -> &Record {
        self
    }

    fn take_span(&mut self, alloc: Global) -> Span {
        self.span.replace(Span::empty(alloc))
    }
}

impl HasRecord for Arrival {
    ghost record_in = { λ a. a.rec };

    fn rec(&self) -> &Record {
        &self.rec
    }

    fn take_span(&mut self, alloc: Global) -> Span {
        self.rec.span.replace(Span::empty(alloc))
    }
}

/// What neighbouring records may have in common.
pub trait SharedPart {
    /// What tells parts apart.
    ghost Key: { Type 0 };

    /// The part of a record.
    ghost part_of: { Record → Key };

    /// Whether two records have the same part.
    fn same(a: &Record, b: &Record) -> bool
        ensures { IsTrue result ↔ (part_of a.now ≡ part_of b.now) };
}

/// The resource and its schema URL.
pub struct ResourcePart;

impl SharedPart for ResourcePart {
    ghost Key = { Resource × List ℕ };

    ghost part_of = { resource_of };

    fn same(a: &Record, b: &Record) -> bool {
        a.resource_schema_url
            .get()
            .same(b.resource_schema_url.get())
            && a.resource.get().same(b.resource.get())
    }
}

/// The scope and its schema URL.
pub struct ScopePart;

impl SharedPart for ScopePart {
    ghost Key = { Scope × List ℕ };

    ghost part_of = { scope_of };

    fn same(a: &Record, b: &Record) -> bool {
        a.scope_schema_url.get().same(b.scope_schema_url.get()) && a.scope.get().same(b.scope.get())
    }
}

/// How many spans at the front have the first one's part.
pub fn run<P: SharedPart, T: HasRecord>(spans: &[T]) -> usize
    requires { 0 < length spans.now }
    ensures { IsKeyRun (λ x. P.part_of (T.record_in x)) spans.now result }
{
    let first = spans[0].rec();
    for i in 1..spans.len() {
        if !P::same(first, spans[i].rec()) {
            return i;
        }
    }
    spans.len()
}
