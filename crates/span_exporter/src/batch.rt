//! Arrivals on their way to a line.
ghost use Rattle.std.specs.Prelude.{◌≡◌, ◌+◌, ◌<◌, ◌≤◌, ◌++◌, ◌∷◌, ◌↔◌, [], length, IsTrue, IfOk, OnOk, IfErr, vec_len, vec_capacity};
ghost use Rattle.span_exporter.specs.Batches.{BatchState, IsLineOf, line_records};

use otlp_types::{Arrival, Text};
use released_spans::note_policies;
use std::alloc::{AllocError, Global};
use std::marker::Model;

/// Received spans on their way to the sink, in order, and at most a fixed number of them.
#[derive(Drop)]
pub struct Batch {
    spans: Vec<Arrival>,
    policies: Vec<Option<u16>>,
    size: usize,
}

impl Model for Batch {
    ghost use Rattle.std.specs.Prelude.{◌≡◌, ◌<◌, ◌≤◌, vec_len, vec_capacity};
    ghost use Rattle.std.specs.Coded.{codes};
    ghost use Rattle.otlp_types.specs.contracts.value.AnyValue as any_value;
    ghost use Rattle.span_exporter.specs.Batches.{BatchState};

    ghost Value = { BatchState };

    ghost coded = { Prim.hlevel (codes, any_value.the_row.coded) };

    ghost view = { λ b. record { spans = b.spans.items; policies = b.policies.items; size = b.size } };

    ghost invariant = { λ b. (0 < b.size) × (vec_len b.spans ≤ b.size) × (b.size ≤ vec_capacity b.spans)
        × (vec_len b.policies ≡ vec_len b.spans) × (b.size ≤ vec_capacity b.policies) };
}

impl Batch {
    /// An empty batch that may hold `size` spans. Their room, and that for the policies that decided them, is reserved
    /// here: `Err` where that memory was refused.
    pub fn new(alloc: Global, size: usize) -> Result<Batch, AllocError>
        requires { 0 < size }
        ensures { IfOk result (λ batch. batch ≡ record { spans = []; policies = []; size = size }) }
    {
        let spans = Vec::with_capacity(alloc, size)?;
        let policies = Vec::with_capacity(alloc, size)?;
        Ok(Batch {
            spans,
            policies,
            size,
        })
    }

    /// How many spans it holds.
    pub fn len(&self) -> usize
        ensures len { result ≡ length self.now.spans }
        ensures within { length self.now.spans ≤ self.now.size }
    {
        self.spans.len()
    }

    /// Whether it holds no span.
    pub fn is_empty(&self) -> bool
        ensures none { IsTrue result ↔ (self.now.spans ≡ []) }
        ensures of_none { IsTrue result → self.now.policies ≡ [] }
    {
        self.spans.is_empty()
    }

    /// Whether it holds as many spans as it may.
    pub fn is_full(&self) -> bool
        ensures { IsTrue result ↔ (length self.now.spans ≡ self.now.size) }
    {
        self.len() == self.size
    }

    /// Puts a span last, with the place of the policy that decided it. It is given back, and the batch is as before, exactly where the batch is full. It takes no
    /// memory.
    pub fn add(&mut self, arrival: Arrival, policy: Option<u16>) -> Result<(), Arrival>
        ensures added { OnOk result
            (self.new ≡ record self.old { spans = self.old.spans ++ arrival ∷ []; policies = self.old.policies ++ policy ∷ [] }) }
        ensures room { OnOk result (length self.old.spans < self.old.size) }
        ensures full { IfErr result (λ back. (back ≡ arrival)
            × (length self.old.spans ≡ self.old.size) × (self.new ≡ self.old)) }
    {
        if self.is_full() {
            return Err(arrival);
        }
        put_last(&mut self.spans, arrival);
        put_last(&mut self.policies, policy);
        Ok(())
    }

    /// Moves its spans into their line, and leaves the batch empty, with its room. The line is the canonical text of
    /// the records, each with the name of its policy if there are names, grouped as a request, and one line feed. `Err`
    /// where memory was refused: the spans are gone then too.
    pub fn take_line(&mut self, names: &[Text]) -> Result<Vec<u8>, AllocError>
        ensures line { IfOk result (λ line. IsLineOf (line_records names.now self.old.policies self.old.spans) line.items) }
        ensures emptied { self.new ≡ record { spans = []; policies = []; size = self.old.size } }
    {
        let alloc = *self.spans.allocator();
        let line = line_of(
            alloc,
            names,
            self.policies.as_slice(),
            self.spans.as_mut_slice(),
        );
        // The spans were moved out, also where memory was refused; such a batch is given up (D-016).
        self.drain();
        line
    }

    /// Lets its spans go, and keeps their room.
    pub fn drain(&mut self)
        ensures { self.new ≡ record { spans = []; policies = []; size = self.old.size } }
    {
        self.spans.clear();
        self.policies.clear();
    }
}

/// The line of these spans, which are moved out.
fn line_of(
    alloc: Global,
    names: &[Text],
    policies: &[Option<u16>],
    spans: &mut [Arrival],
) -> Result<Vec<u8>, AllocError>
    requires { length policies.now ≡ length spans.old }
    ensures { IfOk result (λ line. IsLineOf (line_records names.now policies.now spans.old) line.items) }
{
    if !names.is_empty() {
        note_policies(alloc, names, policies, spans)?;
    }
    let request = otlp_flatten::group(alloc, spans)?;
    let mut line = otlp_json::encode(alloc, &request)?;
    line.push(b'\n')?;
    Ok(line)
}

/// Puts something last, where there is room.
fn put_last<T: Drop>(items: &mut Vec<T>, item: T)
    requires { vec_len items.old < vec_capacity items.old }
    ensures items { items.new.items ≡ items.old.items ++ item ∷ [] }
    ensures len { vec_len items.new ≡ vec_len items.old + 1 }
    ensures capacity { vec_capacity items.old ≤ vec_capacity items.new }
{
    if items.push(item).is_err() {
        unreachable!();
    }
}
