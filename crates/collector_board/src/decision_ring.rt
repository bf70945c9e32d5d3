//! What became of the last traces, for those who look.
ghost use Rattle.std.specs.Prelude.{◌≡◌, ◌∷◌, take};

use circular_buffer::HeapCircularBuffer;
use crossbeam_queue::ArrayQueue;
use decision_json::TraceNews;
use std::alloc::{AllocError, Global};
use std::sync::{Mutex, Wait};

/// So many decisions are remembered at most.
pub const REMEMBERED: usize = 1_000;

/// What became of the last traces. Shards tell it and never wait for those who look.
#[derive(Drop)]
pub struct DecisionRing {
    /// What nobody has taken yet. Where it is full, the oldest goes.
    told: ArrayQueue<TraceNews>,
    /// What was taken, the newest first. Only those who look wait for one another.
    taken: Mutex<HeapCircularBuffer<TraceNews>>,
}

impl DecisionRing {
    /// Nothing was told.
    pub fn new(alloc: Global) -> Result<Self, AllocError> {
        Ok(DecisionRing {
            told: ArrayQueue::new(alloc, REMEMBERED)?,
            taken: Mutex::new(HeapCircularBuffer::with_capacity(alloc, REMEMBERED)?),
        })
    }

    /// Tells what became of a trace.
    pub fn put<R: Wait>(&self, rt: &R, news: TraceNews) {
        let _oldest = self.told.force_push(rt, news);
    }

    /// What was told last, at most so many, the newest first.
    pub fn newest<R: Wait>(
        &self,
        rt: &R,
        alloc: Global,
        most: usize,
    ) -> Result<Vec<TraceNews>, AllocError> {
        let mut taken = self.taken.lock(rt);
        self.take_all(rt, &mut taken);
        let mut newest = taken.to_vec(alloc)?;
        newest.truncate(most);
        Ok(newest)
    }

    /// Takes what was told, in its order.
    fn take_all<R: Wait>(&self, rt: &R, taken: &mut HeapCircularBuffer<TraceNews>) {
        // No more than waited: shards that go on telling keep nobody here.
        for _ in 0..REMEMBERED {
            let Some(news) = self.told.pop(rt) else {
                return;
            };
            remember(taken, news);
        }
    }
}

/// Puts it in front of what was taken before. Where that is full, the oldest goes.
fn remember(taken: &mut HeapCircularBuffer<TraceNews>, news: TraceNews)
    ensures newest { taken.new.items ≡ take taken.old.capacity (news ∷ taken.old.items) }
    ensures capacity { taken.new.capacity ≡ taken.old.capacity }
{
    let _oldest = taken.push_front(news);
}
