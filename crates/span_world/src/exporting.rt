//! The steps of the exporter.
ghost use Rattle.std.specs.Prelude.{◌≡◌, IfOk};
ghost use Rattle.journal_theory.specs.Fate.{counts};
ghost use Rattle.world_theory.specs.Step.{ship, pull, hand, fail, drop_batch};
ghost use Rattle.span_world.specs.Answers.{StepsTo};

use crate::lane::dropped;
use crate::step::StepRefusal;
use crate::world::World;
use otlp_types::{Arrival, List};
use shard_journal::DroppedSpan;
use span_ids::Reason;
use std::alloc::{AllocError, Global};
use std::mem;

impl World {
    /// The shard's first unshipped span goes to the exporter.
    pub(crate) fn ship(&mut self, shard: usize) -> Result<(), StepRefusal>
        ensures { StepsTo self.old (ship shard) result self.new }
    {
        if shard >= self.shards.len() || !self.shards[shard].has_unshipped() {
            return Err(StepRefusal::NotEnabled);
        }
        self.exported.try_reserve(1)?;
        self.exported.push_back_reserved(self.shards[shard].ship());
        Ok(())
    }

    /// The exporter's first span goes to the open batch, which has room for it.
    pub(crate) fn pull(&mut self) -> Result<(), StepRefusal>
        ensures { StepsTo self.old pull result self.new }
    {
        if self.exported.is_empty() || self.batch.len() >= self.batch_size {
            return Err(StepRefusal::NotEnabled);
        }
        self.batch.try_reserve(1)?;
        if let Some(span) = self.exported.pop_front() {
            self.batch.push_reserved(span);
        }
        Ok(())
    }

    /// The open batch is handed over.
    pub(crate) fn hand(&mut self) -> Result<(), StepRefusal>
        ensures { StepsTo self.old hand result self.new }
    {
        if self.batch.is_empty() || self.down {
            return Err(StepRefusal::NotEnabled);
        }
        self.handed.try_reserve(1)?;
        let batch = mem::replace(&mut self.batch, Vec::new(self.alloc));
        self.handed.push_reserved(List::from_vec(batch));
        Ok(())
    }

    /// The sink fails, and stays down.
    pub(crate) fn fail(&mut self) -> Result<(), StepRefusal>
        ensures { StepsTo self.old fail result self.new }
    {
        if self.down {
            return Err(StepRefusal::NotEnabled);
        }
        self.down = true;
        Ok(())
    }

    /// The open batch is given up, for want of memory or because the sink is down.
    pub(crate) fn drop_batch(&mut self, reason: Reason) -> Result<(), StepRefusal>
        ensures { StepsTo self.old (drop_batch reason) result self.new }
    {
        let applies = match reason {
            Reason::NoMemory => true,
            Reason::ExporterDown => self.down,
            _ => false,
        };
        if self.batch.is_empty() || !applies {
            return Err(StepRefusal::NotEnabled);
        }
        let mut keys = drops(self.alloc, reason, &self.batch)?;
        self.counted.append(&mut keys)?;
        self.batch.clear();
        Ok(())
    }
}

/// These spans as they are counted under a reason.
fn drops(alloc: Global, reason: Reason, spans: &[Arrival]) -> Result<Vec<DroppedSpan>, AllocError>
    ensures { IfOk result (λ keys. keys.items ≡ counts reason spans.now) }
{
    let mut keys = Vec::with_capacity(alloc, spans.len())?;
    for span in spans {
        keys.push(dropped(reason, span))?;
    }
    Ok(keys)
}
