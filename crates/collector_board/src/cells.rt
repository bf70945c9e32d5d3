//! What is told of a shard and of a policy while a run goes on.
use metrics_text::PolicyNumbers;
use otlp_types::{Text, TryClone};
use policy_tree::Policies;
use std::alloc::{AllocError, Global};
use std::sync::atomic::{AtomicU64, Ordering};

/// What a shard told last of what it holds.
#[derive(Drop)]
pub struct ShardCells {
    pub queued: AtomicU64,
    pub traces: AtomicU64,
    pub spans: AtomicU64,
    pub waited: AtomicU64,
}

impl ShardCells {
    /// It holds nothing.
    pub fn new() -> Self {
        ShardCells {
            queued: AtomicU64::new(0),
            traces: AtomicU64::new(0),
            spans: AtomicU64::new(0),
            waited: AtomicU64::new(0),
        }
    }
}

/// What a policy decided so far, by its name.
#[derive(Drop)]
pub struct PolicyCells {
    pub name: Text,
    pub sampled: AtomicU64,
    pub not_sampled: AtomicU64,
}

impl PolicyCells {
    /// It decided nothing.
    pub fn new(name: Text) -> Self {
        PolicyCells {
            name,
            sampled: AtomicU64::new(0),
            not_sampled: AtomicU64::new(0),
        }
    }

    /// What it decided. One without a name is told by its place, if it has one: no two samples may have the same labels
    /// (D-434).
    pub fn numbers(
        &self,
        alloc: Global,
        place: Option<usize>,
    ) -> Result<PolicyNumbers, AllocError> {
        let name = self.name.try_clone(alloc)?;
        let place = if name.as_str().is_empty() {
            place
        } else {
            None
        };
        Ok(PolicyNumbers {
            name,
            place,
            sampled: self.sampled.load(Ordering::Relaxed),
            not_sampled: self.not_sampled.load(Ordering::Relaxed),
        })
    }
}

/// Cells for what no policy decides, and then for what each does, in order.
pub fn policy_cells(alloc: Global, policies: &Policies) -> Result<Vec<PolicyCells>, AllocError> {
    let mut cells = Vec::new(alloc);
    // For what no policy decides, such as a trace that is too big (D-040, D-066).
    cells.push(PolicyCells::new(Text::new(alloc)))?;
    for policy in policies.as_slice() {
        cells.push(PolicyCells::new(policy.name.try_clone(alloc)?))?;
    }
    Ok(cells)
}
