//! How many connections each lane has, so that a new one goes to the lane that has the fewest, and what came and went
//! on them.
ghost use Rattle.std.specs.Prelude.{◌≡◌, min};

use crate::traffic::Traffic;
use std::alloc::{AllocError, Global};
use std::sync::Arc;
use std::sync::atomic::{AtomicU64, Ordering};

/// A number for each lane, which that lane writes and all read.
#[derive(Drop)]
pub struct Loads {
    counts: Vec<AtomicU64>,
    /// What came and went on all connections.
    pub traffic: Traffic,
}

impl Loads {
    /// For this number of lanes, none of which has a connection.
    pub fn new(alloc: Global, lanes: usize) -> Result<Self, AllocError> {
        let mut counts = Vec::with_capacity(alloc, lanes)?;
        for _ in 0..lanes {
            counts.push(AtomicU64::new(0))?;
        }
        Ok(Loads {
            counts,
            traffic: Traffic::new(),
        })
    }

    /// The number that the lane has now.
    pub fn set(&self, lane: usize, count: usize) {
        if let Some(it) = self.counts.get(lane) {
            it.store(count as u64, Ordering::SeqCst);
        }
    }

    /// How many all lanes have.
    pub fn sum(&self) -> u64 {
        let mut sum: u64 = 0;
        for it in self.counts.iter() {
            sum = sum.saturating_add(it.load(Ordering::SeqCst));
        }
        sum
    }

    /// The fewest that a lane has.
    pub fn least(&self) -> u64 {
        let mut least = u64::MAX;
        for it in self.counts.iter() {
            least = fewer(least, it.load(Ordering::SeqCst));
        }
        least
    }
}

/// The fewest of some lanes, and of one that has so many more.
fn fewer(least: u64, count: u64) -> u64
    ensures { result ≡ min least count }
{
    least.min(count)
}

/// A lane's share of the connections.
#[derive(Drop)]
pub struct ConnectionShare {
    /// How many may be open at most.
    pub limit: usize,
    /// How many each lane has.
    pub loads: Arc<Loads, Global>,
    /// The lane's number.
    pub lane: usize,
}
