//! The ways to hash trace ids.
ghost use Rattle.std.specs.Prelude.{◌≡◌, true, IfOk};
ghost use Rattle.trace_hash.specs.Hashing.{is_keyed, started};

use crate::hasher::TraceHasher;
use std::hash::{BuildHasher, RandomState};
use std::io;
use std::random::RandomSource;

/// A way to hash trace ids.
#[derive(Clone, Copy)]
pub enum TraceHashing {
    /// By a fixed function: for ids that nobody chose so that they fall together.
    Fixed,
    /// By SipHash-1-3 with a key.
    Keyed(RandomState),
}

impl TraceHashing {
    /// By a key of 16 bytes from the system's random source. `Err`: it gives none.
    pub fn keyed<R: RandomSource>(rt: &R) -> io::Result<TraceHashing>
        ensures { IfOk result (λ hashing. is_keyed hashing ≡ true) }
    {
        Ok(TraceHashing::Keyed(RandomState::new(rt)?))
    }
}

impl BuildHasher for TraceHashing {
    type Hasher = TraceHasher;

    ghost build_hasher = { started };

    fn build_hasher(&self) -> TraceHasher {
        TraceHasher {
            hashing: *self,
            bytes: 0,
        }
    }
}
