//! A hash under way.
ghost use Rattle.std.specs.Prelude.{◌≡◌};
ghost use Rattle.std.specs.Int.{w128, to_le_bytes};
ghost use Rattle.trace_hash.specs.Hashing.{fed, hash_by};

use crate::hashing::TraceHashing;
use std::hash::{BuildHasher, FoldHasher, Hasher};

/// A hash under way: it puts the bytes that it is given together, and hashes the last sixteen of them at the end. Of a
/// trace id these are all.
#[derive(Clone, Copy)]
pub struct TraceHasher {
    pub(crate) hashing: TraceHashing,
    /// The last sixteen bytes, the last of them lowest.
    pub(crate) bytes: u128,
}

impl Hasher for TraceHasher {
    ghost write = { fed };

    ghost finish = { λ h. hash_by h.hashing h.bytes };

    #[inline(always)]
    fn write(&mut self, bytes: &[u8]) {
        for byte in bytes {
            self.bytes = self.bytes.wrapping_mul(256).wrapping_add(*byte as u128);
        }
    }

    #[inline(always)]
    fn finish(&self) -> u64 {
        match self.hashing {
            TraceHashing::Fixed => hash_of(FoldHasher::default(), self.bytes),
            TraceHashing::Keyed(key) => hash_of(key.build_hasher(), self.bytes),
        }
    }
}

/// What a hasher makes of these sixteen bytes.
#[inline(always)]
fn hash_of<H: Hasher + Drop>(hasher: H, bytes: u128) -> u64
    ensures { result ≡ H.finish (H.write hasher (to_le_bytes w128 bytes)) }
{
    let mut hasher = hasher;
    hasher.write(&bytes.to_le_bytes());
    hasher.finish()
}
