//! Which traces a percentage of all is, by the hashes of their ids.
ghost use Rattle.std.specs.Prelude.{◌≡◌, ◌++◌, fold};
ghost use Rattle.policy_eval.specs.Probabilistic.{hash_byte, fnv_1a, trace_of, threshold, is_chosen};

use otlp_types::Arrival;

/// The hash of no bytes.
const OFFSET_BASIS: u64 = 14_695_981_039_346_656_037;

/// What the hash is multiplied by at each byte.
const PRIME: u64 = 1_099_511_628_211;

/// Whether the trace of the spans is among `ten_thousandths` of a percent of all traces, by the FNV-1a hash of the
/// salt and the trace's id.
#[tactic(auto, unfolding(crate::specs::Probabilistic::is_chosen))]
pub fn is_chosen(salt: &str, ten_thousandths: u32, spans: &[Arrival]) -> bool
    ensures { result ≡ is_chosen salt.now ten_thousandths (trace_of spans.now) }
{
    hash_of(salt, spans) <= threshold(ten_thousandths)
}

/// The greatest hash that is sampled where `ten_thousandths` of a percent are.
fn threshold(ten_thousandths: u32) -> u128
    ensures { result ≡ threshold ten_thousandths }
{
    // Rounded down, in whole numbers; at 0 a hash of 0 still is within it (D-041).
    u128::from(ten_thousandths) * u128::from(u64::MAX) / 1_000_000
}

/// The hash of the salt and the trace's id.
fn hash_of(salt: &str, spans: &[Arrival]) -> u128
    ensures { result ≡ fnv_1a (salt.now ++ trace_of spans.now) }
{
    let salted = hash_on(OFFSET_BASIS, salt.as_bytes());
    // All spans of an episode have one trace id (D-044).
    let hash = match spans.first().and_then(|first| first.rec.span.get().ids) {
        Some(ids) => hash_on(salted, &ids.trace.bytes()),
        None => salted,
    };
    u128::from(hash)
}

/// The hash of bytes that has come so far, with these bytes behind.
fn hash_on(so_far: u64, bytes: &[u8]) -> u64
    ensures { result ≡ fold hash_byte so_far bytes.now }
{
    let mut hash = so_far;
    for byte in bytes {
        hash = (hash ^ u64::from(*byte)).wrapping_mul(PRIME);
    }
    hash
}
