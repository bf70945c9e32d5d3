//! A request in both encodings of OTLP 1.x, JSON and protobuf: what is written is read as the same request again, whichever
//! way it goes.
//!
//! ```
//! let both = encode_both(alloc, &request)?;
//! ```
#![tactic(auto)]

ghost use Rattle.std.specs.Prelude.{◌≡◌, IfErr, IfOk, None, OnOk};
ghost use Rattle.otlp_json.specs.Writing.{canonical_text};
ghost use Rattle.otlp_protobuf_encode.specs.Faults.{Tells, request_fault};
ghost use Rattle.otlp_protobuf_encode.specs.Writing.{request_bytes};
ghost use Rattle.otlp_agreement.specs.Agreement.{Agree};
ghost use Rattle.otlp_agreement.specs.Shallow.{NestsAsDeep};

pub use otlp_protobuf_encode::EncodeError;
use otlp_types::Request;
use std::alloc::Global;

/// A request in both encodings.
#[derive(Drop)]
pub struct Both {
    /// Its canonical JSON text.
    pub json: Vec<u8>,
    /// Its canonical protobuf bytes.
    pub protobuf: Vec<u8>,
}

/// Writes a request in both encodings, which are read as that same request.
///
/// `NotBase64` and `NotHex` where it has no protobuf bytes, as `otlp_protobuf_encode::encode` tells it.
#[tactic(auto, using(crate::proofs::Shallow::nests_as_deep_lem))]
pub fn encode_both(alloc: Global, request: &Request) -> Result<Both, EncodeError>
    ensures json { IfOk result (λ both. both.json.items ≡ canonical_text request.now) }
    ensures protobuf { IfOk result (λ both. both.protobuf.items ≡ request_bytes request.now) }
    ensures agree { IfOk result (λ both. Agree both.json.items both.protobuf.items request.now) }
    ensures writable { OnOk result (request_fault request.now ≡ None) }
    ensures fault { IfErr result (Tells (request_fault request.now)) }
{
    let json = otlp_json::encode(alloc, request)?;
    let protobuf = otlp_protobuf_encode::encode(alloc, request)?;
    Ok(Both { json, protobuf })
}

/// The JSON of a request whose values nest as deep as protobuf's are read nests as deep as JSON is read.
#[tactic(auto, using(crate::proofs::Shallow::nests_as_deep_lem))]
pub fn nests_as_deep()
    ensures { NestsAsDeep }
{}
