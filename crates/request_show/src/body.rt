//! What is read of a body.
ghost use Rattle.std.specs.Prelude.{◌≡◌, ℕ, List, Option, IfOk, Err};
ghost use Rattle.request_show.specs.Body as spec;

use std::alloc::Global;
use std::io::{ErrorKind, Read, Result as IoResult};

/// The longest body that is shown, in bytes: 64 MiB, which is the most that `max_request_mib` allows.
pub const MAX_BODY_LEN: usize = 67_108_864;

/// Why no body was read.
#[derive(Clone, Copy, PartialEq, Eq, Drop)]
pub enum BodyFault {
    /// There was no memory for it.
    NoMemory,
    /// Reading it failed.
    Unreadable,
    /// It has more than 64 MiB.
    TooLong,
}

/// All that a reader has, as a body.
pub fn read_body<R: Read + Drop>(alloc: Global, reader: R) -> Result<Vec<u8>, BodyFault>
    ensures whole { IfOk result (λ body. spec.IsWhole (R.Read.remaining reader) body.items) }
    ensures too_long { result ≡ Err BodyFault.TooLong → spec.IsTooLong (R.Read.remaining reader) }
{
    match read_start(alloc, reader) {
        Ok(body) => within(body),
        Err(error) if error.kind() == ErrorKind::OutOfMemory => Err(BodyFault::NoMemory),
        Err(_) => Err(BodyFault::Unreadable),
    }
}

/// A body, unless it is too long.
#[tactic(auto, using(crate::proofs::Bodies::whole_of, crate::proofs::Bodies::too_long_of))]
fn within(body: Vec<u8>) -> Result<Vec<u8>, BodyFault>
    ensures whole { (remaining : Option (List ℕ)) → spec.IsStart remaining body.items → IfOk result (λ b. spec.IsWhole remaining b.items) }
    ensures too_long { (remaining : Option (List ℕ)) → spec.IsStart remaining body.items → result ≡ Err BodyFault.TooLong → spec.IsTooLong remaining }
{
    if body.len() <= MAX_BODY_LEN {
        Ok(body)
    } else {
        Err(BodyFault::TooLong)
    }
}

/// Reads to the end, or one byte more than may be read.
fn read_start<R: Read + Drop>(alloc: Global, reader: R) -> IoResult<Vec<u8>>
    ensures { IfOk result (λ bytes. spec.IsStart (R.Read.remaining reader) bytes.items) }
{
    let mut bytes = Vec::new(alloc);
    reader
        .take(MAX_BODY_LEN as u64 + 1)
        .read_to_end(&mut bytes)?;
    Ok(bytes)
}
