//! The head of a request.
ghost use Rattle.std.specs.Prelude.{◌≡◌, IfOk, length};
ghost use Rattle.post_http.specs.Requests.{head_text};
ghost use Rattle.post_http.specs.Answers.{LeadsTo, limits};
ghost use Rattle.http1.specs.Head.{pairs};
ghost use Rattle.http1.specs.Client.{new_client};

use http1::{BodySize, Client, Header, Limits, WriteError};
use std::alloc::Global;

/// What an answer may take at most, in bytes.
const LIMITS: Limits = Limits {
    max_head_len: 65_536,
    max_extensions_len: 16_384,
    max_trailers_len: 16_384,
};

/// The bytes of the head of a request `POST` with a body of so many bytes: its first line, these fields, and the body's
/// length. `Err`: no head can be made of these parts, or there is no memory.
pub fn head_of(
    alloc: Global,
    path: &[u8],
    fields: &[Header<'_>],
    len: usize,
) -> Result<Vec<u8>, WriteError>
    ensures { IfOk result (λ head. head.items ≡ head_text path.now (pairs fields.now) len) }
{
    let mut client = Client::new(LIMITS);
    let mut head = Vec::new(alloc);
    client.write_request(
        &mut head,
        b"POST",
        path,
        fields,
        BodySize::Known(len as u64),
    )?;
    Ok(head)
}

/// A client that has sent a request, so that its answer is due.
pub fn asked(alloc: Global) -> Result<Client, WriteError>
    ensures { IfOk result (LeadsTo (new_client limits)) }
{
    let mut client = Client::new(LIMITS);
    let mut head = Vec::new(alloc);
    let fields = [Header {
        name: b"host",
        value: b"-",
    }];
    client.write_request(&mut head, b"POST", b"/", &fields, BodySize::Empty)?;
    client.write_end(&mut head, &[])?;
    Ok(client)
}
