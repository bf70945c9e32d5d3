//! Where requests go.
ghost use Rattle.std.specs.Prelude.{◌≡◌, ◌++◌, ◌<◌, length, codes, IfSome};

/// The parts of `http://HOST:PORT/PATH` (RFC 9110, section 4.2.1).
#[derive(Clone, Copy)]
pub struct Endpoint<'t> {
    /// The host and the port.
    pub authority: &'t str,
    /// The path, which begins with a slash.
    pub path: &'t str,
}

/// The parts of an address of this form.
pub fn endpoint_of(text: &str) -> Option<Endpoint<'_>>
    ensures parts { IfSome result (λ e. text.now ≡ codes "http://" ++ (e.authority.now ++ e.path.now)) }
{
    let rest = text.strip_prefix("http://")?;
    let at = rest.find('/')?;
    let (authority, path) = rest.split_at(at);
    if authority.is_empty() {
        return None;
    }
    Some(Endpoint { authority, path })
}
