//! The address that lines are sent to.
ghost use Rattle.std.specs.Prelude.{◌≡◌, ◌<◌, codes, length, take};
ghost use Rattle.std.specs.Str.{bytes_eq};
ghost use Rattle.config_faults.specs.Exports as spec;

/// Whether a text has the form `http://HOST:PORT/PATH`.
pub fn is_endpoint(text: &[u8]) -> bool
    ensures { result ≡ spec.is_endpoint text.now }
{
    text.len() > 7 && begins_so(text) && has_host(&text[7..])
}

fn begins_so(text: &[u8]) -> bool
    requires { 7 < length text.now }
    ensures { result ≡ bytes_eq (take 7 text.now) (codes "http://") }
{
    &text[..7] == b"http://".as_slice()
}

/// Whether something stands in front of the first slash.
fn has_host(text: &[u8]) -> bool
    ensures { result ≡ spec.has_host text.now }
{
    match text {
        [b'/', ..] => false,
        [_, rest @ ..] => has_slash(rest),
        [] => false,
    }
}

fn has_slash(text: &[u8]) -> bool
    ensures { result ≡ spec.has_slash text.now }
{
    let mut left = text;
    while let [first, rest @ ..] = left {
        if *first == b'/' {
            return true;
        }
        left = rest;
    }
    false
}
