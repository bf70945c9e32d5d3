//! Which addresses can't be one, whatever the machine has. `serve` and `replay` don't look at them: `tsc validate` tells
//! them.
ghost use Rattle.std.specs.Prelude.{◌≡◌, ◌<◌, IfSome, length};
ghost use Rattle.std.specs.Option.{option_copied};
ghost use Rattle.config_findings.specs.Addresses as spec;

/// Whether a collector can listen at this address, as far as its form tells: `HOST:PORT`, `[IPV6]:PORT` or `:PORT`.
pub fn is_address(text: &[u8]) -> bool
    ensures { result ≡ spec.is_address text.now }
{
    match behind_last(text) {
        Some(port) => is_port(port) && is_host(&text[..text.len() - port.len() - 1]),
        None => false,
    }
}

/// Whether lines can be sent to this host and port, as far as their form tells.
pub fn is_backend(text: &[u8]) -> bool
    ensures { result ≡ spec.is_backend text.now }
{
    match behind_last(text) {
        Some(port) => {
            let host = &text[..text.len() - port.len() - 1];
            // At port 0 the system lets one listen, at a port of its own choice; nothing can be sent there.
            is_port(port) && !are_zeros(port) && !host.is_empty() && is_host(host)
        }
        None => false,
    }
}

/// What stands behind the last colon.
fn behind_last(text: &[u8]) -> Option<&[u8]>
    ensures found { option_copied result ≡ spec.behind_last text.now None }
    ensures shorter { IfSome result (λ port. length port.now < length text.now) }
{
    let mut left = text;
    let mut found: Option<&[u8]> = None;
    while let [first, rest @ ..] = left {
        if *first == b':' {
            found = Some(rest);
        }
        left = rest;
    }
    found
}

/// Whether a text is a port: digits that say a number from 0 to 65535.
fn is_port(text: &[u8]) -> bool
    ensures { result ≡ spec.is_port text.now }
{
    !text.is_empty() && says_port(text)
}

fn says_port(text: &[u8]) -> bool
    ensures { result ≡ spec.says_port 0 text.now }
{
    let mut left = text;
    let mut value = 0u32;
    while let [first, rest @ ..] = left {
        if !first.is_ascii_digit() {
            return false;
        }
        value = value * 10 + u32::from(*first - b'0');
        if value > 65_535 {
            return false;
        }
        left = rest;
    }
    true
}

fn are_zeros(text: &[u8]) -> bool
    ensures { result ≡ spec.are_zeros text.now }
{
    text.iter().all(|byte| *byte == b'0')
}

/// Whether a text is a host: nothing, which is every address of the machine, an address of IPv6, or a name.
fn is_host(text: &[u8]) -> bool
    ensures { result ≡ spec.is_host text.now }
{
    match text {
        [] => true,
        [b'[', rest @ ..] => has_two_colons(text) && is_closed(rest),
        _ => {
            if has_colon(text) {
                has_two_colons(text) && is_plain(text)
            } else {
                is_name(text)
            }
        }
    }
}

fn has_colon(text: &[u8]) -> bool
    ensures { result ≡ spec.has_colon text.now }
{
    let mut left = text;
    while let [first, rest @ ..] = left {
        if *first == b':' {
            return true;
        }
        left = rest;
    }
    false
}

fn has_two_colons(text: &[u8]) -> bool
    ensures { result ≡ spec.has_two_colons text.now }
{
    let mut left = text;
    while let [first, rest @ ..] = left {
        if *first == b':' {
            return has_colon(rest);
        }
        left = rest;
    }
    false
}

/// Whether bytes of an address of IPv6, and of its scope, stand in front of a bracket at the end.
fn is_closed(text: &[u8]) -> bool
    ensures { result ≡ spec.is_closed text.now }
{
    let mut left = text;
    while let [first, rest @ ..] = left {
        if *first == b']' {
            return rest.is_empty();
        }
        if !is_in_address(*first) && *first != b'%' {
            return false;
        }
        left = rest;
    }
    false
}

/// Whether a text has bytes of an address of IPv6, up to a scope's name.
fn is_plain(text: &[u8]) -> bool
    ensures { result ≡ spec.is_plain text.now }
{
    let mut left = text;
    while let [first, rest @ ..] = left {
        if *first == b'%' {
            return true;
        }
        if !is_in_address(*first) {
            return false;
        }
        left = rest;
    }
    true
}

/// Whether a byte stands in addresses of IPv6 (RFC 4291, section 2.2).
fn is_in_address(byte: u8) -> bool
    ensures { result ≡ spec.is_in_address byte }
{
    byte.is_ascii_hexdigit() || byte == b':' || byte == b'.'
}

/// Whether a text is a name, or an address of IPv4.
fn is_name(text: &[u8]) -> bool
    ensures { result ≡ spec.is_name text.now }
{
    // By its bytes alone: what passes here the system may refuse all the same (D-224).
    text.iter().all(|byte| {
        byte.is_ascii_alphanumeric()
            || *byte == b'-'
            || *byte == b'.'
            || *byte == b'_'
            || *byte >= 128
    })
}
