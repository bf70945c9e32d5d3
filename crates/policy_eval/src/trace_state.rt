//! The members of a trace state (W3C Trace Context, section 3.3).
ghost use Rattle.std.specs.Prelude.{◌≡◌, ◌==◌, ◌<◌, position, length, reverse, IfSome};
ghost use Rattle.policy_eval.specs.TraceState as spec;

use otlp_types::Text;

/// Whether the trace state has a member of this key with one of these values.
pub fn has_member(key: &str, values: &[Text], trace_state: &str) -> bool
    ensures { result ≡ spec.has_member key.now values.now trace_state.now }
{
    // A member counts wherever it stands, also in a list that the W3C doesn't allow (D-050).
    let mut rest = trace_state.as_bytes();
    'members: loop {
        match comma_at(rest) {
            Some(at) => {
                if is_member(key, values, trim(&rest[..at])) {
                    return true;
                }
                rest = &rest[at + 1..];
            }
            None => return is_member(key, values, trim(rest)),
        }
    }
}

/// The place of the first comma.
fn comma_at(text: &[u8]) -> Option<usize>
    ensures place { result ≡ position (λ b. b == spec.comma) text.now }
    ensures within { IfSome result (λ at. at < length text.now) }
{
    text.iter().position(|byte| *byte == b',')
}

/// The place of the first `=`.
fn equals_sign_at(text: &[u8]) -> Option<usize>
    ensures place { result ≡ position (λ b. b == spec.equals_sign) text.now }
    ensures within { IfSome result (λ at. at < length text.now) }
{
    text.iter().position(|byte| *byte == b'=')
}

/// Whether the member has this key and one of these values.
fn is_member(key: &str, values: &[Text], member: &[u8]) -> bool
    ensures { result ≡ spec.is_member key.now values.now member.now }
{
    match equals_sign_at(member) {
        Some(at) => &member[..at] == key.as_bytes() && is_among(values, &member[at + 1..]),
        None => false,
    }
}

/// Whether one of the values is this text.
fn is_among(values: &[Text], text: &[u8]) -> bool
    ensures { result ≡ spec.is_value values.now text.now }
{
    values.iter().any(|value| value.as_str().as_bytes() == text)
}

/// The text without spaces and tabs at its ends.
#[tactic(auto, unfolding(crate::specs::TraceState::trimmed))]
fn trim(text: &[u8]) -> &[u8]
    ensures { result.now ≡ spec.trimmed text.now }
{
    trim_end(trim_start(text))
}

/// The text without spaces and tabs in front.
fn trim_start(mut text: &[u8]) -> &[u8]
    ensures { result.now ≡ spec.skip_blank text.now }
{
    while let [first, rest @ ..] = text
        && is_blank(*first)
    {
        text = rest;
    }
    text
}

/// The text without spaces and tabs behind.
fn trim_end(mut text: &[u8]) -> &[u8]
    ensures { result.now ≡ reverse (spec.skip_blank (reverse text.now)) }
{
    while let [rest @ .., last] = text
        && is_blank(*last)
    {
        text = rest;
    }
    text
}

/// Whether it is a space or a tab.
fn is_blank(byte: u8) -> bool
    ensures { result ≡ spec.is_blank byte }
{
    byte == b' ' || byte == b'\t'
}
