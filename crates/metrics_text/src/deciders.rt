//! The lines of what the policies decided.
ghost use Rattle.std.specs.Prelude.{◌≡◌, ◌++◌, IfOk, OnOk, codes, string_bytes};
ghost use Rattle.metrics_text.specs.Deciders.{decided_lines, escaped, escaped_byte, policies_text, value_of};
ghost use Rattle.metrics_text.specs.Families.{sample, sample_line};

use crate::kind::FamilyKind;
use crate::metrics::PolicyNumbers;
use crate::text::put_head;
use std::alloc::{AllocError, Global};

const NAME: &str = "tsc_traces_decided_total";

/// Appends a byte of a label's value: a backslash, a quote and a line feed stand behind a backslash.
fn put_escaped(bytes: &mut Vec<u8>, byte: u8) -> Result<(), AllocError>
    ensures { OnOk result (bytes.new.items ≡ bytes.old.items ++ escaped_byte byte) }
{
    match byte {
        b'\\' => bytes.extend_from_slice(b"\\\\")?,
        b'"' => bytes.extend_from_slice(b"\\\"")?,
        b'\n' => bytes.extend_from_slice(b"\\n")?,
        _ => bytes.push(byte)?,
    }
    Ok(())
}

/// The bytes of a text as a label's value. It stays UTF-8, since bytes of ASCII stand for bytes of ASCII.
fn escaped(alloc: Global, text: &[u8]) -> Result<String, AllocError>
    ensures { IfOk result (λ value. string_bytes value ≡ escaped text.now) }
{
    let mut bytes = Vec::new(alloc);
    for byte in text {
        put_escaped(&mut bytes, *byte)?;
    }
    match String::from_utf8(bytes) {
        Ok(value) => Ok(value),
        Err(_) => Err(AllocError),
    }
}

/// What stands for a policy: its name, or behind the empty one its place under a label of its own (D-434).
fn value_of(alloc: Global, policy: &PolicyNumbers) -> Result<String, AllocError>
    ensures { IfOk result (λ value. string_bytes value ≡ value_of policy.now) }
{
    let mut value = escaped(alloc, policy.name.as_str().as_bytes())?;
    if let Some(place) = policy.place {
        write!(&mut value, "\",place=\"{place}")?;
    }
    Ok(value)
}

/// Appends the line of a family's sample with the labels of a policy, for which this value stands, and a decision.
fn put_decided(
    text: &mut String,
    family: &str,
    value: &str,
    decision: &str,
    traces: u64,
) -> Result<(), AllocError>
    ensures { OnOk result (string_bytes text.new ≡ string_bytes text.old
        ++ sample_line family.now (sample (codes "{policy=\"" ++ (value.now ++ (codes "\",decision=\"" ++ (decision.now ++ codes "\"}")))) traces)) }
{
    write!(
        text,
        "{family}{{policy=\"{value}\",decision=\"{decision}\"}} {traces}\n"
    )
}

/// Appends the lines of a policy.
fn put_policy(alloc: Global, text: &mut String, policy: &PolicyNumbers) -> Result<(), AllocError>
    ensures { OnOk result (string_bytes text.new ≡ string_bytes text.old ++ decided_lines policy.now) }
{
    let value = value_of(alloc, policy)?;
    put_decided(text, NAME, value.as_str(), "sampled", policy.sampled)?;
    put_decided(
        text,
        NAME,
        value.as_str(),
        "not_sampled",
        policy.not_sampled,
    )
}

/// Appends the family of what the policies decided.
pub fn put_policies(
    alloc: Global,
    text: &mut String,
    policies: &[PolicyNumbers],
) -> Result<(), AllocError>
    ensures { OnOk result (string_bytes text.new ≡ string_bytes text.old ++ policies_text policies.now) }
{
    let help = "Traces that were decided, by the policy that decided.";
    put_head(text, NAME, help, FamilyKind::Counter)?;
    for policy in policies {
        put_policy(alloc, text, policy)?;
    }
    Ok(())
}
