//! Every fault of a configuration, in lines, and behind them what can't run of it.
ghost use Rattle.std.specs.Prelude.{◌≡◌, ◌++◌, IfOk, OnOk, string_bytes};
ghost use Rattle.collector_commands.specs.Configuration.{file_of};
ghost use Rattle.collector_commands.specs.Validating.{FileTells, Refuses, TextTells, address_line, address_lines, bytes_text, fault_number, fault_text, line_of, lines_of, unreadable_lines};

use crate::configuration::{FileFault, MAX_CONFIG_LEN, ReadFault, text_in};
use crate::outcome::Outcome;
use config_faults::ConfigFault;
use config_findings::{AddressFinding, ConfigFinding, faults};
use std::alloc::{AllocError, Global};

/// What is told of the configuration in what was read from its file.
pub fn told_of(alloc: Global, path: &str, file: Result<Vec<u8>, FileFault>) -> Outcome
    ensures { FileTells (file_of (λ v. v.items) file) result }
{
    let bytes = match file {
        Ok(bytes) => bytes,
        Err(FileFault::NoMemory) => return Outcome::NoMemory,
        Err(FileFault::Unreadable(fault)) => return unreadable(alloc, path, fault_text(fault)),
    };
    let why = bytes_text(&bytes);
    let Some(text) = text_in(bytes) else {
        return unreadable(alloc, path, why);
    };
    match told_in(alloc, text.as_str()) {
        Ok(outcome) => outcome,
        Err(_) => Outcome::NoMemory,
    }
}

/// What is told of a file at this path that can't be read for this reason; where there is no memory for the reason, that
/// it can't be read.
fn unreadable(alloc: Global, path: &str, why: &str) -> Outcome
    ensures { Refuses why.now result }
{
    match unreadable_lines(alloc, path, why) {
        Ok(lines) => Outcome::Faulty(lines),
        Err(_) => Outcome::Unreadable,
    }
}

fn unreadable_lines(alloc: Global, path: &str, why: &str) -> Result<String, AllocError>
    ensures { IfOk result (λ lines. string_bytes lines ≡ unreadable_lines path.now why.now) }
{
    format!(in alloc; "tsc: configuration refused: unreadable\n{path}: {why}\n")
}

/// Why a file can't be read.
fn fault_text(fault: ReadFault) -> &'static str
    ensures { result.now ≡ fault_text fault }
{
    match fault {
        ReadFault::Missing => "does not exist",
        ReadFault::NotAllowed => "no permission to read it",
        ReadFault::Directory => "is a directory",
        ReadFault::Other => "reading it failed",
    }
}

/// Why bytes are no text that may be read, where they are none.
fn bytes_text(bytes: &Vec<u8>) -> &'static str
    ensures { result.now ≡ bytes_text bytes.now.items }
{
    if MAX_CONFIG_LEN < bytes.len() {
        "longer than 1048576 bytes"
    } else {
        "not UTF-8"
    }
}

/// What is told of the configuration in a text.
fn told_in(alloc: Global, text: &str) -> Result<Outcome, AllocError>
    ensures { IfOk result (TextTells text.now) }
{
    let all = faults(alloc, text)?;
    // An address that can't be one is no fault, since a replay has no use for it; it is told behind them (D-224).
    if all.faults.is_empty() && all.addresses.is_empty() {
        return Ok(Outcome::Valid);
    }
    let mut lines = lines_of(alloc, &all.faults)?;
    add_addresses(alloc, &all.addresses, &mut lines)?;
    Ok(Outcome::Faulty(lines))
}

/// Adds the lines of addresses that can't be one.
fn add_addresses(
    alloc: Global,
    findings: &[AddressFinding],
    lines: &mut String,
) -> Result<(), AllocError>
    ensures { OnOk result (string_bytes lines.new ≡ string_bytes lines.old ++ address_lines findings.now) }
{
    for finding in findings {
        let told = address_line(alloc, finding)?;
        lines.push_str(told.as_str())?;
    }
    Ok(())
}

/// The line of an address that can't be one.
fn address_line(alloc: Global, finding: &AddressFinding) -> Result<String, AllocError>
    ensures { IfOk result (λ line. string_bytes line ≡ address_line finding.now) }
{
    let said = finding.said(alloc)?;
    let said = said.as_str();
    format!(in alloc; "{said}\n")
}

/// The lines of findings.
fn lines_of(alloc: Global, findings: &[ConfigFinding]) -> Result<String, AllocError>
    ensures { IfOk result (λ lines. string_bytes lines ≡ lines_of findings.now) }
{
    let mut lines = String::new(alloc);
    for finding in findings {
        let line = line_of(alloc, finding)?;
        lines.push_str(line.as_str())?;
    }
    Ok(lines)
}

/// The line of a finding: what is said of it, and the number of the fault.
fn line_of(alloc: Global, finding: &ConfigFinding) -> Result<String, AllocError>
    ensures { IfOk result (λ line. string_bytes line ≡ line_of finding.now) }
{
    let number = number_text(alloc, finding.fault)?;
    let said = finding.said.as_str();
    format!(in alloc; "{said} (fault {number})\n")
}

/// The number of a fault, and of a fault of the policies `7.P`.
fn number_text(alloc: Global, fault: ConfigFault) -> Result<String, AllocError>
    ensures { IfOk result (λ text. string_bytes text ≡ fault_number fault) }
{
    match fault {
        ConfigFault::Policy(policy) => {
            let number = policy.number();
            format!(in alloc; "7.{number}")
        }
        _ => {
            let number = fault.number();
            format!(in alloc; "{number}")
        }
    }
}
