//! What was found in the folder of a ledger, told.
ghost use Rattle.collector_commands.specs.Ledgers.{FaultTells, LedgerTells, LookTells};

use crate::asking::LedgerForm;
use crate::outcome::Outcome;
use ledger_text::{
    FolderFault, LedgerLook, LedgerNumbers, numbers_text, pending_line, refusal_text, script_of,
};
use std::alloc::Global;
use std::io::Write;

/// Tells what was found in the folder at this path, or on standard error why nothing is told.
pub fn tell_ledger<E: Write + Drop>(
    alloc: Global,
    path: &str,
    form: LedgerForm,
    found: Result<LedgerLook, FolderFault>,
    errors: E,
) -> Outcome
    ensures { LedgerTells path.now form found result }
{
    match found {
        Ok(look) => tell_look(alloc, form, &look, errors),
        Err(fault) => {
            let outcome = tell_fault(alloc, path, fault);
            say_refusal(errors, &outcome);
            outcome
        }
    }
}

/// Tells what was found.
fn tell_look<E: Write + Drop>(
    alloc: Global,
    form: LedgerForm,
    look: &LedgerLook,
    errors: E,
) -> Outcome
    ensures { LookTells form look.now result }
{
    match form {
        LedgerForm::Numbers => match numbers_text(alloc, &look.numbers) {
            Ok(text) => Outcome::Shown(text.into_bytes()),
            Err(_) => Outcome::NoMemory,
        },
        LedgerForm::Script => match script_of(alloc, look.requests.as_slice()) {
            Ok(script) => {
                say_left_out(errors, script.left_out);
                Outcome::Shown(script.lines)
            }
            Err(_) => Outcome::NoMemory,
        },
    }
}

/// That nothing is told, and why.
fn tell_fault(alloc: Global, path: &str, fault: FolderFault) -> Outcome
    ensures { FaultTells path.now fault result }
{
    if fault == FolderFault::NoMemory {
        return Outcome::NoMemory;
    }
    match refusal_text(alloc, path, fault) {
        Ok(said) => Outcome::NotShown(said),
        Err(_) => Outcome::NoMemory,
    }
}

/// Says why nothing is told.
fn say_refusal<E: Write + Drop>(errors: E, outcome: &Outcome) {
    let mut errors = errors;
    if let Outcome::NotShown(said) = outcome {
        let _ = errors.write_all(said.as_bytes());
    }
}

/// Says how many requests the script hasn't, if it lacks some.
fn say_left_out<E: Write + Drop>(errors: E, left_out: usize) {
    let mut errors = errors;
    if 0 < left_out {
        let _ = write!(
            errors,
            "tsc: {left_out} requests are left out: their lines would be longer than 4194368 bytes\n"
        );
    }
}

/// Says on standard error what the next start would receive again from the ledger's folder at this path, or why that isn't
/// known. Nothing is said of a folder that isn't there, or in which nothing is pending.
pub fn say_pending<E: Write + Drop>(
    alloc: Global,
    path: &str,
    found: Result<LedgerNumbers, FolderFault>,
    errors: E,
) {
    let said = match found {
        Ok(numbers) if numbers.pending_requests == 0 => return,
        Ok(numbers) => pending_line(alloc, path, &numbers),
        Err(FolderFault::Missing) => return,
        Err(fault) => refusal_text(alloc, path, fault),
    };
    let mut errors = errors;
    if let Ok(said) = said {
        let _ = errors.write_all(said.as_str().as_bytes());
    }
}
