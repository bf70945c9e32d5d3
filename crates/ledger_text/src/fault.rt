//! Why a folder isn't told.
ghost use Rattle.std.specs.Prelude.{◌≡◌, ◌≢◌, IfOk, string_bytes};
ghost use Rattle.ledger_text.specs.Refusals as spec;

use std::alloc::{AllocError, Global};
use std::io::ErrorKind;

/// Why a ledger's folder isn't told.
#[derive(Clone, Copy, PartialEq, Eq)]
pub enum FolderFault {
    /// There is no memory for what it holds.
    NoMemory,
    /// There is none of its name.
    Missing,
    /// The program may not read it, or a file in it.
    NotAllowed,
    /// It is a file.
    NotADirectory,
    /// Anything else.
    Other,
}

/// Why a folder isn't told where an error of this kind came.
pub fn fault_of(kind: ErrorKind) -> FolderFault
    ensures memory { kind ≡ ErrorKind.OutOfMemory → result ≡ FolderFault.NoMemory }
    ensures missing { kind ≡ ErrorKind.NotFound → result ≡ FolderFault.Missing }
    ensures not_allowed { kind ≡ ErrorKind.PermissionDenied → result ≡ FolderFault.NotAllowed }
    ensures file { kind ≡ ErrorKind.NotADirectory → result ≡ FolderFault.NotADirectory }
    ensures others { kind ≢ ErrorKind.OutOfMemory → result ≢ FolderFault.NoMemory }
{
    match kind {
        ErrorKind::OutOfMemory => FolderFault::NoMemory,
        ErrorKind::NotFound => FolderFault::Missing,
        ErrorKind::PermissionDenied => FolderFault::NotAllowed,
        ErrorKind::NotADirectory => FolderFault::NotADirectory,
        _ => FolderFault::Other,
    }
}

/// The line that says why the folder at a path isn't told.
pub fn refusal_text(alloc: Global, path: &str, fault: FolderFault) -> Result<String, AllocError>
    ensures { IfOk result (λ text. string_bytes text ≡ spec.refusal_text path.now fault) }
{
    let why = fault_text(fault);
    format!(in alloc; "tsc: ledger refused: {path}: {why}\n")
}

fn fault_text(fault: FolderFault) -> &'static str
    ensures { result.now ≡ spec.fault_text fault }
{
    match fault {
        FolderFault::NoMemory => "no memory",
        FolderFault::Missing => "does not exist",
        FolderFault::NotAllowed => "no permission to read it",
        FolderFault::NotADirectory => "is not a directory",
        FolderFault::Other => "reading it failed",
    }
}
