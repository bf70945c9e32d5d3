//! The configuration: what is read from its file, and what that is read as.
ghost use Rattle.std.specs.Prelude.{◌≡◌, ◌≢◌, Ok, Err, IfOk, IfErr, IfSome, IfNone, string_bytes};
ghost use Rattle.std.specs.IoError.{error_kind};
ghost use Rattle.tsc_config.specs.Values.{InRange};
ghost use Rattle.collector_commands.specs.Configuration.{BytesFail, FileFails, IsConfigIn, IsConfigOf, IsStart, IsText, file_of};

use crate::outcome::Outcome;
use std::alloc::Global;
use std::io::{ErrorKind, Read};
use std::rt::Files;
use std::{fs, io};
use tsc_config::{Config, read};

/// The longest configuration that is read, in bytes.
pub const MAX_CONFIG_LEN: usize = 1_048_576;

/// Why the configuration's file was not read.
#[derive(Clone, Copy, PartialEq, Eq)]
pub enum FileFault {
    /// There was no memory for what it holds.
    NoMemory,
    /// It can't be opened, or reading it failed.
    Unreadable(ReadFault),
}

/// Why a file can't be opened or read.
#[derive(Clone, Copy, PartialEq, Eq)]
pub enum ReadFault {
    /// There is none of its name.
    Missing,
    /// The program may not read it.
    NotAllowed,
    /// It is a directory.
    Directory,
    /// Anything else.
    Other,
}

/// What the file holds, or of a file that is too long one byte more than may be read.
pub fn read_file<T: Files>(rt: &T, alloc: Global, path: &str) -> Result<Vec<u8>, FileFault> {
    // No clause can say what a file holds, so all that is made of it stands apart, and is exact (D-219).
    match fs::open(rt, path) {
        Ok(file) => told(read_start(alloc, file)),
        Err(error) => told(Err(error)),
    }
}

/// Reads to the end, or one byte more than may be read.
fn read_start<F: Read + Drop>(alloc: Global, file: F) -> io::Result<Vec<u8>>
    ensures { IfOk result (λ bytes. IsStart (F.Read.remaining file) bytes.items) }
{
    let mut bytes = Vec::new(alloc);
    // One byte more tells a file that is too long from one that just fits.
    file.take(MAX_CONFIG_LEN as u64 + 1)
        .read_to_end(&mut bytes)?;
    Ok(bytes)
}

/// An error in opening or reading a file, by its kind.
fn told(file: io::Result<Vec<u8>>) -> Result<Vec<u8>, FileFault>
    ensures whole { IfOk file (λ bytes. result ≡ Ok bytes) }
    ensures memory { IfErr file (λ error. error_kind error ≡ ErrorKind.OutOfMemory → result ≡ Err FileFault.NoMemory) }
    ensures missing { IfErr file (λ error. error_kind error ≡ ErrorKind.NotFound → result ≡ Err (FileFault.Unreadable ReadFault.Missing)) }
    ensures not_allowed { IfErr file (λ error. error_kind error ≡ ErrorKind.PermissionDenied → result ≡ Err (FileFault.Unreadable ReadFault.NotAllowed)) }
    ensures directory { IfErr file (λ error. error_kind error ≡ ErrorKind.IsADirectory → result ≡ Err (FileFault.Unreadable ReadFault.Directory)) }
    ensures others { IfErr file (λ error. error_kind error ≢ ErrorKind.OutOfMemory → (fault : ReadFault) × (result ≡ Err (FileFault.Unreadable fault))) }
{
    match file {
        Ok(bytes) => Ok(bytes),
        Err(error) if error.kind() == ErrorKind::OutOfMemory => Err(FileFault::NoMemory),
        Err(error) => Err(FileFault::Unreadable(read_fault(error.kind()))),
    }
}

/// Why a file can't be opened or read, by the kind of an error.
fn read_fault(kind: ErrorKind) -> ReadFault
    ensures missing { kind ≡ ErrorKind.NotFound → result ≡ ReadFault.Missing }
    ensures not_allowed { kind ≡ ErrorKind.PermissionDenied → result ≡ ReadFault.NotAllowed }
    ensures directory { kind ≡ ErrorKind.IsADirectory → result ≡ ReadFault.Directory }
{
    match kind {
        ErrorKind::NotFound => ReadFault::Missing,
        ErrorKind::PermissionDenied => ReadFault::NotAllowed,
        ErrorKind::IsADirectory => ReadFault::Directory,
        _ => ReadFault::Other,
    }
}

/// The configuration in what was read from its file.
pub fn config_of(alloc: Global, file: Result<Vec<u8>, FileFault>) -> Result<Config, Outcome>
    ensures ranges { IfOk result InRange }
    ensures is_read { IfOk result (IsConfigOf (file_of (λ v. v.items) file)) }
    ensures fails { IfErr result (FileFails (file_of (λ v. v.items) file)) }
{
    match file {
        Ok(bytes) => config_in(alloc, bytes),
        Err(FileFault::NoMemory) => Err(Outcome::NoMemory),
        Err(FileFault::Unreadable(_)) => Err(Outcome::Unreadable),
    }
}

/// The text in these bytes, unless they aren't UTF-8 or too many.
pub fn text_in(bytes: Vec<u8>) -> Option<String>
    ensures same { IfSome result (λ text. string_bytes text ≡ bytes.items) }
    ensures some { IfSome result (λ text. IsText bytes.items) }
    ensures none { IfNone result (¬ IsText bytes.items) }
{
    if MAX_CONFIG_LEN < bytes.len() {
        return None;
    }
    match String::from_utf8(bytes) {
        Ok(text) => Some(text),
        Err(_) => None,
    }
}

/// The configuration in these bytes: `Unreadable` where they aren't UTF-8 or too many, a fault where the text has it,
/// and the fault of no memory where there was none to read it.
pub fn config_in(alloc: Global, bytes: Vec<u8>) -> Result<Config, Outcome>
    ensures ranges { IfOk result InRange }
    ensures is_read { IfOk result (IsConfigIn bytes.items) }
    ensures fails { IfErr result (BytesFail bytes.items) }
{
    let Some(text) = text_in(bytes) else {
        return Err(Outcome::Unreadable);
    };
    match read(alloc, text.as_str()) {
        Ok(config) => Ok(config),
        Err(fault) => Err(Outcome::Configuration(fault)),
    }
}
