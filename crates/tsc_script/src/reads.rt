//! What a script's bytes are read from.
ghost use Rattle.std.specs.Prelude.{[], ◌∷◌, ◌≡◌, ◌≢◌, ◌==◌, ◌<◌, if◌then◌else◌, length, None, IfOk, IfErr};
ghost use Rattle.std.specs.Io.KnownBytes.{Consumes, IsAtEnd};
ghost use Rattle.std.specs.IoError.{error_kind};
ghost use Rattle.tsc_script.specs.Reads.{KnownReader, known_reader, turn_of, bytes_by, FitsChunk, Gives};

use std::io::{ErrorKind, Read, Result};

/// What one read gave.
#[derive(Clone, Copy, PartialEq, Eq, Drop)]
pub enum ScriptRead {
    /// So many bytes, one at least.
    Gave(usize),
    /// Nothing: it was interrupted, and is tried again.
    Interrupted,
    /// Nothing: it failed with any other error.
    Failed,
    /// Nothing: the input has ended.
    Ended,
}

/// What bytes are read from.
pub trait ScriptSource {
    /// What its reads gave so far and the bytes that it has left, as far as that is known.
    ghost given: { Self → KnownReader };

    /// One read, of at most as many bytes as `chunk` has room for.
    fn turn(&mut self, chunk: &mut [u8]) -> ScriptRead
        requires room { 0 < length chunk.old }
        ensures fits { FitsChunk result (length chunk.new) }
        ensures tells { Gives (given self.old) (given self.new) (turn_of result chunk.new ∷ []) }
        ensures end { result ≡ ScriptRead.Ended → IsAtEnd (given self.new).left };
}

/// A reader of std as a [`ScriptSource`]: a read that fails as interrupted is an interrupted one, any other failure is a
/// fault, and a read of 0 bytes is the input's end. What its reads gave is not known afterwards.
#[derive(Drop)]
pub struct ScriptReads<R> {
    /// What is read.
    pub reader: R,
}

impl<R: Read> ScriptSource for ScriptReads<R> {
    ghost given = { λ source. known_reader None (R.remaining source.reader) };

    fn turn(&mut self, chunk: &mut [u8]) -> ScriptRead {
        read_turn(&mut self.reader, chunk)
    }
}

/// What a read gave.
fn read_turn<R: Read>(reader: &mut R, chunk: &mut [u8]) -> ScriptRead
    requires { 0 < length chunk.old }
    ensures fits { FitsChunk result (length chunk.new) }
    ensures bytes { Consumes (R.remaining reader.old) (R.remaining reader.new) (bytes_by (turn_of result chunk.new)) }
    ensures end { result ≡ ScriptRead.Ended → IsAtEnd (R.remaining reader.new) }
{
    turn_by(reader.read(chunk))
}

/// What the answer of a read is: nothing but an interruption is tried again.
fn turn_by(read: Result<usize>) -> ScriptRead
    ensures ok { IfOk read (λ count. result ≡ (if count == 0 then ScriptRead.Ended else ScriptRead.Gave count)) }
    ensures interrupted { IfErr read (λ error. error_kind error ≡ ErrorKind.Interrupted → result ≡ ScriptRead.Interrupted) }
    ensures failed { IfErr read (λ error. error_kind error ≢ ErrorKind.Interrupted → result ≡ ScriptRead.Failed) }
{
    match read {
        Ok(0) => ScriptRead::Ended,
        Ok(count) => ScriptRead::Gave(count),
        Err(error) => match error.kind() {
            ErrorKind::Interrupted => ScriptRead::Interrupted,
            _ => ScriptRead::Failed,
        },
    }
}
