//! A buffer over a reader, which counts the reads.
ghost use Rattle.std.specs.Prelude.{◌≡◌, ◌≢◌, ◌-◌, ◌<◌, ◌≤◌, List, [], length, take, drop, IfOk, IfSome, vec_len};
ghost use Rattle.std.specs.Io.KnownBytes.{IsAtEnd};
ghost use Rattle.tsc_script.specs.declared.limits.TheConstants.{MAX_READS};
ghost use Rattle.tsc_script.specs.declared.buffer.TheConstants.{CHUNK};
ghost use Rattle.tsc_script.specs.Reads.{SourceTurn, bytes_given, FitsChunk, Gives};
ghost use Rattle.tsc_script.specs.ToRead.{BufferState, CountsReads, Finds, Refills};

use crate::limits::MAX_READS;
use crate::reads::{ScriptRead, ScriptSource};
use std::alloc::{AllocError, Allocator};
use std::marker::Model;

/// How many bytes one read asks for.
const CHUNK: usize = 65536;

/// What a refill of the buffer found.
#[derive(Clone, Copy, PartialEq, Eq, Drop)]
pub(crate) enum Refill {
    /// More bytes.
    More,
    /// The input's end.
    End,
    /// The reader failed, or the last read that may be made has been made.
    Fault,
}

/// The bytes that were read and not yet used.
#[derive(Drop)]
pub(crate) struct ReadBuffer<A: Allocator> {
    chunk: Vec<u8, A>,
    at: usize,
    filled: usize,
    reads: u64,
}

impl<A: Allocator> Model for ReadBuffer<A> {
    ghost Value = { BufferState };

    ghost view = { λ b. record { bytes = take (b.filled - b.at) (drop b.at b.chunk.items); reads = b.reads } };

    ghost invariant = { λ b. (b.at ≤ b.filled) × (b.filled ≤ vec_len b.chunk)
        × (0 < vec_len b.chunk) × (vec_len b.chunk ≤ CHUNK) × (b.reads ≤ MAX_READS) };
}

impl<A: Allocator> ReadBuffer<A> {
    /// An empty buffer with room for one read.
    pub(crate) fn new(alloc: A) -> Result<Self, AllocError>
        ensures { IfOk result (λ b. b ≡ record { bytes = []; reads = 0 }) }
    {
        let chunk = vec![in alloc; 0; CHUNK]?;
        Ok(ReadBuffer {
            chunk,
            at: 0,
            filled: 0,
            reads: 0,
        })
    }

    /// The bytes that were read and not yet used.
    pub(crate) fn bytes(&self) -> &[u8]
        ensures bytes { result.now ≡ self.now.bytes }
        // For the measure of a loop over refills: the bound on reads, which the Model's invariant holds.
        ensures reads { self.now.reads ≤ MAX_READS }
    {
        &self.chunk[self.at..self.filled]
    }

    /// Uses the first bytes up.
    pub(crate) fn consume(&mut self, count: usize)
        requires { count ≤ length self.old.bytes }
        ensures bytes { self.new.bytes ≡ drop count self.old.bytes }
        ensures reads { self.new.reads ≡ self.old.reads }
    {
        self.at += count;
    }

    /// Reads more bytes into the empty buffer.
    pub(crate) fn refill<R: ScriptSource>(&mut self, reader: &mut R) -> Refill
        requires { self.old.bytes ≡ [] }
        ensures turns { (turns : List SourceTurn) × Gives (R.given reader.old) (R.given reader.new) turns
            × CountsReads self.old.reads self.new.reads turns × (self.new.bytes ≡ bytes_given turns)
            × Refills result self.new.reads turns }
        ensures more { result ≡ Refill.More → self.old.reads < self.new.reads }
        ensures end { result ≡ Refill.End → IsAtEnd (R.given reader.new).left }
        ensures reads { self.new.reads ≤ MAX_READS }
        ensures none { result ≢ Refill.More → self.new.bytes ≡ [] }
    {
        self.at = 0;
        self.filled = 0;
        match read_some(reader, &mut self.chunk, &mut self.reads) {
            Some(ScriptRead::Gave(count)) => {
                self.filled = count;
                Refill::More
            }
            Some(ScriptRead::Ended) => Refill::End,
            Some(ScriptRead::Failed | ScriptRead::Interrupted) | None => Refill::Fault,
        }
    }
}

/// Reads once more, and again after each interruption; `None`: all reads that may be made, 2^32, were made.
fn read_some<R: ScriptSource>(
    reader: &mut R,
    chunk: &mut [u8],
    reads: &mut u64,
) -> Option<ScriptRead>
    requires room { 0 < length chunk.old }
    requires short { length chunk.old ≤ CHUNK }
    requires reads { reads.old ≤ MAX_READS }
    ensures turns { (turns : List SourceTurn) × Gives (R.given reader.old) (R.given reader.new) turns
        × CountsReads reads.old reads.new turns × Finds result chunk.new reads.new turns }
    ensures fits { IfSome result (λ turn. FitsChunk turn (length chunk.new)) }
    ensures end { IfSome result (λ turn. turn ≡ ScriptRead.Ended → IsAtEnd (R.given reader.new).left) }
    ensures tried_again { IfSome result (λ turn. turn ≢ ScriptRead.Interrupted) }
    ensures reads { reads.new ≤ MAX_READS }
    ensures more { IfSome result (λ _. reads.old < reads.new) }
{
    while *reads < MAX_READS {
        *reads += 1;
        match reader.turn(chunk) {
            ScriptRead::Interrupted => {}
            turn => return Some(turn),
        }
    }
    None
}
