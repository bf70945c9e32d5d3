//! A sink over a writer.
ghost use Rattle.std.specs.Prelude.{◌≡◌, ℕ, ◌+◌, ◌-◌, ◌^◌, ◌<◌, ◌≤◌, Option, List, length, take, IfOk, OnOk, OnErr, IfSome, IfNone};
ghost use Rattle.std.specs.Io.KnownBytes.{Appends, Keeps};

use crate::sink::{Sink, SinkFault};
use std::io::{ErrorKind, Write};
use std::marker::Model;

/// How often an interrupted write is tried again.
const MOST_RETRIES: u8 = 16;

/// A sink over a writer. A write of no bytes and an error count as failures. An interrupted write is tried again at
/// most 16 times, and then counts as one failure.
#[derive(Drop)]
pub struct WriteSink<W: Write> {
    writer: W,
    failures: u64,
}

impl<W: Write> Model for WriteSink<W> {
    ghost use Rattle.span_sink.specs.Sinks.{SinkState};

    ghost Value = { SinkState };

    ghost view = { λ s. record { taken = W.contents s.writer; failures = s.failures } };
}

impl<W: Write> WriteSink<W> {
    /// A sink over this writer, of which no write has failed.
    pub fn new(writer: W) -> Self
        ensures { result ≡ record { taken = W.contents writer; failures = 0 } }
    {
        WriteSink {
            writer,
            failures: 0,
        }
    }

    /// Gives the writer back.
    pub fn end(self) -> W
        ensures { W.contents result ≡ self.taken }
    {
        let WriteSink {
            writer,
            failures: _,
        } = self;
        writer
    }
}

impl<W: Write> Sink for WriteSink<W> {
    ghost taken = { λ s. s.taken };

    ghost failures = { λ s. s.failures };

    fn write(&mut self, bytes: &[u8]) -> Result<usize, SinkFault> {
        if bytes.is_empty() {
            return Ok(0);
        }
        match write_some(&mut self.writer, bytes) {
            Some(count) => Ok(count),
            None => {
                self.failures += 1;
                Err(SinkFault::Failed)
            }
        }
    }

    fn failures(&self) -> u64 {
        self.failures
    }
}

/// Writes some of the bytes, or none where the writer fails, takes nothing, or is interrupted in each try.
fn write_some<W: Write>(writer: &mut W, bytes: &[u8]) -> Option<usize>
    ensures within { IfSome result (λ count. (0 < count) × (count ≤ length bytes.now)) }
    ensures taken { IfSome result (λ count. Appends (W.contents writer.old) (W.contents writer.new) (take count bytes.now)) }
    ensures none { IfNone result (Keeps (W.contents writer.old) (W.contents writer.new)) }
{
    for _ in 0..=MOST_RETRIES {
        match writer.write(bytes) {
            Ok(0) => return None,
            Ok(count) => return Some(count),
            Err(error) => {
                if error.kind() != ErrorKind::Interrupted {
                    return None;
                }
            }
        }
    }
    None
}
