//! What is to be sent on a connection.
ghost use Rattle.std.specs.Prelude.{◌≡◌, ◌≤◌, ◌++◌, ℕ, List, [], OnOk, OnErr, IsTrue, false, length, drop, nat_lt};
ghost use Rattle.std.specs.Io.KnownBytes.{Appends};
ghost use Rattle.lane_driver.specs.Looks.{is_sent, took_some};

use std::alloc::{AllocError, Global};
use std::io::{ErrorKind, Write};
use std::marker::Model;

/// What a write that doesn't wait came to.
#[derive(Clone, Copy, PartialEq, Eq)]
pub enum SendResult {
    /// Some bytes were taken.
    Some,
    /// None can be taken now.
    Blocked,
    /// It failed.
    Failed,
}

/// The most writes at once.
const WRITES: usize = 64;

/// What writes that don't wait came to.
#[derive(Clone, Copy, PartialEq, Eq)]
pub struct Flushed {
    /// Some bytes were taken.
    pub took: bool,
    /// One failed.
    pub failed: bool,
}

/// The bytes of answers that weren't sent yet, in their order. It has memory only while some wait.
#[derive(Drop)]
pub struct Outgoing {
    alloc: Global,
    bytes: Vec<u8>,
    at: usize,
}

impl Model for Outgoing {
    ghost use Rattle.std.specs.Prelude.{◌≤◌, ℕ, List, drop, vec_len};

    ghost Value = { List ℕ };

    ghost view = { λ o. drop o.at o.bytes.items };

    ghost invariant = { λ o. o.at ≤ vec_len o.bytes };
}

impl Outgoing {
    /// Nothing.
    pub fn new(alloc: Global) -> Self
        ensures { result ≡ [] }
    {
        Outgoing {
            alloc,
            bytes: Vec::new(alloc),
            at: 0,
        }
    }

    /// Whether nothing is to be sent.
    pub fn is_empty(&self) -> bool
        ensures sent { result ≡ is_sent self.now }
        ensures empty { IsTrue result → self.now ≡ [] }
    {
        self.at == self.bytes.len()
    }

    /// These bytes are to be sent too, behind the others. `Err`: there is no memory for them.
    pub fn put(&mut self, text: &[u8]) -> Result<(), AllocError>
        ensures put { OnOk result (self.new ≡ self.old ++ text.now) }
        ensures kept { OnErr result (self.new ≡ self.old) }
    {
        self.bytes.extend_from_slice(text)
    }

    /// One write: what was taken goes from the front.
    pub fn send<W: Write>(&mut self, writer: &mut W) -> SendResult
        ensures sends { (sent : List ℕ) × (self.old ≡ sent ++ self.new) × Appends (W.contents writer.old) (W.contents writer.new) sent }
        ensures took { nat_lt (length self.new) (length self.old) ≡ took_some result }
        ensures kept { took_some result ≡ false → self.new ≡ self.old }
    {
        match writer.write(&self.bytes[self.at..]) {
            Ok(0) => SendResult::Failed,
            Ok(n) => {
                self.skip(n);
                SendResult::Some
            }
            Err(error) => match error.kind() {
                ErrorKind::WouldBlock | ErrorKind::Interrupted => SendResult::Blocked,
                _ => SendResult::Failed,
            },
        }
    }

    /// Writes until nothing is left, nothing is taken for now, or one fails.
    pub fn flush<W: Write>(&mut self, writer: &mut W) -> Flushed
        ensures sends { (sent : List ℕ) × (self.old ≡ sent ++ self.new) × Appends (W.contents writer.old) (W.contents writer.new) sent }
        ensures took { result.took ≡ nat_lt (length self.new) (length self.old) }
    {
        let mut took = false;
        for _ in 0..WRITES {
            if self.is_empty() {
                break;
            }
            match self.send(writer) {
                SendResult::Some => took = true,
                SendResult::Blocked => break,
                SendResult::Failed => return Flushed { took, failed: true },
            }
        }
        Flushed {
            took,
            failed: false,
        }
    }

    /// `n` bytes were sent.
    fn skip(&mut self, n: usize)
        requires { n ≤ length self.old }
        ensures { self.new ≡ drop n self.old }
    {
        self.at += n;
        if self.at == self.bytes.len() {
            // A new list in place of an empty one, since an idle connection is to hold no memory for answers.
            self.bytes = Vec::new(self.alloc);
            self.at = 0;
        }
    }
}
