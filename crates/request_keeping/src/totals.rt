//! How much the files of a ledger hold.
use crate::folder::{FileNumber, LedgerFolder};
use request_ledger::{HEAD_LEN, record_at, request_in};
use std::fs::File;
use std::io;
use std::rt::Files;

/// How much files hold, up to the first record of each that isn't whole.
#[derive(Clone, Copy, PartialEq, Eq)]
pub struct FileTotals {
    /// Their bytes, also those that aren't read.
    pub bytes: u64,
    /// Requests, pending or not.
    pub requests: u64,
}

impl FileTotals {
    /// How much these files of a folder hold. An error: one can't be read.
    pub fn of<R: Files<File = File> + Copy>(
        folder: &LedgerFolder<R>,
        files: &[FileNumber],
    ) -> io::Result<Self> {
        let mut totals = FileTotals {
            bytes: 0,
            requests: 0,
        };
        for number in files {
            let bytes = folder.read(*number)?;
            totals.bytes = totals.bytes.saturating_add(bytes.len() as u64);
            if number.lane.is_some() {
                totals.requests = totals.requests.saturating_add(requests_in(&bytes));
            }
        }
        Ok(totals)
    }
}

/// How many requests these bytes of a file hold.
fn requests_in(bytes: &[u8]) -> u64 {
    let mut at = 0;
    let mut requests: u64 = 0;
    for _ in 0..bytes.len() {
        let Some(payload) = record_at(bytes, at) else {
            break;
        };
        at = at.saturating_add(HEAD_LEN).saturating_add(payload.len());
        if request_in(payload).is_some() {
            requests = requests.saturating_add(1);
        }
    }
    requests
}
