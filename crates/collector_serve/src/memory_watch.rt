//! The thread that looks at what memory the process takes, and refuses requests while it is too much, and spans while
//! it is more still.
ghost use Rattle.std.specs.Prelude.{◌≡◌};
ghost use Rattle.collector_serve.specs.Memory.{limit_of, pause_before};

use crate::charge::Charge;
use crate::memory_rule::MemoryRule;
use std::alloc::Global;
use std::io::{Read, Seek, SeekFrom};
use std::sync::{Arc, Wait};
use std::thread::Threads;
use std::time::{Clock, Duration};
use std::{io, thread};

/// The system's account of the process, whose second number tells how many pages it takes (proc(5)).
pub const MEMORY_ACCOUNT: &str = "/proc/self/statm";

/// The bytes of a page.
const PAGE: u64 = 4096;

/// A mebibyte.
const MEBIBYTE: u64 = 1_048_576;

/// The longest time between two looks, in milliseconds.
const MOST_PAUSE: u64 = 100;

/// The shortest time between two looks, in milliseconds.
const LEAST_PAUSE: u64 = 2;

/// Starts a thread that tells what the process takes by this account, and refuses requests while it is more than
/// `limit_mib` mebibytes, where 0 is no limit. It ends with the program. `Err`: the account can't be read, or there can
/// be no thread.
pub fn start_memory_watch<
    F: Read + Seek + Send + Drop + 'static,
    R: Threads + Wait + Clock + Copy + Send + 'static,
>(rt: &R, limit_mib: u64, account: F, charge: Arc<Charge, Global>) -> io::Result<()> {
    let mut account = account;
    let limit = limit_of(limit_mib);
    charge.board.takes(bytes_taken(&mut account)?);
    let own = *rt;
    let _runs_on = thread::spawn(rt, move || watch(&own, limit, account, &charge))?;
    Ok(())
}

/// Looks again and again.
fn watch<F: Read + Seek + Drop, R: Wait + Clock>(rt: &R, limit: u64, account: F, charge: &Charge) {
    let mut account = account;
    let mut rule = MemoryRule::new(limit);
    for _ in rt.forever() {
        let mut pause = MOST_PAUSE;
        if let Ok(taken) = bytes_taken(&mut account) {
            charge.board.takes(taken);
            let waiting = charge.board.waiting();
            let is_short = rule.is_short(taken, waiting);
            let is_shorter = is_short && rule.is_shorter(taken, waiting);
            charge.board.memory_is(is_short, is_shorter);
            pause = pause_before(limit, taken);
        }
        thread::sleep(rt, Duration::from_millis(pause));
    }
}

/// The bytes that a process may take whose limit is so many mebibytes, where 0 is none.
fn limit_of(mebibytes: u64) -> u64
    ensures { result ≡ limit_of mebibytes }
{
    if mebibytes == 0 {
        return u64::MAX;
    }
    mebibytes.saturating_mul(MEBIBYTE)
}

/// The time until the next look: the shorter the less may still be taken. A process doesn't grow by more than
/// two mebibytes in a millisecond.
fn pause_before(limit: u64, taken: u64) -> u64
    ensures { result ≡ pause_before limit taken }
{
    let left = limit.saturating_sub(taken) / MEBIBYTE / 2;
    left.max(LEAST_PAUSE).min(MOST_PAUSE)
}

/// The bytes of memory that the process takes, by this account.
fn bytes_taken<F: Read + Seek>(account: &mut F) -> io::Result<u64> {
    // The system's account has whatever takes memory, the allocator's gaps too (D-173).
    account.seek(SeekFrom::Start(0))?;
    let mut text = [0; 128];
    let len = account.read(&mut text)?;
    match second_number(text.get(..len).unwrap_or(b"")) {
        Some(pages) => Ok(pages.saturating_mul(PAGE)),
        None => Err(io::ErrorKind::InvalidData.into()),
    }
}

/// The second of the numbers in a line.
fn second_number(line: &[u8]) -> Option<u64> {
    let mut spaces = 0;
    let mut number: Option<u64> = None;
    for byte in line {
        match *byte {
            b' ' if spaces == 1 => return number,
            b' ' => spaces = 1,
            digit if spaces == 1 && digit.is_ascii_digit() => {
                let before = number.unwrap_or(0);
                number = Some(
                    before
                        .saturating_mul(10)
                        .saturating_add((digit - b'0') as u64),
                );
            }
            _ => {}
        }
    }
    None
}
