//! Bodies that are read both ways.
use crate::answer::{Answer, Readings, read};
use hex::FromHexError;
use std::alloc::AllocError;
use std::io;
use std::io::{BufRead, BufReader};
use std::process::ExitCode;

/// How many bodies there were of one answer.
#[derive(Clone, Copy, Default)]
struct Share {
    /// All of them.
    bodies: u64,
    /// Those that the one pass declined.
    declined: u64,
}

impl Share {
    /// With one body more.
    fn with(self, is_plain: bool) -> Share {
        Share {
            bodies: self.bodies.saturating_add(1),
            declined: self.declined.saturating_add(if is_plain { 0 } else { 1 }),
        }
    }
}

/// How many bodies there were of each answer.
#[derive(Clone, Copy, Default)]
struct Shares {
    requests: Share,
    not_json: Share,
    wrong_shape: Share,
}

impl Shares {
    /// Counts a body.
    fn count(&mut self, readings: &Readings) {
        let share = match &readings.decoded {
            Answer::Request(_) => &mut self.requests,
            Answer::NotJson => &mut self.not_json,
            Answer::WrongShape => &mut self.wrong_shape,
        };
        *share = share.with(readings.is_plain);
    }

    /// Prints a line for each answer.
    fn print(&self, rt: &HostRuntime) -> io::Result<()> {
        let each = [
            ("requests", self.requests),
            ("not JSON", self.not_json),
            ("wrong shape", self.wrong_shape),
        ];
        for (name, share) in each {
            println!(rt;
                "{name} {}, {} of them declined in one pass",
                share.bodies, share.declined
            )?;
        }
        Ok(())
    }
}

/// The bytes of a line. `None` where it isn't hexadecimal.
fn body_of(rt: &HostRuntime, line: &str) -> Result<Option<Vec<u8>>, AllocError> {
    match hex::decode(rt.alloc(), line) {
        Ok(body) => Ok(Some(body)),
        Err(FromHexError::OutOfMemory) => Err(AllocError),
        Err(_) => Ok(None),
    }
}

/// Reads each body of standard input, a line of hexadecimal digits, by `otlp_json::decode` and by
/// `otlp_reading::decode` alone, and prints how many are read otherwise, after a line for each of them; with
/// `with_shares` also how many were answered in which way, and how many of these the one pass declined. Status 1 where
/// one is read otherwise, 2 where a line is no body.
pub fn compare(rt: &HostRuntime, with_shares: bool) -> io::Result<ExitCode> {
    let mut shares = Shares::default();
    let mut bodies = 0u64;
    let mut otherwise = 0u64;
    for line in BufReader::new(rt.alloc(), rt.reader())?.lines(rt.alloc()) {
        bodies = bodies.saturating_add(1);
        let Some(body) = body_of(rt, line?.as_str())? else {
            println!(rt; "line {bodies} is no body")?;
            return Ok(ExitCode::from(2));
        };
        let readings = read(rt.alloc(), body.as_slice())?;
        shares.count(&readings);
        if readings.decoded != readings.by_tree {
            otherwise = otherwise.saturating_add(1);
            println!(rt; "body {bodies} is read otherwise")?;
        }
    }
    if with_shares {
        shares.print(rt)?;
    }
    println!(rt; "{bodies} bodies, {otherwise} read otherwise")?;
    Ok(ExitCode::from(if otherwise == 0 { 0 } else { 1 }))
}
