//! A table of exchanges with what RFC 9112 and the table of answers give for each. A row of `exchanges.tsv` has a name,
//! how it is run, the bytes that a client sends, the bytes that are answered, how the connection ends, and what was
//! counted; `column` says how bytes are written there. Each exchange goes through `serve` in one piece, a byte at a
//! time, and cut in every two pieces; where the row says so, also with a write that fails after each number of bytes.
//! And it goes through `serve_turns` on one, two and fifty connections at once, whose pieces are dealt at random.
//! `turns.tsv` has connections by a scripted clock (`clocked`). The gate runs it and compares what it prints.
//!
//! With the argument `refused` it runs the rows that say `starves` once each, and lets an exchange be short of memory
//! at one place. So a run for each allocation that is refused in turn (`tests/refused_memory/refused.py exchanges`)
//! shows that nothing but whole answers is written, and that the counts are those of the answered requests.
//!
//! With `serve FILE` it serves the bytes of a file as one connection, and with `decode FILE N` it reads those of a file
//! as a body N times, for `bench/http.sh` to count what either costs.
#![tactic(auto)]

mod clocked;
mod column;
mod many;
mod peers;
mod row;
mod short;
mod speed;
mod trial;

use row::Row;
use std::alloc::{AllocError, Global};
use std::process::ExitCode;
use std::sync::Wait;
use std::time::Clock;
use std::{env, fs, io};

/// What became of the rows that were run.
#[derive(Clone, Copy, Drop)]
struct Tally {
    rows: u64,
    wrong: u64,
}

/// Whether the exchange of a line comes out as it says.
fn holds<R: Wait + Clock>(
    rt: &R,
    alloc: Global,
    line: &str,
    starved: bool,
) -> Result<bool, AllocError> {
    let Some(row) = Row::read(alloc, line)? else {
        return Ok(false);
    };
    if starved {
        return short::holds(alloc, &row);
    }
    let answers = trial::joined(alloc, &row.answers)?;
    trial::both(
        trial::holds(alloc, &row, &answers),
        many::holds(rt, alloc, &row, &answers),
    )
}

/// Whether a line is to be run.
fn is_asked_for(line: &str, starved: bool) -> bool {
    !line.is_empty() && !line.starts_with('#') && (!starved || line.contains("starves"))
}

/// Runs the table of connections by a clock.
fn run_turns<R: Wait + Clock>(rt: &HostRuntime, waits: &R, wrong: &mut u64) -> io::Result<()> {
    let table = fs::read_to_string(rt, "turns.tsv")?;
    for line in table.lines() {
        if !line.starts_with('#') && !clocked::holds(waits, rt.alloc(), line)? {
            *wrong = wrong.saturating_add(1);
            println!(rt; "not as the table says: {line}")?;
        }
    }
    Ok(())
}

/// Runs the table.
fn run_table<R: Wait + Clock>(rt: &HostRuntime, waits: &R, starved: bool) -> io::Result<ExitCode> {
    let table = fs::read_to_string(rt, "exchanges.tsv")?;
    let mut tally = Tally { rows: 0, wrong: 0 };
    for line in table.lines() {
        if !is_asked_for(line, starved) {
            continue;
        }
        let right = holds(waits, rt.alloc(), line, starved)?;
        tally.rows = tally.rows.saturating_add(1);
        if !right {
            tally.wrong = tally.wrong.saturating_add(1);
            println!(rt; "not as the table says: {line}")?;
        }
    }
    if !starved {
        run_turns(rt, waits, &mut tally.wrong)?;
    }
    let rows = tally.rows;
    let wrong = tally.wrong;
    println!(rt; "{rows} exchanges, {wrong} wrong")?;
    Ok(ExitCode::from(if wrong == 0 { 0 } else { 1 }))
}

fn main(rt: HostRuntime) -> io::Result<ExitCode> {
    let mut arguments = Vec::new(rt.alloc());
    for argument in env::args(&rt)?.skip(1) {
        arguments.push(argument)?;
    }
    match arguments.as_slice() {
        [how, file] if how.as_str() == "serve" => {
            let bytes = fs::read(&rt, file.as_str())?;
            let spans = speed::serve_once(rt.alloc(), &bytes)?;
            println!(rt; "{spans} spans served")?;
            Ok(ExitCode::from(0))
        }
        [how, file, times] if how.as_str() == "decode" => {
            let body = fs::read(&rt, file.as_str())?;
            let times = times.as_str().parse::<u32>().unwrap_or(0);
            let resources = speed::decode_many(rt.alloc(), &body, times);
            println!(rt; "{resources} resources read")?;
            Ok(ExitCode::from(0))
        }
        [how] => run_table(&rt, &rt, how.as_str() == "refused"),
        _ => run_table(&rt, &rt, false),
    }
}
