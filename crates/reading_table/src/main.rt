//! A table of bodies with what each is read as: the canonical text of its request, or a refusal. Each row of
//! `readings.tsv`, of `doubles.tsv` where doubles are kept, is a body, a tab, and the expected answer. The answers come
//! from another implementation of the formats (OTLP 1.x, JSON encoding). The gate runs it and compares what it prints.
//!
//! A body for which memory is refused is read again, and the rows after it too, and then the program ends with status
//! 1. So a run for each allocation that is refused in turn (`tests/refused_memory`) shows that no answer changes.
//!
//! `reading_table all` then reads the bodies of standard input both ways, in one pass and with care alone, and
//! `reading_table shares` does only this and prints more of it. Both contracts say what a body reads as, so this tries
//! what they stand on: the kit's statements and the compilers. The bodies come from `tests/readings/generate.py`.
#![tactic(auto)]

mod answer;
mod comparing;

use crate::comparing::compare;
use otlp_flatten::{flatten, group};
use otlp_json::{DecodeError, decode, encode};
use otlp_types::Request;
use std::alloc::{AllocError, Global};
use std::process::ExitCode;
use std::{env, fs, io};

/// Whether a row's body is read as it says. `Err` where memory was refused.
fn holds(alloc: Global, keeps_doubles: bool, row: &[u8]) -> Result<bool, AllocError> {
    let Some(tab) = row.iter().position(|byte| *byte == b'\t') else {
        return Ok(false);
    };
    let expected = &row[tab + 1..];
    match decode(alloc, keeps_doubles, &row[..tab]) {
        Ok(request) => {
            let text = encode(alloc, &request)?;
            Ok(text.as_slice() == expected && keeps_records(alloc, request)?)
        }
        Err(DecodeError::Json) => Ok(expected == b"not JSON".as_slice()),
        Err(DecodeError::Shape) => Ok(expected == b"wrong shape".as_slice()),
        Err(DecodeError::NoMemory) => Err(AllocError),
    }
}

/// Whether as many records stand in the groups of a request's records.
fn keeps_records(alloc: Global, request: Request) -> Result<bool, AllocError> {
    let mut records = flatten(alloc, request)?;
    let grouped = flatten(alloc, group(alloc, records.as_mut_slice())?)?;
    Ok(grouped.len() == records.len())
}

/// How many rows of a table there are, how many are read otherwise, and whether memory was refused.
#[derive(Drop)]
struct Counted {
    rows: u64,
    wrong: u64,
    refused: bool,
}

/// Reads the rows of a table.
fn count(rt: &HostRuntime, table: &[u8], keeps_doubles: bool) -> io::Result<Counted> {
    let mut found = Counted {
        rows: 0,
        wrong: 0,
        refused: false,
    };
    for row in table.split(|byte| *byte == b'\n') {
        if row.is_empty() {
            continue;
        }
        found.rows = found.rows.saturating_add(1);
        let right = match holds(rt.alloc(), keeps_doubles, row) {
            Ok(right) => right,
            Err(_) => {
                found.refused = true;
                holds(rt.alloc(), keeps_doubles, row)?
            }
        };
        if !right {
            found.wrong = found.wrong.saturating_add(1);
            let row = found.rows;
            println!(rt; "row {row} is read otherwise")?;
        }
    }
    Ok(found)
}

/// Reads the tables, and returns the status.
fn read_tables(rt: &HostRuntime) -> io::Result<u8> {
    let discarded = count(rt, &fs::read(rt, "readings.tsv")?, false)?;
    let kept = count(rt, &fs::read(rt, "doubles.tsv")?, true)?;
    let rows = discarded.rows.saturating_add(kept.rows);
    let wrong = discarded.wrong.saturating_add(kept.wrong);
    println!(rt; "{rows} readings, {wrong} wrong")?;
    Ok(if discarded.refused || kept.refused {
        1
    } else {
        0
    })
}

fn main(rt: HostRuntime) -> io::Result<ExitCode> {
    let mut arguments = Vec::new(rt.alloc());
    for argument in env::args(&rt)?.skip(1) {
        arguments.push(argument)?;
    }
    match arguments.as_slice() {
        [] => Ok(ExitCode::from(read_tables(&rt)?)),
        [word] if word.as_str() == "shares" => compare(&rt, true),
        [word] if word.as_str() == "all" => {
            let status = read_tables(&rt)?;
            if status == 0 {
                compare(&rt, false)
            } else {
                Ok(ExitCode::from(status))
            }
        }
        _ => Ok(ExitCode::from(2)),
    }
}
