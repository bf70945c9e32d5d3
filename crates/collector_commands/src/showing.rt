//! A request in protobuf, shown as JSON.
ghost use Rattle.std.specs.Prelude.{Ok, Err};
ghost use Rattle.collector_commands.specs.Showing.{BodyShows, InputShows, body_of};

use crate::outcome::Outcome;
use crate::surroundings::Surroundings;
use request_show::{BodyFault, Shown, read_body, show};
use std::alloc::{AllocError, Global};
use std::io::{Read, Write};

/// What is shown of the body that standard input has. Why nothing is, is said on standard error.
pub fn show_by<I: Read + Drop, E: Write + Drop>(
    alloc: Global,
    around: Surroundings<I, E>,
) -> Outcome
    ensures { InputShows (I.Read.remaining around.input) result }
{
    let outcome = shown_of(alloc, read_body(alloc, around.input));
    // On standard error, so that what reads the line of JSON gets nothing else (D-243).
    say_refusal(around.errors, &outcome);
    outcome
}

/// Says why a body isn't shown.
fn say_refusal<E: Write + Drop>(errors: E, outcome: &Outcome) {
    let mut errors = errors;
    if let Outcome::NotShown(said) = outcome {
        let _ = errors.write_all(said.as_bytes());
    }
}

/// What is shown of what was read from a body.
fn shown_of(alloc: Global, body: Result<Vec<u8>, BodyFault>) -> Outcome
    ensures { BodyShows (body_of (λ v. v.items) body) result }
{
    match body {
        Ok(body) => shown_in(alloc, &body),
        Err(fault) => unread(alloc, fault),
    }
}

/// What is shown of a body.
fn shown_in(alloc: Global, body: &[u8]) -> Outcome
    ensures { BodyShows (Ok body.now) result }
{
    match show(alloc, body) {
        Ok(Shown::Line(line)) => Outcome::Shown(line),
        Ok(Shown::Refused(said)) => Outcome::NotShown(said),
        Err(AllocError) => Outcome::NoMemory,
    }
}

/// That a body was not read, and why.
fn unread(alloc: Global, fault: BodyFault) -> Outcome
    ensures { BodyShows (Err fault) result }
{
    let said = match fault {
        BodyFault::NoMemory => return Outcome::NoMemory,
        BodyFault::Unreadable => "tsc: body refused: reading it failed\n",
        BodyFault::TooLong => "tsc: body refused: longer than 67108864 bytes\n",
    };
    match String::from_str(alloc, said) {
        Ok(said) => Outcome::NotShown(said),
        Err(_) => Outcome::NoMemory,
    }
}
