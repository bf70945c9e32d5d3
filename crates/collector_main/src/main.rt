//! `tsc`: a tail-sampling trace collector. `tsc serve CONFIG` takes requests on a listener until `POST /close`; `tsc
//! replay CONFIG` runs a script of requests and moments from standard input in one thread. Both print the spans that
//! they keep as lines of JSON, which `serve` can send to a backend as well, or instead, and a report of every span's
//! end; a replay prints its replies, too. `tsc validate CONFIG` prints a line for each fault of a configuration; `tsc
//! close CONFIG` asks a running collector to close; `tsc show` prints a request in protobuf as JSON; `tsc ledger DIR`
//! tells what is in the folder of a ledger; `tsc help` and `tsc version` print what they say.
#![tactic(auto)]

mod changed_settings;
mod closing;
mod collecting;
mod keeping;
mod logging;
mod looking;
mod opening;
mod program;
mod report_fields;
mod running;
mod sending;
mod writing_lines;

use crate::program::program;
use collector_commands::{Command, Progress, Surroundings, asked, without_memory};
use std::alloc::{Alloc, Global};
use std::io::{ErrorKind, IsTerminal, Stderr, Stdin};
use std::process::ExitCode;
use std::rt::Env;
use std::{env, fs, io};
use tsc_script::ScriptReads;

fn main(rt: HostRuntime) -> ExitCode {
    let arguments = arguments(&rt);
    let reader = match &arguments {
        Ok(arguments) => script_of(&rt, arguments),
        Err(_) => script_of(&rt, &[]),
    };
    let mut input = ScriptReads { reader };
    let (_, status) = match arguments {
        Ok(arguments) => program(
            &rt,
            rt.alloc(),
            &arguments,
            &mut input,
            surroundings(&rt),
            rt.stdout(),
        ),
        Err(error) if error.kind() == ErrorKind::OutOfMemory => (without_memory(rt.stdout()), 5),
        // An argument that isn't UTF-8 is a wrong one (D-238).
        Err(_) => program(
            &rt,
            rt.alloc(),
            &[],
            &mut input,
            surroundings(&rt),
            rt.stdout(),
        ),
    };
    ExitCode::from(status)
}

/// The script, from standard input; while two runs are compared, a terminal is shown how much of it is read.
fn script_of(rt: &HostRuntime, arguments: &[String]) -> Progress<Stdin, Stderr> {
    let errors = rt.stderr();
    let is_compared = matches!(asked(arguments), Some((Command::Compare(_), _, _)));
    if is_compared && errors.is_terminal() {
        return Progress::new(rt.stdin(), Some(errors), script_size(rt));
    }
    Progress::new(rt.stdin(), None, 0)
}

/// How many bytes standard input has, where it is a file, and else 0.
fn script_size(rt: &HostRuntime) -> u64 {
    match fs::metadata(rt, "/dev/stdin") {
        Ok(metadata) if metadata.is_file() => metadata.len(),
        _ => 0,
    }
}

/// What a collector is given beside its script and its output.
fn surroundings(rt: &HostRuntime) -> Surroundings<Stdin, Stderr> {
    Surroundings {
        input: rt.stdin(),
        errors: rt.stderr(),
        watch_errors: rt.stderr(),
    }
}

/// The arguments behind the program's own name.
fn arguments<R: Env + Alloc<A = Global>>(rt: &R) -> io::Result<Vec<String>> {
    let mut arguments = Vec::new(rt.alloc());
    for argument in env::args(rt)?.skip(1) {
        arguments.push(argument)?;
    }
    Ok(arguments)
}
