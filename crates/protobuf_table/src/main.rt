//! What bodies are read as, printed. Each line of standard input is a body: `p` for protobuf or `j` for JSON, each a
//! capital where doubles are kept, a space, and hexadecimal digits. It prints the canonical JSON text of each request, or
//! an exclamation mark and the fault. So a request can be compared with what another implementation reads of its bytes
//! (`tests/readings/protobuf.py`). The gate runs it on the bodies of `stdin`.
//!
//! A body for which memory is refused is read again, and the lines after it too, and then the program ends with status 1.
//! So a run for each allocation that is refused in turn (`tests/refused_memory`) shows that no answer changes.
//!
//! `protobuf_table time ROUNDS FILE` reads each body of a file of such lines so many times, for a count of instructions.
#![tactic(auto)]

use hex::FromHexError;
use otlp_json::encode;
use otlp_types::Request;
use std::alloc::{AllocError, Global};
use std::io::Read;
use std::process::ExitCode;
use std::{env, fs, io};

/// What a line is read as.
#[derive(Drop)]
enum Answer {
    /// A request: its canonical text.
    Text(Vec<u8>),
    /// No request: the fault's text.
    Fault(String),
    /// No body.
    NoLine,
}

/// What a protobuf body is read as. `Err` where memory was refused.
fn read_protobuf(
    alloc: Global,
    keeps_doubles: bool,
    body: &[u8],
) -> Result<Result<Request, String>, AllocError> {
    match otlp_protobuf::decode(alloc, keeps_doubles, body) {
        Ok(request) => Ok(Ok(request)),
        Err(otlp_protobuf::DecodeError::Refused(fault)) => Ok(Err(format!(in alloc; "{fault}")?)),
        Err(otlp_protobuf::DecodeError::NoMemory) => Err(AllocError),
    }
}

/// What a JSON body is read as. `Err` where memory was refused.
fn read_json(
    alloc: Global,
    keeps_doubles: bool,
    body: &[u8],
) -> Result<Result<Request, String>, AllocError> {
    match otlp_json::decode(alloc, keeps_doubles, body) {
        Ok(request) => Ok(Ok(request)),
        Err(otlp_json::DecodeError::NoMemory) => Err(AllocError),
        Err(fault) => Ok(Err(format!(in alloc; "{fault}")?)),
    }
}

/// What a body is read as by this word. `Err` where memory was refused.
fn read(alloc: Global, word: u8, body: &[u8]) -> Result<Answer, AllocError> {
    let found = match word {
        b'p' | b'P' => read_protobuf(alloc, word == b'P', body)?,
        b'j' | b'J' => read_json(alloc, word == b'J', body)?,
        _ => return Ok(Answer::NoLine),
    };
    match found {
        Ok(request) => Ok(Answer::Text(encode(alloc, &request)?)),
        Err(fault) => Ok(Answer::Fault(fault)),
    }
}

/// What a line is read as. `Err` where memory was refused.
fn answer_of(alloc: Global, line: &[u8]) -> Result<Answer, AllocError> {
    if line.len() < 2 || line[1] != b' ' {
        return Ok(Answer::NoLine);
    }
    match hex::decode(alloc, &line[2..]) {
        Ok(body) => read(alloc, line[0], body.as_slice()),
        Err(FromHexError::OutOfMemory) => Err(AllocError),
        Err(_) => Ok(Answer::NoLine),
    }
}

/// Prints an answer.
fn print(rt: &HostRuntime, answer: &Answer) -> io::Result<()> {
    match answer {
        Answer::Text(text) => match str::from_utf8(text.as_slice()) {
            Ok(text) => println!(rt; "{text}"),
            Err(_) => println!(rt; "? no text"),
        },
        Answer::Fault(fault) => println!(rt; "! {fault}"),
        Answer::NoLine => println!(rt; "? no line"),
    }
}

/// Prints the answer to each line of standard input. Status 1 where memory was refused.
fn answer_all(rt: &HostRuntime) -> io::Result<ExitCode> {
    let mut text = Vec::new(rt.alloc());
    rt.reader().read_to_end(&mut text)?;
    let mut refused = false;
    for line in text.split(|byte| *byte == b'\n') {
        if line.is_empty() {
            continue;
        }
        let answer = match answer_of(rt.alloc(), line) {
            Ok(answer) => answer,
            Err(_) => {
                refused = true;
                answer_of(rt.alloc(), line)?
            }
        };
        print(rt, &answer)?;
    }
    Ok(ExitCode::from(if refused { 1 } else { 0 }))
}

/// Reads a body so many times. Returns whether it was read each time.
fn again(alloc: Global, word: u8, body: &[u8], rounds: u32) -> bool {
    let mut found = true;
    for _ in 0..rounds {
        let was_read = match word {
            b'p' | b'P' => otlp_protobuf::decode(alloc, word == b'P', body).is_ok(),
            _ => otlp_json::decode(alloc, word == b'J', body).is_ok(),
        };
        found = found && was_read;
    }
    found
}

/// Reads the bodies of a file so many times, and prints a line for each.
fn measure(rt: &HostRuntime, rounds: u32, file: &str) -> io::Result<ExitCode> {
    let text = fs::read(rt, file)?;
    for line in text.split(|byte| *byte == b'\n') {
        if line.len() < 2 {
            continue;
        }
        if let Ok(body) = hex::decode(rt.alloc(), &line[2..]) {
            let found = again(rt.alloc(), line[0], body.as_slice(), rounds);
            let length = body.len();
            println!(rt; "{length} bytes, read: {found}")?;
        }
    }
    Ok(ExitCode::from(0))
}

fn main(rt: HostRuntime) -> io::Result<ExitCode> {
    let mut arguments = Vec::new(rt.alloc());
    for argument in env::args(&rt)?.skip(1) {
        arguments.push(argument)?;
    }
    match arguments.as_slice() {
        [] => answer_all(&rt),
        [word, rounds, file] if word.as_str() == "time" => match rounds.as_str().parse::<u32>() {
            Ok(rounds) => measure(&rt, rounds, file.as_str()),
            Err(_) => Ok(ExitCode::from(2)),
        },
        _ => Ok(ExitCode::from(2)),
    }
}
