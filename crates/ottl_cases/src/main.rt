//! What conditions say, printed. Each line of standard input is a case: a condition, a tab, and a request as OTLP JSON, of whose
//! first span it is asked; or `spanevent`, a tab, and the same, which is asked of that span's first event. It prints `true` or
//! `false`, or `error` and the error's name, or `fault`, the fault's name and its column, or `no expression` where a regular
//! expression is none, or `no case`. So a condition's meaning can be compared with what another implementation makes of it.
//!
//! A case for which memory is refused is asked again, and the lines after it too, and then the program ends with status 1.
//!
//! `ottl_cases time ROUNDS` asks each case so many times, for a count of instructions.
#![tactic(auto)]

use otlp_flatten::flatten;
use otlp_json::{DecodeError, decode};
use otlp_types::Record;
use ottl_condition::{EvalError, Subject, evaluate, workroom_for};
use ottl_text::{Context, Expression, Fault, ParseError, parse};
use std::alloc::{AllocError, Global};
use std::io::Read;
use std::process::ExitCode;
use std::{env, io};

/// What a case's answer is.
#[derive(Drop)]
enum Answer {
    Holds(bool),
    Error(EvalError),
    Fault(Fault),
    NoExpression,
    NoCase,
}

/// What a condition says, asked so many times.
fn say(alloc: Global, condition: &Expression, subject: Subject<'_>, rounds: u32) -> Answer {
    let mut workroom = match workroom_for(alloc, condition) {
        Ok(workroom) => workroom,
        Err(_) => return Answer::NoExpression,
    };
    for _ in 1..rounds {
        let _again = evaluate(condition, subject, &mut workroom);
    }
    match evaluate(condition, subject, &mut workroom) {
        Ok(holds) => Answer::Holds(holds),
        Err(error) => Answer::Error(error),
    }
}

/// What a condition is asked of: a span, or its first event.
fn subject_of(context: Context, sent: &Record) -> Option<Subject<'_>> {
    match context {
        Context::Span => Some(Subject::Span(sent)),
        Context::SpanEvent => {
            let event = sent.span.get().events.as_slice().first()?;
            Some(Subject::Event(sent, event))
        }
    }
}

/// The first span of a request, if it has one. `Err` where memory was refused.
fn first_span(alloc: Global, body: &[u8]) -> Result<Option<Record>, AllocError> {
    match decode(alloc, true, body) {
        Ok(request) => {
            let mut records = flatten(alloc, request)?;
            records.truncate(1);
            Ok(records.pop())
        }
        Err(DecodeError::NoMemory) => Err(AllocError),
        Err(_) => Ok(None),
    }
}

/// What a case's answer is. `Err` where memory was refused.
fn ask(
    alloc: Global,
    context: Context,
    condition: &[u8],
    body: &[u8],
    rounds: u32,
) -> Result<Answer, AllocError> {
    let condition = match parse(alloc, context, condition) {
        Ok(condition) => condition,
        Err(ParseError::Refused(fault)) => return Ok(Answer::Fault(fault)),
        Err(ParseError::NoMemory) => return Err(AllocError),
    };
    let Some(sent) = first_span(alloc, body)? else {
        return Ok(Answer::NoCase);
    };
    match subject_of(context, &sent) {
        Some(subject) => Ok(say(alloc, &condition, subject, rounds)),
        None => Ok(Answer::NoCase),
    }
}

/// What a line's answer is. `Err` where memory was refused.
fn answer_of(alloc: Global, line: &[u8], rounds: u32) -> Result<Answer, AllocError> {
    let mut fields = line.split(|byte| *byte == b'\t');
    match (fields.next(), fields.next(), fields.next()) {
        (Some(condition), Some(body), None) => ask(alloc, Context::Span, condition, body, rounds),
        (Some(word), Some(condition), Some(body)) if word == b"spanevent".as_slice() => {
            ask(alloc, Context::SpanEvent, condition, body, rounds)
        }
        _ => Ok(Answer::NoCase),
    }
}

/// Prints an answer.
fn print(rt: &HostRuntime, answer: &Answer) -> io::Result<()> {
    match answer {
        Answer::Holds(holds) => println!(rt; "{holds}"),
        Answer::Error(error) => println!(rt; "error {error:?}"),
        Answer::Fault(fault) => {
            let kind = fault.kind;
            let column = fault.column;
            println!(rt; "fault {kind:?} {column}")
        }
        Answer::NoExpression => println!(rt; "no expression"),
        Answer::NoCase => println!(rt; "no case"),
    }
}

/// Prints the answer to each line of standard input, each asked so many times. Status 1 where memory was refused.
fn answer_all(rt: &HostRuntime, rounds: u32) -> io::Result<ExitCode> {
    let mut text = Vec::new(rt.alloc());
    rt.reader().read_to_end(&mut text)?;
    let mut refused = false;
    for line in text.split(|byte| *byte == b'\n') {
        if line.is_empty() {
            continue;
        }
        let answer = match answer_of(rt.alloc(), line, rounds) {
            Ok(answer) => answer,
            Err(_) => {
                refused = true;
                answer_of(rt.alloc(), line, rounds)?
            }
        };
        print(rt, &answer)?;
    }
    Ok(ExitCode::from(if refused { 1 } else { 0 }))
}

fn main(rt: HostRuntime) -> io::Result<ExitCode> {
    let mut arguments = Vec::new(rt.alloc());
    for argument in env::args(&rt)?.skip(1) {
        arguments.push(argument)?;
    }
    match arguments.as_slice() {
        [] => answer_all(&rt, 1),
        [word, rounds] if word.as_str() == "time" => match rounds.as_str().parse::<u32>() {
            Ok(rounds) => answer_all(&rt, rounds),
            Err(_) => Ok(ExitCode::from(2)),
        },
        _ => Ok(ExitCode::from(2)),
    }
}
