//! Spans as blocks, beside the same spans as trees. Each line of standard input is a JSON body in hexadecimal digits
//! (`tests/readings/generate.py`). Of each span of a body that is a request it compares what `block_json` writes of its
//! block with what `otlp_json` writes of its tree, in a request that holds it alone; the text's length with the block's
//! size; and the same of the span that is unpacked. It prints a line for each span that differs, and how many there were;
//! `block_table shares` also prints how many had a block. The contracts say all that, so this tries what they stand on:
//! the kit's statements and the compilers.
//!
//! `block_table time KIND ROUNDS FILE` does one thing with the spans of a body so many times, for a count of
//! instructions: `none`, `pack`, `unpack`, `put`, `encode`, `block_size` or `span_size`.
#![tactic(auto)]

mod compared;
mod timing;

use crate::compared::{Difference, compare};
use otlp_json::decode;
use otlp_types::Span;
use std::alloc::{AllocError, Global};
use std::io::Read;
use std::process::ExitCode;
use std::{env, io};

/// How many bodies, requests, and spans there were.
#[derive(Clone, Copy, Default)]
struct Counted {
    bodies: u64,
    requests: u64,
    packed: u64,
    without_block: u64,
    different: u64,
}

/// The spans of a request, with nothing around them.
pub fn spans_of(alloc: Global, body: &[u8]) -> Result<Option<Vec<Span>>, AllocError> {
    let Ok(request) = decode(alloc, true, body) else {
        return Ok(None);
    };
    let mut spans = Vec::new(alloc);
    for of_resource in request.resource_spans.into_vec() {
        for of_scope in of_resource.scope_spans.into_vec() {
            for span in of_scope.spans.into_vec() {
                spans.push(span)?;
            }
        }
    }
    Ok(Some(spans))
}

/// Compares the spans of a body, and counts them.
fn count(rt: &HostRuntime, body: &[u8], found: &mut Counted) -> io::Result<()> {
    found.bodies = found.bodies.saturating_add(1);
    let Some(spans) = spans_of(rt.alloc(), body)? else {
        return Ok(());
    };
    found.requests = found.requests.saturating_add(1);
    for span in spans {
        match compare(rt.alloc(), span)? {
            None => found.without_block = found.without_block.saturating_add(1),
            Some(Difference::None) => found.packed = found.packed.saturating_add(1),
            Some(other) => {
                found.different = found.different.saturating_add(1);
                let body = found.bodies;
                println!(rt; "body {body}: {}", other.name())?;
            }
        }
    }
    Ok(())
}

/// Compares the spans of all bodies of standard input. Status 1 where one differs.
fn compare_all(rt: &HostRuntime, shares: bool) -> io::Result<ExitCode> {
    let mut text = Vec::new(rt.alloc());
    rt.reader().read_to_end(&mut text)?;
    let _last_line_end = text.pop();
    let mut found = Counted::default();
    for line in text.split(|byte| *byte == b'\n') {
        if let Ok(body) = hex::decode(rt.alloc(), line) {
            count(rt, body.as_slice(), &mut found)?;
        }
    }
    if shares {
        println!(rt;
            "{} requests, {} spans packed, {} without a block",
            found.requests, found.packed, found.without_block
        )?;
    }
    println!(rt; "{} bodies, {} spans differ", found.bodies, found.different)?;
    Ok(ExitCode::from(if found.different == 0 { 0 } else { 1 }))
}

fn main(rt: HostRuntime) -> io::Result<ExitCode> {
    let mut arguments = Vec::new(rt.alloc());
    for argument in env::args(&rt)?.skip(1) {
        arguments.push(argument)?;
    }
    match arguments.as_slice() {
        [] => compare_all(&rt, false),
        [word] if word.as_str() == "shares" => compare_all(&rt, true),
        [word, kind, rounds, file] if word.as_str() == "time" => {
            timing::measure(&rt, kind.as_str(), rounds.as_str(), file.as_str())
        }
        _ => Ok(ExitCode::from(2)),
    }
}
