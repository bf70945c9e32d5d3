//! One thing that is done with spans again and again, for a count of instructions.
use crate::spans_of;
use block_json::{block_size, put_span};
use otlp_json::{decode, encode};
use otlp_types::Span;
use span_block::SpanBlock;
use span_size::span_size;
use std::alloc::{AllocError, Global};
use std::process::ExitCode;
use std::{fs, io};

/// Does this with the span, and returns how many bytes came of it.
fn done(alloc: Global, kind: &str, span: &Span, block: &SpanBlock) -> Result<u64, AllocError> {
    match kind {
        "pack" => match SpanBlock::pack(alloc, span) {
            Ok(block) => Ok(block.as_bytes().len() as u64),
            Err(_) => Err(AllocError),
        },
        "unpack" => Ok(block.unpack(alloc)?.name.as_str().len() as u64),
        "put" => {
            let mut out = Vec::with_capacity(alloc, 4096)?;
            put_span(alloc, &mut out, block)?;
            Ok(out.len() as u64)
        }
        "block_size" => Ok(block_size(block)),
        "span_size" => Ok(span_size(span)),
        _ => Ok(0),
    }
}

/// Does this with each span so many times, and prints how many bytes came of it.
fn again(rt: &HostRuntime, kind: &str, rounds: u32, spans: Vec<Span>) -> io::Result<()> {
    let mut bytes: u64 = 0;
    let mut packed: u64 = 0;
    for span in spans {
        let Ok(block) = SpanBlock::pack(rt.alloc(), &span) else {
            continue;
        };
        packed = packed.saturating_add(1);
        for _ in 0..rounds {
            bytes = bytes.saturating_add(done(rt.alloc(), kind, &span, &block)?);
        }
    }
    println!(rt; "{packed} spans, {bytes} bytes")
}

/// Writes the request of a body by its tree so many times, and prints how many bytes came of it.
fn encode_again(rt: &HostRuntime, rounds: u32, body: &[u8]) -> io::Result<()> {
    let Ok(request) = decode(rt.alloc(), true, body) else {
        return Ok(());
    };
    let mut bytes: u64 = 0;
    for _ in 0..rounds {
        bytes = bytes.saturating_add(encode(rt.alloc(), &request)?.len() as u64);
    }
    println!(rt; "{bytes} bytes")
}

/// Does this with the spans of a body so many times.
pub fn measure(rt: &HostRuntime, kind: &str, rounds: &str, file: &str) -> io::Result<ExitCode> {
    let body = fs::read(rt, file)?;
    let Ok(rounds) = rounds.parse::<u32>() else {
        return Ok(ExitCode::from(2));
    };
    if kind == "encode" {
        encode_again(rt, rounds, body.as_slice())?;
        return Ok(ExitCode::from(0));
    }
    match spans_of(rt.alloc(), body.as_slice())? {
        Some(spans) => again(rt, kind, rounds, spans)?,
        None => return Ok(ExitCode::from(1)),
    }
    Ok(ExitCode::from(0))
}
