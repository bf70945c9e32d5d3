//! The lines of requests that were taken and of ticks.
ghost use Rattle.std.specs.Prelude.{◌≡◌, ℕ, List, ◌++◌};
ghost use Rattle.std.specs.Bool.{OnTrue, OnFalse};
ghost use Rattle.line_entries.specs.RecordLines.{IsCameLine, IsJsonOf, IsRequestLine, line_with};
ghost use Rattle.otlp_encoding.specs.declared.encoding.Encoding.TheVariants.{Protobuf};

use crate::came::{Came, TakenRequest};
use line_writing::LineMaker;
use otlp_encoding::Encoding;
use request_show::{Shown, show};
use script_line::{put_receive, put_tick};
use std::alloc::Global;

/// Makes a line of each request that was taken and each tick.
#[derive(Drop)]
pub struct RecordLines {
    alloc: Global,
}

impl RecordLines {
    /// Memory comes from here.
    pub fn new(alloc: Global) -> Self {
        RecordLines { alloc }
    }
}

impl LineMaker<Came> for RecordLines {
    ghost is_line = { λ _. IsCameLine };

    fn put(&self, text: &mut Vec<u8>, came: &Came) -> bool {
        match came {
            Came::Tick(moment) => put_tick(text, *moment).is_ok(),
            Came::Request(request) => put_request(text, self.alloc, request),
        }
    }
}

/// Puts the line of a request, and says whether it is put.
fn put_request(text: &mut Vec<u8>, alloc: Global, request: &TakenRequest) -> bool
    ensures put { OnTrue result ((line : List ℕ) × IsRequestLine request.now line × (text.new.items ≡ text.old.items ++ line)) }
    ensures same { OnFalse result (text.new.items ≡ text.old.items) }
{
    match request.encoding {
        Encoding::Json => put_body(text, request, request.text.as_slice()),
        Encoding::Protobuf => put_protobuf(text, alloc, request),
    }
}

/// Puts the line of a request whose body is this JSON, and says whether it is put.
fn put_body(text: &mut Vec<u8>, request: &TakenRequest, json: &[u8]) -> bool
    ensures put { OnTrue result (text.new.items ≡ text.old.items ++ line_with request.now json.now) }
    ensures same { OnFalse result (text.new.items ≡ text.old.items) }
{
    put_receive(text, request.connection, request.moment, json).is_ok()
}

/// Puts the line of a request in protobuf, and says whether it is put: its JSON is what `tsc show` prints of it.
fn put_protobuf(text: &mut Vec<u8>, alloc: Global, request: &TakenRequest) -> bool
    ensures put { OnTrue result ((json : List ℕ) × IsJsonOf Protobuf request.now.text.items json × (text.new.items ≡ text.old.items ++ line_with request.now json)) }
    ensures same { OnFalse result (text.new.items ≡ text.old.items) }
{
    match show(alloc, request.text.as_slice()) {
        Ok(Shown::Line(line)) => {
            let end = line.len().saturating_sub(1);
            put_body(text, request, &line[..end])
        }
        _ => false,
    }
}
