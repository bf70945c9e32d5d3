//! Tokens written as text.
ghost use Rattle.std.specs.Prelude.{◌≡◌, true, [], ◌∷◌, OnOk};
ghost use Rattle.std.specs.Float.{float_is_finite};
ghost use Rattle.base64.specs.Engines.{standard};
ghost use Rattle.base64.specs.GeneralPurpose.{encode_of};
ghost use Rattle.hex.specs.Hex.{encode_lower};
ghost use Rattle.json.specs.Token.{string, number as json_number};
ghost use Rattle.otlp_types.specs.Doubles.{double_text};
ghost use Rattle.otlp_json.specs.Tokens.{Adds, value_tokens};
ghost use Rattle.otlp_json.specs.Writing.{double_data};

use crate::sink::TokenSink;
use base64::engine::general_purpose::STANDARD;
use json::Writer;
use otlp_json::double_name;
use otlp_types::Double;
use std::alloc::{AllocError, Global};

/// What writes tokens behind some bytes. Where memory was refused, or a text is none, it has failed.
#[derive(Drop)]
pub struct JsonSink {
    pub alloc: Global,
    pub writer: Writer,
    pub failed: bool,
}

impl TokenSink for JsonSink {
    ghost use Rattle.block_json.specs.Writing.{Writes, writes_compose};

    ghost adds = { Writes };

    fn begin_object(&mut self) {
        if let Err(_) = self.writer.begin_object() {
            self.failed = true;
        }
    }

    fn end_object(&mut self) {
        if let Err(_) = self.writer.end_object() {
            self.failed = true;
        }
    }

    fn begin_array(&mut self) {
        if let Err(_) = self.writer.begin_array() {
            self.failed = true;
        }
    }

    fn end_array(&mut self) {
        if let Err(_) = self.writer.end_array() {
            self.failed = true;
        }
    }

    fn key(&mut self, name: &str) {
        if let Err(_) = self.writer.key(name) {
            self.failed = true;
        }
    }

    fn string(&mut self, text: &[u8]) {
        if let Err(_) = write_text(&mut self.writer, text) {
            self.failed = true;
        }
    }

    fn hex(&mut self, bytes: &[u8]) {
        if let Err(_) = write_hex(self.alloc, &mut self.writer, bytes) {
            self.failed = true;
        }
    }

    fn base64(&mut self, bytes: &[u8]) {
        if let Err(_) = write_base64(self.alloc, &mut self.writer, bytes) {
            self.failed = true;
        }
    }

    fn whole(&mut self, n: i64) {
        if let Err(_) = self.writer.i64(n) {
            self.failed = true;
        }
    }

    fn quoted_u64(&mut self, n: u64) {
        if let Err(_) = self.writer.quoted_u64(n) {
            self.failed = true;
        }
    }

    fn quoted_i64(&mut self, n: i64) {
        if let Err(_) = self.writer.quoted_i64(n) {
            self.failed = true;
        }
    }

    fn boolean(&mut self, b: bool) {
        if let Err(_) = self.writer.boolean(b) {
            self.failed = true;
        }
    }

    fn double(&mut self, x: Double) {
        if let Err(_) = write_double(&mut self.writer, &x) {
            self.failed = true;
        }
    }

    ghost composes = { writes_compose };
}

/// A text, as its bytes.
fn write_text(out: &mut Writer, text: &[u8]) -> Result<(), AllocError>
    ensures { OnOk result (Adds out.old out.new (string text.now ∷ [])) }
{
    match str::from_utf8(text) {
        Ok(text) => out.string(text),
        Err(_) => Err(AllocError),
    }
}

/// Bytes as a text of hex digits.
fn write_hex(alloc: Global, out: &mut Writer, bytes: &[u8]) -> Result<(), AllocError>
    ensures { OnOk result (Adds out.old out.new (string (encode_lower bytes.now) ∷ [])) }
{
    let text = hex::encode(alloc, bytes)?;
    out.string(text.as_str())
}

/// Bytes as a base64 text.
fn write_base64(alloc: Global, out: &mut Writer, bytes: &[u8]) -> Result<(), AllocError>
    ensures { OnOk result (Adds out.old out.new (string (encode_of standard bytes.now) ∷ [])) }
{
    let text = STANDARD.encode(alloc, bytes)?;
    out.string(text.as_str())
}

/// A double: a number, or a name in place of one.
fn write_double(out: &mut Writer, x: &Double) -> Result<(), AllocError>
    ensures { OnOk result (Adds out.old out.new (value_tokens (double_data x.now))) }
{
    let value = x.get();
    if value.is_finite() {
        return write_number(out, x);
    }
    out.string(double_name(value))
}

/// A finite double, as a number.
fn write_number(out: &mut Writer, x: &Double) -> Result<(), AllocError>
    requires { float_is_finite x.now ≡ true }
    ensures { OnOk result (Adds out.old out.new (json_number (double_text x.now) ∷ [])) }
{
    let text = x.text();
    out.number(text.as_str())
}
