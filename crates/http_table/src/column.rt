//! The bytes of a column: `\r`, `\n`, `\t`, `\\` and `\xHH` are one byte each, `\(N:TEXT)` is TEXT, which has no
//! repeat in it, N times, and every other character stands for itself.
use std::alloc::{AllocError, Global};

/// The value of a hexadecimal digit, or 0.
fn digit(byte: u8) -> u8 {
    match byte {
        b'0'..=b'9' => byte - b'0',
        b'a'..=b'f' => byte - b'a' + 10,
        _ => 0,
    }
}

/// What the bytes before one of a column leave open.
#[derive(Clone, Copy, Drop)]
enum Escape {
    /// Nothing.
    Closed,
    /// A backslash came.
    Open,
    /// The first digit of a byte is to come.
    High,
    /// The second is, behind this one.
    Low(u8),
}

impl Escape {
    /// The byte that this one of a column gives, if it gives one, and what is open behind it.
    fn behind(self, byte: u8) -> (Option<u8>, Escape) {
        match self {
            Escape::Closed if byte == b'\\' => (None, Escape::Open),
            Escape::Closed => (Some(byte), Escape::Closed),
            Escape::Open if byte == b'x' => (None, Escape::High),
            Escape::Open => (Some(meant(byte)), Escape::Closed),
            Escape::High => (None, Escape::Low(digit(byte))),
            Escape::Low(high) => (
                Some(high.wrapping_mul(16).wrapping_add(digit(byte))),
                Escape::Closed,
            ),
        }
    }
}

/// The byte that a letter behind a backslash stands for.
fn meant(letter: u8) -> u8 {
    match letter {
        b'r' => b'\r',
        b'n' => b'\n',
        b't' => b'\t',
        other => other,
    }
}

/// Puts the bytes of a text that has no repeat behind others.
fn put_plain(bytes: &mut Vec<u8>, text: &[u8]) -> Result<(), AllocError> {
    let mut escape = Escape::Closed;
    for byte in text {
        let (put, next) = escape.behind(*byte);
        escape = next;
        if let Some(byte) = put {
            bytes.push(byte)?;
        }
    }
    Ok(())
}

/// Puts the bytes of a repeat, `N:TEXT`, behind others.
fn put_repeat(alloc: Global, bytes: &mut Vec<u8>, text: &str) -> Result<(), AllocError> {
    let Some((times, plain)) = text.split_once(':') else {
        return Ok(());
    };
    let mut once = Vec::new(alloc);
    put_plain(&mut once, plain.as_bytes())?;
    for _ in 0..times.parse::<u32>().unwrap_or(0) {
        bytes.extend_from_slice(&once)?;
    }
    Ok(())
}

/// The bytes that a column stands for.
pub fn bytes_of(alloc: Global, column: &str) -> Result<Vec<u8>, AllocError> {
    let mut bytes = Vec::new(alloc);
    let mut is_first = true;
    for part in column.split("\\(") {
        if is_first {
            put_plain(&mut bytes, part.as_bytes())?;
        } else if let Some((repeat, behind)) = part.split_once(')') {
            put_repeat(alloc, &mut bytes, repeat)?;
            put_plain(&mut bytes, behind.as_bytes())?;
        }
        is_first = false;
    }
    Ok(bytes)
}
