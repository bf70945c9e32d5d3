//! How many bytes a text takes in a JSON string (RFC 8259 section 7), by the shortest escapes.
ghost use Rattle.std.specs.Prelude.{◌≡◌, ◌+◌, ◌≤◌, length};
ghost use Rattle.std.specs.Bool.{OnTrue};
ghost use Rattle.json.specs.Print.{escape, escape_byte};
ghost use Rattle.json.specs.Written.{PlainBetween};
ghost use Rattle.span_size.specs.Counting.{capped};

use std::simd::prelude::*;

/// The bytes of a text with its escapes, up to 2^64 - 1. Most texts need none.
#[inline(always)]
pub fn escaped_len(text: &[u8]) -> u64
    ensures { result ≡ capped (length (escape text.now)) }
{
    if is_plain(text) {
        return text.len() as u64;
    }
    few_len(text)
}

/// Whether no byte of a text needs an escape. Two loads that overlap cover a short text.
#[inline(always)]
fn is_plain(text: &[u8]) -> bool
    ensures { OnTrue result (escape text.now ≡ text.now) }
{
    if text.len() <= 32 {
        plain_short(text)
    } else {
        plain_long(text)
    }
}

#[inline(always)]
fn plain_short(text: &[u8]) -> bool
    requires { length text.now ≤ 32 }
    ensures { OnTrue result (PlainBetween text.now 0 (length text.now)) }
{
    let len = text.len();
    if len >= 16 {
        plain_16(text, 0) && plain_16(text, len - 16)
    } else if len >= 8 {
        plain_8(text, 0) && plain_8(text, len - 8)
    } else if len >= 4 {
        plain_4(text, 0) && plain_4(text, len - 4)
    } else {
        plain_few(text)
    }
}

fn plain_long(text: &[u8]) -> bool
    requires { 16 ≤ length text.now }
    ensures { OnTrue result (PlainBetween text.now 0 (length text.now)) }
{
    let mut at = 0;
    while text.len() - at > 16 {
        if !plain_16(text, at) {
            return false;
        }
        at += 16;
    }
    plain_16(text, text.len() - 16)
}

#[inline(always)]
fn plain_16(text: &[u8], at: usize) -> bool
    requires { at + 16 ≤ length text.now }
    ensures { OnTrue result (PlainBetween text.now at (at + 16)) }
{
    let v = u8x16::from_slice(&text[at..]);
    (v.simd_eq(u8x16::splat(b'"'))
        | v.simd_eq(u8x16::splat(b'\\'))
        | v.simd_lt(u8x16::splat(0x20))).to_bitmask()
        == 0
}

#[inline(always)]
fn plain_8(text: &[u8], at: usize) -> bool
    requires { at + 8 ≤ length text.now }
    ensures { OnTrue result (PlainBetween text.now at (at + 8)) }
{
    let v = u8x8::from_slice(&text[at..]);
    (v.simd_eq(u8x8::splat(b'"'))
        | v.simd_eq(u8x8::splat(b'\\'))
        | v.simd_lt(u8x8::splat(0x20))).to_bitmask()
        == 0
}

#[inline(always)]
fn plain_4(text: &[u8], at: usize) -> bool
    requires { at + 4 ≤ length text.now }
    ensures { OnTrue result (PlainBetween text.now at (at + 4)) }
{
    let v = u8x4::from_slice(&text[at..]);
    (v.simd_eq(u8x4::splat(b'"'))
        | v.simd_eq(u8x4::splat(b'\\'))
        | v.simd_lt(u8x4::splat(0x20))).to_bitmask()
        == 0
}

#[inline(always)]
fn plain_few(text: &[u8]) -> bool
    ensures { OnTrue result (PlainBetween text.now 0 (length text.now)) }
{
    for &byte in text {
        if byte == b'"' || byte == b'\\' || byte < 0x20 {
            return false;
        }
    }
    true
}

/// The bytes of a text with its escapes, byte by byte.
#[inline(never)]
fn few_len(text: &[u8]) -> u64
    ensures { result ≡ capped (length (escape text.now)) }
{
    let mut len: u64 = 0;
    for byte in text {
        len = len.saturating_add(byte_len(*byte));
    }
    len
}

/// The bytes of what stands for a byte.
#[tactic(auto, unfolding(json::specs::Print::escape_byte))]
fn byte_len(byte: u8) -> u64
    ensures { result ≡ length (escape_byte byte) }
{
    match byte {
        b'"' | b'\\' | 8 | 9 | 10 | 12 | 13 => 2,
        0..=31 => 6,
        _ => 1,
    }
}
