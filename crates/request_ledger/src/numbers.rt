//! Numbers at a place of a payload.
ghost use Rattle.std.specs.Prelude.{◌≡◌, ◌+◌, ◌≤◌, length, drop};
ghost use Rattle.std.specs.Int.{w16, w64, from_le_bytes};

/// The number of 64 bits that begins there.
pub(crate) fn number_at(bytes: &[u8], at: usize) -> u64
    requires { at + 8 ≤ length bytes.now }
    ensures { result ≡ from_le_bytes w64 (drop at bytes.now) }
{
    let number = &bytes[at..];
    u64::from_le_bytes([
        number[0], number[1], number[2], number[3], number[4], number[5], number[6], number[7],
    ])
}

/// The number of 16 bits that begins there.
pub(crate) fn short_number_at(bytes: &[u8], at: usize) -> u16
    requires { at + 2 ≤ length bytes.now }
    ensures { result ≡ from_le_bytes w16 (drop at bytes.now) }
{
    let number = &bytes[at..];
    u16::from_le_bytes([number[0], number[1]])
}
