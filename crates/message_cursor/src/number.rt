//! Numbers at the front of bytes.
ghost use Rattle.std.specs.Prelude.{◌≡◌, ◌<◌, length, IfOk};
ghost use Rattle.protobuf_wire.specs.Wire.{number};
ghost use Rattle.protobuf_wire.specs.Seen.{SeenAs};

use protobuf_wire::WireFault;

/// The number at the front, of at most ten bytes and 64 bits, and the bytes behind it.
#[inline(always)]
pub fn number(bytes: &[u8]) -> Result<(u64, &[u8]), WireFault>
    ensures value { SeenAs (λ x. (x.0, x.1.now)) result (number bytes.now) }
    ensures shorter { IfOk result (λ x. length x.1.now < length bytes.now) }
{
    if bytes.len() > 0 && bytes[0] < 128 {
        return Ok((bytes[0] as u64, &bytes[1..]));
    }
    long_number(bytes)
}

/// The same, of any length.
#[inline(never)]
fn long_number(bytes: &[u8]) -> Result<(u64, &[u8]), WireFault>
    ensures value { SeenAs (λ x. (x.0, x.1.now)) result (number bytes.now) }
    ensures shorter { IfOk result (λ x. length x.1.now < length bytes.now) }
{
    let mut value = 0u64;
    for i in 0..9u32 {
        if i as usize >= bytes.len() {
            return Err(WireFault::Truncated);
        }
        let byte = bytes[i as usize];
        let bits = ((byte % 128) as u64) << (7 * i);
        value += bits;
        if byte < 128 {
            return Ok((value, &bytes[i as usize + 1..]));
        }
    }
    if bytes.len() == 9 {
        return Err(WireFault::Truncated);
    }
    let last = bytes[9];
    if last >= 128 {
        return Err(WireFault::VarintTooLong);
    }
    Ok((
        value + ((last % 2) as u64) * 0x8000_0000_0000_0000,
        &bytes[10..],
    ))
}
