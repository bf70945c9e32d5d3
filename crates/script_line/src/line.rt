//! The lines.
ghost use Rattle.std.specs.Prelude.{◌≡◌, ◌++◌, ◌∷◌, [], ◌<◌, ◌≤◌, ◌^◌, ◌+◌, length, OnOk};
ghost use Rattle.std.specs.Result.{IsErrOf, OnErr};
ghost use Rattle.std.specs.Bool.{OnTrue};
ghost use Rattle.tsc_script.specs.Instructions.{receive, tick};
ghost use Rattle.script_line.specs.Appending.{Appends};
ghost use Rattle.script_line.specs.Line.{ReadsAs, on_one_line, receive_line, tick_line};

use crate::fault::LineFault;
use crate::putting::{put_number, put_on_one_line, put_str};
use std::alloc::AllocError;

/// How many bytes a script's line may have, without its line feed.
const MOST_BYTES: usize = 4_194_368;

/// Appends the line of a request: one with this body came on this connection at this moment. Each line feed and carriage
/// return of the body becomes a space: in JSON they stand between tokens alone (RFC 8259, sections 2 and 7), so it has
/// the same value. `Err`: the bytes are as they were.
pub fn put_receive(
    line: &mut Vec<u8>,
    connection: u64,
    moment: u64,
    body: &[u8],
) -> Result<(), LineFault>
    ensures line { OnOk result (line.new.items ≡ line.old.items ++ (receive_line connection moment body.now ++ 10 ∷ [])) }
    ensures back { OnOk result (ReadsAs (receive_line connection moment body.now) (receive connection moment (on_one_line body.now))) }
    ensures too_long { IsErrOf result LineFault.TooLong → 4194368 < length (receive_line connection moment body.now) }
    ensures same { OnErr result (line.new.items ≡ line.old.items) }
{
    let before = line.len();
    let put = append_receive(line, connection, moment, body);
    if put.is_err() {
        line.truncate(before);
    }
    put
}

/// Appends the line of a request. An `Err` may leave some of it behind the bytes that were there.
fn append_receive(
    line: &mut Vec<u8>,
    connection: u64,
    moment: u64,
    body: &[u8],
) -> Result<(), LineFault>
    ensures text { Appends result line.old.items line.new.items (receive_line connection moment body.now ++ 10 ∷ []) }
    ensures fits { OnOk result (length (receive_line connection moment body.now) ≤ 4194368) }
    ensures too_long { IsErrOf result LineFault.TooLong → 4194368 < length (receive_line connection moment body.now) }
    ensures ranges { (connection < 2 ^ 64) × (moment < 2 ^ 64) }
{
    let before = line.len();
    put_number(line, "recv ", connection)?;
    put_number(line, " ", moment)?;
    put_str(line, " ")?;
    let head = line.len() - before;
    if head.saturating_add(body.len()) > MOST_BYTES {
        return Err(LineFault::TooLong);
    }
    put_on_one_line(line, body)?;
    put_str(line, "\n")?;
    Ok(())
}

/// Appends the line of a tick at this moment. `Err` where memory was refused: the bytes are as they were.
pub fn put_tick(line: &mut Vec<u8>, moment: u64) -> Result<(), AllocError>
    ensures line { OnOk result (line.new.items ≡ line.old.items ++ (tick_line moment ++ 10 ∷ [])) }
    ensures back { OnOk result (ReadsAs (tick_line moment) (tick moment)) }
    ensures same { OnErr result (line.new.items ≡ line.old.items) }
{
    let start = line.len();
    let put = append_tick(line, moment);
    if put.is_err() {
        line.truncate(start);
    }
    put
}

/// Appends the line of a tick. An `Err` may leave some of it behind the bytes that were there.
fn append_tick(line: &mut Vec<u8>, moment: u64) -> Result<(), AllocError>
    ensures text { Appends result line.old.items line.new.items (tick_line moment ++ 10 ∷ []) }
    ensures range { moment < 2 ^ 64 }
{
    put_number(line, "tick ", moment)?;
    put_str(line, "\n")
}
