//! The playing of a script on a machine.
ghost use Rattle.std.specs.Prelude.{◌≡◌, ◌≢◌, ℕ, ◌+◌, ◌++◌, ◌∷◌, Bool, true, false, Option, List, [], Some, Ok, Err, OnOk, IfSome, IfErr, length, ◌≤◌, ◌⊎◌, if◌then◌else◌, vec_capacity};
ghost use Rattle.std.specs.Result.{IsErrOf};
ghost use Rattle.std.specs.Io.KnownBytes.{IsAtEnd};
ghost use Rattle.tsc_script.specs.Instructions.{Instruction, instruction_of_command, close};
ghost use Rattle.tsc_script.specs.Script.{instructions_of, instructions_from};
ghost use Rattle.tsc_script.specs.Lines.{HasNoLineFeed, lines_of};
ghost use Rattle.tsc_script.specs.Reads.{SourceTurn, bytes_given, Gives};
ghost use Rattle.tsc_script.specs.Causes.{IsCausedBy};
ghost use Rattle.tsc_script.specs.ToRead.{CountsReads, Closing};
ghost use Rattle.tsc_script.specs.Stops.{IfRefused, IsAtLine, MatchRefusedDown, is_up_after};
ghost use Rattle.tsc_script.specs.Progress.{Ends, StopsAfter};

use crate::buffer::ReadBuffer;
use crate::command::ScriptCommand;
use crate::grammar::parse;
use crate::limits::MAX_LINE_BYTES;
use crate::lines::{LineEnd, read_line};
use crate::player::ScriptPlayer;
use crate::reads::ScriptSource;
use crate::stop::ScriptStop;
use std::alloc::{Allocator, Global};

/// Plays a script, line by line. The memory for a line (4,194,368 bytes) and for a read (65,536 bytes) is taken at the
/// start, before anything is read or played. Once the machine takes no further instruction, no further line is read,
/// and `close` is played. The reader may have given bytes behind the last line that was used.
pub fn play_script<R: ScriptSource, M: ScriptPlayer>(
    alloc: Global,
    reader: &mut R,
    machine: &mut M,
) -> Result<(), ScriptStop>
    requires start { (m : M) → M.leads m [] m }
    requires open { M.is_closed machine.old ≡ false }
    requires up { M.is_up machine.old ≡ true }

    // The reader was read to its end, and all that it gave was played.
    ensures whole { OnOk result ((instructions : List Instruction)
        × Ends (R.given reader.old).left (R.given reader.new).left instructions
        × M.leads machine.old instructions machine.new) }

    // Just the lines before were played, and at `Down` a close behind them.
    ensures stopped { IfErr result (StopsAfter
        (λ done. M.leads machine.old done machine.new)
        (λ done. (fallen : M) × M.leads machine.old done fallen × (M.is_up fallen ≡ false) × M.leads fallen (close ∷ []) machine.new)
        (R.given reader.old).left (R.given reader.new).left) }
    ensures no_memory { IsErrOf result ScriptStop.NoMemory
        → (machine.new ≡ machine.old) × (reader.new ≡ reader.old) }

    // Each answer comes of what the reads gave, of which there are 2^32 at most.
    ensures caused { (turns : List SourceTurn) × Gives (R.given reader.old) (R.given reader.new) turns
        × (length turns ≤ 4294967296) × IsCausedBy result turns }

    // It is the first refused line of all that the reader would give.
    ensures refused { IfErr result (λ stop. IfRefused stop (λ number.
        IfSome (R.given reader.old).left (λ script. instructions_of script ≡ Err number))) }

    ensures up { M.is_up machine.new ≡ is_up_after result }
    ensures closed { OnOk result (M.is_closed machine.new ≡ true) }
    ensures down_closed { IsErrOf result ScriptStop.Down → M.is_closed machine.new ≡ true }
{
    let Ok(mut line) = Vec::with_capacity(alloc, MAX_LINE_BYTES) else {
        return Err(ScriptStop::NoMemory);
    };
    let Ok(mut buffer) = ReadBuffer::new(alloc) else {
        return Err(ScriptStop::NoMemory);
    };
    for number in 1..u64::MAX {
        match read_line(reader, &mut buffer, &mut line) {
            LineEnd::LineFeed => {}
            LineEnd::Input => return play_last(machine, &line, number),
            LineEnd::TooLong => return Err(ScriptStop::Refused(number)),
            LineEnd::Fault => return Err(ScriptStop::Fault(number)),
        }
        let Some(command) = parse(&line) else {
            return Err(ScriptStop::Refused(number));
        };
        if let ScriptCommand::Close = command {
            if !machine.play(command) {
                return Err(ScriptStop::Down);
            }
            return expect_end(reader, &mut buffer, &mut line, number + 1);
        }
        if !machine.play(command) {
            machine.play(ScriptCommand::Close);
            return Err(ScriptStop::Down);
        }
    }
    // The bound on reads ends each script before this.
    Err(ScriptStop::Fault(u64::MAX))
}

/// Plays the text behind the last line feed, and closes.
fn play_last<M: ScriptPlayer>(machine: &mut M, line: &[u8], number: u64) -> Result<(), ScriptStop>
    requires short { length line.now ≤ MAX_LINE_BYTES }
    requires plain { HasNoLineFeed line.now }
    requires open { M.is_closed machine.old ≡ false }
    requires up { M.is_up machine.old ≡ true }
    ensures whole { OnOk result ((more : List Instruction)
        × (instructions_from number (lines_of line.now) ≡ Ok (more ++ close ∷ []))
        × ((start : M) (done : List Instruction) → M.leads start done machine.old
        → M.leads start ((done ++ more) ++ close ∷ []) machine.new)) }
    ensures stopped { IfErr result (λ stop. MatchRefusedDown stop
        (machine.new ≡ machine.old)
        ((more : List Instruction)
        × (instructions_from number (lines_of line.now) ≡ Ok (more ++ close ∷ []))
        × ((start : M) (done : List Instruction) → M.leads start done machine.old
        → M.leads start ((done ++ more) ++ close ∷ []) machine.new))) }
    ensures refused { IfErr result (λ stop. IfRefused stop (λ at.
        (at ≡ number) × (instructions_from number (lines_of line.now) ≡ Err number))) }
    ensures up { M.is_up machine.new ≡ is_up_after result }
    ensures closed { OnOk result (M.is_closed machine.new ≡ true) }
    ensures down_closed { IsErrOf result ScriptStop.Down → M.is_closed machine.new ≡ true }
{
    if line.is_empty() {
        return finish(machine);
    }
    let Some(command) = parse(line) else {
        return Err(ScriptStop::Refused(number));
    };
    if let ScriptCommand::Close = command {
        return finish(machine);
    }
    machine.play(command);
    finish(machine)
}

/// Closes the machine.
fn finish<M: ScriptPlayer>(machine: &mut M) -> Result<(), ScriptStop>
    requires open { M.is_closed machine.old ≡ false }
    ensures played { (start : M) (done : List Instruction) → M.leads start done machine.old
        → M.leads start (done ++ close ∷ []) machine.new }
    ensures only_down { IfErr result (λ stop. stop ≡ ScriptStop.Down) }
    ensures up { M.is_up machine.new ≡ is_up_after result }
    ensures closed { M.is_closed machine.new ≡ true }
{
    if machine.play(ScriptCommand::Close) {
        Ok(())
    } else {
        Err(ScriptStop::Down)
    }
}

/// Reads on after the line before this one, behind which nothing may stand.
fn expect_end<R: ScriptSource, A: Allocator, B: Allocator>(
    reader: &mut R,
    buffer: &mut ReadBuffer<A>,
    line: &mut Vec<u8, B>,
    number: u64,
) -> Result<(), ScriptStop>
    requires { MAX_LINE_BYTES ≤ vec_capacity line.old }
    ensures turns { (turns : List SourceTurn) × Gives (R.given reader.old) (R.given reader.new) turns
        × CountsReads buffer.old.reads buffer.new.reads turns
        × Closing result number (buffer.old.bytes ++ bytes_given turns) buffer.new.reads turns }
    ensures end { OnOk result (IsAtEnd (R.given reader.new).left) }
{
    match read_line(reader, buffer, line) {
        LineEnd::Fault => Err(ScriptStop::Fault(number)),
        LineEnd::LineFeed => Err(ScriptStop::Refused(number)),
        LineEnd::TooLong => Err(ScriptStop::Refused(number)),
        LineEnd::Input => {
            if line.is_empty() {
                Ok(())
            } else {
                Err(ScriptStop::Refused(number))
            }
        }
    }
}
