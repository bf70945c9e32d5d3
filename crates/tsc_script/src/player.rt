//! What a script drives.
ghost use Rattle.std.specs.Prelude.{◌≡◌, ◌++◌, ◌∷◌, Bool, true, false, List, []};
ghost use Rattle.tsc_script.specs.Instructions.{Instruction, instruction_of_command, close, is_close};

use crate::command::ScriptCommand;

/// What a script drives.
pub trait ScriptPlayer {
    /// That these instructions, played in order, may lead from one state to another.
    ghost leads: { Self → List Instruction → Self → Type 0 };

    /// Whether it takes further instructions.
    ghost is_up: { Self → Bool };

    /// Whether it has been told that nothing more comes.
    ghost is_closed: { Self → Bool };

    /// Plays an instruction, and answers whether it takes further ones. Where it doesn't, a `close` ends it.
    fn play(&mut self, command: ScriptCommand<'_>) -> bool
        requires open { is_closed self.old ≡ false }

        // Once it takes no further instruction, only a close may follow.
        requires up { is_up self.old ≡ false → instruction_of_command command ≡ close }

        ensures played { (start : Self) (done : List Instruction) → leads start done self.old
            → leads start (done ++ instruction_of_command command.entry ∷ []) self.new }
        ensures up { result ≡ is_up self.new }
        ensures stays_down { is_up self.old ≡ false → is_up self.new ≡ false }
        ensures closed { is_closed self.new ≡ is_close (instruction_of_command command.entry) };
}
