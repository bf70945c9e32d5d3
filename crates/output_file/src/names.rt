//! The names of an output's files.
ghost use Rattle.std.specs.Prelude.{◌≡◌, ◌<◌, ◌≤◌, ◌+◌, ℕ, List, Option, true, false, IfOk, OnOk, OnErr};
ghost use Rattle.output_file.specs.Names.{TellsTaken, Changes, AreSoMany, IsShiftedBehind, shifted, moved};

use std::io;

/// The names of an output's files: its path is the name 0, and what was left of it last has the name 1, and so on.
pub trait OutputNames {
    /// Which file has each name, from that of the number 0 on, where that is known.
    ghost names: { Self → Option (List (Option ℕ)) };

    /// Whether a file has the name of this number. An error: that can't be told, or what has it is no file.
    fn is_taken(&self, number: u32) -> io::Result<bool>
        ensures { IfOk result (TellsTaken (names self.now) number) };

    /// The file of this number's name gets the next one, and what had that is lost. An error: nothing has changed.
    fn move_up(&mut self, number: u32) -> io::Result<()>
        ensures moved { OnOk result (Changes (moved number) (names self.old) (names self.new)) }
        ensures failed { OnErr result (Changes (λ same. same) (names self.old) (names self.new)) };
}

/// Makes the output's path free: the file of each name gets the next one, up to the first name that is free, or up to
/// the last of so many names behind the path, whose file is lost. An error: a name can't be told or changed; then some
/// of the last files have moved already, and a later call goes on from there.
pub fn shift_names<N: OutputNames>(names: &mut N, keep: u32) -> io::Result<()>
    requires some { 0 < keep }
    requires so_many { AreSoMany (keep + 1) (N.names names.old) }
    ensures shifted { OnOk result (Changes shifted (N.names names.old) (N.names names.new)) }
    ensures behind { OnErr result (IsShiftedBehind (N.names names.old) (N.names names.new)) }
{
    let mut number = first_free(names, keep)?;
    while 0 < number {
        number -= 1;
        names.move_up(number)?;
    }
    Ok(())
}

/// The first name that is free, or the last one there is.
fn first_free<N: OutputNames>(names: &N, keep: u32) -> io::Result<u32>
    ensures within { IfOk result (λ free. free ≤ keep) }
    ensures taken { IfOk result (λ free. (j : ℕ) → j < free → TellsTaken (N.names names.now) j true) }
    ensures free { IfOk result (λ free. free < keep → TellsTaken (N.names names.now) free false) }
{
    let mut number = 0;
    while number < keep {
        if !names.is_taken(number)? {
            return Ok(number);
        }
        number += 1;
    }
    Ok(keep)
}
