//! The program: what its arguments ask for is done, and then it ends.
ghost use Rattle.std.specs.Prelude.{ℕ, List, Result, map, string_bytes};
ghost use Rattle.collector_commands.specs.declared.configuration.FileFault.{FileFault};
ghost use Rattle.collector_main.specs.Ending.{CameTo, Ends};

use crate::closing::close_by;
use crate::collecting::serve_by;
use crate::looking::{look_into, say_ledger};
use collector_commands::{
    Command, Outcome, Surroundings, TEXT_ROOM, asked, compare_by, finish, read_file, replay_by,
    show_by, tell_ledger, told_of, without_memory,
};
use pipeline::Machine;
use std::alloc::Global;
use std::fs::File;
use std::io::{Read, Write};
use std::net::{Net, TcpListener, TcpStream};
use std::rt::Files;
use tsc_script::ScriptSource;

/// Runs the program with the arguments behind its own name. `reader` gives a script. It gives the writer back beside
/// the exit status.
pub fn program<
    Runtime: Files<File = File>
        + Net<Listener = TcpListener, Stream = TcpStream>
        + Machine
        + Copy
        + Send
        + 'static,
    Script: ScriptSource,
    Input: Read + Send + Drop + 'static,
    Errors: Write + Send + Drop + 'static,
    Writer: Write + Drop,
>(
    rt: &Runtime,
    alloc: Global,
    arguments: &[String],
    reader: &mut Script,
    around: Surroundings<Input, Errors>,
    writer: Writer,
) -> (Writer, u8)
where
    Runtime::Dir: Send + 'static,
    ensures { Ends (map string_bytes arguments.now) (Input.Read.remaining around.input) (Script.given reader.old) (Script.given reader.new) (Writer.contents writer) (Writer.contents result.0) result.1 }
{
    // Before the arguments are looked at, so that each outcome can be told (D-238).
    let Ok(mut text) = Vec::with_capacity(alloc, TEXT_ROOM) else {
        return (without_memory(writer), 5);
    };
    let (writer, outcome) = run(rt, alloc, arguments, reader, around, writer);
    finish(writer, &mut text, outcome)
}

/// Does what the arguments say.
fn run<
    Runtime: Files<File = File>
        + Net<Listener = TcpListener, Stream = TcpStream>
        + Machine
        + Copy
        + Send
        + 'static,
    Script: ScriptSource,
    Input: Read + Send + Drop + 'static,
    Errors: Write + Send + Drop + 'static,
    Writer: Write + Drop,
>(
    rt: &Runtime,
    alloc: Global,
    arguments: &[String],
    reader: &mut Script,
    around: Surroundings<Input, Errors>,
    writer: Writer,
) -> (Writer, Outcome)
where
    Runtime::Dir: Send + 'static,
    ensures { (file : Result (List ℕ) FileFault) × CameTo (record {
      arguments = map string_bytes arguments.now;
      file = file;
      unread = Script.given reader.old;
      unread_after = Script.given reader.new;
      taken = Writer.contents writer;
      taken_after = Writer.contents result.0;
    }) (Input.Read.remaining around.input) result.1 }
{
    let Some((command, path, new_path)) = asked(arguments) else {
        return (writer, Outcome::Usage);
    };
    match command {
        Command::Replay => replay_by(alloc, read_file(rt, alloc, path), reader, writer),
        Command::Compare(form) => {
            let files = (read_file(rt, alloc, path), read_file(rt, alloc, new_path));
            (
                writer,
                compare_by(alloc, files, (path, new_path), form, reader),
            )
        }
        Command::Serve => serve_by(rt, alloc, path, read_file(rt, alloc, path), around, writer),
        Command::Validate => {
            let outcome = told_of(alloc, path, read_file(rt, alloc, path));
            say_ledger(rt, alloc, path, around.errors);
            (writer, outcome)
        }
        Command::Close => (writer, close_by(rt, alloc, read_file(rt, alloc, path))),
        Command::Show => (writer, show_by(alloc, around)),
        Command::Ledger(form) => {
            let found = look_into(rt, alloc, path, form);
            (writer, tell_ledger(alloc, path, form, found, around.errors))
        }
        Command::Help => (writer, Outcome::Help),
        Command::Version => (writer, Outcome::Version),
    }
}
