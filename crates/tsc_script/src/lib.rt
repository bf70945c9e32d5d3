//! A script of the program: its lines, what each line says, and the playing of them on a machine.
//!
//! A script's lines end with a line feed, which the last one may lack. A line is `recv CONNECTION MOMENT JSON`,
//! `tick MOMENT` or `close`, with one space between the words. CONNECTION and MOMENT are 1 to 20 decimal digits that
//! fit a u64, and JSON is the rest of the line, spaces included. Another line, an empty one, one above 4,194,368
//! bytes without its line feed, and any line after `close` is refused. The input's end without `close` acts as one.
//!
//! A read is tried again after an interruption alone, while fewer than 2^32 were made; any other error ends the script
//! at that line. Each answer but `Down` has its cause in what the reads gave (`specs/Causes`). A body that always
//! answers `NoMemory` meets `play_script`'s contract; each run of `tests/run.sh` that is done shows that it isn't
//! answered there.
//!
//! ```
//! match play_script(alloc, &mut reader, &mut machine) {
//!     Ok(()) => {}
//!     Err(stop) => tell(stop),
//! }
//! ```
#![tactic(auto)]

mod buffer;
mod command;
mod grammar;
mod laws;
mod limits;
mod lines;
mod pair;
mod play;
mod player;
mod reads;
mod stop;

pub use command::ScriptCommand;
pub use laws::lines_are_their_words;
pub use pair::Pair;
pub use play::play_script;
pub use player::ScriptPlayer;
pub use reads::{ScriptRead, ScriptReads, ScriptSource};
pub use stop::ScriptStop;
