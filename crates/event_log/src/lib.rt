//! What a running collector says on standard error: a line for each event, as text or as JSON; and when the beginning
//! and the end of what goes on for a while are said.
//!
//! ```
//! let fields = [LogField { name: "lanes", value: FieldValue::Number(4) }];
//! let time = time_text(alloc, 1_700_000_000_000)?;
//! let line = text_line(alloc, time.as_str(), Level::Info, "listening", &fields)?;
//! assert!(line == "2023-11-14T22:13:20Z INFO listening lanes=4\n");
//! ```
#![tactic(auto)]

mod away;
mod clock_jump;
mod line;
mod spell;
mod time;

pub use away::{AwayTurn, away_after};
pub use clock_jump::{JUMP, jump_of};
pub use line::{FieldValue, Level, LogField, json_line, text_line};
pub use spell::{QUIET, SPACING, Spell, SpellTurn, spell_after};
pub use time::time_text;
