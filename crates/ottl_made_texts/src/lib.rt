//! Texts that conditions make: in another case (OTTL, `ConvertCase`), and joined (`Concat`), each in room that was reserved
//! before, so that no memory is taken.
//!
//! What is said of them is read in this order: `specs/Cases`, `MadeTexts`.
//!
//! ```
//! let mut rooms = ottl_made_texts::rooms_for(alloc, 1)?;
//! let mut left = rooms.iter_mut();
//! let shout = ottl_made_texts::in_case(Case::Upper, "höher", &mut left);   // Some("HÖHER")
//! ```
#![tactic(auto)]

mod cases;
mod made_texts;
mod rooms;

pub use made_texts::{in_case, joined};
pub use rooms::{TextRoom, rooms_for};
