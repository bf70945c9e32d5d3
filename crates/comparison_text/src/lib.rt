//! The comparison of two runs as text for people, as JSON and as a page.
//!
//! ```
//! put_text(&mut text, &old, &new, &About { version: "0.1.0", old: "old.toml", new: "new.toml" })?;
//! ```
#![tactic(auto)]

mod comparison;
mod ends;
mod json_text;
mod kept;
mod page;
mod page_text;
mod plain_text;
mod putting;
mod words;

pub use comparison::About;
pub use json_text::put_json;
pub use page::put_page;
pub use plain_text::put_text;
