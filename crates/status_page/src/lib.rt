//! The page that `GET /` at the address for those in charge is answered: one file of HTML, with its script and its style
//! in it. It asks the same address for its numbers, its health and its configuration.
//!
//! ```
//! let page = status_page();
//! ```
#![tactic(auto)]

mod text;

use crate::text::{FIELDS, TEXT};

/// A page, and what goes with it.
#[derive(Clone, Copy)]
pub struct StatusPage {
    /// The page, in HTML, in UTF-8.
    pub text: &'static str,
    /// Fields of a head, each with its line end: that nobody keeps it, and what a browser may do with it (Content
    /// Security Policy, level 3): its own script and style, and nothing from elsewhere.
    pub fields: &'static str,
}

/// The page.
pub fn status_page() -> StatusPage {
    StatusPage {
        text: TEXT,
        fields: FIELDS,
    }
}
