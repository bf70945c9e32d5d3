//! Conditions on one span, or on one event of a span, as text: the boolean expressions of OTTL (the Collector contrib's `pkg/ottl`, README and
//! `LANGUAGE.md`), read into a tree. What a tree means stands in `ottl_condition`.
//!
//! What is said of them is read in this order: `specs/Syntax` (the tree), `Tokens` (the pieces of a text), `Literals`,
//! `Names` (paths, functions, enumerations), `Grammar` (which text is which tree, or its first fault), `Gives`, `FaultTexts` (what a
//! fault is told as).
//!
//! ```
//! let condition = ottl_text::parse(alloc, Context::Span, b"kind == SPAN_KIND_SERVER and Len(name) > 3")?;
//! ```
#![tactic(auto)]

mod depths;
mod expression;
mod fault;
mod kind_error;
mod literals;
mod names;
mod parsing;
mod path_reading;
mod pieces;
mod reading;
mod sorts;
mod token;
mod trees;

pub use expression::{
    Binary, Case, Context, ErrorMode, Expression, Key, Literal, Path, Root, Unary,
};
pub use fault::{Fault, FaultKind, ParseError};
pub use literals::{float_of, int_of};
pub use parsing::parse;
