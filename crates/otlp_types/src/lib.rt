//! Requests to take traces as plain data, their spans as records, and what goes between the parts.
//!
//! A contract sees each type as plain data: a [`List`] is the list of its elements and a [`Text`] the list of its
//! bytes, so that a copy equals its source; a [`Shared`] or a [`Boxed`] is the value that it holds. Fields that have
//! their default are empty, 0 or `None`.
//!
//! ```
//! let mut attributes = List::new(alloc);
//! attributes.push(KeyValue {
//!     key: Text::from_str(alloc, "http.response.status_code")?,
//!     value: AnyValue::Int(200),
//! })?;
//! let copy = attributes.try_clone(alloc)?;
//! ```
#![tactic(auto)]

mod arrival;
mod boxed;
mod double;
mod list;
mod request;
mod shared;
mod span;
mod value;

pub use arrival::{Arrival, Item, Record};
pub use boxed::Boxed;
pub use double::Double;
pub use list::{List, Text, TryClone};
pub use request::{Request, Resource, ResourceSpans, Scope, ScopeSpans};
pub use shared::Shared;
pub use span::{Event, Ids, Link, Span, Status};
pub use value::{AnyValue, KeyValue};
