//! When two values of attributes are equal (OTLP's `pcommon`: `Value.Equal`, `Slice.Equal`, `Map.Equal`), and the order of bytes, of
//! which an attribute has the base64 text that came.
//!
//! What is said of them is read in this order: `specs/Encoded` (bytes in base64), `Equality`.
//!
//! ```
//! let are_equal = ottl_equality::maps_equal(left.as_slice(), right.as_slice());
//! ```
#![tactic(auto)]

mod encoded;
mod equality;

pub use encoded::{Bytes, Part, order};
pub use equality::{lists_equal, maps_equal, pair_of};
