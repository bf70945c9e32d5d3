//! Where a fault of the policies of a configuration, or a condition, stands in its table, and whether a fault only
//! follows from another: `tsc validate` tells both. A place is written as the keys that lead to it, with the number of an item from 0.
//!
//! ```
//! let table = toml::table_from_str(alloc, "policies = [{ name = 'a', type = 'not', not = { not_sub_policy = {} } }]")?;
//! assert!(fault_place(alloc, &table, PolicyFault::EmptyList)?.is_none());
//! ```
#![tactic(auto)]

mod bounds;
mod conditions;
mod doubled;
mod orders;
mod places;
mod walk;

pub use orders::order_follows;
pub use places::{item_place, key_place};
pub use walk::{FaultPlace, condition_place, fault_place};
