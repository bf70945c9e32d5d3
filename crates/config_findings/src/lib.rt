//! Every fault of the text of a configuration, where each stands and what would be right, as `tsc validate` tells them;
//! and behind the faults what is no fault, but can't run: addresses that can't be one.
//!
//! ```
//! let all = faults(alloc, "lanes = 65\n")?;
//! // one of its faults is `lanes: 65 is not from 1 to 64`
//! ```
#![tactic(auto)]

mod address_findings;
mod addresses;
mod expressions;
mod finding_texts;
mod findings;
pub mod laws;
mod policy_findings;
mod settings_findings;
mod table_findings;

pub use address_findings::{AddressFault, AddressFinding, AddressKey};
pub use findings::ConfigFinding;
pub use table_findings::{AllFindings, faults};
