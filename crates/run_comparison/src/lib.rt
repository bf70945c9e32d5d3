//! The comparison of two runs of one script under two configurations: what each kept, and where they differ.
//!
//! A [`KeptRun`] is told what its run decided and kept, while it runs. Then two of them are compared: [`overlap_of`],
//! [`first_differing`], [`policy_rows`], [`service_rows`] and [`same_steps`].
//!
//! ```
//! let mut old = KeptRun::new(alloc, names)?;
//! old.decided(&decision, &released)?;
//! old.evicted(&evicted)?;
//! old.kept_late(moment, &span)?;
//! let overlap = overlap_of(old.traces(), new.traces());
//! ```
#![tactic(auto)]

mod amount;
mod differing;
mod end;
mod kept_run;
mod names;
mod numbers;
mod overlap;
mod policies;
mod rows;
mod service_name;
mod services;
mod steps;
mod traces;

pub use amount::Amount;
pub use differing::{Differing, MOST_DIFFERING, first_differing};
pub use end::{HowEnded, TraceEnd};
pub use kept_run::KeptRun;
pub use overlap::{Overlap, overlap_of};
pub use policies::PolicyAmounts;
pub use rows::{PolicyRow, ServiceRow, policy_rows, same_steps, service_rows};
pub use services::{MOST_SERVICES, Services};
pub use steps::{LEAST_STEP, MOST_STEPS, Steps};
pub use traces::{MOST_TRACES, Traces};
