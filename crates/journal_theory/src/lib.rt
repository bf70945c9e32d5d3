//! The theory of journals: what a shard has done, said of the list of items that it has taken (its journal), and what
//! holds of every journal. No code is in it.
//!
//! The definitions are in `specs/`, to be read in this order: `Journal`, `RootWait`, `TooBig`, `Fate` (what a shard
//! did, looking back), `Answered`, `Marked`, `Standing`, `Laws`, `Keeping`, `Deciding` (what a shard holds that stands
//! for a journal). The functions of the module `laws` do nothing: the contract of each is a law. `shard_core` has the
//! shard that answers so, and `shard_journal` computes what a journal says by looking back over it.
#![tactic(auto)]

pub mod laws;
