//! The tests, and what they share.
mod limited_shard;
mod looking_back;
mod random_items;
mod telling;
