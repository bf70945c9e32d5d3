//! Tests of the whole pipeline over readers in memory, and of ticks, by public calls alone: they stand above the crates
//! that they call, which are then proved without them.
#![tactic(auto)]

#[cfg(test)]
mod barriers;
#[cfg(test)]
mod memory;
#[cfg(test)]
mod overlap;
#[cfg(test)]
mod scripted;
#[cfg(test)]
mod starved;
#[cfg(test)]
mod ticks;
