//! What a seat knows of one limiter node. No value of these types is made.
use policy_tree::Limit;
use std::collections::LinkedList;

/// An asking, with its seat and its answer.
pub struct Asked {
    /// The number of the seat at its node, from 0.
    pub seat: u64,
    /// The limiter node that was asked.
    pub node: u16,
    /// The second of the asking: seconds since the Unix epoch.
    pub second: u64,
    /// How many spans or bytes it was for, as the node's limit has it.
    pub amount: u64,
    /// Whether they were granted.
    pub granted: bool,
}

/// A seat's part of a history. The latest asking is first.
pub struct HistoryPart {
    /// The number of the seat at its node, from 0.
    pub seat: u64,
    /// The history that the seat has seen.
    pub seen: LinkedList<Asked>,
    /// The askings that the seat made itself.
    pub mine: LinkedList<Asked>,
}

/// What a seat knows of one limiter node.
pub struct View {
    /// Nothing but the making of the cell has been done: no other seat is there yet.
    pub fresh: bool,
    /// It may still be asked. One that was taken in by another may not.
    pub live: bool,
    /// The limiter node.
    pub node: u16,
    /// The node's limit.
    pub limit: Limit,
    /// How many seats the node has.
    pub seats: u64,
    /// The number of this seat at its node, from 0.
    pub seat: u64,
    /// The seats from this number on and below its own are still its to give.
    pub next: u64,
    /// The history that the seat has seen, the latest asking first.
    pub seen: LinkedList<Asked>,
    /// The askings that the seat made itself, the latest first.
    pub mine: LinkedList<Asked>,
    /// The parts of the seats that it took in.
    pub others: LinkedList<HistoryPart>,
}
