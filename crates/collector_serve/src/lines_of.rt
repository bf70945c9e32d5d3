//! The kinds of lines that a thread of their own writes.
/// Of what such lines are.
#[derive(Clone, Copy)]
pub enum LinesOf {
    /// A line for each trace (`decisions`).
    Decisions,
    /// A line for each request that was taken and each tick (`record`).
    Record,
}
