//! Bounds on a script.

/// How many bytes a line may have, without its line feed.
pub(crate) const MAX_LINE_BYTES: usize = 4_194_368;

/// How many reads a script may take.
pub(crate) const MAX_READS: u64 = 4_294_967_296;
