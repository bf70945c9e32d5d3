//! What stands around the program.

/// What a collector is given beside its script and its output.
#[derive(Drop)]
pub struct Surroundings<Input: Drop, Errors: Drop> {
    /// The standard input, whose end may close the collector.
    pub input: Input,
    /// Where the program says what becomes of a run.
    pub errors: Errors,
    /// The same, for the thread that looks at the run.
    pub watch_errors: Errors,
}
