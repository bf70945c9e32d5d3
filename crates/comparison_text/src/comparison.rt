//! What is compared.

/// What a comparison is of.
#[derive(Clone, Copy)]
pub struct About<'a> {
    /// The version of the program.
    pub version: &'a str,
    /// The old configuration's name, as its path.
    pub old: &'a str,
    /// The new configuration's name.
    pub new: &'a str,
}
