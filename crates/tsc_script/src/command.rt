//! What a line of a script says.

/// An instruction of a script, as it is read from a line.
#[derive(Clone, Copy, PartialEq, Eq, Drop)]
pub enum ScriptCommand<'a> {
    /// A request came on a connection at a moment.
    Receive {
        /// The number of the connection.
        connection: u64,
        /// The moment, in milliseconds.
        moment: u64,
        /// The request's body, which may be empty.
        json: &'a [u8],
    },
    /// A moment came.
    Tick {
        /// The moment, in milliseconds.
        moment: u64,
    },
    /// Nothing more comes.
    Close,
}
