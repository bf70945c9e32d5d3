//! Answers.

/// A final answer.
#[derive(Drop)]
pub struct BackendResponse {
    /// Its status (RFC 9110, section 15).
    pub status: u16,
    /// For how many seconds it asks to wait, where it says so in digits (RFC 9110, section 10.2.3).
    pub retry_after: Option<u64>,
    /// Its body.
    pub body: Vec<u8>,
    /// Whether another request may be sent on the connection: it is kept open, and nothing came behind the answer.
    pub keeps: bool,
}

/// What bytes hold that came behind a request.
#[derive(Drop)]
pub enum FoundResponse {
    /// A final answer.
    Whole(BackendResponse),
    /// Less than one.
    More,
    /// No answer, whatever comes.
    Broken,
}

/// What became of a request.
#[derive(Drop)]
pub enum Posted {
    /// It was written whole, and answered.
    Answered(BackendResponse),
    /// No byte of its body was written whole with it: it could not be made, or a write of it failed.
    Unsent,
    /// It was written whole, and no answer came that could be read.
    Unanswered,
}
