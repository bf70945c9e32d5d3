//! What is answered on a connection.
use http_text::RequestRefusal;
use lane_seq::Reply;

/// What is written.
#[derive(Clone, Copy, PartialEq, Eq)]
pub enum Response {
    /// `100 Continue`.
    Continue,
    /// The answer to a request that is refused, or to a body that is no gzip or unpacks to too much; to `HEAD` it has
    /// no body.
    Refused {
        refusal: RequestRefusal,
        is_head: bool,
    },
    /// The answer to `POST /close`.
    CloseAsked,
    /// No memory for a body.
    Starved,
    /// The stop mark is set.
    Stopping,
    /// 408.
    TimedOut,
    /// The lane's reply to a body; `closes`: its head asked to close the connection.
    Replied {
        reply: Reply,
        closes: bool,
    },
}
