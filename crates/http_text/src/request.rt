//! What the head of a request asks for (RFC 9112, sections 2 to 7).
use otlp_encoding::Encoding;
use std::error::Error;
use std::fmt;

/// A head or a trailer may have so many fields.
pub const FIELD_LIMIT: usize = 64;

/// Why a request is refused. Each refusal closes the connection.
#[derive(Clone, Copy, Debug, PartialEq, Eq)]
pub enum RequestRefusal {
    /// 431: no end of the head within its limit, or too many fields.
    HeadTooLarge,
    /// 400: no head of HTTP/1.1, not one `Host`, or no one way to frame the body.
    BadRequest,
    /// 404: neither `/v1/traces` nor `/close`.
    NotFound,
    /// 405: not `POST`.
    MethodNotAllowed,
    /// 403: a request to close that a page of another site may have sent.
    Forbidden,
    /// 415: no `application/json`, which alone is taken.
    UnsupportedMediaType,
    /// 415: neither `application/json` nor `application/x-protobuf`.
    NeitherMediaType,
    /// 415: packed by gzip, which isn't taken.
    GzipIsOff,
    /// 415: another coding of the content, where `identity` alone is taken.
    UnsupportedCoding,
    /// 415: a coding of the content that is neither `identity` nor one `gzip`.
    NeitherCoding,
    /// 413: a body above the limit, as it comes or unpacked.
    BodyTooLarge,
    /// 400: a body that says to be gzip, and isn't (RFC 1952).
    NotGzip,
}

impl fmt::Display for RequestRefusal {
    ghost use Rattle.std.specs.Prelude.{Some};
    ghost use Rattle.http_text.specs.FaultTexts.{fault_text};

    ghost output = { λ fault. Some (fault_text fault) };

    fn fmt<W: fmt::Write>(&self, f: &mut fmt::Formatter<W>) -> fmt::Result {
        match self {
            RequestRefusal::HeadTooLarge => f.write_str("the head is too large"),
            RequestRefusal::BadRequest => f.write_str("the head is no request of HTTP/1.1"),
            RequestRefusal::NotFound => f.write_str("the target is unknown"),
            RequestRefusal::MethodNotAllowed => f.write_str("the method is not POST"),
            RequestRefusal::Forbidden => f.write_str("the request may be of another site"),
            RequestRefusal::UnsupportedMediaType => f.write_str("the content is no JSON"),
            RequestRefusal::NeitherMediaType => {
                f.write_str("the content is neither JSON nor protobuf")
            }
            RequestRefusal::GzipIsOff => f.write_str("the content is gzip, which is off"),
            RequestRefusal::UnsupportedCoding | RequestRefusal::NeitherCoding => {
                f.write_str("the content has a coding that is not taken")
            }
            RequestRefusal::BodyTooLarge => f.write_str("the body is too large"),
            RequestRefusal::NotGzip => f.write_str("the body is no gzip stream"),
        }
    }
}

impl Error for RequestRefusal {}

/// How long the body is.
#[derive(Clone, Copy, PartialEq, Eq)]
pub enum Framing {
    /// So many bytes, by `Content-Length`; 0 where no field says it.
    Length(usize),
    /// Chunks, by `Transfer-Encoding`.
    Chunked,
}

/// A request whose body is to be read.
#[derive(Clone, Copy, PartialEq, Eq)]
pub struct Post {
    /// How long the body is.
    pub framing: Framing,
    /// What the body is written in, unpacked.
    pub encoding: Encoding,
    /// It waits for `100 Continue`.
    pub expects_continue: bool,
    /// The body is packed by gzip (RFC 9110, section 8.4.1.3).
    pub is_packed: bool,
    /// It asks to close the connection.
    pub says_close: bool,
}

/// What the head of a request comes to.
#[derive(Clone, Copy, PartialEq, Eq)]
pub enum HeadVerdict {
    /// It is refused. `is_head`: the answer to `HEAD` has no body.
    Refused {
        refusal: RequestRefusal,
        is_head: bool,
    },
    /// `POST /close`.
    Close,
    /// A body that is to be read.
    Post(Post),
}
