//! What a request asks for.

/// The methods that a target may have (RFC 9110, section 9.3).
#[derive(Clone, Copy, PartialEq, Eq)]
pub enum Method {
    /// `GET`, and `HEAD` with it.
    Get,
    /// `POST`.
    Post,
}

/// What may be asked for at an address.
#[derive(Clone, Copy, PartialEq, Eq)]
pub enum Access {
    /// Everything: that the collector closes and opens its output anew, its numbers, its health, its configuration, what
    /// it decided, and the page that shows them.
    Full,
    /// Its numbers and its health alone.
    Numbers,
}

/// Where a request goes.
#[derive(Clone, Copy, PartialEq, Eq)]
pub enum Route {
    /// `POST /close`: the collector is to close.
    Close,
    /// `POST /reopen`: the collector is to open the file of its output anew.
    Reopen,
    /// `GET /metrics`: its numbers, as Prometheus reads them.
    Metrics,
    /// `GET /healthz`: whether it takes requests.
    Health,
    /// `GET /config`: its configuration, as it stands.
    Config,
    /// `GET /status.json`: its counts, now and over the last minutes, as JSON.
    Status,
    /// `GET /decisions.json`: what became of the last traces, as JSON.
    Decisions,
    /// `GET /trace/ID.json`: what became of the trace whose id has these bytes, as JSON.
    Trace([u8; 16]),
    /// `GET /`: a page that shows its numbers, its health and its configuration.
    Page,
    /// 403: a `POST` that a page of another site may have sent.
    Forbidden,
    /// 404: another target.
    NotFound,
    /// 405: one of these targets, which is asked by this method only.
    WrongMethod(Method),
    /// 400: no head of HTTP/1.1, not one `Host`, or no one way to frame the body.
    Bad,
    /// 431: no end of the head within its limit, or too many fields.
    TooLarge,
}

/// What a request asks for.
#[derive(Clone, Copy, PartialEq, Eq)]
pub struct AdminRequest {
    /// Where it goes.
    pub route: Route,
    /// It is a `HEAD`, whose answer has no body.
    pub is_head: bool,
}
