//! Laws of what a body is.
ghost use Rattle.otlp_request.specs.Laws.{IsOneRequest, IsRequestOrNone, HasOneCause};

/// A body is one request at most.
pub fn is_one_request()
    ensures { IsOneRequest }
{}

/// A body that is a request is refused for no cause.
pub fn is_request_or_none()
    ensures { IsRequestOrNone }
{}

/// A body is refused for one cause at most.
pub fn has_one_cause()
    ensures { HasOneCause }
{}
