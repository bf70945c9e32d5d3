//! What holds of all that is heard.
ghost use Rattle.admin_http.specs.Asked.{OneRequest, StaysHeard};
ghost use Rattle.admin_http.specs.Texts.{HeadIsGetWithoutBody};

/// The bytes that were read ask for one thing only, and more bytes behind them don't change it: so a request is the
/// same in whatever pieces its bytes come.
pub fn heard_in_any_pieces()
    ensures one { OneRequest }
    ensures stays { StaysHeard }
{}

/// `HEAD` of a target is answered as `GET` of it, with the same status and the same fields, `Content-Length` too, and
/// without the body.
pub fn head_is_get_without_body()
    ensures { HeadIsGetWithoutBody }
{}
