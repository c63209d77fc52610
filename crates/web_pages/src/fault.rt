/// The method of a route (RFC 9110, section 9.3).
#[derive(Clone, Copy, Debug, PartialEq, Eq)]
pub enum RouteMethod {
    Get,
    Post,
}

/// Why a request is none of the service's (RFC 9110, section 15.5).
#[derive(Clone, Copy, Debug, PartialEq, Eq)]
pub enum WebFault {
    /// 400: the head or its Content-Length is malformed.
    BadRequest,
    /// 404: there is no such route.
    NotFound,
    /// 405: the route has another method.
    MethodNotAllowed { allowed: RouteMethod },
    /// 411: a body comes without a Content-Length.
    LengthRequired,
    /// 413: the body is too long.
    BodyTooLarge,
    /// 415: the body is coded, or none of a form.
    UnsupportedMediaType,
    /// 431: the head is too long, or has too many fields (RFC 6585, section 5).
    HeadTooLarge,
}
