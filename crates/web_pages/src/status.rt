ghost use Rattle.std.specs.Prelude.{◌≡◌};
ghost use Rattle.web_pages.specs.Statuses.{what_status, fault_status, method_text};

use crate::fault::{RouteMethod, WebFault};
use asks::What;
use http::StatusCode;

/// The status of a reply.
pub fn what_status(what: &What) -> StatusCode
    ensures status { result ≡ what_status what.now }
{
    match what {
        What::BadForm { .. } | What::UnknownClient | What::LevelUnknown => StatusCode::BAD_REQUEST,
        What::AdminRefused { .. }
        | What::Locked { .. }
        | What::Disabled
        | What::BadCredentials { .. }
        | What::BadCode { .. }
        | What::Denied { .. }
        | What::NotConfigured { .. }
        | What::DeadEnd
        | What::LevelMissed { .. } => StatusCode::FORBIDDEN,
        What::UnknownTab | What::TokenUnknown => StatusCode::NOT_FOUND,
        What::Stale { .. }
        | What::OtherUser { .. }
        | What::Finished
        | What::NotAsked
        | What::CredentialMoved { .. }
        | What::CodeSpent { .. }
        | What::TokenSpent => StatusCode::CONFLICT,
        What::TabExpired | What::TokenExpired { .. } => StatusCode::GONE,
        What::TooManyRoots { .. }
        | What::TooManyTabs { .. }
        | What::StoreFault
        | What::DiceFault
        | What::Memory => StatusCode::SERVICE_UNAVAILABLE,
        What::Done { .. }
        | What::Action { .. }
        | What::Form { .. }
        | What::ActionDone { .. }
        | What::LoggedOut
        | What::Told { .. } => StatusCode::OK,
    }
}

/// The status of a fault.
pub fn fault_status(fault: WebFault) -> StatusCode
    ensures status { result ≡ fault_status fault }
{
    match fault {
        WebFault::BadRequest => StatusCode::BAD_REQUEST,
        WebFault::NotFound => StatusCode::NOT_FOUND,
        WebFault::MethodNotAllowed { .. } => StatusCode::METHOD_NOT_ALLOWED,
        WebFault::LengthRequired => StatusCode::LENGTH_REQUIRED,
        WebFault::BodyTooLarge => StatusCode::PAYLOAD_TOO_LARGE,
        WebFault::UnsupportedMediaType => StatusCode::UNSUPPORTED_MEDIA_TYPE,
        WebFault::HeadTooLarge => StatusCode::REQUEST_HEADER_FIELDS_TOO_LARGE,
    }
}

/// The name of a method.
pub fn method_text(method: RouteMethod) -> &'static [u8]
    ensures text { result.now ≡ method_text method }
{
    match method {
        RouteMethod::Get => b"GET",
        RouteMethod::Post => b"POST",
    }
}
