ghost use Rattle.std.specs.Prelude.{◌≡◌};
ghost use Rattle.web_requests.specs.Routes.{path_of, query_of, route_of, verb_method, route_method, check_method};

use crate::texts::split_once;
use ask_pairs::BrowserVerb;
use web_pages::{RouteMethod, WebFault, method_text};

/// A route of the service.
#[derive(Clone, Copy, Debug, PartialEq, Eq)]
pub enum Route {
    /// What a browser asks.
    Browser(BrowserVerb),
    /// What an administrator asks with a key.
    Admin,
}

/// The bytes of a target before its first `?`.
pub fn path_of(target: &[u8]) -> &[u8]
    ensures path { result.now ≡ path_of target.now }
{
    let (path, _) = split_once(target, b'?');
    path
}

/// The bytes of a target behind its first `?`.
pub fn query_of(target: &[u8]) -> &[u8]
    ensures query { result.now ≡ query_of target.now }
{
    let (_, query) = split_once(target, b'?');
    query
}

/// The route of a path.
#[tactic(auto, unfolding(crate::specs::Routes::route_of))]
pub fn route_of(path: &[u8]) -> Option<Route>
    ensures route { result ≡ route_of path.now }
{
    if path == b"/login".as_slice() {
        Some(Route::Browser(BrowserVerb::NewTab))
    } else if path == b"/tab".as_slice() {
        Some(Route::Browser(BrowserVerb::Page))
    } else if path == b"/post".as_slice() {
        Some(Route::Browser(BrowserVerb::Post))
    } else if path == b"/verify".as_slice() {
        Some(Route::Browser(BrowserVerb::Verify))
    } else if path == b"/reset".as_slice() {
        Some(Route::Browser(BrowserVerb::Reset))
    } else if path == b"/logout".as_slice() {
        Some(Route::Browser(BrowserVerb::Logout))
    } else if path == b"/admin".as_slice() {
        Some(Route::Admin)
    } else {
        None
    }
}

fn verb_method(verb: BrowserVerb) -> RouteMethod
    ensures { result ≡ verb_method verb }
{
    match verb {
        BrowserVerb::NewTab | BrowserVerb::Page => RouteMethod::Get,
        BrowserVerb::Post | BrowserVerb::Verify | BrowserVerb::Reset | BrowserVerb::Logout => {
            RouteMethod::Post
        }
    }
}

/// The method of a route.
pub fn route_method(route: Route) -> RouteMethod
    ensures method { result ≡ route_method route }
{
    match route {
        Route::Browser(verb) => verb_method(verb),
        Route::Admin => RouteMethod::Post,
    }
}

/// A request has the method that is allowed.
pub fn check_method(allowed: RouteMethod, method: &[u8]) -> Result<(), WebFault>
    ensures check { result ≡ check_method allowed method.now }
{
    if method == method_text(allowed) {
        Ok(())
    } else {
        Err(WebFault::MethodNotAllowed { allowed })
    }
}
