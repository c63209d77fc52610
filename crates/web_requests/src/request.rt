ghost use Rattle.std.specs.Prelude.{◌≡◌, IfOk};
ghost use Rattle.web_requests.specs.Reading.{wanted_by, form_text, route_ask, asked};

use crate::body::body_length;
use crate::cookie::root_cookie;
use crate::head::Request;
use crate::route::{Route, check_method, path_of, query_of, route_method, route_of};
use ask_pairs::{Pair, browser_ask, keyed_ask, pairs_of};
use asks::Ask;
use login_base::{Memory, RootKey};
use std::alloc::Global;
use web_pages::{RouteMethod, WebFault};

/// What a request is for, and how long its body is in bytes.
#[derive(Clone, Copy, Debug, PartialEq, Eq)]
pub struct Wanted {
    pub route: Route,
    pub length: usize,
}

/// What a request is for, or its first fault.
#[tactic(auto, unfolding(crate::specs::Reading::wanted_by))]
pub fn wanted_by(request: &Request) -> Result<Wanted, WebFault>
    ensures wanted { result ≡ wanted_by request.now }
{
    let route = route_of(path_of(request.target.as_slice())).ok_or(WebFault::NotFound)?;
    let method = route_method(route);
    check_method(method, request.method.as_slice())?;
    let length = body_length(method, request.fields.as_slice())?;
    Ok(Wanted { route, length })
}

/// The text of the pairs: the query, or the body of what is posted.
fn form_text<'a>(method: RouteMethod, target: &'a [u8], body: &'a [u8]) -> &'a [u8]
    ensures { result.now ≡ form_text method target.now body.now }
{
    match method {
        RouteMethod::Get => query_of(target),
        RouteMethod::Post => body,
    }
}

fn route_ask(
    alloc: Global,
    route: Route,
    root: Option<RootKey>,
    pairs: &[Pair],
) -> Result<Ask, Memory>
    ensures { IfOk result (λ ask. ask ≡ route_ask route root pairs.now) }
{
    match route {
        Route::Browser(verb) => browser_ask(alloc, verb, Ok(root), pairs),
        Route::Admin => keyed_ask(alloc, pairs),
    }
}

/// The ask of a request with its body.
pub fn asked(alloc: Global, route: Route, request: &Request, body: &[u8]) -> Result<Ask, Memory>
    ensures ask { IfOk result (λ ask. ask ≡ asked route request.now body.now) }
{
    let root = root_cookie(alloc, request.fields.as_slice())?;
    let text = form_text(route_method(route), request.target.as_slice(), body);
    let pairs = pairs_of(alloc, text)?;
    route_ask(alloc, route, root, pairs.as_slice())
}
