//! Finds the route of a request target, and the value of the route's parameter.
ghost use Rattle.std.specs.Prelude.{◌≡◌, IfSome, IsUtf8, None, option_map};
ghost use Rattle.std.specs.Str.{IsAscii};
ghost use Rattle.matchit.specs.Params.{walk};
ghost use Rattle.office_http.specs.Messages.Routing.Routes.{head_value};
ghost use Rattle.office_http.specs.Messages.Routing.Targets.{first_name, first_route, has_query, name_in, name_of, route_in};

use crate::messages::routing::routes::Route;
use matchit::{Params, Router};
use std::str::from_utf8;

/// The route of a request target, and the value of the route's parameter.
#[derive(Clone, Copy, PartialEq, Eq, Drop)]
pub struct Found<'v> {
    pub route: Route,
    pub name: Option<&'v str>,
}

fn first_value<'v>(params: &Params<'_, 'v>) -> Option<&'v str>
    requires { IsAscii params.now.path.now }
    ensures { let p = params.now in option_map (λ s. s.now) result
        ≡ head_value (walk p.pattern.now p.text.now p.path.now p.names.now 0 0) }
{
    let mut values = params.iter();
    match values.next() {
        Some((_, value)) => Some(value),
        None => None,
    }
}

fn found_at<'v>(router: &Router<Route>, target: &'v str) -> Option<Found<'v>>
    requires { IsAscii target.now }
    ensures route { option_map (λ f. f.route) result ≡ first_route router.now target.now }
    ensures name { IfSome result (λ f. name_of f ≡ first_name router.now target.now) }
{
    match router.at(target) {
        Ok(found) => Some(Found {
            route: *found.value,
            name: first_value(&found.params),
        }),
        Err(_) => None,
    }
}

/// Returns whether a request target has a question mark. A target with a question mark has no
/// route.
pub fn has_query(target: &[u8]) -> bool
    ensures { result ≡ has_query target.now }
{
    target.iter().any(|byte| *byte == b'?')
}

// Finds the route of a target with a byte outside ASCII. Ignores the value of the route's
// parameter, because all names are ASCII.
fn bare_route<'v>(router: &Router<Route>, target: &'v str) -> Option<Found<'v>>
    ensures route { option_map (λ f. f.route) result ≡ first_route router.now target.now }
    ensures name { IfSome result (λ f. name_of f ≡ None) }
{
    match router.at(target) {
        Ok(found) => Some(Found {
            route: *found.value,
            name: None,
        }),
        Err(_) => None,
    }
}

/// Finds the route of a request target in the router that [`router`](super::router) makes, and the
/// value of the route's parameter.
#[tactic(auto, using(crate::proofs::MessagesLemmas::RoutingLemmas::Plain::all_ascii, crate::proofs::MessagesLemmas::RoutingLemmas::Plain::not_ascii))]
pub fn route_of<'v>(router: &Router<Route>, target: &'v [u8]) -> Option<Found<'v>>
    requires { IsUtf8 target.now }
    ensures route { option_map (λ f. f.route) result ≡ route_in router.now target.now }
    ensures name { IfSome result (λ f. name_of f ≡ name_in router.now target.now) }
{
    if has_query(target) {
        return None;
    }
    let Ok(text) = from_utf8(target) else {
        return None;
    };
    if text.is_ascii() {
        found_at(router, text)
    } else {
        bare_route(router, text)
    }
}
