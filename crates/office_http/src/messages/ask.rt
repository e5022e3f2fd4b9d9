//! The parsed request of an HTTP head: a query (GET) or a command (POST).
ghost use Rattle.std.specs.Prelude.{◌≡◌, IsUtf8};
ghost use Rattle.httparse.specs.Spans.{span_bytes};
ghost use Rattle.office_http.specs.Messages.Head.Heads.{IsPlaced};
ghost use Rattle.office_http.specs.Messages.HeadTests.{has_method, start_at};
ghost use Rattle.office_http.specs.Messages.Asking.{TestsHead};

use crate::messages::head::Head;
use crate::messages::post::{Posted, post_headers};
use crate::messages::routing::{Found, Route, route_of};
use crate::messages::status::Status;
use matchit::Router;

/// An HTTP request whose head passed all tests: a query (GET) or a command (POST).
#[derive(Clone, Copy)]
pub enum Ask<'b> {
    /// A query (GET), with its route. The program ignores the body of a query.
    Question(Found<'b>),
    /// A command (POST), with its route and its parsed headers. The command's body follows the
    /// head.
    Command(Found<'b>, Posted),
}

fn has_method(route: Route, method: &[u8]) -> bool
    ensures { result ≡ has_method route method.now }
{
    method == route.method()
}

/// Tests a request's head, and returns the query or command, or the status of the first failed
/// test.
///
/// The tests of a request's head are in this order: the route (404), the method (405), and for a
/// command the headers that [`post_headers`] tests.
pub fn ask_of<'b>(router: &Router<Route>, bytes: &'b [u8], head: &Head) -> Result<Ask<'b>, Status>
    requires text { IsUtf8 (span_bytes bytes.now head.now.target) }
    requires placed { IsPlaced bytes.now head.now }
    ensures { TestsHead router.now (start_at bytes.now head.now) result }
{
    let Some(found) = route_of(router, head.target.of(bytes)) else {
        return Err(Status::NotFound);
    };
    if !has_method(found.route, head.method.of(bytes)) {
        return Err(Status::MethodNotAllowed);
    }
    if found.route.is_question() {
        return Ok(Ask::Question(found));
    }
    let posted = post_headers(bytes, &head.headers[..head.count])?;
    Ok(Ask::Command(found, posted))
}
