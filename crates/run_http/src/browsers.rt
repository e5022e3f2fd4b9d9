//! Adds the response headers that protect users of browsers.
ghost use Rattle.std.specs.Prelude.{◌≡◌, IfOk};
ghost use Rattle.office_http.specs.Messages.Hosts.{texts};
ghost use Rattle.run_http.specs.Browsers as browsers;
ghost use Rattle.run_http.specs.Browsers.{IsForBrowsers};

use crate::route::{RunRoute, StatusRoute, run_route};
use crate::status::append_bytes;
use std::alloc::{AllocError, Global};

static OF_PAGE: &[u8] =
    b"X-Content-Type-Options: nosniff\r\nCross-Origin-Resource-Policy: same-origin\r\n";

static OF_OTHERS: &[u8] =
    b"X-Content-Type-Options: nosniff\r\nCross-Origin-Resource-Policy: same-origin\r\nCache-Control: no-store\r\n";

fn is_page(route: &Option<RunRoute>) -> bool
    ensures { result ≡ browsers.is_page route.now }
{
    match route {
        Some(RunRoute::Own(StatusRoute::Page(_))) => true,
        _ => false,
    }
}

fn headers_for(is_page: bool) -> &'static [u8]
    ensures { result.now ≡ browsers.headers_for is_page }
{
    if is_page { OF_PAGE } else { OF_OTHERS }
}

// Returns the index of the line feed at the end of a response's status line.
fn first_line_end(reply: &[u8]) -> Option<usize>
    ensures { result ≡ browsers.first_line_end reply.now }
{
    reply.iter().position(|byte| *byte == b'\n')
}

// Returns a copy of a response with the headers `more` inserted after its status line.
fn with_headers(alloc: Global, more: &[u8], reply: &[u8]) -> Result<Vec<u8>, AllocError>
    ensures { IfOk result (λ reported. reported.items ≡ browsers.with_headers more.now reply.now) }
{
    let Some(at) = first_line_end(reply) else {
        return Vec::from_slice(alloc, reply);
    };
    let mut reported = Vec::from_slice(alloc, &reply[..at + 1])?;
    append_bytes(&mut reported, more)?;
    append_bytes(&mut reported, &reply[at + 1..])?;
    Ok(reported)
}

/// Adds to a response the headers that protect users of browsers. With these headers, a browser
/// does not guess the type of the body, and other sites cannot use the body.
///
/// Only the response to a request for a part of the web page may be cached. `names` are the
/// server's host names, by which the request's route is found. Fails if memory runs out.
pub fn for_browsers(
    alloc: Global,
    names: &[&str],
    request: &[u8],
    reply: &[u8],
) -> Result<Vec<u8>, AllocError>
    ensures { IfOk result (λ reported.
        IsForBrowsers (texts names.now) request.now reply.now reported.items) }
{
    let route = run_route(names, request);
    with_headers(alloc, headers_for(is_page(&route)), reply)
}
