//! Helpers that serve HTTP requests in tests, and that return the bytes of the expected responses.
use mb_wire::MemoryLink;
use office_books::Books;
use office_core::Office;
use office_http::{HandleFault, handle};
use std::alloc::{AllocError, Global};
use std::process::Abort;

/// A test case: an HTTP request, the timestamp of serving the request, and the status line and body
/// of the expected response.
#[derive(Clone, Copy)]
pub(crate) struct Case<'c> {
    pub(crate) at: u64,
    pub(crate) request: &'c [u8],
    pub(crate) status: &'static str,
    pub(crate) body: &'static str,
}

/// The result of serving a request, and the bytes of the response that were written.
#[derive(Drop)]
pub(crate) struct Served {
    pub(crate) handled: Result<(), HandleFault>,
    pub(crate) given: Vec<u8>,
}

/// Returns the bytes of a response with a Content-Length header. A body that begins with `{` is
/// JSON, any other body plain text.
pub(crate) fn sized_reply(alloc: Global, status: &str, body: &str) -> Result<String, AllocError> {
    let size = body.len();
    let kind = if body.starts_with('{') {
        "application/json"
    } else {
        "text/plain"
    };
    format!(in alloc;
        "HTTP/1.1 {status}\r\nContent-Type: {kind}\r\nContent-Length: {size}\r\nConnection: close\r\n\r\n{body}"
    )
}

/// Returns the bytes of a response. A JSON body has a Content-Length header. A plain text body has
/// no such header, and ends with the connection.
pub(crate) fn reply(alloc: Global, status: &str, body: &str) -> Result<String, AllocError> {
    if body.starts_with('{') {
        return sized_reply(alloc, status, body);
    }
    format!(in alloc;
        "HTTP/1.1 {status}\r\nContent-Type: text/plain\r\nConnection: close\r\n\r\n{body}"
    )
}

/// Serves an HTTP request over a test connection that transfers at most `piece` bytes in a call. If
/// `failing` is a number, the call with this number fails.
pub(crate) fn serve_over<B: Books>(
    alloc: Global,
    office: &mut Office<B>,
    at: u64,
    request: &[u8],
    piece: usize,
    failing: Option<u64>,
) -> Result<Served, AllocError> {
    let mut output = [0; 400];
    let mut link = MemoryLink::new(request, &mut output, piece.max(1), failing);
    let handled = handle(alloc, &mut link, office, at);
    Ok(Served {
        handled,
        given: link.given().to_vec(alloc)?,
    })
}

/// Serves an HTTP request over a test connection that does not fail.
pub(crate) fn serve<B: Books>(
    alloc: Global,
    office: &mut Office<B>,
    at: u64,
    request: &[u8],
) -> Result<Served, AllocError> {
    serve_over(alloc, office, at, request, 400, None)
}

/// Asserts that a served request got the expected response.
pub(crate) fn assert_reply(rt: &impl Abort, alloc: Global, case: &Case<'_>, served: &Served) {
    assert!(rt; served.handled == Ok(()));
    let want = reply(alloc, case.status, case.body).expect(rt, "no memory");
    assert!(rt; served.given.as_slice() == want.as_bytes());
}

/// Serves an HTTP request over a test connection that transfers at most `piece` bytes in a call,
/// and asserts the expected response.
pub(crate) fn assert_served<B: Books>(
    rt: &impl Abort,
    alloc: Global,
    office: &mut Office<B>,
    case: &Case<'_>,
    piece: usize,
) {
    let served = serve_over(alloc, office, case.at, case.request, piece, None).expect(
        rt,
        "no memory",
    );
    assert_reply(rt, alloc, case, &served);
}
