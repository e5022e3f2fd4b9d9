//! The checks that the HTTP headers of a POST request must pass.
ghost use Rattle.std.specs.Prelude.{◌≡◌, length, map, All};
ghost use Rattle.httparse.specs.Spans.{IsHeaderWithin, header_bytes};
ghost use Rattle.office_http.specs.Messages.Asking.{TestsPost};
ghost use Rattle.office_http.specs.Messages.Tests.{post_headers_of};
ghost use Rattle.office_http.specs.Messages.Seen.{is_missing_given, is_repeated_given, seen_headers};

use crate::messages::head::{Given, header_value};
use crate::messages::numbers::{digits, number};
use crate::messages::status::Status;
use httparse::spans::HeaderSpan;
use office_events::Name;

/// The most bytes of a request's body.
pub const MOST_BODY: usize = 65_536;

/// The parsed headers of a command (a POST request).
#[derive(Clone, Copy)]
pub struct Posted {
    /// The size of the body in bytes, from `Content-Length`.
    pub size: u64,
    /// The name of the client that sends the command, from `Office-Caller`.
    pub caller: Name,
    /// The number that the client gave this command, from `Office-Request`. The client's name and
    /// this number form the idempotency key.
    pub number: u64,
}

fn is_missing(given: &Given<'_>) -> bool
    ensures { result ≡ is_missing_given given.now }
{
    matches!(given, Given::Never)
}

fn is_repeated(given: &Given<'_>) -> bool
    ensures { result ≡ is_repeated_given given.now }
{
    matches!(given, Given::Often)
}

fn test_headers(
    transfer: Given<'_>,
    size: Given<'_>,
    caller: Given<'_>,
    number_of: Given<'_>,
) -> Result<Posted, Status>
    ensures { TestsPost
        (seen_headers transfer.entry size.entry caller.entry number_of.entry) result }
{
    if !is_missing(&transfer)
        || is_repeated(&size)
        || is_repeated(&caller)
        || is_repeated(&number_of)
    {
        return Err(Status::BadRequest);
    }
    let Given::Once(size) = size else {
        return Err(Status::LengthRequired);
    };
    let Some(size) = digits(size) else {
        return Err(Status::BadRequest);
    };
    if size > MOST_BODY as u64 {
        return Err(Status::ContentTooLarge);
    }
    let Given::Once(caller) = caller else {
        return Err(Status::BadRequest);
    };
    let Some(caller) = Name::new(caller) else {
        return Err(Status::BadRequest);
    };
    let Given::Once(number_text) = number_of else {
        return Err(Status::BadRequest);
    };
    let Some(number) = number(number_text) else {
        return Err(Status::BadRequest);
    };
    Ok(Posted {
        size,
        caller,
        number,
    })
}

/// Parses the headers of a POST request, or returns the status of the first failed test.
///
/// The tests of the headers, each with the status of the response if it fails, in order:
///
/// - status 400 for `Transfer-Encoding`, or for a repeated `Content-Length`, `Office-Caller` or
///   `Office-Request`;
/// - status 411 without `Content-Length`;
/// - status 400 for a `Content-Length` that is not a number of at most 19 digits;
/// - status 413 for a `Content-Length` above 65,536 bytes;
/// - status 400 for a missing or malformed `Office-Caller` or `Office-Request`.
pub fn post_headers(bytes: &[u8], headers: &[HeaderSpan]) -> Result<Posted, Status>
    requires within { All (IsHeaderWithin (length bytes.now)) headers.now }
    ensures { TestsPost (post_headers_of (map (header_bytes bytes.now) headers.now)) result }
{
    let transfer = header_value(bytes, headers, b"transfer-encoding");
    let size = header_value(bytes, headers, b"content-length");
    let caller = header_value(bytes, headers, b"office-caller");
    let number_of = header_value(bytes, headers, b"office-request");
    test_headers(transfer, size, caller, number_of)
}
