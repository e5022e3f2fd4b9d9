//! Reads a complete HTTP request from a client's connection: its head, and the body that belongs to
//! this head.

ghost use Rattle.std.specs.Prelude.{◌≡◌, ◌≤◌, ◌+◌, IsUtf8, MatchBool, OnOk, Ok, drop, length, take};
ghost use Rattle.std.specs.Io.KnownBytes.{Keeps};
ghost use Rattle.httparse.specs.Spans.{span_bytes};
ghost use Rattle.mb_wire.specs.Links.{risen};
ghost use Rattle.office_http.specs.Messages.Head.Heads.{IsHeadAt, IsPlaced};
ghost use Rattle.office_http.specs.Messages.Asking.{TestsHead};
ghost use Rattle.office_http.specs.Messages.HeadTests.{start_at};
ghost use Rattle.office_http.specs.declared.messages.ask.Ask.TheVariants as Ask;
ghost use Rattle.office_http.specs.Messages.Reading.HeadAndBody.{StopsAtOnce};
ghost use Rattle.office_http.specs.Messages.Reading.Taking.{CountsTakes, EndedBy, bytes_in, is_read_fault, room_of};
ghost use Rattle.office_http.specs.Messages.Whole.Whole.{IsReadWhole, IsUnfinished, Holds, HoldsRequest, IsWhole, ReadsRequest, RequestsAreOne, TestsRequest, body_of, body_size};

use crate::messages::head::{Head, HeadState, MOST_BYTES, parse_head};
use crate::messages::reading::{Inbox, TakeFault, read_body, read_head};
use crate::messages::routing::Route;
use crate::messages::status::Status;
use crate::messages::{Ask, Found, MOST_BODY, Posted, ask_of};
use matchit::Router;
use mb_wire::Link;

/// The size in bytes of a buffer that is large enough for any request.
pub const MOST_ROOM: usize = MOST_BYTES + MOST_BODY;

// Returns the size in bytes of the request body that follows a head. The size is 0 if the request
// is a query, or if the program rejects the request by its head.
fn body_size(router: &Router<Route>, bytes: &[u8], head: &Head) -> usize
    requires text { IsUtf8 (span_bytes bytes.now head.now.target) }
    requires placed { IsPlaced bytes.now head.now }
    ensures size { result ≡ body_size router.now (start_at bytes.now head.now) }
    ensures most { result ≤ 65536 }
{
    match ask_of(router, bytes, head) {
        Ok(Ask::Command(_, posted)) => posted.size as usize,
        Ok(Ask::Question(_)) | Err(_) => 0,
    }
}

/// Reads from a client's connection until the buffer has a complete request or an invalid head. The
/// returned state is never `Open` (an incomplete head).
///
/// Reading a request fails if a read from the client's connection fails, the input ends, or the
/// buffer has made 100,000 reads. The error says which of these causes occurred.
pub fn read_request<L: Link>(
    router: &Router<Route>,
    inbox: &mut Inbox<'_>,
    link: &mut L,
) -> Result<HeadState, TakeFault>
    requires { 73728 ≤ room_of inbox.old }
    ensures reads { ReadsRequest router.now result (bytes_in inbox.old) (bytes_in inbox.new)
        (L.remaining link.old) (L.remaining link.new) }
    ensures takes { CountsTakes result inbox.old inbox.new (L.taken link.old) (L.taken link.new) }
    ensures last { EndedBy result (L.last link.new) }
    ensures stops { OnOk result (StopsAtOnce (IsUnfinished router.now)
        inbox.old inbox.new (L.last link.old) (L.last link.new)) }
    ensures given { Keeps (L.given link.old) (L.given link.new) }
    ensures failures { L.failed link.new ≡ risen (is_read_fault result) (L.failed link.old) }
{
    let head_state = read_head(inbox, link)?;
    if let HeadState::Whole(head) = &head_state {
        let size = body_size(router, inbox.bytes(), head);
        read_body(inbox, link, head.len + size)?;
    }
    Ok(head_state)
}

/// Returns whether bytes have a complete request or an invalid head, so that no more bytes have to
/// be read.
pub fn is_whole(router: &Router<Route>, bytes: &[u8]) -> bool
    ensures { MatchBool result (IsReadWhole router.now bytes.now)
        (IsUnfinished router.now bytes.now) }
{
    match parse_head(bytes) {
        HeadState::Open => false,
        HeadState::TooLarge | HeadState::NoHead => true,
        HeadState::Whole(head) => head.len + body_size(router, bytes, &head) <= bytes.len(),
    }
}

/// Returns the query or command of a complete request, or the status that rejects the request.
///
/// A head past the limits of 8,192 bytes and 64 headers gets status 431, and a malformed head gets
/// 400. [`ask_of`] tests any other head.
pub fn test_request<'b>(
    router: &Router<Route>,
    bytes: &'b [u8],
    head_state: &HeadState,
) -> Result<Ask<'b>, Status>
    requires { Holds router.now bytes.now head_state.now }
    ensures { TestsRequest router.now bytes.now head_state.now result }
{
    match head_state {
        HeadState::TooLarge => Err(Status::FieldsTooLarge),
        HeadState::NoHead => Err(Status::BadRequest),
        HeadState::Whole(head) => ask_of(router, bytes, head),
        HeadState::Open => unreachable!(),
    }
}

/// Returns the body of a complete command (POST): the bytes that follow its head.
pub fn request_body<'b>(bytes: &'b [u8], head: &Head, posted: &Posted) -> &'b [u8]
    requires whole { head.now.len + posted.now.size ≤ length bytes.now }
    ensures { result.now ≡ take posted.now.size (drop head.now.len bytes.now) }
{
    let size = posted.size as usize;
    &bytes[head.len..head.len + size]
}

/// Theorem: the body of a complete command has as many bytes as its `Content-Length` says.
pub fn head_gives_body_size(
    router: &Router<Route>,
    bytes: &[u8],
    head: &Head,
    found: &Found<'_>,
    posted: &Posted,
)
    requires asks { TestsHead router.now (start_at bytes.now head.now)
        (Ok (Ask.Command found.now posted.now)) }
    ensures { body_size router.now (start_at bytes.now head.now) ≡ posted.now.size }
{}

/// Theorem: two results of parsing a request head from the same bytes have the same method, target,
/// headers and size.
pub fn parses_agree(bytes: &[u8], one: &Head, other: &Head)
    requires one { IsHeadAt bytes.now one.now }
    requires other { IsHeadAt bytes.now other.now }
    ensures start { start_at bytes.now one.now ≡ start_at bytes.now other.now }
    ensures len { one.now.len ≡ other.now.len }
{}

/// Theorem: bytes that lack a part of the request head or of the request body contain no complete
/// request.
pub fn incomplete_is_no_request(router: &Router<Route>, bytes: &[u8], head: &Head)
    requires { IsUnfinished router.now bytes.now }
    ensures { IsWhole router.now bytes.now head.now → ⊥ }
{}

/// Theorem: bytes with a complete request head and body contain the request with this head and this
/// body.
pub fn parsing_finds_the_request(router: &Router<Route>, bytes: &[u8], head: &Head)
    requires { IsWhole router.now bytes.now head.now }
    ensures { HoldsRequest router.now bytes.now (start_at bytes.now head.now)
        (body_of router.now bytes.now head.now) }
{}

/// Theorem: received bytes begin with at most one request.
pub fn requests_are_one()
    ensures { RequestsAreOne }
{}
