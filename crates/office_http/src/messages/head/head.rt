//! Parses the head of an HTTP request with `httparse`, within limits of size and of headers.
ghost use Rattle.std.specs.Prelude.{◌≡◌, IfSome, IsNone};
ghost use Rattle.office_http.specs.Messages.Head.Heads.{HasNoHead, IsHeadAt, Looks, front_of};

use crate::messages::head::lines::{has_head_end, head_line_count};
use httparse::Status;
use httparse::spans::{EMPTY_HEADER_SPAN, HeaderSpan, Span, parse_request};

/// The most headers in the head of a request.
pub const MOST_HEADERS: usize = 64;

/// The most bytes in the head of a request.
pub const MOST_BYTES: usize = 8192;

/// The head of an HTTP request, as spans of the bytes that hold it.
#[derive(Clone, Copy)]
pub struct Head {
    pub method: Span,
    pub target: Span,
    pub headers: [HeaderSpan; MOST_HEADERS],
    /// The number of headers. The entries of `headers` from this index on are unused.
    pub count: usize,
    /// The size of the request head in bytes, including the empty line at its end.
    pub len: usize,
}

/// The result of looking for the head of a request in the received bytes.
#[derive(Clone, Copy)]
pub enum HeadState {
    /// An incomplete head of an HTTP request: its end has not arrived.
    Open,
    /// A head past the limits: the first 8,192 bytes have no end of the head, or more than 64 lines
    /// follow the request line.
    TooLarge,
    /// A malformed head: it ends within the limits (8,192 bytes, 64 lines after the request line),
    /// but is not the head of an HTTP request.
    NoHead,
    /// A complete request head within the limits.
    Whole(Head),
}

impl HeadState {
    ghost use Rattle.office_http.specs.Messages.Head.Heads.{is_open};

    /// Returns whether the request head is still incomplete.
    pub fn is_open(&self) -> bool
        ensures { result ≡ is_open self.now }
    {
        matches!(self, HeadState::Open)
    }
}

// Returns the request head at the start of the bytes, if the head is complete and within the limits
// for its size and number of headers.
fn head_of(bytes: &[u8]) -> Option<Head>
    ensures head { IfSome result (IsHeadAt bytes.now) }
    ensures none { IsNone result → HasNoHead bytes.now }
{
    let mut headers = [EMPTY_HEADER_SPAN; MOST_HEADERS];
    let Ok(Status::Complete(found)) = parse_request(bytes, &mut headers) else {
        return None;
    };
    if found.len > MOST_BYTES {
        return None;
    }
    Some(Head {
        method: found.method,
        target: found.path,
        headers,
        count: found.headers,
        len: found.len,
    })
}

// Returns the first 8,192 bytes, or all bytes if there are fewer. A request head has to end within
// these bytes.
fn front_of(bytes: &[u8]) -> &[u8]
    ensures { result.now ≡ front_of bytes.now }
{
    if bytes.len() > MOST_BYTES {
        &bytes[..MOST_BYTES]
    } else {
        bytes
    }
}

/// Parses the request head at the start of the received bytes.
pub fn parse_head(bytes: &[u8]) -> HeadState
    ensures { Looks bytes.now result }
{
    if let Some(head) = head_of(bytes) {
        return HeadState::Whole(head);
    }
    let front = front_of(bytes);
    if has_head_end(front) {
        if head_line_count(front) > MOST_HEADERS + 1 {
            HeadState::TooLarge
        } else {
            HeadState::NoHead
        }
    } else if bytes.len() >= MOST_BYTES {
        HeadState::TooLarge
    } else {
        HeadState::Open
    }
}
