//! Detects requests that a page of another site sent, by `Sec-Fetch-Site`.
ghost use Rattle.std.specs.Prelude.{◌≡◌};
ghost use Rattle.office_http.specs.Messages.Head.Heads.{IsPlaced, Looks};
ghost use Rattle.office_http.specs.Messages.HeadTests.{start_at};
ghost use Rattle.office_http.specs.Messages.Sites as sites;

use crate::messages::head::{Given, Head, HeadState, header_value};

// Returns whether a request's `Sec-Fetch-Site` header says that a page of another site sent the
// request.
fn says_cross_site(bytes: &[u8], head: &Head) -> bool
    requires placed { IsPlaced bytes.now head.now }
    ensures { result ≡ sites.is_cross_site (start_at bytes.now head.now) }
{
    match header_value(bytes, &head.headers[..head.count], b"sec-fetch-site") {
        Given::Never => false,
        Given::Once(value) => value == b"cross-site".as_slice(),
        Given::Often => true,
    }
}

/// Returns whether a page of another site made a browser send the request, by `Sec-Fetch-Site`
/// (W3C, Fetch Metadata Request Headers, section 2.3).
///
/// Returns true if the header `Sec-Fetch-Site` is repeated, since no browser repeats it. Returns
/// false for bytes without a complete request head.
pub fn is_cross_site(bytes: &[u8], head_state: &HeadState) -> bool
    requires { Looks bytes.now head_state.now }
    ensures { result ≡ sites.is_cross_site_in bytes.now head_state.now }
{
    match head_state {
        HeadState::Whole(head) => says_cross_site(bytes, head),
        HeadState::Open | HeadState::TooLarge | HeadState::NoHead => false,
    }
}
