//! Accepts or rejects requests by their `Host` header.
ghost use Rattle.std.specs.Prelude.{◌≡◌, length, take, drop};
ghost use Rattle.std.specs.Char.{is_ascii_digit};
ghost use Rattle.std.specs.List.{list_all, list_any};
ghost use Rattle.office_http.specs.Messages.Head.Heads.{IsPlaced, Looks};
ghost use Rattle.office_http.specs.Messages.HeadTests.{start_at};
ghost use Rattle.office_http.specs.Messages.Hosts as hosts;
ghost use Rattle.office_http.specs.Messages.Hosts.{texts};

use crate::messages::head::{Given, Head, HeadState, header_value, same_name};

// Returns the first `count` bytes, or all bytes if there are fewer.
fn front_of(bytes: &[u8], count: usize) -> &[u8]
    ensures { result.now ≡ take count bytes.now }
{
    if count < bytes.len() {
        &bytes[..count]
    } else {
        bytes
    }
}

fn rest_of(bytes: &[u8], count: usize) -> &[u8]
    ensures { result.now ≡ drop count bytes.now }
{
    if count < bytes.len() {
        &bytes[count..]
    } else {
        &[]
    }
}

fn are_digits(bytes: &[u8]) -> bool
    ensures { result ≡ list_all is_ascii_digit bytes.now }
{
    bytes.iter().all(|byte| byte.is_ascii_digit())
}

fn is_port(text: &[u8]) -> bool
    ensures { result ≡ hosts.is_port text.now }
{
    match text {
        [] => true,
        [first, digits @ ..] => *first == b':' && are_digits(digits),
    }
}

// Returns whether a `Host` value is the host `name`, in upper or lower case, with or without a
// port.
fn is_host(name: &str, value: &[u8]) -> bool
    ensures { result ≡ hosts.is_host name.now value.now }
{
    let name = name.as_bytes();
    same_name(front_of(value, name.len()), name) && is_port(rest_of(value, name.len()))
}

fn is_own(value: &[u8]) -> bool
    ensures { result ≡ hosts.is_among hosts.own_names value.now }
{
    is_host("127.0.0.1", value) || is_host("localhost", value) || is_host("[::1]", value)
}

fn is_one_of(names: &[&str], value: &[u8]) -> bool
    ensures { result ≡ list_any (λ name. hosts.is_host name.now value.now) names.now }
{
    names.iter().any(|name| is_host(name, value))
}

fn is_given(given: &[&str], value: &[u8]) -> bool
    ensures { result ≡ hosts.is_among (texts given.now) value.now }
{
    is_one_of(given, value)
}

// Returns whether the `Host` header lets the program serve a request: the header is missing, or
// occurs once with a name of this machine or one of the names `given`.
fn has_known_host(given: &[&str], bytes: &[u8], head: &Head) -> bool
    requires placed { IsPlaced bytes.now head.now }
    ensures { result ≡ hosts.may_ask (texts given.now) (start_at bytes.now head.now) }
{
    match header_value(bytes, &head.headers[..head.count], b"host") {
        Given::Never => true,
        Given::Once(value) => is_own(value) || is_given(given, value),
        Given::Often => false,
    }
}

/// Returns whether the program serves a request, by its `Host` header (RFC 9110, section 7.2).
///
/// The `Host` header may be missing. Otherwise the request has it once, with the value `127.0.0.1`,
/// `localhost`, `[::1]` or a name in `given`. The value may be in upper or lower case, and may have
/// any port. This test rejects requests from web pages of a foreign host name that resolves to this
/// machine (DNS rebinding). Bytes without a complete head pass this test.
pub fn may_ask(given: &[&str], bytes: &[u8], head_state: &HeadState) -> bool
    requires { Looks bytes.now head_state.now }
    ensures { result ≡ hosts.may_ask_in (texts given.now) bytes.now head_state.now }
{
    match head_state {
        HeadState::Whole(head) => has_known_host(given, bytes, head),
        HeadState::Open | HeadState::TooLarge | HeadState::NoHead => true,
    }
}
