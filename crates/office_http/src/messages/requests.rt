//! Parses the parameters of routes, and combines commands with their idempotency keys.
ghost use Rattle.std.specs.Prelude.{◌≡◌, IfOk, option_map};
ghost use Rattle.office_http.specs.Messages.Asking.{Says};
ghost use Rattle.office_http.specs.Messages.Tests.{PostHeaders};
ghost use Rattle.office_http.specs.Messages.Replies.{asked_with};
ghost use Rattle.office_http.specs.Messages.Requests.{kept_request, name_asked, number_asked};

use crate::messages::{Posted, number};
use office_events::{Asked, Command, Name, Piece};
use std::alloc::{AllocError, Global};

/// Returns the bytes that the store records of a command's request: the method, a space, the
/// target, a line feed and the body.
pub fn kept_request(
    alloc: Global,
    method: &[u8],
    target: &[u8],
    body: &[u8],
) -> Result<Piece, AllocError>
    ensures { IfOk result (λ kept. kept ≡ kept_request method.now target.now body.now) }
{
    let mut bytes = Vec::from_slice(alloc, method)?;
    bytes.push(b' ')?;
    bytes.extend_from_slice(target)?;
    bytes.push(b'\n')?;
    bytes.extend_from_slice(body)?;
    Ok(Piece::new(bytes))
}

/// Returns the value of a route's parameter as a name, if it is a valid name.
pub fn name_asked(taken: Option<&str>) -> Option<Name>
    ensures { result ≡ name_asked (option_map (λ s. s.now) taken.entry) }
{
    match taken {
        Some(text) => Name::new(text.as_bytes()),
        None => None,
    }
}

/// Returns the value of a route's parameter as the number of a poll. The number has one to nineteen
/// digits and is at most 2^63 - 1.
pub fn number_asked(taken: Option<&str>) -> Option<u64>
    ensures { result ≡ number_asked (option_map (λ s. s.now) taken.entry) }
{
    match taken {
        Some(text) => number(text.as_bytes()),
        None => None,
    }
}

/// Combines a command with its idempotency key and the bytes that the store records of its request.
pub fn asked(posted: &Posted, request: Piece, command: Command) -> Asked
    ensures { (headers : PostHeaders) → Says headers posted.now
        → result ≡ asked_with headers request command }
{
    Asked {
        caller: Some(posted.caller),
        number: posted.number,
        request,
        command,
    }
}
