//! Answers the HTTP request in the bytes that a client has sent so far.
ghost use Rattle.office_http.specs.Serving.{Lasts};
ghost use Rattle.run_http.specs.Answer.{Asks};

use crate::reply_link::ReplyLink;
use office_books::Books;
use office_core::Office;
use office_http::{HandleFault, handle};
use std::alloc::Global;

/// The result of looking for a request in the bytes that a client has sent so far.
#[derive(Drop)]
pub enum ClientResponse {
    /// The bytes hold no complete request, so the program executed none.
    Open,
    /// The bytes of the response. The response is cut off if the store failed while rows were
    /// written.
    Replied(Vec<u8>),
    /// Memory for the response ran out, or the request took too many reads of the connection.
    Failed,
}

/// Executes the request in the bytes of a client, and returns the response. `moment` is in seconds
/// since 1970-01-01 UTC.
///
/// If the result is `Open`, the request is still incomplete. The caller should call the function
/// again with more bytes of the client.
pub fn ask<B: Books>(
    alloc: Global,
    request: &[u8],
    office: &mut Office<B>,
    moment: u64,
) -> ClientResponse
    ensures asks { Asks B.ledger moment office.old office.new request.now result }
    ensures lasts { Lasts B.ledger office.old office.new }
{
    let mut link = ReplyLink::new(alloc, request);
    match handle(alloc, &mut link, office, moment) {
        Ok(()) => ClientResponse::Replied(link.into_reply()),
        Err(HandleFault::Cut) => ClientResponse::Replied(link.into_reply()),
        Err(HandleFault::Short) => ClientResponse::Open,
        Err(HandleFault::Read) => ClientResponse::Failed,
        Err(HandleFault::Write) => ClientResponse::Failed,
        Err(HandleFault::TurnsUsed) => ClientResponse::Failed,
    }
}
