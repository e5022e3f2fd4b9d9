//! Starts the responses that contain many quarter hours and are therefore sent in chunks.
ghost use Rattle.std.specs.Prelude.{[]};
ghost use Rattle.office_running.specs.Http.Clients.{OnlyQueries};
ghost use Rattle.run_http.specs.Pieces.{with_rows};
ghost use Rattle.office_running.specs.Http.Responses.{IsBegunWith, MayBeginAll, MayBeginRoute, MayBeginRows};

use matchit::Router;
use office_books::{Books, Span};
use office_core::Office;
use office_events::{Name, Refusal};
use office_http::messages::Route;
use run_http::{
    ClientResponse, RemainingRows, RunRoute, all_rows_asked, begin_all_intervals, begin_intervals,
    has_more, is_long_response, write_last_rows, write_next_rows,
};
use std::alloc::{AllocError, Global};

/// The time span in seconds of the quarter hours in one chunk: 1,000 lines of at most 32 bytes
/// each.
const PIECE_SECONDS: u64 = 900_000;

// Returns the first chunk of a streamed response. Returns `None` if the program refused the query;
// the caller then builds a complete response.
fn begun_answer(
    text: Vec<u8>,
    begun: Result<Result<RemainingRows, Refusal>, AllocError>,
    rows: &mut Option<RemainingRows>,
) -> Option<ClientResponse>
    ensures { IsBegunWith text begun rows.old rows.new result }
{
    match begun {
        Ok(Ok(left)) => {
            *rows = Some(left);
            Some(ClientResponse::Replied(text))
        }
        Ok(Err(_)) => None,
        Err(_) => Some(ClientResponse::Failed),
    }
}

// Starts a streamed response that contains the quarter hours of a meter from `from` until `till`.
// Returns `None` if the quarter hours fit in one chunk, or if the program refused a query.
fn begin_rows<B: Books>(
    alloc: Global,
    office: &mut Office<B>,
    meter: &Option<Name>,
    from: u64,
    till: u64,
    rows: &mut Option<RemainingRows>,
) -> Option<ClientResponse>
    ensures { MayBeginRows B.ledger office.old office.new meter.now from till (with_rows [])
        rows.old rows.new result }
{
    let Ok(it) = office.meter(meter) else {
        return None;
    };
    if !is_long_response(&it, from, till, PIECE_SECONDS) {
        return None;
    }
    let mut text = Vec::new(alloc);
    let begun = begin_intervals(alloc, &mut text, office, &it, from, till);
    begun_answer(text, begun, rows)
}

/// Starts the streamed response of a route that requests the quarter hours of a time span, if these
/// exceed one chunk. `rows` receives the rows of the later chunks. Returns `None` for any other
/// route.
pub(crate) fn begin_route<B: Books>(
    alloc: Global,
    office: &mut Office<B>,
    route: &RunRoute,
    rows: &mut Option<RemainingRows>,
) -> Option<ClientResponse>
    ensures { MayBeginRoute B.ledger office.old office.new route.now rows.old rows.new result }
{
    let RunRoute::Intervals { meter, span } = route else {
        return None;
    };
    let Span::Between { from, till } = *span else {
        return None;
    };
    begin_rows(alloc, office, meter, from, till, rows)
}

/// Starts the streamed response that contains all quarter hours of a meter, if the request asks for
/// them and they exceed one chunk. `rows` receives the rows of the later chunks.
pub(crate) fn begin_all<B: Books>(
    alloc: Global,
    router: &Router<Route>,
    request: &[u8],
    office: &mut Office<B>,
    rows: &mut Option<RemainingRows>,
) -> Option<ClientResponse>
    ensures { MayBeginAll B.ledger office.old office.new router.now request.now
        rows.old rows.new result }
{
    let Some(meter) = all_rows_asked(router, request) else {
        return None;
    };
    let Ok(it) = office.meter(&meter) else {
        return None;
    };
    if !is_long_response(&it, 0, u64::MAX, PIECE_SECONDS) {
        return None;
    }
    let mut text = Vec::new(alloc);
    let begun = begin_all_intervals(alloc, &mut text, office, &it);
    begun_answer(text, begun, rows)
}

/// Appends the next chunk of a streamed response, or its end if no rows remain. Returns true if
/// this was the end, or `None` if the store failed or memory ran out.
#[tactic(auto, using(crate::proofs::HttpLemmas::ServingClients::queries_nothing, crate::proofs::HttpLemmas::ServingClients::queries_reported))]
pub(crate) fn append_piece<B: Books>(
    alloc: Global,
    text: &mut Vec<u8>,
    rows: &mut RemainingRows,
    office: &mut Office<B>,
) -> Option<bool>
    ensures { OnlyQueries B.ledger office.old office.new }
{
    if !has_more(rows) {
        return match write_last_rows(text, rows) {
            Ok(()) => Some(true),
            Err(_) => None,
        };
    }
    match write_next_rows(alloc, text, office, rows, PIECE_SECONDS) {
        Ok(Ok(())) => Some(false),
        Ok(Err(_)) => None,
        Err(_) => None,
    }
}
