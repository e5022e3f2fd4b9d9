//! Produces the responses of the commands `serve` and `run` for golden tests.
use interval_core::Zone;
use mb_wire::MemoryLink;
use memory_books::ListBooks;
use office_core::Office;
use office_http::handle_named;
use office_running::http::{EarlierFiles, Now, RunContext, respond};
use run_http::status::RunMonitor;
use run_http::{ClientResponse, RunRoute, ask, for_browsers, run_route};
use std::alloc::{AllocError, Global};

// The host names that requests may use, as if the option `--host-name` had added them.
static NAMES: [&str; 1] = ["office.example"];

// The text that golden tests expect if the command `serve` or `run` fails or sends no response. It
// follows the bytes that were sent, if any.
static NO_REPLY: &[u8] = b"no reply";

/// Appends the response of `sunreg serve` to a request that arrives in chunks of `piece` bytes.
pub(crate) fn serve(
    alloc: Global,
    office: &mut Office<ListBooks>,
    at: u64,
    request: &[u8],
    piece: usize,
    printed: &mut Vec<u8>,
) -> Result<(), AllocError> {
    let mut output = vec![in alloc; 0u8; 65_536]?;
    let mut link = MemoryLink::new(request, &mut output, piece.max(1), None);
    let handled = handle_named(alloc, &NAMES, &mut link, office, at);
    printed.extend_from_slice(link.given())?;
    match handled {
        Ok(()) => Ok(()),
        Err(_) => printed.extend_from_slice(NO_REPLY),
    }
}

/// Appends the response of `sunreg run` to a request, with the headers for browsers. The routes of
/// `sunreg run` take precedence over those of `sunreg serve`.
pub(crate) fn run(
    alloc: Global,
    office: &mut Office<ListBooks>,
    at: u64,
    request: &[u8],
    printed: &mut Vec<u8>,
) -> Result<(), AllocError> {
    let answered = match run_route(&NAMES, request) {
        Some(route) => respond_alone(alloc, office, &route, at)?,
        None => ask(alloc, request, office, at),
    };
    match answered {
        ClientResponse::Replied(reply) => {
            let sent = for_browsers(alloc, &NAMES, request, &reply)?;
            printed.extend_from_slice(&sent)
        }
        ClientResponse::Open | ClientResponse::Failed => printed.extend_from_slice(NO_REPLY),
    }
}

// Returns the response of a route of `sunreg run`, for a program without devices and without
// earlier files.
fn respond_alone(
    alloc: Global,
    office: &mut Office<ListBooks>,
    route: &RunRoute,
    at: u64,
) -> Result<ClientResponse, AllocError> {
    let monitor = RunMonitor::new(alloc, &[])?;
    let Ok(zone) = Zone::read("UTC0") else {
        return Ok(ClientResponse::Failed);
    };
    let earlier = EarlierFiles {
        zone,
        registers: &[],
    };
    let context = RunContext {
        names: &NAMES,
        monitor: &monitor,
        lacks: &[],
        earlier: &earlier,
        at: Now {
            time: at,
            moment: at,
        },
    };
    Ok(respond(alloc, office, route, &context))
}
