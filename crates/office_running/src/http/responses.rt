//! Builds the response of each route of `sunreg run`.
ghost use Rattle.std.specs.List.{find};
ghost use Rattle.office_books.specs.Facts.{is_named};
ghost use Rattle.office_running.specs.Http.Responses.{BeginsResponse, IsUnavailable, RepliesDays};
ghost use Rattle.office_running.specs.Http.Responses.{RepliesRoute, RespondsByRoute};

use crate::http::energy_over::{EarlierFiles, earlier_named, reply_energy_over};
use crate::http::interval_answers::begin_route;
use crate::http::run_context::RunContext;
use crate::http::site_over::reply_site_over;
use energy_report::ReportForm;
use office_books::Books;
use office_core::Office;
use office_events::Name;
use office_http::messages::Status;
use run_http::status::Counts;
use run_http::{
    ClientResponse, RemainingRows, RunRoute, StatusRoute, reply_energy, reply_entries,
    reply_intervals, reply_meters, reply_metrics, reply_status, reply_voids,
};
use std::alloc::{AllocError, Global};

// Appends the response with the energy of an accounting register (a named energy counter),
// including the register's energy in earlier database files.
fn reply_days<B: Books>(
    alloc: Global,
    text: &mut Vec<u8>,
    office: &mut Office<B>,
    earlier: &EarlierFiles<'_>,
    register: &Option<Name>,
    form: &ReportForm,
) -> Result<(), AllocError>
    ensures { RepliesDays B.ledger office.old office.new earlier.now.zone
        (find (λ it. is_named register.now it.name) earlier.now.registers.now)
        register.now form.now text.old.items text.new.items result }
{
    match earlier_named(earlier.registers, register) {
        Some(it) => reply_energy_over(alloc, text, office, earlier.zone, &it.days, &it.name, form),
        None => reply_energy(alloc, text, office, register, form),
    }
}

// Appends the complete response of a route to an output buffer.
fn reply_route<B: Books>(
    alloc: Global,
    text: &mut Vec<u8>,
    office: &mut Office<B>,
    route: &RunRoute,
    context: &RunContext<'_>,
) -> Result<(), AllocError>
    ensures { RepliesRoute B.ledger office.old office.new context.now route.now
        text.old.items text.new.items result }
{
    let monitor = context.monitor;
    match route {
        RunRoute::Own(route) => reply_status(
            alloc,
            text,
            *route,
            &monitor.counts,
            &monitor.states,
            context.lacks,
        ),
        RunRoute::Metrics => reply_metrics(alloc, text, office, &monitor.counts, &monitor.states),
        RunRoute::Site => reply_site_over(
            alloc,
            text,
            office,
            context.earlier.registers,
            context.at.moment,
        ),
        RunRoute::Intervals { meter, span } => reply_intervals(alloc, text, office, meter, *span),
        RunRoute::Entries { meter, from } => reply_entries(alloc, text, office, meter, *from),
        RunRoute::Voids { meter } => reply_voids(alloc, text, office, meter),
        RunRoute::Energy { register, form } => {
            reply_days(alloc, text, office, context.earlier, register, form)
        }
        RunRoute::Meters { register } => reply_meters(alloc, text, office, register),
    }
}

/// Returns the complete response of a route, with all its rows. The result is `Failed` if
/// memory ran out.
pub fn respond<B: Books>(
    alloc: Global,
    office: &mut Office<B>,
    route: &RunRoute,
    context: &RunContext<'_>,
) -> ClientResponse
    ensures { RespondsByRoute B.ledger office.old office.new context.now route.now result }
{
    let mut text = Vec::new(alloc);
    match reply_route(alloc, &mut text, office, route, context) {
        Ok(()) => ClientResponse::Replied(text),
        Err(_) => ClientResponse::Failed,
    }
}

/// Returns the response of a route: the complete response, or the first chunk if the route requests
/// many quarter hours. After a first chunk, `rows` receives the rows of the later chunks. The
/// result is `Failed` if memory ran out.
pub(crate) fn begin_response<B: Books>(
    alloc: Global,
    office: &mut Office<B>,
    route: &RunRoute,
    context: &RunContext<'_>,
    rows: &mut Option<RemainingRows>,
) -> ClientResponse
    ensures { BeginsResponse B.ledger office.old office.new context.now route.now
        rows.old rows.new result }
{
    match begin_route(alloc, office, route, rows) {
        Some(begun) => begun,
        None => respond(alloc, office, route, context),
    }
}

/// Returns the response with status 503, which rejects a command. The result is `Failed` if memory
/// ran out.
pub(crate) fn unavailable(alloc: Global) -> ClientResponse
    ensures { IsUnavailable result }
{
    let mut text = Vec::new(alloc);
    let rejected = StatusRoute::Rejected(Status::Unavailable);
    match reply_status(alloc, &mut text, rejected, &Counts::new(), &[], &[]) {
        Ok(()) => ClientResponse::Replied(text),
        Err(_) => ClientResponse::Failed,
    }
}
