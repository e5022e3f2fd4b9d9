//! The routes of `sunreg run`: `/status`, `/metrics`, `/site`, rows of a meter, the energy and
//! meters of an accounting register (a named energy counter), and the web page.
ghost use Rattle.std.specs.Prelude.{◌≡◌, IfOk, OnOk};
ghost use Rattle.office_http.specs.Messages.Head.Heads.{Looks};
ghost use Rattle.office_http.specs.Messages.Sending.Bodies.{fault_text};
ghost use Rattle.office_http.specs.Messages.Hosts as hosts;
ghost use Rattle.run_http.specs.StatusRoute as texts;

use crate::meter_targets::meter_target;
use crate::register_targets::register_target;
use crate::status::{
    Counts, DeviceLack, DeviceState, append_bytes, write_number, write_status, write_word,
};
use energy_report::ReportForm;
use office_books::Span;
use office_events::Name;
use office_http::messages::{HeadState, Status, has_query, is_cross_site, may_ask, parse_head};
use std::alloc::{AllocError, Global};
use web_page::{PagePart, part_of};

/// A route whose response needs no query of the store.
#[derive(Clone, Copy)]
pub enum StatusRoute {
    /// The counts of polls, readings and refusals, the device states, and what is missing in the
    /// store for the devices, as JSON (`/status`).
    Status,
    /// A part of the web page, such as its script.
    Page(PagePart),
    /// An error response with this status. A rejected host gets 421, a page of another site 403, a
    /// method other than GET 405, and a malformed target 400.
    Rejected(Status),
}

/// A route that `sunreg run` adds to the routes of the crate `office_http`.
#[derive(Clone, Copy)]
pub enum RunRoute {
    /// A route whose response needs no query of the store.
    Own(StatusRoute),
    /// The counts and the energy of the open meters, in Prometheus's text format (`/metrics`).
    Metrics,
    /// The accounting registers (named energy counters) and their meters, as JSON (`/site`).
    Site,
    /// The quarter hours of a meter, as plain text. `None` means an invalid meter name.
    Intervals {
        meter: Option<Name>,
        span: Span,
    },
    /// The entries of a meter from a sequence number on, including voided (withdrawn) entries, as
    /// plain text.
    Entries {
        meter: Option<Name>,
        from: u64,
    },
    /// The voided entries of a meter (withdrawn as false), as plain text.
    Voids {
        meter: Option<Name>,
    },
    /// The energy of an accounting register (a named energy counter), as plain text in the
    /// requested format. `None` means an invalid register name.
    Energy {
        register: Option<Name>,
        form: ReportForm,
    },
    /// The present and earlier meters of an accounting register (a named energy counter), as plain
    /// text.
    Meters {
        register: Option<Name>,
    },
}

fn path_named(target: &[u8]) -> Option<RunRoute>
    ensures { result ≡ texts.path_named target.now }
{
    if target == b"/status".as_slice() {
        Some(RunRoute::Own(StatusRoute::Status))
    } else if target == b"/metrics".as_slice() {
        Some(RunRoute::Metrics)
    } else if target == b"/site".as_slice() {
        Some(RunRoute::Site)
    } else {
        part_of(target).map(|part| RunRoute::Own(StatusRoute::Page(part)))
    }
}

// Finds the route of a fixed path such as `/status`, or of a target for rows of a meter.
fn plain_target(target: &[u8]) -> Option<RunRoute>
    ensures { result ≡ texts.plain_target target.now }
{
    match path_named(target) {
        None => meter_target(target),
        Some(route) => Some(route),
    }
}

// Finds the route of a request target without a question mark.
fn whole_target(target: &[u8]) -> Option<RunRoute>
    ensures { texts.IsWholeTarget target.now result }
{
    match plain_target(target) {
        None => register_target(target),
        Some(route) => Some(route),
    }
}

fn target_named(target: &[u8]) -> Option<RunRoute>
    ensures { texts.IsTarget target.now result }
{
    if has_query(target) {
        None
    } else {
        whole_target(target)
    }
}

// Finds the route of a request target, and rejects methods other than GET with 405.
fn route_named(method: &[u8], target: &[u8]) -> Option<RunRoute>
    ensures { texts.IsRouteNamed method.now target.now result }
{
    match target_named(target) {
        None => None,
        Some(route) => {
            if method == b"GET".as_slice() {
                Some(route)
            } else {
                Some(RunRoute::Own(StatusRoute::Rejected(Status::MethodNotAllowed)))
            }
        }
    }
}

// Finds the route of a request if its head is complete and within the limits.
fn route_in(request: &[u8], head_state: &HeadState) -> Option<RunRoute>
    requires { Looks request.now head_state.now }
    ensures { texts.IsRouteIn request.now head_state.now result }
{
    match head_state {
        HeadState::Whole(head) => route_named(head.method.of(request), head.target.of(request)),
        HeadState::Open | HeadState::TooLarge | HeadState::NoHead => None,
    }
}

fn is_link_to_page(method: &[u8], target: &[u8]) -> bool
    ensures { result ≡ texts.is_link_to_page method.now target.now }
{
    method == b"GET".as_slice() && target == b"/".as_slice()
}

fn asks_for_page(request: &[u8], head_state: &HeadState) -> bool
    requires { Looks request.now head_state.now }
    ensures { result ≡ texts.asks_for_page request.now head_state.now }
{
    match head_state {
        HeadState::Whole(head) => is_link_to_page(head.method.of(request), head.target.of(request)),
        HeadState::Open | HeadState::TooLarge | HeadState::NoHead => false,
    }
}

// Returns whether a page of another site sent the request. A request for the web page itself is
// exempt, because pages of other sites may link to it.
fn is_forbidden(request: &[u8], head_state: &HeadState) -> bool
    requires { Looks request.now head_state.now }
    ensures { result ≡ texts.is_forbidden request.now head_state.now }
{
    is_cross_site(request, head_state) && !asks_for_page(request, head_state)
}

// Finds the route of a request whose host was accepted, or 403 if a page of another site sent the
// request.
fn permitted_route(request: &[u8], head_state: &HeadState) -> Option<RunRoute>
    requires { Looks request.now head_state.now }
    ensures { texts.IsPermitted request.now head_state.now result }
{
    if is_forbidden(request, head_state) {
        Some(RunRoute::Own(StatusRoute::Rejected(Status::Forbidden)))
    } else {
        route_in(request, head_state)
    }
}

/// Finds the route of a request among the routes of `sunreg run`, if the head is complete and
/// within its limits.
///
/// A request whose host is not in `names` and is no name of this machine gets 421. A request from a
/// page of another site gets 403. `None` means that `run_http` has no route, and the crate
/// `office_http` handles the request.
pub fn run_route(names: &[&str], request: &[u8]) -> Option<RunRoute>
    ensures { texts.IsFor (hosts.texts names.now) request.now result }
{
    let head_state = parse_head(request);
    if may_ask(names, request, &head_state) {
        permitted_route(request, &head_state)
    } else {
        Some(RunRoute::Own(StatusRoute::Rejected(Status::Misdirected)))
    }
}

/// Returns whether [`run_route`] finds a route to the energy of an accounting register (a named
/// energy counter).
pub fn asks_energy(names: &[&str], request: &[u8]) -> bool
    ensures { texts.AsksEnergy (hosts.texts names.now) request.now result }
{
    match run_route(names, request) {
        Some(RunRoute::Energy { .. }) => true,
        _ => false,
    }
}

/// Appends the status line and the headers of a response, for a body with this type and size.
pub(crate) fn write_start_of(
    text: &mut Vec<u8>,
    status: Status,
    kind: &[u8],
    size: usize,
) -> Result<(), AllocError>
    ensures { OnOk result (text.new.items
        ≡ texts.with_start_of status kind.now size text.old.items) }
{
    write_number(text, b"HTTP/1.1 ", u64::from(status.number()))?;
    write_word(text, b" ", status.reason())?;
    write_word(text, b"\r\nContent-Type: ", kind)?;
    write_number(text, b"\r\nContent-Length: ", size as u64)?;
    append_bytes(text, b"\r\nConnection: close")
}

fn write_start(
    text: &mut Vec<u8>,
    status: Status,
    kind: &[u8],
    body: &[u8],
) -> Result<(), AllocError>
    ensures { OnOk result (text.new.items
        ≡ texts.with_start status kind.now body.now text.old.items) }
{
    write_start_of(text, status, kind, body.len())
}

/// Appends a complete HTTP response. `kind` is the content type of its body.
pub(crate) fn append_reply(
    text: &mut Vec<u8>,
    status: Status,
    kind: &[u8],
    body: &[u8],
) -> Result<(), AllocError>
    ensures { OnOk result (text.new.items
        ≡ texts.with_reply status kind.now body.now text.old.items) }
{
    write_start(text, status, kind, body)?;
    write_word(text, b"\r\n\r\n", body)
}

// Appends the response headers for a part of the web page.
fn write_page_headers(text: &mut Vec<u8>) -> Result<(), AllocError>
    ensures { OnOk result (text.new.items ≡ texts.with_page_headers text.old.items) }
{
    append_bytes(
        text,
        b"\r\nContent-Security-Policy: default-src 'self'; frame-ancestors 'none'",
    )?;
    append_bytes(text, b"\r\nCache-Control: no-cache")
}

fn write_page(text: &mut Vec<u8>, part: PagePart) -> Result<(), AllocError>
    ensures { OnOk result (text.new.items ≡ texts.with_page_reply part text.old.items) }
{
    write_start(text, Status::Fine, part.content_type(), part.body())?;
    write_page_headers(text)?;
    write_word(text, b"\r\n\r\n", part.body())
}

fn fault_body(alloc: Global, status: Status) -> Result<Vec<u8>, AllocError>
    ensures { IfOk result (λ body. body.items ≡ fault_text status) }
{
    let mut body = Vec::new(alloc);
    write_number(&mut body, b"{\"fault\":", u64::from(status.number()))?;
    append_bytes(&mut body, b"}")?;
    Ok(body)
}

/// Appends the response of a route that needs no data of the store.
pub fn reply_status(
    alloc: Global,
    text: &mut Vec<u8>,
    route: StatusRoute,
    counts: &Counts,
    devices: &[DeviceState],
    lacks: &[DeviceLack],
) -> Result<(), AllocError>
    ensures { OnOk result (text.new.items
        ≡ texts.with_route_reply route counts.now devices.now lacks.now text.old.items) }
{
    match route {
        StatusRoute::Status => {
            let mut body = Vec::new(alloc);
            write_status(&mut body, counts, devices, lacks)?;
            append_reply(text, Status::Fine, b"application/json", &body)
        }
        StatusRoute::Page(part) => write_page(text, part),
        StatusRoute::Rejected(status) => {
            let body = fault_body(alloc, status)?;
            append_reply(text, status, b"application/json", &body)
        }
    }
}
