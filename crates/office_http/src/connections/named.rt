//! Serves one HTTP request if its `Host` header names an accepted host.
ghost use Rattle.std.specs.Prelude.{◌≡◌, ◌≤◌, false, length};
ghost use Rattle.std.specs.Io.KnownBytes.{Keeps};
ghost use Rattle.mb_wire.specs.Links.{risen};
ghost use Rattle.office_http.specs.Messages.Hosts.{texts};
ghost use Rattle.office_http.specs.Messages.Routing.Routes.{routes};
ghost use Rattle.office_http.specs.Exchange.{CountsLink, IsEnd, is_link_fault, passage};
ghost use Rattle.office_http.specs.Serving.{Lasts};
ghost use Rattle.office_http.specs.Connections.Named.{HandlesNamed, RepliesMisdirected};

use crate::exchange::{ended, refuse, reply};
use crate::fault::HandleFault;
use crate::messages::{
    Inbox, MOST_ROOM, ResponseWriter, Route, Status, append_fault, may_ask, read_head,
    read_request, router,
};
use crate::wants::wanted;
use matchit::Router;
use mb_wire::Link;
use office_books::Books;
use office_core::Office;
use std::alloc::Global;

/// Writes the response 421 (Misdirected Request) to a request whose `Host` header is rejected.
pub fn write_misdirected<L: Link>(link: &mut L) -> Result<(), HandleFault>
    ensures replies { RepliesMisdirected (passage (L.remaining link.old) (L.remaining link.new)
        (L.given link.old) (L.given link.new) (L.last link.new)) result }
    ensures ends { IsEnd result }
    ensures remaining { Keeps (L.remaining link.old) (L.remaining link.new) }
    ensures last { L.last link.new ≡ L.last link.old }
    ensures failures { L.failed link.new ≡ risen (is_link_fault result) (L.failed link.old) }
    ensures takes { L.taken link.new ≡ L.taken link.old }
{
    let mut writer = ResponseWriter::new(link);
    append_fault(Status::Misdirected, &mut writer);
    let sent = writer.finish();
    writer.into_link();
    ended(sent, None)
}

// Reads a request head. If the head's `Host` header is accepted, reads the request's body and
// serves the request. Otherwise writes the response 421 (Misdirected Request).
fn serve_named<L: Link, B: Books>(
    alloc: Global,
    router: &Router<Route>,
    names: &[&str],
    room: &mut [u8],
    link: &mut L,
    office: &mut Office<B>,
    moment: u64,
) -> Result<(), HandleFault>
    requires routes { router.now ≡ routes }
    requires room { 73728 ≤ length room.old }
    ensures handles { HandlesNamed (texts names.now) B.ledger moment office.old office.new
        (passage (L.remaining link.old) (L.remaining link.new)
        (L.given link.old) (L.given link.new) (L.last link.new)) result }
    ensures counts { CountsLink result (L.failed link.old) (L.failed link.new)
        (L.taken link.old) (L.taken link.new) }
    ensures lasts { Lasts B.ledger office.old office.new }
{
    let mut inbox = Inbox::new(room);
    let head = read_head(&mut inbox, link)?;
    if !may_ask(names, inbox.bytes(), &head) {
        return write_misdirected(link);
    }
    let head_state = read_request(router, &mut inbox, link)?;
    let want = wanted(alloc, router, inbox.bytes(), &head_state);
    reply(inbox.bytes(), want, link, office, moment)
}

/// Reads one request from a client's connection, and executes it if its `Host` header is accepted.
/// Then writes the response.
///
/// The `Host` header of an HTTP request is accepted if it names this machine or one of `names`, or
/// is missing. Any other request gets status 421 as soon as its head has arrived, before all other
/// tests. If memory runs out for a request, the response reports the lack of memory, and the host
/// is not tested.
pub fn handle_named<L: Link, B: Books>(
    alloc: Global,
    names: &[&str],
    link: &mut L,
    office: &mut Office<B>,
    moment: u64,
) -> Result<(), HandleFault>
    ensures handles { HandlesNamed (texts names.now) B.ledger moment office.old office.new
        (passage (L.remaining link.old) (L.remaining link.new)
        (L.given link.old) (L.given link.new) (L.last link.new)) result }
    ensures counts { CountsLink result (L.failed link.old) (L.failed link.new)
        (L.taken link.old) (L.taken link.new) }
    ensures lasts { Lasts B.ledger office.old office.new }
{
    match (router(alloc), vec![in alloc; 0; MOST_ROOM]) {
        (Ok(router), Ok(mut room)) => serve_named(
            alloc, &router, names, &mut room, link, office, moment,
        ),
        _ => refuse(link),
    }
}
