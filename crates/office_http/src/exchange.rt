//! Reads one HTTP request from a client's connection, and writes one response.
ghost use Rattle.std.specs.Prelude.{◌≡◌, ◌≤◌, length};
ghost use Rattle.std.specs.Io.KnownBytes.{Keeps};
ghost use Rattle.mb_wire.specs.Links.{risen};
ghost use Rattle.office_http.specs.Messages.Routing.Routes.{routes};
ghost use Rattle.office_http.specs.Wants.Wanting.{HasFewFaults, Wants};
ghost use Rattle.office_core.specs.Standing.{After};
ghost use Rattle.office_http.specs.Exchange.{CountsLink, GivesReplyTo, Handles, HandlesBare, IsEnd};
ghost use Rattle.office_http.specs.Exchange.{ended, is_link_fault, passage};
ghost use Rattle.office_http.specs.Serving.{Lasts};

use crate::answers::append_reply;
use crate::fault::HandleFault;
use crate::messages::{
    Inbox, MOST_BYTES, MOST_ROOM, ResponseWriter, Route, append_refusal, read_head, read_request,
    router,
};
use crate::rows::Replied;
use crate::wants::{Want, wanted};
use matchit::Router;
use mb_wire::{Link, LinkFailed};
use office_books::Books;
use office_core::Office;
use office_events::Refusal;
use std::alloc::Global;

/// Returns the result of serving a request for which a response was written: `Write` if the write
/// failed, `Cut` if the response was cut off, otherwise `Ok`.
pub(crate) fn ended(sent: Result<(), LinkFailed>, cut: Option<Refusal>) -> Result<(), HandleFault>
    ensures { result ≡ ended sent cut }
{
    sent.map_err(|_| HandleFault::Write)?;
    match cut {
        Some(_) => Err(HandleFault::Cut),
        None => Ok(()),
    }
}

/// Reads a request head into a buffer on the stack, and writes the response that memory ran out.
pub(crate) fn refuse<L: Link>(link: &mut L) -> Result<(), HandleFault>
    ensures handles { HandlesBare (passage (L.remaining link.old) (L.remaining link.new)
        (L.given link.old) (L.given link.new) (L.last link.new)) result }
    ensures counts { CountsLink result (L.failed link.old) (L.failed link.new)
        (L.taken link.old) (L.taken link.new) }
{
    let mut room = [0; MOST_BYTES];
    let mut inbox = Inbox::new(&mut room);
    read_head(&mut inbox, link)?;
    let mut writer = ResponseWriter::new(link);
    append_refusal(Refusal::Memory, &mut writer);
    let sent = writer.finish();
    writer.into_link();
    ended(sent, None)
}

/// Executes a request that was read, and writes the response to the client's connection.
pub(crate) fn reply<L: Link, B: Books>(
    bytes: &[u8],
    want: Want<'_>,
    link: &mut L,
    office: &mut Office<B>,
    moment: u64,
) -> Result<(), HandleFault>
    requires wants { Wants routes bytes.now want }
    requires few { HasFewFaults want }
    ensures gives { After B.ledger office.old office.new (GivesReplyTo bytes.now B.ledger moment
        office.old office.new (L.given link.old) (L.given link.new) result) }
    ensures ends { IsEnd result }
    ensures remaining { Keeps (L.remaining link.old) (L.remaining link.new) }
    ensures last { L.last link.new ≡ L.last link.old }
    ensures failures { L.failed link.new ≡ risen (is_link_fault result) (L.failed link.old) }
    ensures takes { L.taken link.new ≡ L.taken link.old }
    ensures lasts { Lasts B.ledger office.old office.new }
{
    let writer = ResponseWriter::new(link);
    let Replied { mut writer, cut } = append_reply(bytes, want, office, moment, writer);
    let sent = writer.finish();
    writer.into_link();
    ended(sent, cut)
}

fn serve<L: Link, B: Books>(
    alloc: Global,
    router: &Router<Route>,
    room: &mut [u8],
    link: &mut L,
    office: &mut Office<B>,
    moment: u64,
) -> Result<(), HandleFault>
    requires routes { router.now ≡ routes }
    requires room { 73728 ≤ length room.old }
    ensures handles { Handles B.ledger moment office.old office.new (passage (L.remaining link.old)
        (L.remaining link.new) (L.given link.old) (L.given link.new) (L.last link.new)) result }
    ensures counts { CountsLink result (L.failed link.old) (L.failed link.new)
        (L.taken link.old) (L.taken link.new) }
    ensures lasts { Lasts B.ledger office.old office.new }
{
    let mut inbox = Inbox::new(room);
    let head_state = read_request(router, &mut inbox, link)?;
    let want = wanted(alloc, router, inbox.bytes(), &head_state);
    reply(inbox.bytes(), want, link, office, moment)
}

/// Serves one HTTP/1.1 request: reads the request from a client's connection, executes it, and
/// writes the response.
///
/// `moment` is the timestamp of the request, in seconds since 1970-01-01 UTC. If the response to an
/// accepted command cannot be written, the command stays executed. A retry with the same
/// idempotency key gets the stored answer.
pub fn handle<L: Link, B: Books>(
    alloc: Global,
    link: &mut L,
    office: &mut Office<B>,
    moment: u64,
) -> Result<(), HandleFault>
    ensures handles { Handles B.ledger moment office.old office.new (passage (L.remaining link.old)
        (L.remaining link.new) (L.given link.old) (L.given link.new) (L.last link.new)) result }
    ensures counts { CountsLink result (L.failed link.old) (L.failed link.new)
        (L.taken link.old) (L.taken link.new) }
    ensures lasts { Lasts B.ledger office.old office.new }
{
    match (router(alloc), vec![in alloc; 0; MOST_ROOM]) {
        (Ok(router), Ok(mut room)) => serve(alloc, &router, &mut room, link, office, moment),
        _ => refuse(link),
    }
}
