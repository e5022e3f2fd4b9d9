//! The single actions of a polling round. Each action feeds events to the office (the event engine)
//! and writes the engine's Modbus frames to the link.
ghost use Rattle.std.specs.Prelude.{◌≡◌, IfOk};
ghost use Rattle.std.specs.Io.KnownBytes.{Consumes, Keeps};
ghost use Rattle.mb_wire.specs.Links.{risen};
ghost use Rattle.office_program.specs.Between.{FeedsTaken, FeedsWanted, Follows, Puts, TakesTurn};
ghost use Rattle.office_program.specs.Course.{IsTaken};
ghost use Rattle.office_program.specs.Faults.{AreGiven, OnlyLink, TakesOn, is_link_fault};
ghost use Rattle.office_program.specs.Passing.{Lasts};
ghost use Rattle.office_program.specs.Taking.{Brings, TurnTakes, brought};

use crate::fault::RoundFault;
use crate::fed_events::feed_next;
use crate::progress::Progress;
use mb_wire::sockets::Clock;
use mb_wire::{Link, LinkFailed, Took, give_all};
use office_books::Books;
use office_core::Office;
use office_events::{Event, Name, Piece, Refusal};
use poll_core::Closing;
use std::alloc::Global;
use std::io::Write;

// Writes to the device's link the Modbus frames that the event engine made for an event.
fn send<L: Link>(link: &mut L, frames: &[u8]) -> Result<(), RoundFault>
    ensures given { AreGiven result frames.now (L.given link.old) (L.given link.new) }
    ensures kind { OnlyLink result }
    ensures remaining { Keeps (L.remaining link.old) (L.remaining link.new) }
    ensures failures { L.failed link.new ≡ risen (is_link_fault result) (L.failed link.old) }
    ensures takes { L.taken link.new ≡ L.taken link.old }
{
    match give_all(link, frames) {
        Ok(()) => Ok(()),
        Err(_) => Err(RoundFault::Link),
    }
}

/// Reads from the link to the device once, and returns the event for the result of the read.
pub(crate) fn take_event<L: Link>(
    alloc: Global,
    device: Option<Name>,
    link: &mut L,
) -> Result<Event, RoundFault>
    ensures brings { Brings device result (L.taken link.old) (L.taken link.new) (L.last link.new) }
    ensures kind { IfOk result (λ e. IsTaken device e) }
    ensures taken { Consumes (L.remaining link.old) (L.remaining link.new) (brought result) }
    ensures given { Keeps (L.given link.old) (L.given link.new) }
    ensures failures { L.failed link.new ≡ risen (is_link_fault result) (L.failed link.old) }
{
    let Ok(mut room) = vec![in alloc; 0; 260] else {
        return Err(RoundFault::Refused(Refusal::Memory));
    };
    match link.take(&mut room) {
        Ok(Took::Bytes(count)) => {
            room.truncate(count);
            Ok(Event::Bytes(device, Piece::new(room)))
        }
        Ok(Took::Idle) => Ok(Event::Tick),
        Ok(Took::End) => Ok(Event::Gone(device, Closing::Gone)),
        Err(LinkFailed) => Err(RoundFault::Link),
    }
}

// Feeds the next event of a polling round to the event engine, and writes the engine's frames to
// the link.
fn feed_and_send<L: Link, B: Books, C: Clock, W: Write>(
    event: &Event,
    progress: &mut Progress,
    link: &mut L,
    office: &mut Office<B>,
    clock: &mut C,
    output: &mut W,
) -> Result<(), RoundFault>
    ensures steps { Puts L.Link B.Books C.Clock W.Write event.now progress.old progress.new
        link.old link.new office.old office.new clock.old clock.new output.old output.new result }
    ensures failures { L.failed link.new ≡ risen (is_link_fault result) (L.failed link.old) }
    ensures takes { L.taken link.new ≡ L.taken link.old }
    ensures on { TakesOn result }
    ensures lasts { Lasts B.ledger office.old office.new }
{
    match feed_next(progress, event, office, clock, output) {
        Ok(()) => send(link, office.outgoing()),
        Err(fault) => Err(fault),
    }
}

/// Feeds the event that the polling round generates next to the event engine. Does nothing if the
/// round generates no event.
pub(crate) fn feed_requested<L: Link, B: Books, C: Clock, W: Write>(
    progress: &mut Progress,
    link: &mut L,
    office: &mut Office<B>,
    clock: &mut C,
    output: &mut W,
) -> Result<(), RoundFault>
    ensures steps { FeedsWanted L.Link B.Books C.Clock W.Write progress.old progress.new
        link.old link.new office.old office.new clock.old clock.new output.old output.new result }
    ensures failures { L.failed link.new ≡ risen (is_link_fault result) (L.failed link.old) }
    ensures takes { L.taken link.new ≡ L.taken link.old }
    ensures on { TakesOn result }
    ensures lasts { Lasts B.ledger office.old office.new }
{
    match progress.round.requested_event() {
        Some(event) => feed_and_send(&event, progress, link, office, clock, output),
        None => Ok(()),
    }
}

// After an event from the link, feeds the event that the polling round generates, if any, to the
// event engine. Returns true if the round is over.
fn follow<L: Link, B: Books, C: Clock, W: Write>(
    progress: &mut Progress,
    link: &mut L,
    office: &mut Office<B>,
    clock: &mut C,
    output: &mut W,
) -> Result<bool, RoundFault>
    ensures steps { Follows L.Link B.Books C.Clock W.Write progress.old progress.new
        link.old link.new office.old office.new clock.old clock.new output.old output.new result }
    ensures failures { L.failed link.new ≡ risen (is_link_fault result) (L.failed link.old) }
    ensures takes { L.taken link.new ≡ L.taken link.old }
    ensures on { TakesOn result }
    ensures lasts { Lasts B.ledger office.old office.new }
{
    match feed_requested(progress, link, office, clock, output) {
        Ok(()) => Ok(progress.is_over()),
        Err(fault) => Err(fault),
    }
}

// Feeds an event from the link to the event engine, and then the event that the polling round
// generates, if any. Returns true if the round is over.
fn feed_taken<L: Link, B: Books, C: Clock, W: Write>(
    event: &Event,
    progress: &mut Progress,
    link: &mut L,
    office: &mut Office<B>,
    clock: &mut C,
    output: &mut W,
) -> Result<bool, RoundFault>
    ensures steps { FeedsTaken L.Link B.Books C.Clock W.Write event.now progress.old progress.new
        link.old link.new office.old office.new clock.old clock.new output.old output.new result }
    ensures failures { L.failed link.new ≡ risen (is_link_fault result) (L.failed link.old) }
    ensures takes { L.taken link.new ≡ L.taken link.old }
    ensures on { TakesOn result }
    ensures lasts { Lasts B.ledger office.old office.new }
{
    match feed_and_send(event, progress, link, office, clock, output) {
        Ok(()) => follow(progress, link, office, clock, output),
        Err(fault) => Err(fault),
    }
}

/// Reads an event from the link and feeds the event to the event engine. Then feeds the event that
/// the polling round generates, if any.
///
/// Returns true if the polling round is over after this read of the link.
pub(crate) fn turn<L: Link, B: Books, C: Clock, W: Write>(
    alloc: Global,
    progress: &mut Progress,
    link: &mut L,
    office: &mut Office<B>,
    clock: &mut C,
    output: &mut W,
) -> Result<bool, RoundFault>
    ensures steps { TakesTurn L.Link B.Books C.Clock W.Write progress.old progress.new
        link.old link.new office.old office.new clock.old clock.new output.old output.new result }
    ensures failures { L.failed link.new ≡ risen (is_link_fault result) (L.failed link.old) }
    ensures takes { TurnTakes result (L.taken link.old) (L.taken link.new) }
    ensures lasts { Lasts B.ledger office.old office.new }
{
    match take_event(alloc, progress.round.device, link) {
        Ok(event) => feed_taken(&event, progress, link, office, clock, output),
        Err(fault) => Err(fault),
    }
}
