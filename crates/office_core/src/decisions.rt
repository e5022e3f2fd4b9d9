//! Decides whether an event is accepted, before the program executes the event.
ghost use Rattle.std.specs.Prelude.{◌≡◌, None, false, IfOk, IfSome};
ghost use Rattle.office_books.specs.Sessions.{command_in};
ghost use Rattle.office_core.specs.Sessions.Places.{AsksOnSlot};
ghost use Rattle.office_core.specs.Sessions.Ranges.{IsInRange};
ghost use Rattle.office_books.specs.Lawfulness.{PutsPlanned};
ghost use Rattle.office_books.specs.Ledgers.{OnlyReads};
ghost use Rattle.office_core.specs.Events as events;
ghost use Rattle.office_core.specs.Failing as failing;
ghost use Rattle.office_core.specs.Decisions.{Decided, DecidesAlone, IsNoChange};

use crate::refusing::{kept, refusal};
use crate::{Slot, puts_planned};
use office_books::{Books, BooksFault};
use office_events::{Answer, Event, Refusal};

/// Returns true if the event requests a command.
pub fn is_command(event: &Event) -> bool
    ensures { result ≡ events.is_command event.now }
{
    match event {
        Event::Connected(_) => false,
        Event::Bytes(_, _) => false,
        Event::Tick => false,
        Event::Gone(_, _) => false,
        Event::Command(_) => true,
        Event::Asked(_) => true,
    }
}

/// Returns true if the event may end polls: bytes from a device, the end of a connection, or a
/// timer event.
fn may_settle(event: &Event) -> bool
    ensures { result ≡ events.may_settle event.now }
{
    match event {
        Event::Connected(_) => false,
        Event::Bytes(_, _) => true,
        Event::Tick => true,
        Event::Gone(_, _) => true,
        Event::Command(_) => false,
        Event::Asked(_) => false,
    }
}

/// Returns true if the answer reports that the store failed or memory ran out.
fn is_failure(given: &Result<Answer, Refusal>) -> bool
    ensures { result ≡ failing.is_failure given.now }
{
    matches!(given, Err(Refusal::Store(_)) | Err(Refusal::Memory))
}

/// Returns true if the answer to the event stops the program, which then refuses all events. The
/// event may end polls, and the answer reports that the store failed or memory ran out.
pub fn stops(event: &Event, given: &Result<Answer, Refusal>) -> bool
    ensures { result ≡ failing.stops event.now given.now }
{
    may_settle(event) && is_failure(given)
}

/// Proves that a point list (the Modbus registers to read) in the event has a plan: the reads that
/// cover the list.
pub fn prove_list_is_planned(event: &Event)
    ensures { PutsPlanned (command_in event.now) }
{
    match event {
        Event::Connected(_) => {}
        Event::Bytes(_, _) => {}
        Event::Tick => {}
        Event::Gone(_, _) => {}
        Event::Command(command) => puts_planned(command),
        Event::Asked(asked) => puts_planned(&asked.command),
    }
}

/// Returns the answer to an event that is a retry or is refused, or `None` if the event is
/// accepted.
pub fn decide<B: Books>(
    books: &mut B,
    slots: &[Slot],
    latest: u64,
    moment: u64,
    event: &Event,
) -> Result<Option<Result<Answer, Refusal>>, BooksFault>
    ensures found { Decided (B.ledger books.old) (B.ledger books.new) slots.now latest moment
        event.now result }
    ensures reads { OnlyReads (B.ledger books.old) (B.ledger books.new) result }
    ensures in_range { IfOk result (λ given. given ≡ None → IsInRange latest moment event.now) }
    ensures there { IfOk result
        (λ given. given ≡ None → AsksOnSlot slots.now (command_in event.now)) }
    ensures unchanged { IfOk result (λ given. IfSome given IsNoChange) }
    ensures alone { events.is_command event.now ≡ false
        → DecidesAlone books.old books.new slots.now latest moment event.now result }
{
    if let Some(given) = kept(books, event)? {
        return Ok(Some(given.map(|kind| Answer::Again(kind))));
    }
    match refusal(books, slots, latest, moment, event)? {
        Some(why) => Ok(Some(Err(why))),
        None => Ok(None),
    }
}
