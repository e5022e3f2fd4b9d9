//! Opens the program's store: records each pending poll as lost, and creates a slot (connection
//! state) without a Modbus session for each device.
ghost use Rattle.std.specs.Prelude.{◌≡◌, ◌≤◌, List, map, reverse, None, IfOk, IfSome, OnErr};
ghost use Rattle.office_events.specs.declared.facts.Fact.{Fact};
ghost use Rattle.office_books.specs.Facts.{moment_limit, devices_in};
ghost use Rattle.office_books.specs.History as history;
ghost use Rattle.office_books.specs.History.{History, with_lost};
ghost use Rattle.office_books.specs.Lawful.{AreLawful};
ghost use Rattle.office_books.specs.Refusals as refusals;
ghost use Rattle.office_books.specs.Ledgers.{Finds, LedgerAfterCalls, Moves, Consults, OnlyReads};
ghost use Rattle.office_core.specs.Opening.OpenedOffice as opening;
ghost use Rattle.office_core.specs.Opening.OpenedOffice.{MayOpen, Opens, IsOfOpening};

use crate::sessions::Slot;
use office_books::{Books, BooksFault, facts_are_lawful};
use office_events::{Device, EndedPoll, Fact, Poll, Refusal};
use poll_core::{LAST_MOMENT, LostCause, Outcome};
use std::alloc::{AllocError, Global};

/// Returns a slot (the state of a device's connection) for the device, without a Modbus session.
fn opened(device: &Device) -> Slot
    ensures { result ≡ opening.opened device.now }
{
    Slot {
        device: *device,
        session: None,
    }
}

/// Returns the slots (devices with their connections) directly after the program opened its store,
/// when no device is connected.
fn opened_slots(alloc: Global, devices: &[Device]) -> Result<Vec<Slot>, AllocError>
    ensures { IfOk result (λ slots. slots.items ≡ map opening.opened devices.now) }
{
    devices.iter().map(|device| opened(device)).collect(alloc)
}

/// Returns the record that a poll is lost because the program was started again.
fn lost(moment: u64, poll: &Poll) -> Fact
    ensures { result ≡ history.lost moment poll.now }
{
    Fact::Outcome(EndedPoll {
        poll: poll.number,
        at: moment,
        outcome: Outcome::Lost(LostCause::Restart),
    })
}

/// Returns one record for each given poll: the poll is lost because the program was started again.
fn lost_facts(alloc: Global, moment: u64, polls: &[Poll]) -> Result<Vec<Fact>, AllocError>
    ensures { IfOk result (λ facts. facts.items ≡ map (history.lost moment) polls.now) }
{
    polls.iter().map(|poll| lost(moment, poll)).collect(alloc)
}

/// Returns a slot (connection state) without a Modbus session for each device in the store.
fn slots_in<B: Books>(alloc: Global, books: &mut B) -> Result<Vec<Slot>, BooksFault>
    ensures found { Finds (B.ledger books.old) (B.ledger books.new) result
        (λ known slots. slots.items ≡ map opening.opened (reverse (devices_in known))) }
    ensures reads { Consults (B.ledger books.old) (B.ledger books.new) result }
{
    let devices = books.devices()?;
    Ok(opened_slots(alloc, &devices)?)
}

/// Records each pending poll (without an outcome) of the store as lost. If no poll is pending,
/// writes nothing.
fn book_lost<B: Books>(alloc: Global, books: &mut B, moment: u64) -> Result<(), BooksFault>
    ensures books { (known : List Fact) → AreLawful (with_lost moment known)
        → Moves (B.ledger books.old) (B.ledger books.new) known (with_lost moment known) result }
    ensures refused { (known : List Fact) → (B.ledger books.old).holds known
        → OnErr result ((B.ledger books.new).holds known) }
    ensures goes { LedgerAfterCalls (B.ledger books.old) (B.ledger books.new) result }
{
    let polls = books.pending()?;
    if polls.is_empty() {
        return Ok(());
    }
    let facts = lost_facts(alloc, moment, &polls)?;
    books.book(facts)
}

/// Returns the reason to refuse an opening of the store, or `None` if the opening is acceptable. An
/// opening is refused if its timestamp is before a record's timestamp, or above the greatest
/// allowed timestamp.
///
/// Timestamps are in seconds since 1970-01-01 UTC.
pub fn opening_refusal<B: Books>(books: &mut B, moment: u64) -> Result<Option<Refusal>, BooksFault>
    ensures found { Finds (B.ledger books.old) (B.ledger books.new) result
        (λ known why. why ≡ refusals.opening_refusal_of known moment) }
    ensures reads { OnlyReads (B.ledger books.old) (B.ledger books.new) result }
    ensures in_time { IfOk result (λ why. why ≡ None → moment ≤ moment_limit) }
    ensures of_opening { IfOk result (λ why. IfSome why IsOfOpening) }
{
    if moment < books.latest()? {
        return Ok(Some(Refusal::ClockBack));
    }
    if LAST_MOMENT < moment {
        return Ok(Some(Refusal::Limit));
    }
    Ok(None)
}

/// Records that the program opened the store at the time `moment`, which `MayOpen` must accept.
/// Returns a slot (connection state) without a Modbus session for each device.
///
/// All pending polls (without an outcome) are recorded as lost in one write. If no poll is pending,
/// nothing is written. The returned slots are in the order in which the devices were added.
pub fn book_opening<B: Books>(
    alloc: Global,
    books: &mut B,
    moment: u64,
) -> Result<Vec<Slot>, BooksFault>
    ensures opens { (past : History) → MayOpen past moment
        → Opens past moment (B.ledger books.old) (B.ledger books.new) result }
    ensures refused { (known : List Fact) → (B.ledger books.old).holds known
        → OnErr result ((B.ledger books.new).holds known) }
    ensures goes { LedgerAfterCalls (B.ledger books.old) (B.ledger books.new) result }
{
    facts_are_lawful();
    let slots = slots_in(alloc, books)?;
    book_lost(alloc, books, moment)?;
    Ok(slots)
}
