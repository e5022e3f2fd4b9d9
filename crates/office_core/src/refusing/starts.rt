//! Finds the reason to refuse the start of a poll, or of a polling round (all polls of one device
//! in turn).
ghost use Rattle.std.specs.Prelude.{◌≡◌, ◌+◌, List, Option, Some, None, IfOk, is_some, length, nat_lt};
ghost use Rattle.poll_core.specs.Settling as session;
ghost use Rattle.office_events.specs.declared.commands.Command.TheVariants as command;
ghost use Rattle.office_events.specs.declared.facts.Device.{Device};
ghost use Rattle.office_books.specs.Facts.{polls_in, poll_limit};
ghost use Rattle.office_books.specs.Sessions as sessions;
ghost use Rattle.office_books.specs.History.{round_spans};
ghost use Rattle.read_plan.specs.PlannedLists.{Planned};
ghost use Rattle.office_core.specs.Sessions.Keeping.{KeepsSlots, KeepsPresent};
ghost use Rattle.office_core.specs.Sessions.Places.{StartsOnSlot, has_slot};
ghost use Rattle.office_books.specs.Ledgers.{Finds, OnlyReads};
ghost use Rattle.office_books.specs.Plans.{read_count_of};
ghost use Rattle.office_core.specs.Refusing.Reasons.{IsWhyAmong, Befits};
ghost use Rattle.office_core.specs.Refusing.Rounds.{HasRoom, HasRoomOn};

use crate::refusing::arrivals::Arrival;
use crate::{Slot, place_of};
use office_books::{Books, BooksFault, read_count_at};
use office_events::{MAX_POLLS, Name, Refusal, StartPoll, StartRound, StoreCause};
use poll_core::Session;

/// Returns the number of polls that a Modbus session can start now, one after another, or 0 if the
/// device has no session.
fn session_room(kept: &Option<Session>) -> u64
    ensures { (device : Device) (present : Option (List session.Event))
        → KeepsPresent device kept.now present → HasRoomOn device present result }
{
    match kept {
        None => 0,
        Some(session) => session.ready().count as u64,
    }
}

/// Returns the number of polls that the named device can start now, one after another, or `None` if
/// no device has the name.
fn room(slots: &[Slot], given: &Option<Name>) -> Option<u64>
    ensures there { is_some result ≡ has_slot slots.now given.now }
    ensures room { (kept : List sessions.Slot) → KeepsSlots slots.now kept
        → HasRoom kept given.now result }
{
    match place_of(slots, given) {
        None => None,
        Some(place) => Some(session_room(&slots[place].session)),
    }
}

/// Returns how many of a plan's `count` Modbus reads are left from index `from` on. A plan has the
/// reads that cover a point list.
fn reads_left(count: usize, from: u64) -> u64
    ensures { (list : Option Planned) → Some count ≡ read_count_of list
        → result ≡ length (round_spans from list) }
{
    (count as u64).saturating_sub(from)
}

/// Returns true if `more` further polls would exceed the greatest poll number.
fn is_past_numbers<B: Books>(books: &mut B, more: u64) -> Result<bool, BooksFault>
    ensures found { Finds (B.ledger books.old) (B.ledger books.new) result
        (λ known b. b ≡ nat_lt poll_limit (length (polls_in known) + more)) }
    ensures reads { OnlyReads (B.ledger books.old) (B.ledger books.new) result }
{
    let count = books.poll_count()?;
    Ok(u128::from(MAX_POLLS) < u128::from(count) + u128::from(more))
}

/// Returns the first reason to refuse the start of a poll, or `None` if no reason applies.
pub fn start_poll<B: Books>(
    books: &mut B,
    slots: &[Slot],
    arrival: &Arrival,
    start: &StartPoll,
) -> Result<Option<Refusal>, BooksFault>
    ensures found { Finds (B.ledger books.old) (B.ledger books.new) result
        (IsWhyAmong slots.now arrival.now (command.StartPoll start.now)) }
    ensures reads { OnlyReads (B.ledger books.old) (B.ledger books.new) result }
    ensures befits { IfOk result (Befits arrival.now (command.StartPoll start.now)) }
    ensures there { IfOk result
        (λ why. why ≡ None → StartsOnSlot slots.now (command.StartPoll start.now)) }
{
    let Some(room) = room(slots, &start.device) else {
        return Ok(Some(Refusal::NotFound));
    };
    if arrival.is_back {
        return Ok(Some(Refusal::ClockBack));
    }
    if room == 0 {
        return Ok(Some(Refusal::Busy));
    }
    if arrival.is_beyond {
        return Ok(Some(Refusal::Limit));
    }
    if is_past_numbers(books, room.min(1))? {
        return Ok(Some(Refusal::Store(StoreCause::Refused)));
    }
    Ok(None)
}

/// Returns the first reason to refuse the start of a polling round (all polls of one device in
/// turn), or `None` if no reason applies.
pub fn start_round<B: Books>(
    books: &mut B,
    slots: &[Slot],
    arrival: &Arrival,
    start: &StartRound,
) -> Result<Option<Refusal>, BooksFault>
    ensures found { Finds (B.ledger books.old) (B.ledger books.new) result
        (IsWhyAmong slots.now arrival.now (command.StartRound start.now)) }
    ensures reads { OnlyReads (B.ledger books.old) (B.ledger books.new) result }
    ensures befits { IfOk result (Befits arrival.now (command.StartRound start.now)) }
    ensures there { IfOk result
        (λ why. why ≡ None → StartsOnSlot slots.now (command.StartRound start.now)) }
{
    let Some(room) = room(slots, &start.device) else {
        return Ok(Some(Refusal::NotFound));
    };
    let Some(count) = read_count_at(books, &start.device)? else {
        return Ok(Some(Refusal::NotFound));
    };
    if arrival.is_back {
        return Ok(Some(Refusal::ClockBack));
    }
    if room == 0 {
        return Ok(Some(Refusal::Busy));
    }
    let left = reads_left(count, start.from);
    if arrival.is_beyond || left == 0 {
        return Ok(Some(Refusal::Limit));
    }
    if is_past_numbers(books, room.min(left))? {
        return Ok(Some(Refusal::Store(StoreCause::Refused)));
    }
    Ok(None)
}
