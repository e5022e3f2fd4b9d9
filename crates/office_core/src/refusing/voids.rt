//! Finds the reason to refuse a void, which cancels an entry of a meter.
ghost use Rattle.std.specs.Prelude.{◌≡◌, IfOk, IfSome, Some};
ghost use Rattle.office_events.specs.declared.commands.Command.TheVariants as command;
ghost use Rattle.office_books.specs.Meters.{entry_at};
ghost use Rattle.office_books.specs.Refusals.{verdict_between, verdict_at};
ghost use Rattle.office_books.specs.Ledgers.{Finds, OnlyReads};
ghost use Rattle.office_books.specs.Ranges.{IsSound};
ghost use Rattle.office_core.specs.Refusing.Reasons.{IsWhy, Befits};
ghost use Rattle.office_core.specs.Refusing.Asking.{IsOfEvent};
ghost use Rattle.office_core.specs.Refusing.Spots as spots;

use crate::refusing::arrivals::Arrival;
use energy_core::{Cause, Entry, Reading, Verdict};
use meter_journal::is_voidable;
use office_books::{Books, BooksFault, verdict_at};
use office_events::{EntryContext, Installation, Name, Refusal, VoidEntry};

/// The item that a meter has at a sequence number: nothing, the opening (first entry), or a later
/// entry.
#[derive(Clone, Copy)]
enum Spot {
    Nothing,
    /// The opening (first entry) of the meter, which has sequence number 1.
    Opening,
    /// A meter entry after the opening (first entry), with a sequence number of at least 2.
    Entry(EntryContext),
}

/// Returns true if a void (cancellation) of the entry `found` would cause the next entry to be
/// rejected. The reason is that the meter's total energy would exceed its limit.
fn is_full(found: &Option<EntryContext>) -> bool
    requires { IfSome found.now (λ p. IsSound p.before) }
    ensures { result ≡ spots.is_full found.now }
{
    let Some(place) = found else {
        return false;
    };
    match verdict(place) {
        Some(Verdict::Held(cause)) => Cause::TotalFull.number() == cause.number(),
        Some(Verdict::Accepted { .. }) => false,
        None => false,
    }
}

/// Returns the entry of a meter with sequence number `place`, or `None`. The result may have the
/// meter's total energy instead of the energy before the entry. With either energy, a void
/// (cancellation) of the entry is accepted or refused for the same reason.
///
/// To find the entry, the function first uses the meter's total energy and reads only the rows
/// around the entry. It reads all rows of the meter only if the total energy might exceed its
/// limit.
fn entry_of<B: Books>(
    books: &mut B,
    meter: &Name,
    place: u64,
) -> Result<Option<EntryContext>, BooksFault>
    ensures found { Finds (B.ledger books.old) (B.ledger books.new) result
        (λ known found. spots.IsJudgedAs (entry_at known meter.now place) found) }
    ensures reads { OnlyReads (B.ledger books.old) (B.ledger books.new) result }
    ensures sound { IfOk result (λ found. IfSome found (λ p. IsSound p.before)) }
{
    let near = books.entry_near(meter, place)?;
    if is_full(&near) {
        return books.entry(meter, place);
    }
    Ok(near)
}

/// Returns the opening (first entry) or the later entry that a meter has at sequence number
/// `place`, if any.
fn find_spot<B: Books>(books: &mut B, given: &Option<Name>, place: u64) -> Result<Spot, BooksFault>
    ensures found { Finds (B.ledger books.old) (B.ledger books.new) result
        (λ known spot. spots.IsAt known given.now place spot) }
    ensures reads { OnlyReads (B.ledger books.old) (B.ledger books.new) result }
    ensures sound { IfOk result spots.IsSoundSpot }
{
    let Some(meter) = given else {
        return Ok(Spot::Nothing);
    };
    if place == 0 {
        return Ok(Spot::Nothing);
    }
    if place == 1 {
        return match books.meter(meter)? {
            None => Ok(Spot::Nothing),
            Some(_) => Ok(Spot::Opening),
        };
    }
    match entry_of(books, meter, place)? {
        None => Ok(Spot::Nothing),
        Some(entry) => Ok(Spot::Entry(entry)),
    }
}

/// Returns the verdict (accepted or rejected) on an entry that reads the counter, after the state
/// `before` of the meter. Returns `None` for an entry that sets the counter, such as a reset.
fn verdict_on(before: &Installation, entry: &Entry) -> Option<Verdict>
    requires { IsSound before.now }
    ensures { result ≡ verdict_between before.now entry.now }
{
    match *entry {
        Entry::Step { at, raw, .. } => {
            let reading = Reading {
                at,
                raw,
                sf: before.last.sf,
            };
            Some(verdict_at(before, &reading))
        }
        Entry::Change { .. } => None,
    }
}

/// Returns the verdict (accepted or rejected) that the next valid entry would get if the entry
/// described by `place` were voided (cancelled). Returns `None` if no valid entry follows.
fn verdict(place: &EntryContext) -> Option<Verdict>
    requires { IsSound place.now.before }
    ensures { result ≡ verdict_at (Some place.now) }
{
    match &place.next {
        None => None,
        Some(next) => verdict_on(&place.before, &next.entry),
    }
}

/// Returns the first reason to refuse a void (cancellation) of the entry, or `None` if the entry
/// can be voided.
fn refusal_of_voided_entry(place: &EntryContext) -> Option<Refusal>
    requires { IsSound place.now.before }
    ensures found { result ≡ spots.strike_refusal place.now }
    ensures of_event { IfSome result IsOfEvent }
{
    if !is_voidable(&place.row, &place.next) {
        return Some(Refusal::NotVoidable);
    }
    match verdict(place) {
        Some(Verdict::Held(cause)) => Some(Refusal::NotPlausible(cause)),
        Some(Verdict::Accepted { .. }) => None,
        None => None,
    }
}

/// Returns the first reason to refuse a void (cancellation) of `spot`, an item of a meter's journal
/// (history), or `None` if no reason applies.
fn against(arrival: &Arrival, spot: &Spot) -> Option<Refusal>
    requires { spots.IsSoundSpot spot.now }
    ensures found { result ≡ spots.void_refusal arrival.now spot.now }
    ensures of_event { IfSome result IsOfEvent }
{
    if matches!(spot, Spot::Nothing) {
        return Some(Refusal::NotFound);
    }
    if arrival.is_back {
        return Some(Refusal::ClockBack);
    }
    if arrival.is_beyond {
        return Some(Refusal::Limit);
    }
    match spot {
        Spot::Nothing => Some(Refusal::NotFound),
        Spot::Opening => Some(Refusal::NotVoidable),
        Spot::Entry(place) => refusal_of_voided_entry(place),
    }
}

/// Returns the first reason to refuse a void (the cancellation of an entry), or `None` if no reason
/// applies.
pub fn void_entry<B: Books>(
    books: &mut B,
    arrival: &Arrival,
    void: &VoidEntry,
) -> Result<Option<Refusal>, BooksFault>
    ensures found { Finds (B.ledger books.old) (B.ledger books.new) result
        (IsWhy arrival.now (command.Void void.now)) }
    ensures reads { OnlyReads (B.ledger books.old) (B.ledger books.new) result }
    ensures befits { IfOk result (Befits arrival.now (command.Void void.now)) }
{
    let spot = find_spot(books, &void.meter, void.place)?;
    Ok(against(arrival, &spot))
}
