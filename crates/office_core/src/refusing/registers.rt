//! Finds the reason to refuse a new accounting register (a named energy counter).
ghost use Rattle.std.specs.Prelude.{◌≡◌, IfOk};
ghost use Rattle.office_events.specs.declared.commands.Command.TheVariants as command;
ghost use Rattle.office_books.specs.Refusals.{is_full_of_registers};
ghost use Rattle.office_books.specs.Ledgers.{Finds, OnlyReads};
ghost use Rattle.office_core.specs.Refusing.Reasons.{IsWhyAmong, Befits};

use crate::refusing::arrivals::Arrival;
use crate::refusing::limits::{is_bad_register, is_bad_scale};
use crate::refusing::names::has_register;
use crate::{Slot, has_device};
use office_books::{Books, BooksFault};
use office_events::{AddRegister, MAX_REGISTERS, Name, Refusal};

/// Returns true if the device already has the maximum number of accounting registers (named energy
/// counters).
fn is_full<B: Books>(books: &mut B, given: &Option<Name>) -> Result<bool, BooksFault>
    ensures found { Finds (B.ledger books.old) (B.ledger books.new) result
        (λ known b. b ≡ is_full_of_registers known given.now) }
    ensures reads { OnlyReads (B.ledger books.old) (B.ledger books.new) result }
{
    match given {
        None => Ok(false),
        Some(device) => Ok(MAX_REGISTERS <= books.register_count(device)?),
    }
}

/// Returns the first reason to refuse a new accounting register (a named energy counter), or `None`
/// if no reason applies.
pub fn add_register<B: Books>(
    books: &mut B,
    slots: &[Slot],
    arrival: &Arrival,
    register: &AddRegister,
) -> Result<Option<Refusal>, BooksFault>
    ensures found { Finds (B.ledger books.old) (B.ledger books.new) result
        (IsWhyAmong slots.now arrival.now (command.AddRegister register.now)) }
    ensures reads { OnlyReads (B.ledger books.old) (B.ledger books.new) result }
    ensures befits { IfOk result (Befits arrival.now (command.AddRegister register.now)) }
{
    if !has_device(slots, &register.device) {
        return Ok(Some(Refusal::NotFound));
    }
    if has_register(books, &register.name)? {
        return Ok(Some(Refusal::Exists));
    }
    if arrival.is_back {
        return Ok(Some(Refusal::ClockBack));
    }
    if is_bad_scale(register.scale) {
        return Ok(Some(Refusal::BadScale));
    }
    if arrival.is_beyond || is_bad_register(arrival.moment, register) {
        return Ok(Some(Refusal::Limit));
    }
    if is_full(books, &register.device)? {
        return Ok(Some(Refusal::Limit));
    }
    Ok(None)
}
