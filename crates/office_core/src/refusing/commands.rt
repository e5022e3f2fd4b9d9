//! Finds the reason to refuse a command.
ghost use Rattle.std.specs.Prelude.{◌≡◌, None, IfOk, IsOk};
ghost use Rattle.office_core.specs.Sessions.Places.{StartsOnSlot};
ghost use Rattle.office_books.specs.Ledgers.{Finds, OnlyReads};
ghost use Rattle.office_core.specs.Refusing.Asking.{IsOfDevices};
ghost use Rattle.office_core.specs.Refusing.Reasons.{IsWhyAmong, Befits};

use crate::Slot;
use crate::refusing::arrivals::Arrival;
use crate::refusing::corrections::{close, manual, rescale, reset};
use crate::refusing::devices::{add_device, put_list};
use crate::refusing::exchanges::exchange;
use crate::refusing::installs::install;
use crate::refusing::registers::add_register;
use crate::refusing::starts::{start_poll, start_round};
use crate::refusing::voids::void_entry;
use office_books::{Books, BooksFault};
use office_events::{Command, Refusal};

/// Returns the first reason to refuse a command, or `None` if no reason applies.
pub fn refusal_of_command<B: Books>(
    books: &mut B,
    slots: &[Slot],
    arrival: &Arrival,
    asked: &Command,
) -> Result<Option<Refusal>, BooksFault>
    ensures found { Finds (B.ledger books.old) (B.ledger books.new) result
        (IsWhyAmong slots.now arrival.now asked.now) }
    ensures reads { OnlyReads (B.ledger books.old) (B.ledger books.new) result }
    ensures befits { IfOk result (Befits arrival.now asked.now) }
    ensures there { IfOk result (λ why. why ≡ None → StartsOnSlot slots.now asked.now) }
    ensures quiet { IsOfDevices asked.now → (books.new ≡ books.old) × IsOk result }
{
    match asked {
        Command::AddDevice(c) => Ok(add_device(slots, arrival, c)),
        Command::PutList(c) => Ok(put_list(slots, arrival, c)),
        Command::AddRegister(c) => add_register(books, slots, arrival, c),
        Command::Install(c) => install(books, arrival, c),
        Command::Exchange(c) => exchange(books, arrival, c),
        Command::Reset(c) => reset(books, arrival, c),
        Command::Rescale(c) => rescale(books, arrival, c),
        Command::Manual(c) => manual(books, arrival, c),
        Command::Close(c) => close(books, arrival, c),
        Command::Void(c) => void_entry(books, arrival, c),
        Command::StartPoll(c) => start_poll(books, slots, arrival, c),
        Command::StartRound(c) => start_round(books, slots, arrival, c),
    }
}
