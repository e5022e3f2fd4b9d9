//! Finds the reason to refuse the installation of a meter.
ghost use Rattle.std.specs.Prelude.{◌≡◌, IfOk, length, nat_le};
ghost use Rattle.office_events.specs.declared.commands.Command.TheVariants as command;
ghost use Rattle.office_books.specs.Facts.{openings_in};
ghost use Rattle.office_books.specs.Refusals.{installation_limit};
ghost use Rattle.office_books.specs.Ledgers.{Finds, OnlyReads};
ghost use Rattle.office_core.specs.Refusing.Reasons.{IsWhy, Befits};

use crate::refusing::arrivals::Arrival;
use crate::refusing::limits::{is_bad_meter, is_off_scale};
use crate::refusing::meters::has_open_meter;
use crate::refusing::names::{has_meter, has_register};
use office_books::{Books, BooksFault};
use office_events::{Install, MAX_INSTALLATIONS, Refusal};

/// Returns true if the program already has the maximum number of meters.
pub fn are_all<B: Books>(books: &mut B) -> Result<bool, BooksFault>
    ensures found { Finds (B.ledger books.old) (B.ledger books.new) result
        (λ known b. b ≡ nat_le installation_limit (length (openings_in known))) }
    ensures reads { OnlyReads (B.ledger books.old) (B.ledger books.new) result }
{
    Ok(MAX_INSTALLATIONS <= books.installation_count()?)
}

/// Returns the first reason to refuse the installation of a meter, or `None` if no reason applies.
pub fn install<B: Books>(
    books: &mut B,
    arrival: &Arrival,
    install: &Install,
) -> Result<Option<Refusal>, BooksFault>
    ensures found { Finds (B.ledger books.old) (B.ledger books.new) result
        (IsWhy arrival.now (command.Install install.now)) }
    ensures reads { OnlyReads (B.ledger books.old) (B.ledger books.new) result }
    ensures befits { IfOk result (Befits arrival.now (command.Install install.now)) }
{
    if !has_register(books, &install.register)? {
        return Ok(Some(Refusal::NotFound));
    }
    if has_meter(books, &install.meter)? || has_open_meter(books, &install.register)? {
        return Ok(Some(Refusal::Exists));
    }
    if arrival.is_back {
        return Ok(Some(Refusal::ClockBack));
    }
    if is_off_scale(install.sf) {
        return Ok(Some(Refusal::BadScale));
    }
    if arrival.is_beyond
        || is_bad_meter(&install.meter, install.range, install.raw, install.ceiling)
    {
        return Ok(Some(Refusal::Limit));
    }
    if are_all(books)? {
        return Ok(Some(Refusal::Limit));
    }
    Ok(None)
}
