//! Builds the records that a command adds to the store.
ghost use Rattle.std.specs.Prelude.{◌≡◌, false, Some, Option, IfOk};
ghost use Rattle.std.specs.Option.{option_to_list};
ghost use Rattle.office_events.specs.declared.facts.Fact.{Fact};
ghost use Rattle.office_events.specs.declared.facts.Fact.TheVariants as fact;
ghost use Rattle.office_events.specs.declared.commands.Command.TheVariants as command;
ghost use Rattle.office_books.specs.Refusals.{is_start};
ghost use Rattle.office_core.specs.Sessions.Ranges.{IsCommandInRange};
ghost use Rattle.office_books.specs.Ledgers.{Finds, Consults};
ghost use Rattle.office_core.specs.Commands.Adding.{AreAdded};

use crate::commands::meters::{
    close_by, closing_by, installed_by, manual_by, open_meter, opening_by, rescale_by, reset_by,
    void_by,
};
use crate::commands::registers::{device_by, list_by, register_by};
use office_books::{Books, BooksFault};
use office_events::{Command, Exchange, Fact};
use std::alloc::{AllocError, Global};

/// Returns a list that has the given record as its only element, or an empty list for `None`.
fn listed(alloc: Global, fact: Option<Fact>) -> Result<Vec<Fact>, AllocError>
    ensures { IfOk result (λ facts. facts.items ≡ option_to_list fact) }
{
    let mut facts = Vec::new(alloc);
    if let Some(fact) = fact {
        facts.push(fact)?;
    }
    Ok(facts)
}

/// Returns the two records of a meter exchange. The first record closes the open meter of the
/// accounting register (a named energy counter), and the second record opens the new meter.
fn exchanged<B: Books>(
    alloc: Global,
    books: &mut B,
    moment: u64,
    exchange: &Exchange,
) -> Result<Vec<Fact>, BooksFault>
    requires range { IsCommandInRange moment (command.Exchange exchange.now) }
    ensures found { Finds (B.ledger books.old) (B.ledger books.new) result
        (λ known facts. AreAdded moment (command.Exchange exchange.now) known facts.items) }
    ensures reads { Consults (B.ledger books.old) (B.ledger books.new) result }
{
    let closed = open_meter(books, &exchange.register)?;
    let mut facts = listed(alloc, closed.map(|row| closing_by(moment, &row, exchange)))?;
    if let Some(opening) = opening_by(moment, &installed_by(exchange)) {
        facts.push(opening)?;
    }
    Ok(facts)
}

/// Returns the records that a command adds to the store, in order. The command must be of a kind
/// that starts no polls.
pub fn facts_by<B: Books>(
    alloc: Global,
    books: &mut B,
    moment: u64,
    command: &Command,
) -> Result<Vec<Fact>, BooksFault>
    requires range { IsCommandInRange moment command.now }
    requires no_start { is_start command.now ≡ false }
    ensures found { Finds (B.ledger books.old) (B.ledger books.new) result
        (λ known facts. AreAdded moment command.now known facts.items) }
    ensures reads { Consults (B.ledger books.old) (B.ledger books.new) result }
{
    match command {
        Command::AddDevice(add) => Ok(listed(alloc, device_by(add).map(|d| Fact::Device(d)))?),
        Command::PutList(put) => Ok(listed(alloc, list_by(put)?)?),
        Command::AddRegister(add) => Ok(listed(alloc, register_by(add))?),
        Command::Install(install) => Ok(listed(alloc, opening_by(moment, install))?),
        Command::Exchange(exchange) => exchanged(alloc, books, moment, exchange),
        Command::Reset(reset) => {
            let row = open_meter(books, &reset.register)?;
            Ok(listed(alloc, row.map(|row| reset_by(moment, &row, reset)))?)
        }
        Command::Rescale(rescale) => {
            let row = open_meter(books, &rescale.register)?;
            Ok(listed(alloc, row.map(|row| rescale_by(moment, &row, rescale)))?)
        }
        Command::Manual(manual) => {
            let row = open_meter(books, &manual.register)?;
            Ok(listed(alloc, row.map(|row| manual_by(moment, &row, manual)))?)
        }
        Command::Close(close) => {
            let row = open_meter(books, &close.register)?;
            Ok(listed(alloc, row.map(|row| close_by(moment, &row, close)))?)
        }
        Command::Void(void) => Ok(listed(alloc, void_by(moment, void))?),
        Command::StartPoll(_) => unreachable!(),
        Command::StartRound(_) => unreachable!(),
    }
}
