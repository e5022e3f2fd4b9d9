//! Finds the reason to refuse an exchange of meters.
ghost use Rattle.std.specs.Prelude.{◌≡◌, IfOk};
ghost use Rattle.office_events.specs.declared.commands.Command.TheVariants as command;
ghost use Rattle.office_books.specs.Ledgers.{Finds, OnlyReads};
ghost use Rattle.office_core.specs.Refusing.Reasons.{IsWhy, Befits};

use crate::refusing::arrivals::Arrival;
use crate::refusing::entries::refusal_of_entry;
use crate::refusing::given::GivenEntry;
use crate::refusing::installs::are_all;
use crate::refusing::limits::{is_bad_exchange, is_off_scale_exchange};
use crate::refusing::names::has_meter;
use office_books::{Books, BooksFault, meter_at};
use office_events::{Exchange, Refusal};

/// Returns the first reason to refuse an exchange of meters, or `None` if no reason applies.
pub fn exchange<B: Books>(
    books: &mut B,
    arrival: &Arrival,
    exchange: &Exchange,
) -> Result<Option<Refusal>, BooksFault>
    ensures found { Finds (B.ledger books.old) (B.ledger books.new) result
        (IsWhy arrival.now (command.Exchange exchange.now)) }
    ensures reads { OnlyReads (B.ledger books.old) (B.ledger books.new) result }
    ensures befits { IfOk result (Befits arrival.now (command.Exchange exchange.now)) }
{
    let Some(row) = meter_at(books, &exchange.register)? else {
        return Ok(Some(Refusal::NotFound));
    };
    if has_meter(books, &exchange.meter)? {
        return Ok(Some(Refusal::Exists));
    }
    let closing = GivenEntry::Step {
        at: arrival.moment,
        raw: exchange.last,
        rolls: exchange.rolls,
    };
    let off_scale = is_off_scale_exchange(exchange);
    let off_limits = is_bad_exchange(arrival.moment, exchange);
    if let Some(why) = refusal_of_entry(arrival, off_scale, off_limits, &row, &closing) {
        return Ok(Some(why));
    }
    if are_all(books)? {
        return Ok(Some(Refusal::Limit));
    }
    Ok(None)
}
