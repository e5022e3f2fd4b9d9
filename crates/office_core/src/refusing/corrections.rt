//! Finds the reason to refuse a correction of a meter (a reset, change of scale or manual reading)
//! or the closing of a meter.
ghost use Rattle.std.specs.Prelude.{◌≡◌, IfOk};
ghost use Rattle.office_events.specs.declared.commands.Command.TheVariants as command;
ghost use Rattle.office_books.specs.Ledgers.{Finds, OnlyReads};
ghost use Rattle.office_core.specs.Refusing.Reasons.{IsWhy, Befits};

use crate::refusing::arrivals::Arrival;
use crate::refusing::entries::refusal_of_entry;
use crate::refusing::given::{GivenEntry, read_off, rescaled};
use crate::refusing::limits::{is_bad_close, is_bad_manual, is_off_scale_rescale};
use office_books::{Books, BooksFault, meter_at};
use office_events::{Close, Manual, Refusal, Rescale, Reset};

/// Returns the first reason to refuse the reset of a counter, or `None` if no reason applies.
pub fn reset<B: Books>(
    books: &mut B,
    arrival: &Arrival,
    reset: &Reset,
) -> Result<Option<Refusal>, BooksFault>
    ensures found { Finds (B.ledger books.old) (B.ledger books.new) result
        (IsWhy arrival.now (command.Reset reset.now)) }
    ensures reads { OnlyReads (B.ledger books.old) (B.ledger books.new) result }
    ensures befits { IfOk result (Befits arrival.now (command.Reset reset.now)) }
{
    let Some(row) = meter_at(books, &reset.register)? else {
        return Ok(Some(Refusal::NotFound));
    };
    let given = GivenEntry::Change {
        at: arrival.moment,
        before: reset.before,
        after: reset.after,
        sf: i64::from(row.last.sf),
    };
    Ok(refusal_of_entry(arrival, false, false, &row, &given))
}

/// Returns the first reason to refuse a change of a counter's scale, or `None` if no reason
/// applies.
pub fn rescale<B: Books>(
    books: &mut B,
    arrival: &Arrival,
    rescale: &Rescale,
) -> Result<Option<Refusal>, BooksFault>
    ensures found { Finds (B.ledger books.old) (B.ledger books.new) result
        (IsWhy arrival.now (command.Rescale rescale.now)) }
    ensures reads { OnlyReads (B.ledger books.old) (B.ledger books.new) result }
    ensures befits { IfOk result (Befits arrival.now (command.Rescale rescale.now)) }
{
    let Some(row) = meter_at(books, &rescale.register)? else {
        return Ok(Some(Refusal::NotFound));
    };
    let off_scale = is_off_scale_rescale(rescale);
    let given = rescaled(arrival.moment, rescale);
    Ok(refusal_of_entry(arrival, off_scale, false, &row, &given))
}

/// Returns the first reason to refuse a manual reading, or `None` if no reason applies.
pub fn manual<B: Books>(
    books: &mut B,
    arrival: &Arrival,
    manual: &Manual,
) -> Result<Option<Refusal>, BooksFault>
    ensures found { Finds (B.ledger books.old) (B.ledger books.new) result
        (IsWhy arrival.now (command.Manual manual.now)) }
    ensures reads { OnlyReads (B.ledger books.old) (B.ledger books.new) result }
    ensures befits { IfOk result (Befits arrival.now (command.Manual manual.now)) }
{
    let Some(row) = meter_at(books, &manual.register)? else {
        return Ok(Some(Refusal::NotFound));
    };
    let given = read_off(arrival.moment, manual);
    let off_limits = is_bad_manual(arrival.moment, manual);
    Ok(refusal_of_entry(arrival, false, off_limits, &row, &given))
}

/// Returns the first reason to refuse the closing of a meter, or `None` if no reason applies.
pub fn close<B: Books>(
    books: &mut B,
    arrival: &Arrival,
    close: &Close,
) -> Result<Option<Refusal>, BooksFault>
    ensures found { Finds (B.ledger books.old) (B.ledger books.new) result
        (IsWhy arrival.now (command.Close close.now)) }
    ensures reads { OnlyReads (B.ledger books.old) (B.ledger books.new) result }
    ensures befits { IfOk result (Befits arrival.now (command.Close close.now)) }
{
    let Some(row) = meter_at(books, &close.register)? else {
        return Ok(Some(Refusal::NotFound));
    };
    let given = GivenEntry::Step {
        at: arrival.moment,
        raw: close.raw,
        rolls: close.rolls,
    };
    let off_limits = is_bad_close(arrival.moment, close);
    Ok(refusal_of_entry(arrival, false, off_limits, &row, &given))
}
