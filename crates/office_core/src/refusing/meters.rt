//! Checks whether an accounting register (a named energy counter) has an open meter.
ghost use Rattle.std.specs.Prelude.{◌≡◌, is_some};
ghost use Rattle.std.specs.Option.{option_and_then};
ghost use Rattle.office_books.specs.Meters.{if_open, open_at};
ghost use Rattle.office_books.specs.Ledgers.{Finds, OnlyReads};

use office_books::{Books, BooksFault, meter_at};
use office_events::{Installation, Name};

/// Returns true if a meter was installed and is not closed.
fn is_open(row: &Option<Installation>) -> bool
    ensures { result ≡ is_some (option_and_then if_open row.now) }
{
    match row {
        None => false,
        Some(row) => !row.ended,
    }
}

/// Returns true if the accounting register (a named energy counter) with the given name has an open
/// meter.
pub fn has_open_meter<B: Books>(books: &mut B, given: &Option<Name>) -> Result<bool, BooksFault>
    ensures found { Finds (B.ledger books.old) (B.ledger books.new) result
        (λ known b. b ≡ is_some (option_and_then (open_at known) given.now)) }
    ensures reads { OnlyReads (B.ledger books.old) (B.ledger books.new) result }
{
    Ok(is_open(&meter_at(books, given)?))
}
