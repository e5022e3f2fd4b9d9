//! Checks whether the names in a command are already recorded in the store.
ghost use Rattle.std.specs.Prelude.{◌≡◌, is_some};
ghost use Rattle.std.specs.Option.{option_and_then};
ghost use Rattle.office_books.specs.Facts.{register_of, opening_of};
ghost use Rattle.office_books.specs.Ledgers.{Finds, OnlyReads};

use office_books::{Books, BooksFault};
use office_events::Name;

/// Returns true if an accounting register (a named energy counter) has the given name.
pub fn has_register<B: Books>(books: &mut B, given: &Option<Name>) -> Result<bool, BooksFault>
    ensures found { Finds (B.ledger books.old) (B.ledger books.new) result
        (λ known b. b ≡ is_some (option_and_then (register_of known) given.now)) }
    ensures reads { OnlyReads (B.ledger books.old) (B.ledger books.new) result }
{
    match given {
        None => Ok(false),
        Some(name) => Ok(books.register(name)?.is_some()),
    }
}

/// Returns true if a meter has the given name.
pub fn has_meter<B: Books>(books: &mut B, given: &Option<Name>) -> Result<bool, BooksFault>
    ensures found { Finds (B.ledger books.old) (B.ledger books.new) result
        (λ known b. b ≡ is_some (option_and_then (opening_of known) given.now)) }
    ensures reads { OnlyReads (B.ledger books.old) (B.ledger books.new) result }
{
    match given {
        None => Ok(false),
        Some(name) => Ok(books.meter(name)?.is_some()),
    }
}
