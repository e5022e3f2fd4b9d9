//! Opens a store that may already have records, for the program.
ghost use Rattle.office_books.specs.History.{History};
ghost use Rattle.office_core.specs.Leaving.{BooksStand};
ghost use Rattle.office_core.specs.Reopening.{Passed, Reopens};

use crate::{Slot, book_opening, opening_refusal};
use office_books::Books;
use office_events::Refusal;
use std::alloc::Global;

/// Records the opening of the store and returns one slot (the state of a connection) for each
/// device, or refuses the opening.
pub fn reopen<B: Books>(alloc: Global, books: &mut B, moment: u64) -> Result<Vec<Slot>, Refusal>
    ensures reopens { (past : History) → BooksStand (B.ledger books.old) past
        → (B.ledger books.new).is_clean
        → Reopens past moment (B.ledger books.old) (B.ledger books.new) result }
    ensures passed { Passed (B.ledger books.old) (B.ledger books.new) result }
{
    match opening_refusal(books, moment) {
        Err(fault) => Err(Refusal::from(fault)),
        Ok(Some(why)) => Err(why),
        Ok(None) => match book_opening(alloc, books, moment) {
            Err(fault) => Err(Refusal::from(fault)),
            Ok(slots) => Ok(slots),
        },
    }
}
