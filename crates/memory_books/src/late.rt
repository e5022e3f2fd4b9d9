//! A store for tests, in which a failing query first passes all of its rows to the sink (a consumer
//! of rows).
ghost use Rattle.std.specs.Prelude.{◌≡◌};
ghost use Rattle.office_books.specs.Faults.{no_failures};

use crate::ListBooks;
use crate::failing::FailingBooks;
use office_books::Books;

impl FailingBooks {
    ghost use Rattle.std.specs.Prelude.{◌≡◌, List};
    ghost use Rattle.office_events.specs.declared.facts.Fact.{Fact};
    ghost use Rattle.memory_books.specs.Listed.{ledger_of};

    /// Creates a store that fails its call number `failing`. If this call is a query that passes
    /// rows to a sink (a consumer of rows), it fails after the last row.
    pub fn after_rows(books: ListBooks, failing: u64) -> FailingBooks
        ensures holds { (known : List Fact) → (ledger_of books).holds known
            → (⟦<FailingBooks as Books>⟧.ledger result).holds known }
        ensures zone { (⟦<FailingBooks as Books>⟧.ledger result).zone ≡ (ledger_of books).zone }
        ensures failures { (⟦<FailingBooks as Books>⟧.ledger result).failures ≡ no_failures }
    {
        FailingBooks {
            fails_after_rows: true,
            ..FailingBooks::new(books, failing)
        }
    }
}
