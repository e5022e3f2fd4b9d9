//! Functions that run an office (the part of the program that checks and records events) over a
//! store in a database. Their contracts are the main theorem about an office: the store has the
//! records of all accepted events.
ghost use Rattle.std.specs.Prelude.{ℕ, List, [], IfErr, IfOk, IfSome};
ghost use Rattle.office_core.specs.EventRun.{HandsBack, IsCleanOnlyIfWas, RecordsIfClean};
ghost use Rattle.office_books.specs.Lawfulness.{IsPast};
ghost use Rattle.office_books.specs.History.{History, facts_of};
ghost use Rattle.office_store.specs.Database.{HoldsAlone};

use office_books::Books;
use office_core::{Run, run};
use office_events::{Event, Refusal};
use office_store::SqlBooks;
use sqlite::{Alter, Connection};
use std::alloc::Global;

/// Opens an office (the checks and the recording of events) over a store in a database, and
/// processes events. The main theorem states that the store then has the records of all accepted
/// events. It applies on two conditions. The store must have exactly the records of a history of
/// accepted events, and must still have them after a crash. The disk must return what was written
/// to it.
pub fn run_stored<S: Alter + Drop>(
    alloc: Global,
    books: SqlBooks<S>,
    opened: u64,
    events: &[(u64, Event)],
) -> Result<Run<SqlBooks<S>>, (SqlBooks<S>, Refusal)>
    ensures headline { (zone : List ℕ) (past : History) → IsPast past
        → HoldsAlone S.Store zone books.connection (facts_of past)
        → IfOk result (RecordsIfClean ⟦<SqlBooks<S> as Books>⟧.ledger opened events.now past) }
    ensures clean { IfOk result (IsCleanOnlyIfWas ⟦<SqlBooks<S> as Books>⟧.ledger books) }
    ensures refused { (zone : List ℕ) (past : History) → IsPast past
        → HoldsAlone S.Store zone books.connection (facts_of past)
        → IfErr result (HandsBack ⟦<SqlBooks<S> as Books>⟧.ledger books opened past) }
{
    run(alloc, books, opened, events)
}

/// Creates a store in an empty database, opens an office (the checks and the recording of events)
/// over the store, and processes events. The civil days are those of the time zone `zone`. If the
/// disk returns what was written to it, the store has the records of all accepted events. Returns
/// None if the store could not be created, or if the office could not be opened.
pub fn run_created<S: Alter + Drop>(
    alloc: Global,
    connection: Connection<S>,
    zone: &str,
    opened: u64,
    events: &[(u64, Event)],
) -> Option<Run<SqlBooks<S>>>
    ensures { IfSome result (RecordsIfClean ⟦<SqlBooks<S> as Books>⟧.ledger opened events.now []) }
{
    let Ok(books) = SqlBooks::create(alloc, connection, zone) else {
        return None;
    };
    match run_stored(alloc, books, opened, events) {
        Ok(done) => Some(done),
        Err(_) => None,
    }
}
