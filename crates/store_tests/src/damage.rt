//! Tests a store with damaged rows. A query that reads a damaged row fails, and the store counts
//! the failure. A separate test, `tests/damaged_rows.py`, damages every column.
use crate::made::{found, opened};
use crate::refused_facts::known_device;
use crate::tables::strict;
use office_books::{Books, BooksFault, StoreFault};
use office_events::{Name, Refusal, StoreCause};
use sqlite::{Alter, Connection};
use std::alloc::Global;
use std::process::Abort;

/// Asserts that a query that reads a damaged row is refused, with damage as the cause. Returns the
/// store.
fn asked<B: Books>(rt: &impl Abort, alloc: Global, books: B) -> B {
    let mut office = opened(rt, alloc, books, 5000);
    let answer = office.meter(&Name::new(b"m1"));
    assert!(rt; matches!(answer, Err(Refusal::Store(StoreCause::Damaged))));
    office.into_books()
}

/// Asserts which calls of a store fail, and that the store counts each failure. The first call
/// reads a meter with damaged rows, and the second adds a device that the store already has.
/// Returns the store.
pub(crate) fn failures_are_counted<S: Alter + Drop>(
    rt: &impl Abort,
    alloc: Global,
    connection: Connection<S>,
) -> S {
    let meter = Name::new(b"m1").expect(rt, "no name");
    let facts = vec![in alloc; known_device(rt)].expect(rt, "no memory");
    let mut connection = strict(rt, alloc, connection);
    connection
        .execute_batch("UPDATE entries SET raw = -1")
        .expect(rt, "no update");
    let mut books = found(rt, alloc, connection);
    let damaged = BooksFault::Store(StoreFault::Damaged);
    assert!(rt; books.meter(&meter).err() == Some(damaged) && books.faults() == 1);
    let refused = BooksFault::Store(StoreFault::Refused);
    assert!(rt; books.book(facts).err() == Some(refused) && books.faults() == 2);
    assert!(rt; books.register_count(&meter) == Ok(0) && books.faults() == 2);
    asked(rt, alloc, books).into_connection().into_store()
}
