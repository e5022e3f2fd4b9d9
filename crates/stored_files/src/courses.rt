//! Decides what the command `run --carry` does with its current database file.
ghost use Rattle.std.specs.Prelude.{ℕ, List, IfOk};
ghost use Rattle.office_events.specs.declared.facts.Fact.{Fact};
ghost use Rattle.office_books.specs.History.{History, facts_of};
ghost use Rattle.office_store.specs.Database.{HasFile};
ghost use Rattle.stored_files.specs.BooksFound.{HasPast};
ghost use Rattle.stored_files.specs.Courses.{DecidesCourse};
ghost use Rattle.stored_files.specs.Recoveries.{HasLatest};

use crate::carries::read_zone_text;
use crate::recoveries::latest_in_books;
use interval_core::Zone;
use office_store::{OpenFault, SqlBooks};
use run_schedule::{Course, Rollover, course_at};
use sqlite::types::ValueRef;
use sqlite::{Alter, Connection};
use std::alloc::Global;

// Opens the store in a database, and returns the latest timestamp of its records, and the
// connection to the database.
fn latest_opened<S: Alter + Drop>(
    alloc: Global,
    connection: Connection<S>,
) -> Result<(u64, Connection<S>), OpenFault>
    ensures { (zone : List ℕ) (facts : List Fact) → HasFile S.Store zone connection facts
        → IfOk result (λ found. HasLatest S.Store connection facts found.0) }
{
    match SqlBooks::open(alloc, connection) {
        Ok(books) => {
            let mut books = books;
            match latest_in_books(&mut books) {
                Ok(latest) => Ok((latest, books.into_connection())),
                Err(_) => Err(OpenFault::Store),
            }
        }
        Err(unopened) => Err(unopened.fault),
    }
}

/// Decides what `run --carry` does at the time `now` with its current database file, by the file's
/// time zone and latest record. `led` is the period in the file's name, or `None` if the name has
/// no period. Also returns the connection to the file. A file of an earlier version is upgraded.
pub fn course_stored<S: Alter + Drop>(
    alloc: Global,
    connection: Connection<S>,
    by: Rollover,
    led: Option<&[u8]>,
    now: u64,
) -> Result<(Course, Connection<S>), OpenFault>
    ensures { (past : History) → (has : HasPast S.Store connection past)
        → IfOk result (λ found. DecidesCourse S.Store connection has.zone by led.entry
        (facts_of past) now found.0) }
{
    let mut connection = connection;
    let zone = match read_zone_text(&mut connection) {
        Ok(zone) => zone,
        Err(fault) => return Err(fault),
    };
    match Zone::read(&zone) {
        Ok(zone) => match latest_opened(alloc, connection) {
            Ok((latest, connection)) => Ok((course_at(&zone, by, led, latest, now), connection)),
            Err(fault) => Err(fault),
        },
        Err(_) => Err(OpenFault::Zone),
    }
}

/// Returns the number of bytes of the accepted requests in a database. Returns 0 if the query
/// fails. Such a failure is reported later, when the store is opened.
pub fn request_bytes<S: Alter + Drop>(connection: &mut Connection<S>) -> u64 {
    let Ok(row) = connection.query_row("SELECT sum(length(request)) FROM replies", &[]) else {
        return 0;
    };
    match row.get_ref(0) {
        Ok(ValueRef::Int(bytes)) => u64::try_from(bytes).unwrap_or(0),
        _ => 0,
    }
}
