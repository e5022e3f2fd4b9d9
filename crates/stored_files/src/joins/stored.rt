//! Makes one merged report on an accounting register (a named counter) from several successive
//! database files. Only one file is open at a time.
ghost use Rattle.std.specs.Prelude.{◌≡◌, ◌≢◌, ◌↔◌, ℕ, List, Err, IfErr, IfOk, IsTrue, string_bytes};
ghost use Rattle.office_events.specs.declared.facts.Fact.{Fact};
ghost use Rattle.office_books.specs.History.{History, facts_of};
ghost use Rattle.store_tables.specs.declared.layouts.Layout.{Layout as TheLayout};
ghost use Rattle.store_tables.specs.Layouts.{IsNamedAs};
ghost use Rattle.office_store.specs.Database.{HasFile};
ghost use Rattle.stored_files.specs.BooksFound.{HasPast};
ghost use Rattle.stored_files.specs.Joins.Stored.{AreBefore, IsOfZone, JoinsBooks, JoinsFile};
ghost use Rattle.stored_files.specs.Joins.Stored.{JoinsOffice, PartsBooks, PartsFrom};
ghost use Rattle.stored_files.specs.Joins.Stored.{RefusesIn, RefusesOffice};

use crate::carries::read_zone_text;
use carried_books::{Keeping, Unjoined};
use interval_core::{DayRange, Zone};
use office_books::Books;
use office_events::{Name, Refusal};
use office_store::{OpenFault, SqlBooks};
use sqlite::{Alter, Connection};
use std::alloc::Global;

/// A reason why a database file could not be added to a merged report.
#[derive(Clone, Copy)]
pub enum JoinFault {
    /// The store in the database could not be opened.
    Unopened(OpenFault),
    /// The file has another time zone than the earlier files of the merged report.
    OtherZone,
    /// The accounting register (a named counter of a device), or one of its meters, does not
    /// continue from the earlier files.
    Unjoined(Unjoined),
    /// The file's store failed, or memory ran out.
    Books(Refusal),
}

/// The data of a merged report on the files that were added to it, and the time zone of these files
/// as text.
#[derive(Drop)]
pub struct JoinedOffice<K> {
    pub zone: String,
    pub kept: K,
}

// Returns whether a file with the time zone `zone` may be added to a merged report: the earlier
// files have this time zone, or there are no earlier files.
fn is_of_zone<K>(zone: &str, before: &Option<JoinedOffice<K>>) -> bool
    ensures { IsTrue result ↔ IsOfZone zone.now before.now }
{
    match before {
        None => true,
        Some(joined) => joined.zone.as_str() == zone,
    }
}

// Returns the data of a merged report on the files that were added to it. Before the first file,
// returns the data of an empty report in the time zone `zone`.
fn kept_before<K: Keeping>(
    alloc: Global,
    zone: &str,
    range: &DayRange,
    before: Option<JoinedOffice<K>>,
) -> Result<K, JoinFault>
    ensures are { IfOk result (AreBefore K.Keeping zone.now range.now before) }
    ensures fails { IfErr result (λ why. why ≡ JoinFault.Unopened OpenFault.Zone) }
{
    match before {
        None => match Zone::read(zone) {
            Ok(zone) => Ok(K::none(alloc, zone, *range)),
            Err(_) => Err(JoinFault::Unopened(OpenFault::Zone)),
        },
        Some(joined) => {
            let JoinedOffice { kept, .. } = joined;
            Ok(kept)
        }
    }
}

// Queries a store, and adds the data that a merged report of several files needs from the store.
fn join_books<B: Books, K: Keeping>(
    books: B,
    kept: K,
    register: &Name,
    range: DayRange,
) -> Result<K, JoinFault>
    ensures joins { IfOk result
        (JoinsBooks K.Keeping B.ledger books range register.now kept) }
    ensures unjoined { IfErr result
        (PartsBooks K.Keeping B.ledger books range register.now kept) }
    ensures same { IfErr result (λ why. why ≢ JoinFault.OtherZone) }
{
    let mut books = books;
    let mut kept = kept;
    match kept.add(&mut books, register, range) {
        Err(fault) => Err(JoinFault::Books(Refusal::from(fault))),
        Ok(unjoined) => match unjoined {
            Some(why) => Err(JoinFault::Unjoined(why)),
            None => Ok(kept),
        },
    }
}

// Opens the store in a database, and adds the data that a merged report of several files needs from
// the store.
fn join_opened<S: Alter + Drop, K: Keeping>(
    alloc: Global,
    connection: Connection<S>,
    kept: K,
    register: &Name,
    range: DayRange,
) -> Result<K, JoinFault>
    ensures joins { (its : List ℕ) (facts : List Fact) → HasFile S.Store its connection facts
        → IfOk result
        (JoinsFile K.Keeping S.Store connection range register.now facts kept) }
    ensures unjoined { (its : List ℕ) (facts : List Fact) → HasFile S.Store its connection facts
        → IfErr result
        (PartsFrom K.Keeping S.Store connection range register.now facts kept) }
{
    match SqlBooks::open(alloc, connection) {
        Ok(books) => join_books(books, kept, register, range),
        Err(unopened) => Err(JoinFault::Unopened(unopened.fault)),
    }
}

// Adds a file to a merged report. The caller must have checked that the earlier files have the same
// time zone.
fn join_in_zone<S: Alter + Drop, K: Keeping>(
    alloc: Global,
    connection: Connection<S>,
    before: Option<JoinedOffice<K>>,
    zone: String,
    register: &Name,
    range: DayRange,
) -> Result<JoinedOffice<K>, JoinFault>
    ensures joins { (its : List ℕ) (facts : List Fact) → HasFile S.Store its connection facts
        → IsOfZone (string_bytes zone) before
        → IfOk result (JoinsOffice K.Keeping S.Store connection (string_bytes zone) range
        register.now facts before) }
    ensures refuses { (its : List ℕ) (facts : List Fact) → HasFile S.Store its connection facts
        → IfErr result (RefusesIn K.Keeping S.Store connection (string_bytes zone) range
        register.now facts before) }
{
    match kept_before(alloc, &zone, &range, before) {
        Err(why) => Err(why),
        Ok(kept) => match join_opened(alloc, connection, kept, register, range) {
            Ok(kept) => Ok(JoinedOffice { zone, kept }),
            Err(why) => Err(why),
        },
    }
}

// Drops the data of a merged report of several files, and returns the reason why the next file
// could not be added.
fn refused<K: Keeping>(
    before: Option<JoinedOffice<K>>,
    why: JoinFault,
) -> Result<JoinedOffice<K>, JoinFault>
    ensures { result ≡ Err why }
{
    drop(before);
    Err(why)
}

/// Adds a database to the merged report of the earlier files, or begins a report if there are no
/// earlier files. The report is about an accounting register (a named counter of a device) in a
/// range of days. Writes nothing to the database.
pub fn join_stored<S: Alter + Drop, K: Keeping>(
    alloc: Global,
    connection: Connection<S>,
    before: Option<JoinedOffice<K>>,
    register: &Name,
    range: DayRange,
) -> Result<JoinedOffice<K>, JoinFault>
    ensures foreign { ((layout : TheLayout) → ¬ IsNamedAs connection.schema layout)
        → result ≡ Err (JoinFault.Unopened OpenFault.NotOurs) }
    ensures joins { (past : History) → (has : HasPast S.Store connection past)
        → IfOk result (JoinsOffice K.Keeping S.Store connection has.zone range register.now
        (facts_of past) before) }
    ensures refuses { (past : History) → (has : HasPast S.Store connection past)
        → IfErr result (RefusesOffice K.Keeping S.Store connection has.zone range register.now
        (facts_of past) before) }
{
    let mut connection = connection;
    match read_zone_text(&mut connection) {
        Ok(zone) => {
            if !is_of_zone(&zone, &before) {
                return refused(before, JoinFault::OtherZone);
            }
            join_in_zone(alloc, connection, before, zone, register, range)
        }
        Err(fault) => refused(before, JoinFault::Unopened(fault)),
    }
}
