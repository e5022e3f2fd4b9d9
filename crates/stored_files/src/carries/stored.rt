//! Continues the open meters of one database in a new database, each from its last entry.
ghost use Rattle.std.specs.Prelude.{◌≡◌, ℕ, List, [], Err, IfOk};
ghost use Rattle.office_events.specs.declared.facts.Fact.{Fact};
ghost use Rattle.office_books.specs.History.{History, facts_of};
ghost use Rattle.office_core.specs.Leaving.{BooksStand};
ghost use Rattle.store_tables.specs.declared.layouts.Layout.{Layout as TheLayout};
ghost use Rattle.store_tables.specs.Layouts.{IsNamedAs};
ghost use Rattle.office_store.specs.Database.{HasFile};
ghost use Rattle.stored_files.specs.BooksFound.{HasPast};
ghost use Rattle.stored_files.specs.Carries.GoingOn.{GoesOn, GoesOnFrom, GoesOnIn, IsCarriedInto};

use crate::carries::zones::read_zone_text;
use carried_books::{CarryFault, carry_books};
use office_books::Books;
use office_core::Office;
use office_store::{OpenFault, SqlBooks};
use sqlite::{Alter, Connection};
use std::alloc::Global;

/// A reason why a file rollover, which begins a new database, was not completed.
#[derive(Clone, Copy)]
pub enum CarryEnd {
    /// The store in the old database of a file rollover (the change to a new database file) could
    /// not be opened.
    Unopened(OpenFault),
    /// The tables of the new database of a file rollover (the change to a new database file) could
    /// not be created.
    Unmade(OpenFault),
    /// The file rollover (the continuation of all open meters in a new database) began, but was not
    /// completed.
    Ended(CarryFault),
}

// Lets each open meter of the store `old` continue in the store `new`, from its last entry. Returns
// the number of these meters.
fn carry_into<O: Books, N: Books>(
    alloc: Global,
    old: O,
    new: N,
    until: Option<u64>,
) -> Result<u64, CarryFault>
    ensures { BooksStand (N.ledger new) [] → IfOk result (GoesOn O.ledger N.ledger old until) }
{
    let mut old = old;
    match Office::open(alloc, new, 0) {
        Ok(office) => {
            let mut office = office;
            carry_books(alloc, &mut old, &mut office, until)
        }
        Err((_, why)) => Err(CarryFault::New(why)),
    }
}

// Creates the tables of a new store, and lets each open meter of the store `old` continue in the
// new store.
fn carry_into_created<O: Books, S: Alter + Drop>(
    alloc: Global,
    old: O,
    zone: &str,
    until: Option<u64>,
    new: Connection<S>,
) -> Result<u64, CarryEnd>
    ensures { IfOk result (GoesOnIn S.Store O.ledger old zone.now until new) }
{
    match SqlBooks::create(alloc, new, zone) {
        Ok(books) => match carry_into(alloc, old, books, until) {
            Ok(meters) => Ok(meters),
            Err(fault) => Err(CarryEnd::Ended(fault)),
        },
        Err(unopened) => Err(CarryEnd::Unmade(unopened.fault)),
    }
}

// Opens the old store, and lets its open meters continue in a new store.
fn carry_opened<S: Alter + Drop>(
    alloc: Global,
    old: Connection<S>,
    zone: &str,
    until: Option<u64>,
    new: Connection<S>,
) -> Result<u64, CarryEnd>
    ensures { (its : List ℕ) (facts : List Fact) → HasFile S.Store its old facts
        → IfOk result (GoesOnFrom S.Store old facts zone.now until new) }
{
    match SqlBooks::open(alloc, old) {
        Ok(books) => carry_into_created(alloc, books, zone, until, new),
        Err(unopened) => Err(CarryEnd::Unopened(unopened.fault)),
    }
}

/// Creates a new store in an empty database, with the time zone of the old store. Each open meter
/// continues in the new store from its last entry. Returns the number of these meters. The new
/// store is opened at time 0, so that every later timestamp is accepted.
pub fn carry_stored<S: Alter + Drop>(
    alloc: Global,
    old: Connection<S>,
    new: Connection<S>,
    until: Option<u64>,
) -> Result<u64, CarryEnd>
    ensures foreign { ((layout : TheLayout) → ¬ IsNamedAs old.schema layout)
        → result ≡ Err (CarryEnd.Unopened OpenFault.NotOurs) }
    ensures carried { (past : History) → (has : HasPast S.Store old past)
        → IfOk result (IsCarriedInto S.Store (facts_of past) has.zone until new) }
{
    let mut old = old;
    match read_zone_text(&mut old) {
        Ok(zone) => carry_opened(alloc, old, &zone, until, new),
        Err(fault) => Err(CarryEnd::Unopened(fault)),
    }
}
