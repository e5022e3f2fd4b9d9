//! Creates a store of metering records in an SQLite database, or opens such a store.
ghost use Rattle.std.specs.Prelude.{◌≡◌, ◌≢◌, ◌⊎◌, ℕ, List, [], false, Err, IsTrue, IfOk, IfErr};
ghost use Rattle.sqlite.specs.Held.{state};
ghost use Rattle.sqlite.specs.State.{HasCleanDisk};
ghost use Rattle.interval_core.specs.Zone.{HasRule};
ghost use Rattle.office_events.specs.declared.facts.Fact.{Fact};
ghost use Rattle.store_tables.specs.Steps.{TransactsTo};
ghost use Rattle.store_tables.specs.declared.layouts.Layout.{Layout as TheLayout};
ghost use Rattle.store_tables.specs.Upgrade.{OpensAnyFile};
ghost use Rattle.store_tables.specs.Layouts.{no_schema, IsNamedAs};
ghost use Rattle.store_tables.specs.NewFile.{Makes};
ghost use Rattle.store_tables.specs.OpenedFile.{ReportsOfFile};
ghost use Rattle.store_tables.specs.Zones.{IsZone};
ghost use Rattle.office_books.specs.Faults.{no_failures};
ghost use Rattle.office_store.specs.Made.{HandsBackUntouched, connection_in, reported_by};
ghost use Rattle.office_store.specs.Database.{HasFile, HoldsAlone, KeepsFile};

use crate::books::{SqlBooks, Unopened};
use crate::laws::{new_files_have_none, opened_files_keep_theirs};
use office_books::Failures;
use sqlite::{Alter, Connection};
use std::alloc::Global;
use store_tables::OpenFault;

impl<S: Alter> SqlBooks<S> {
    /// Creates the tables of a new store in a database without tables. The time zone `zone`
    /// determines the civil days of the store. The tables are created in one transaction, whose
    /// commit is the last database call.
    ///
    /// Faults: `NotOurs` if the database has any table, index or view, or a transaction is open.
    /// `Zone` if `zone` is not a valid time zone.
    pub fn create(
        alloc: Global,
        connection: Connection<S>,
        zone: &str,
    ) -> Result<SqlBooks<S>, Unopened<S>>
        ensures busy { IsTrue connection.in_transaction → reported_by result ≡ Err OpenFault.NotOurs }
        ensures others { connection.schema ≢ no_schema → reported_by result ≡ Err OpenFault.NotOurs }
        ensures no_zone { connection.in_transaction ≡ false → connection.schema ≡ no_schema
            → ¬ IsZone zone.now → reported_by result ≡ Err OpenFault.Zone }
        ensures ours { connection.in_transaction ≡ false → connection.schema ≡ no_schema
            → IsZone zone.now
            → IfErr result (λ e. (e.fault ≡ OpenFault.Store) ⊎ (e.fault ≡ OpenFault.Memory)) }
        ensures refused { IfErr result (HandsBackUntouched connection) }
        ensures zone { IfOk result (λ books. HasRule zone.now books.zone) }
        ensures failures { IfOk result (λ books. books.failures ≡ no_failures) }
        ensures none { IfOk result (λ books. HoldsAlone S.Store zone.now books.connection []) }
        ensures does { TransactsTo (state S.Store connection)
            (state S.Store (connection_in result)) (reported_by result) (Makes zone.now) }
    {
        new_files_have_none();
        let mut connection = connection;
        match store_tables::create(&mut connection, zone) {
            Ok(zone) => Ok(SqlBooks {
                connection,
                zone,
                failures: Failures::new(),
                alloc,
            }),
            Err(fault) => Err(Unopened { connection, fault }),
        }
    }

    /// Opens the store that a database has. A file of version 1 or 2 is upgraded to version 3 in
    /// one transaction, whose commit is the last database call. Version 1 has no counter ranges, so
    /// the upgrade inserts the range 2^32 for each meter.
    ///
    /// Faults: `NotOurs` if a transaction is open, or if the table `meta` has another version than
    /// the tables. Also `NotOurs` if the tables don't have the names of version 1, 2 or 3, in the
    /// order of this version. `Zone` if the file's time zone is invalid.
    pub fn open(alloc: Global, connection: Connection<S>) -> Result<SqlBooks<S>, Unopened<S>>
        ensures busy { IsTrue connection.in_transaction
            → (reported_by result ≡ Err OpenFault.NotOurs) × (connection_in result ≡ connection) }
        ensures foreign { ((layout : TheLayout) → ¬ IsNamedAs connection.schema layout)
            → (reported_by result ≡ Err OpenFault.NotOurs) × (connection_in result ≡ connection) }
        ensures clean { HasCleanDisk (state S.Store (connection_in result))
            → HasCleanDisk (state S.Store connection) }
        ensures failures { IfOk result (λ books. books.failures ≡ no_failures) }
        ensures reported { let to = state S.Store (connection_in result) in HasCleanDisk to
            → connection.in_transaction ≡ false → IsTrue (state S.Store connection).is_open
            → ReportsOfFile (state S.Store connection) to (reported_by result) }
        ensures opened { HasCleanDisk (state S.Store (connection_in result))
            → OpensAnyFile (state S.Store connection) (state S.Store (connection_in result))
            (reported_by result) }
        ensures again { (zone : List ℕ) (facts : List Fact) → HasFile S.Store zone connection facts
            → IfOk result (λ books. HoldsAlone S.Store zone books.connection facts) }
        ensures yet { (zone : List ℕ) (facts : List Fact) → HasFile S.Store zone connection facts
            → IfErr result (λ e. KeepsFile S.Store zone connection e.connection facts) }
    {
        opened_files_keep_theirs();
        let mut connection = connection;
        match store_tables::open(&mut connection) {
            Ok(zone) => Ok(SqlBooks {
                connection,
                zone,
                failures: Failures::new(),
                alloc,
            }),
            Err(fault) => Err(Unopened { connection, fault }),
        }
    }
}
