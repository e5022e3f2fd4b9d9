//! Creates the tables of a new store in an empty database.
ghost use Rattle.std.specs.Prelude.{◌≡◌, ◌≢◌, ◌⊎◌, ◌↔◌, false, IsTrue, Err, IfOk, IfErr};
ghost use Rattle.sqlite.specs.Held.{state};
ghost use Rattle.store_tables.specs.Steps.{StepsTo, TransactsTo, IsSameBorrow};
ghost use Rattle.store_tables.specs.Layouts.{no_schema};
ghost use Rattle.interval_core.specs.Zone.{HasRule};
ghost use Rattle.store_tables.specs.Zones.{IsZone};
ghost use Rattle.store_tables.specs.NewFile.{Makes};

use crate::meta::insert_meta;
use crate::open_faults::{OpenFault, fault_of};
use crate::tables::create_tables;
use crate::zones::zone_of;
use interval_core::Zone;
use sqlite::{Alter, Connection, Error, Transaction};
use sqlite_schema::schema::Schema;

/// Returns true if a schema has no table, index or view.
fn is_blank(schema: &Schema) -> bool
    ensures { IsTrue result ↔ (schema.now ≡ no_schema) }
{
    schema.tables.as_slice().is_empty()
        && schema.indexes.as_slice().is_empty()
        && schema.views.as_slice().is_empty()
}

/// Creates all tables of a store, and inserts the row of `meta`.
fn fill<S: Alter>(tx: &mut Transaction<'_, S>, zone: &str) -> Result<usize, Error>
    ensures same_reference { IsSameBorrow tx.old.conn tx.new.conn }
    ensures does { StepsTo (state S.Store tx.old.conn.now) (state S.Store tx.new.conn.now) result
        (Makes zone.now) }
{
    create_tables(tx)?;
    insert_meta(tx, zone)
}

/// Creates all tables of a store and inserts the row of `meta`, in one transaction.
fn create_in_transaction<S: Alter>(conn: &mut Connection<S>, zone: &str) -> Result<(), Error>
    requires autocommit { conn.old.in_transaction ≡ false }
    ensures autocommit { conn.new.in_transaction ≡ false }
    ensures does { TransactsTo (state S.Store conn.old) (state S.Store conn.new) result
        (Makes zone.now) }
{
    let mut tx = conn.transaction();
    fill(&mut tx, zone)?;
    tx.commit()
}

/// Creates all tables of a store in one transaction, and converts an error of SQLite to a fault.
fn make<S: Alter>(conn: &mut Connection<S>, zone: &str) -> Result<(), OpenFault>
    requires autocommit { conn.old.in_transaction ≡ false }
    ensures autocommit { conn.new.in_transaction ≡ false }
    ensures does { TransactsTo (state S.Store conn.old) (state S.Store conn.new) result
        (Makes zone.now) }
    ensures fault { IfErr result (λ e. (e ≡ OpenFault.Store) ⊎ (e ≡ OpenFault.Memory)) }
{
    match create_in_transaction(conn, zone) {
        Ok(()) => Ok(()),
        Err(error) => Err(fault_of(error)),
    }
}

/// Creates the tables of a new store in a database without tables, and returns the store's time
/// zone. Runs one transaction, whose commit is the last call to the database.
///
/// Faults: `NotOurs` if the database has any table, index or view, or a transaction is open. `Zone`
/// if `zone` is not a POSIX time zone rule of at most 64 bytes.
pub fn create<S: Alter>(conn: &mut Connection<S>, zone: &str) -> Result<Zone, OpenFault>
    ensures busy { IsTrue conn.old.in_transaction → result ≡ Err OpenFault.NotOurs }
    ensures others { conn.old.schema ≢ no_schema → result ≡ Err OpenFault.NotOurs }
    ensures blank { result ≢ Err OpenFault.NotOurs
        → (conn.old.in_transaction ≡ false) × (conn.old.schema ≡ no_schema) }
    ensures no_zone { conn.old.in_transaction ≡ false → conn.old.schema ≡ no_schema
        → ¬ IsZone zone.now → result ≡ Err OpenFault.Zone }
    ensures ours { conn.old.in_transaction ≡ false → conn.old.schema ≡ no_schema → IsZone zone.now
        → IfErr result (λ e. (e ≡ OpenFault.Store) ⊎ (e ≡ OpenFault.Memory)) }
    ensures refused { (result ≡ Err OpenFault.NotOurs) ⊎ (result ≡ Err OpenFault.Zone)
        → conn.new ≡ conn.old }
    ensures zone { IfOk result (HasRule zone.now) }
    ensures autocommit { conn.new.in_transaction ≡ conn.old.in_transaction }
    ensures does { TransactsTo (state S.Store conn.old) (state S.Store conn.new) result
        (Makes zone.now) }
{
    if !conn.is_autocommit() || !is_blank(conn.schema()) {
        return Err(OpenFault::NotOurs);
    }
    let rule = zone_of(zone)?;
    make(conn, zone)?;
    Ok(rule)
}
