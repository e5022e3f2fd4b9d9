//! Opens the database file of a store: checks its tables, reads its time zone, and upgrades an
//! earlier version.
ghost use Rattle.std.specs.Prelude.{◌≡◌, ◌≢◌, ◌⊎◌, ◌↔◌, false, [], ◌∷◌, IsTrue, IfOk, IfErr};
ghost use Rattle.std.specs.Prelude.{IsUtf8, Err, OnErr};
ghost use Rattle.sqlite.specs.State.{HasCleanDisk, KeepsCommit, Survives};
ghost use Rattle.sqlite.specs.Held.{state};
ghost use Rattle.interval_core.specs.Zone.{HasRule};
ghost use Rattle.store_tables.specs.Content.{Content, AreTablesIn};
ghost use Rattle.store_tables.specs.declared.layouts.Layout.{Layout as TheLayout};
ghost use Rattle.store_tables.specs.Layouts.{schema_of, IsNamedAs};
ghost use Rattle.store_tables.specs.Meta.{Meta, meta_shown};
ghost use Rattle.store_tables.specs.Zones.{IsZone};
ghost use Rattle.store_tables.specs.Upgrade.{OpensFile, OpensAnyFile, IsOpenTo};
ghost use Rattle.store_tables.specs.OpenedFile.{ShowsMeta, ReadsMeta, FindsZone};
ghost use Rattle.store_tables.specs.OpenedFile.{ReportsOfLayout, ReportsOfFile};
ghost use Rattle.store_tables.specs.Failing.{IsStoreError};

use crate::layouts::{Layout, layout_of};
use crate::open_faults::{OpenFault, fault_of};
use crate::upgrade::bring;
use crate::zones::zone_of;
use crate::{RowFault, check_open, text, whole};
use interval_core::Zone;
use sqlite::{Alter, Connection, Error, Row};

/// Queries the rows of the table `meta`, which has one row for the complete file.
fn meta_rows<S: Alter>(conn: &mut Connection<S>) -> Result<Vec<Row>, Error>
    ensures clean { HasCleanDisk (state S.Store conn.new) → HasCleanDisk (state S.Store conn.old) }
    ensures mode { conn.old.in_transaction ≡ false → conn.new.in_transaction ≡ false }
    ensures kept { HasCleanDisk (state S.Store conn.new) → (layout : TheLayout) (content : Content)
        → AreTablesIn (schema_of layout) (state S.Store conn.old).now content
        → KeepsCommit (state S.Store conn.old) (state S.Store conn.new) }
    ensures shows { HasCleanDisk (state S.Store conn.new) → (layout : TheLayout) (content : Content)
        → AreTablesIn (schema_of layout) (state S.Store conn.old).now content
        → IfOk result (ShowsMeta content (state S.Store conn.old) (state S.Store conn.new)) }
    ensures fails { HasCleanDisk (state S.Store conn.new) → (layout : TheLayout) (content : Content)
        → AreTablesIn (schema_of layout) (state S.Store conn.old).now content
        → IfErr result (IsStoreError (state S.Store conn.old) (state S.Store conn.new)) }
    ensures survives { (layout : TheLayout) (content : Content)
        → AreTablesIn (schema_of layout) (state S.Store conn.old).now content
        → Survives (state S.Store conn.old) (state S.Store conn.new) (λ _. ⊥) }
{
    conn.query_all("SELECT version, zone FROM meta", &[])
}

/// Returns true if the row of `meta` has the version `version`. A file of another version is not
/// opened.
fn has_version(row: &Row, version: u64) -> bool
    ensures { (m : Meta) → row.now ≡ meta_shown m → IsTrue result ↔ (m.version ≡ version) }
{
    whole(row, 0, version, version).is_ok()
}

/// Reads the time zone of a file from the row of `meta`.
fn read_zone_text(row: &Row) -> Result<Zone, OpenFault>
    ensures fault { (m : Meta) → row.now ≡ meta_shown m
        → IfErr result (λ e. (e ≡ OpenFault.Zone) ⊎ (e ≡ OpenFault.Memory)) }
    ensures zone { (m : Meta) → row.now ≡ meta_shown m
        → IfOk result (λ zone. HasRule m.zone zone × IsZone m.zone) }
    ensures rule { (m : Meta) → row.now ≡ meta_shown m → IsUtf8 m.zone → IsZone m.zone
        → IfErr result (λ e. e ≢ OpenFault.Zone) }
{
    match text(row, 1) {
        Ok(zone) => zone_of(&zone),
        Err(RowFault::Sql(error)) => Err(fault_of(error)),
        Err(RowFault::Damaged) => Err(OpenFault::Zone),
    }
}

/// Reads the time zone of a file from the only row of `meta`. Returns `NotOurs` for an unexpected
/// version, or for any other number of rows.
fn zone_in(rows: &[Row], version: u64) -> Result<Zone, OpenFault>
    ensures reports { (m : Meta) → rows.now ≡ meta_shown m ∷ [] → ReadsMeta version m result }
{
    match rows {
        [row] => {
            if has_version(row, version) {
                read_zone_text(row)
            } else {
                Err(OpenFault::NotOurs)
            }
        }
        _ => Err(OpenFault::NotOurs),
    }
}

/// Returns the time zone of the opened database file. Returns the fault `NotOurs` if the table
/// `meta` does not have the version of `layout`.
fn stored_zone<S: Alter>(conn: &mut Connection<S>, layout: Layout) -> Result<Zone, OpenFault>
    ensures clean { HasCleanDisk (state S.Store conn.new) → HasCleanDisk (state S.Store conn.old) }
    ensures mode { conn.old.in_transaction ≡ false → conn.new.in_transaction ≡ false }
    ensures finds { HasCleanDisk (state S.Store conn.new) → (content : Content)
        → AreTablesIn (schema_of layout) (state S.Store conn.old).now content
        → FindsZone layout content (state S.Store conn.old) (state S.Store conn.new) result }
{
    match meta_rows(conn) {
        Ok(rows) => zone_in(&rows, layout.version()),
        Err(error) => Err(fault_of(error)),
    }
}

/// Upgrades a file of any version to version 3. Reports an error of SQLite as a fault of opening
/// the file.
fn brought<S: Alter>(conn: &mut Connection<S>, layout: Layout) -> Result<(), OpenFault>
    requires autocommit { conn.old.in_transaction ≡ false }
    ensures autocommit { conn.new.in_transaction ≡ false }
    ensures clean { HasCleanDisk (state S.Store conn.new) → HasCleanDisk (state S.Store conn.old) }
    ensures fault { IfErr result (λ e. (e ≡ OpenFault.Store) ⊎ (e ≡ OpenFault.Memory)) }
    ensures third { layout ≡ Layout.Third → OnErr result ⊥ }
    ensures opened { HasCleanDisk (state S.Store conn.new) → (zone : _) (content : Content)
        → IsOpenTo layout zone content (state S.Store conn.old)
        → OpensFile layout zone content (state S.Store conn.old) (state S.Store conn.new) result }
{
    match bring(conn, layout) {
        Ok(()) => Ok(()),
        Err(error) => Err(fault_of(error)),
    }
}

/// Opens a file of a given version (layout). The caller must have checked that the database is open
/// and has no open transaction, so that queries see the committed rows.
fn open_settled<S: Alter>(conn: &mut Connection<S>, layout: Layout) -> Result<Zone, OpenFault>
    requires autocommit { conn.old.in_transaction ≡ false }
    ensures autocommit { conn.new.in_transaction ≡ false }
    ensures clean { HasCleanDisk (state S.Store conn.new) → HasCleanDisk (state S.Store conn.old) }
    ensures reported { HasCleanDisk (state S.Store conn.new)
        → ReportsOfLayout layout (state S.Store conn.old) (state S.Store conn.new) result }
    ensures opened { HasCleanDisk (state S.Store conn.new) → (zone : _) (content : Content)
        → IsOpenTo layout zone content (state S.Store conn.old)
        → OpensFile layout zone content (state S.Store conn.old) (state S.Store conn.new) result }
{
    let zone = stored_zone(conn, layout)?;
    brought(conn, layout)?;
    Ok(zone)
}

/// Opens the store in a database file whose tables have the names of the version (layout) `found`.
/// First checks that the connection to the database is open.
fn open_as<S: Alter>(conn: &mut Connection<S>, found: Layout) -> Result<Zone, OpenFault>
    requires autocommit { conn.old.in_transaction ≡ false }
    requires named { IsNamedAs conn.old.schema found }
    requires settled { IsTrue (state S.Store conn.old).is_open
        → (state S.Store conn.old).now ≡ (state S.Store conn.old).committed }
    ensures autocommit { conn.new.in_transaction ≡ false }
    ensures clean { HasCleanDisk (state S.Store conn.new) → HasCleanDisk (state S.Store conn.old) }
    ensures reported { HasCleanDisk (state S.Store conn.new) → IsTrue (state S.Store conn.old).is_open
        → ReportsOfFile (state S.Store conn.old) (state S.Store conn.new) result }
    ensures opened { HasCleanDisk (state S.Store conn.new)
        → OpensAnyFile (state S.Store conn.old) (state S.Store conn.new) result }
{
    match check_open(conn) {
        Ok(()) => open_settled(conn, found),
        Err(error) => Err(fault_of(error)),
    }
}

/// Opens a file, and returns its time zone. Upgrades a file of version 1 or 2 to version 3 in one
/// transaction, whose commit is the last call to the database. Each meter of version 1 gets a
/// counter that rolls over at 2^32.
///
/// Faults: `NotOurs` if a transaction is open, or if `meta` has another version than the tables.
/// Also `NotOurs` if the tables don't have the names of version 1, 2 or 3 in the order of creation.
/// `Zone` if the file's time zone is not a POSIX rule of at most 64 bytes. After a fault the file
/// is unchanged.
#[tactic(auto, using(crate::proofs::Brought::untouched))]
pub fn open<S: Alter>(conn: &mut Connection<S>) -> Result<Zone, OpenFault>
    ensures busy { IsTrue conn.old.in_transaction
        → (result ≡ Err OpenFault.NotOurs) × (conn.new ≡ conn.old) }
    ensures foreign { ((layout : TheLayout) → ¬ IsNamedAs conn.old.schema layout)
        → (result ≡ Err OpenFault.NotOurs) × (conn.new ≡ conn.old) }
    ensures autocommit { conn.new.in_transaction ≡ conn.old.in_transaction }
    ensures clean { HasCleanDisk (state S.Store conn.new) → HasCleanDisk (state S.Store conn.old) }
    ensures reported { HasCleanDisk (state S.Store conn.new) → conn.old.in_transaction ≡ false
        → IsTrue (state S.Store conn.old).is_open
        → ReportsOfFile (state S.Store conn.old) (state S.Store conn.new) result }
    ensures opened { HasCleanDisk (state S.Store conn.new)
        → OpensAnyFile (state S.Store conn.old) (state S.Store conn.new) result }
{
    if !conn.is_autocommit() {
        return Err(OpenFault::NotOurs);
    }
    match layout_of(conn.schema()) {
        None => Err(OpenFault::NotOurs),
        Some(found) => open_as(conn, found),
    }
}
