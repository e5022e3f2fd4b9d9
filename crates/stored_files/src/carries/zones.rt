//! Reads the time zone of a database file from the table `meta`.
ghost use Rattle.std.specs.Prelude.{◌≡◌, ◌∷◌, [], ℕ, List, false, Err, IfOk, string_bytes};
ghost use Rattle.sqlite.specs.Held.{state};
ghost use Rattle.sqlite.specs.State.{HasCleanDisk, IsUnchanged};
ghost use Rattle.store_tables.specs.Content.{Content, AreTablesIn};
ghost use Rattle.store_tables.specs.declared.layouts.Layout.{Layout as TheLayout};
ghost use Rattle.store_tables.specs.Layouts.{schema_of, IsNamedAs};
ghost use Rattle.store_tables.specs.Meta.{Meta};
ghost use Rattle.store_tables.specs.Upgrade.{IsFile};
ghost use Rattle.stored_files.specs.Carries.ReportedZone.{ShowsZone, ReportsZone, zone_shown};

use sqlite::{Alter, Connection, Error, ErrorCode, Row};
use store_tables::{OpenFault, RowFault, check_open, layout_of, text};

// Maps an SQL error of the query for the time zone to an `OpenFault`.
fn fault_of(error: Error) -> OpenFault {
    match error {
        Error::SqliteFailure(ErrorCode::OutOfMemory) => OpenFault::Memory,
        _ => OpenFault::Store,
    }
}

// Queries the time zone in the table `meta`.
fn zone_rows<S: Alter>(connection: &mut Connection<S>) -> Result<Vec<Row>, Error>
    ensures clean { HasCleanDisk (state S.Store connection.new)
        → HasCleanDisk (state S.Store connection.old) }
    ensures shows { HasCleanDisk (state S.Store connection.new)
        → (layout : TheLayout) (content : Content)
        → AreTablesIn (schema_of layout) (state S.Store connection.old).now content
        → IfOk result
        (ShowsZone content (state S.Store connection.old) (state S.Store connection.new)) }
{
    connection.query_all("SELECT zone FROM meta", &[])
}

// Reads the text of the time zone from a result row of the query for a database file's time zone.
fn zone_of(row: &Row) -> Result<String, OpenFault>
    ensures { (m : Meta) → row.now ≡ zone_shown m
        → IfOk result (λ zone. string_bytes zone ≡ m.zone) }
{
    match text(row, 0) {
        Ok(zone) => Ok(zone),
        Err(RowFault::Sql(error)) => Err(fault_of(error)),
        Err(RowFault::Damaged) => Err(OpenFault::Zone),
    }
}

// Reads the text of the time zone from all result rows of the query for a database file's time
// zone. Fails unless there is exactly one row.
fn zone_in(rows: &[Row]) -> Result<String, OpenFault>
    ensures { (m : Meta) → rows.now ≡ zone_shown m ∷ []
        → IfOk result (λ zone. string_bytes zone ≡ m.zone) }
{
    match rows {
        [row] => zone_of(row),
        _ => Err(OpenFault::NotOurs),
    }
}

// Queries the time zone of a database file. The caller must have checked that the database is open.
fn zone_of_open<S: Alter>(connection: &mut Connection<S>) -> Result<String, OpenFault>
    ensures clean { HasCleanDisk (state S.Store connection.new)
        → HasCleanDisk (state S.Store connection.old) }
    ensures reports { HasCleanDisk (state S.Store connection.new)
        → (layout : TheLayout) (zone : List ℕ) (content : Content)
        → (state S.Store connection.old).now ≡ (state S.Store connection.old).committed
        → IsFile layout zone (state S.Store connection.old).committed content
        → IfOk result
        (ReportsZone zone (state S.Store connection.old) (state S.Store connection.new)) }
{
    match zone_rows(connection) {
        Ok(rows) => zone_in(&rows),
        Err(error) => Err(fault_of(error)),
    }
}

// Queries the time zone of a database file. First checks that the database is open.
fn zone_of_file<S: Alter>(connection: &mut Connection<S>) -> Result<String, OpenFault>
    requires { connection.old.in_transaction ≡ false }
    ensures clean { HasCleanDisk (state S.Store connection.new)
        → HasCleanDisk (state S.Store connection.old) }
    ensures reports { HasCleanDisk (state S.Store connection.new)
        → (layout : TheLayout) (zone : List ℕ) (content : Content)
        → IsFile layout zone (state S.Store connection.old).committed content
        → IfOk result
        (ReportsZone zone (state S.Store connection.old) (state S.Store connection.new)) }
{
    match check_open(connection) {
        Ok(()) => zone_of_open(connection),
        Err(error) => Err(fault_of(error)),
    }
}

/// Returns the time zone of a database file as text. The tables may be of any version. Writes
/// nothing to the file.
pub fn read_zone_text<S: Alter>(connection: &mut Connection<S>) -> Result<String, OpenFault>
    ensures foreign { ((layout : TheLayout) → ¬ IsNamedAs connection.old.schema layout)
        → result ≡ Err OpenFault.NotOurs }
    ensures clean { HasCleanDisk (state S.Store connection.new)
        → HasCleanDisk (state S.Store connection.old) }
    ensures reports { HasCleanDisk (state S.Store connection.new)
        → (layout : TheLayout) (zone : List ℕ) (content : Content)
        → IsFile layout zone (state S.Store connection.old).committed content
        → IfOk result
        (ReportsZone zone (state S.Store connection.old) (state S.Store connection.new)) }
{
    if !connection.is_autocommit() {
        return Err(OpenFault::NotOurs);
    }
    match layout_of(connection.schema()) {
        None => Err(OpenFault::NotOurs),
        Some(_) => zone_of_file(connection),
    }
}
