//! Upgrades a database file of an earlier version to version 3. Version 1 lacks the tables `ranges`
//! and `voids`, and version 2 lacks `voids`.
ghost use Rattle.std.specs.Prelude.{◌≡◌, false, IfOk, OnErr, string_bytes};
ghost use Rattle.sqlite.specs.Order.{column};
ghost use Rattle.sqlite.specs.declared.types.Value.TheVariants.{Text};
ghost use Rattle.sqlite.specs.State.{HasCleanDisk, KeepsCommit, Survives};
ghost use Rattle.sqlite.specs.Held.{state};
ghost use Rattle.store_tables.specs.Content.{Content, AreTablesIn};
ghost use Rattle.store_tables.specs.Steps.{Steps, StepsTo, TransactsTo, IsSameBorrow};
ghost use Rattle.store_tables.specs.declared.layouts.Layout.TheVariants.{First as TheFirst};
ghost use Rattle.store_tables.specs.Layouts.{schema_of};
ghost use Rattle.store_tables.specs.Upgrade.{ShowsMeters, GivesRanges, BringsFirst, BringsSecond};
ghost use Rattle.store_tables.specs.Upgrade.{OpensFile, IsOpenTo};

use crate::insert_range;
use crate::layouts::Layout;
use crate::meta::set_version;
use crate::tables::{create_last, create_voids};
use sqlite::{Alter, Connection, Error, Row, Transaction};

/// Queries the names of the meters in a file of version 1.
fn meter_rows<S: Alter>(conn: &mut Connection<S>) -> Result<Vec<Row>, Error>
    ensures clean { HasCleanDisk (state S.Store conn.new) → HasCleanDisk (state S.Store conn.old) }
    ensures mode { conn.old.in_transaction ≡ false → conn.new.in_transaction ≡ false }
    ensures kept { HasCleanDisk (state S.Store conn.new) → (content : Content)
        → AreTablesIn (schema_of TheFirst) (state S.Store conn.old).now content
        → KeepsCommit (state S.Store conn.old) (state S.Store conn.new) }
    ensures shows { HasCleanDisk (state S.Store conn.new) → (content : Content)
        → AreTablesIn (schema_of TheFirst) (state S.Store conn.old).now content
        → IfOk result (ShowsMeters content (state S.Store conn.old) (state S.Store conn.new)) }
    ensures survives { (content : Content)
        → AreTablesIn (schema_of TheFirst) (state S.Store conn.old).now content
        → Survives (state S.Store conn.old) (state S.Store conn.new) (λ _. ⊥) }
{
    conn.query_all("SELECT meter FROM installations", &[])
}

/// Reads the name of a meter from a result row of the query for the meters of a version 1 file.
fn meter_in(row: &Row) -> Result<String, Error>
    ensures { IfOk result (λ meter. column row.now 0 ≡ Text (string_bytes meter)) }
{
    row.get(0)
}

/// Inserts a counter range of 2^32 values for the meter in each result row, because version 1
/// stores no ranges.
fn give_ranges<S: Alter>(tx: &mut Transaction<'_, S>, meters: &[Row]) -> Result<(), Error>
    ensures same_reference { IsSameBorrow tx.old.conn tx.new.conn }
    ensures does { Steps (state S.Store tx.old.conn.now) (state S.Store tx.new.conn.now) result
        (GivesRanges meters.now) }
{
    for row in meters {
        let meter = meter_in(row)?;
        insert_range(tx, meter.as_str(), 4_294_967_296)?;
    }
    Ok(())
}

fn bring_first<S: Alter>(tx: &mut Transaction<'_, S>, meters: &[Row]) -> Result<usize, Error>
    ensures same_reference { IsSameBorrow tx.old.conn tx.new.conn }
    ensures does { StepsTo (state S.Store tx.old.conn.now) (state S.Store tx.new.conn.now) result
        (BringsFirst meters.now) }
{
    create_last(tx)?;
    give_ranges(tx, meters)?;
    set_version(tx)
}

fn bring_second<S: Alter>(tx: &mut Transaction<'_, S>) -> Result<usize, Error>
    ensures same_reference { IsSameBorrow tx.old.conn tx.new.conn }
    ensures does { StepsTo (state S.Store tx.old.conn.now) (state S.Store tx.new.conn.now) result
        BringsSecond }
{
    create_voids(tx)?;
    set_version(tx)
}

/// Upgrades a file of version 1 in one transaction: creates `ranges` and `voids`, inserts a counter
/// range for each meter, and sets the version to 3.
fn add_ranges<S: Alter>(conn: &mut Connection<S>, meters: &[Row]) -> Result<(), Error>
    requires autocommit { conn.old.in_transaction ≡ false }
    ensures autocommit { conn.new.in_transaction ≡ false }
    ensures does { TransactsTo (state S.Store conn.old) (state S.Store conn.new) result
        (BringsFirst meters.now) }
{
    let mut tx = conn.transaction();
    bring_first(&mut tx, meters)?;
    tx.commit()
}

/// Upgrades a file of version 2 in one transaction: creates `voids`, and sets the version to 3.
fn add_voids<S: Alter>(conn: &mut Connection<S>) -> Result<(), Error>
    requires autocommit { conn.old.in_transaction ≡ false }
    ensures autocommit { conn.new.in_transaction ≡ false }
    ensures does { TransactsTo (state S.Store conn.old) (state S.Store conn.new) result
        BringsSecond }
{
    let mut tx = conn.transaction();
    bring_second(&mut tx)?;
    tx.commit()
}

/// Upgrades a file of version 1 to version 3. After an error the file is unchanged.
fn open_first<S: Alter>(conn: &mut Connection<S>) -> Result<(), Error>
    requires autocommit { conn.old.in_transaction ≡ false }
    ensures autocommit { conn.new.in_transaction ≡ false }
    ensures clean { HasCleanDisk (state S.Store conn.new) → HasCleanDisk (state S.Store conn.old) }
    ensures opened { HasCleanDisk (state S.Store conn.new) → (zone : _) (content : Content)
        → IsOpenTo TheFirst zone content (state S.Store conn.old)
        → OpensFile TheFirst zone content (state S.Store conn.old) (state S.Store conn.new) result }
{
    let meters = meter_rows(conn)?;
    add_ranges(conn, &meters)
}

/// Upgrades a file of any version to version 3. After an error the file is unchanged. The commit is
/// the last call to the database.
pub(crate) fn bring<S: Alter>(conn: &mut Connection<S>, layout: Layout) -> Result<(), Error>
    requires autocommit { conn.old.in_transaction ≡ false }
    ensures autocommit { conn.new.in_transaction ≡ false }
    ensures third { layout ≡ Layout.Third → OnErr result ⊥ }
    ensures clean { HasCleanDisk (state S.Store conn.new) → HasCleanDisk (state S.Store conn.old) }
    ensures opened { HasCleanDisk (state S.Store conn.new) → (zone : _) (content : Content)
        → IsOpenTo layout zone content (state S.Store conn.old)
        → OpensFile layout zone content (state S.Store conn.old) (state S.Store conn.new) result }
{
    match layout {
        Layout::First => open_first(conn),
        Layout::Second => add_voids(conn),
        Layout::Third => Ok(()),
    }
}
