//! SQL statements on the table `meta`, whose one row has the version of the file and its time zone.
ghost use Rattle.std.specs.Prelude.{◌≤◌, [], ◌∷◌};
ghost use Rattle.sqlite.specs.Held.{state};
ghost use Rattle.store_tables.specs.Content.{Edits, with_row, changed_where};
ghost use Rattle.store_tables.specs.Steps.{Steps, IsSameBorrow};
ghost use Rattle.store_tables.specs.Answer.{every};
ghost use Rattle.store_tables.specs.Meta.{meta, meta_columns, with_version};

use sqlite::{Alter, Connection, Error, Row, Transaction, params};

/// Inserts the row of `meta`: version 3, and the time zone `zone`.
pub(crate) fn insert_meta<S: Alter>(tx: &mut Transaction<'_, S>, zone: &str) -> Result<usize, Error>
    ensures same_reference { IsSameBorrow tx.old.conn tx.new.conn }
    ensures does { Steps (state S.Store tx.old.conn.now) (state S.Store tx.new.conn.now) result
        (Edits meta meta_columns (with_row (record { version = 3; zone = zone.now }))) }
{
    tx.execute(
        "INSERT INTO meta (id, version, zone) VALUES (1, 3, ?1)",
        params![zone],
    )
}

/// Sets the version in the table `meta` to 3.
pub(crate) fn set_version<S: Alter>(tx: &mut Transaction<'_, S>) -> Result<usize, Error>
    ensures same_reference { IsSameBorrow tx.old.conn tx.new.conn }
    ensures does { Steps (state S.Store tx.old.conn.now) (state S.Store tx.new.conn.now) result
        (Edits meta meta_columns (changed_where every (with_version 3))) }
{
    tx.execute("UPDATE meta SET version = 3", &[])
}
