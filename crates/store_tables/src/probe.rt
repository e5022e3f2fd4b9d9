//! A check that the database is open, to be made before a query.
ghost use Rattle.std.specs.Prelude.{◌≡◌, false, IsTrue, OnOk, IfErr};
ghost use Rattle.sqlite.specs.State.{HasCleanDisk, KeepsCommit, Survives};
ghost use Rattle.sqlite.specs.Held.{state};
ghost use Rattle.store_tables.specs.Failing.{IsStoreError};

use sqlite::{Alter, Connection, Error};

/// Returns Ok only if the database is open and has no open transaction. A query then sees the
/// committed rows.
pub fn check_open<S: Alter>(conn: &mut Connection<S>) -> Result<(), Error>
    requires { conn.old.in_transaction ≡ false }
    ensures autocommit { conn.new.in_transaction ≡ false }
    ensures opened { HasCleanDisk (state S.Store conn.new)
        → OnOk result (IsTrue (state S.Store conn.new).is_open
        × ((state S.Store conn.new).now ≡ (state S.Store conn.new).committed)) }
    ensures kept { HasCleanDisk (state S.Store conn.new)
        → KeepsCommit (state S.Store conn.old) (state S.Store conn.new) }
    ensures fails { HasCleanDisk (state S.Store conn.new)
        → IfErr result (IsStoreError (state S.Store conn.old) (state S.Store conn.new)) }
    ensures survives { Survives (state S.Store conn.old) (state S.Store conn.new) (λ _. ⊥) }
{
    let _plan = conn.prepare("SELECT 1")?;
    let _settled = conn.is_autocommit();
    Ok(())
}
