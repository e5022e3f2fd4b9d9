//! Queries for the installation of a meter: its first entry, last entry and total energy. The query
//! is by the meter's name or by its accounting register (a named energy counter).
ghost use Rattle.std.specs.Prelude.{◌≡◌, false, length, IfOk, IfSome, IsUtf8};
ghost use Rattle.office_books.specs.Ranges.{IsSound};
ghost use Rattle.office_books.specs.Facts.{openings_in};
ghost use Rattle.office_books.specs.Meters.{meter_of, installation_at};
ghost use Rattle.office_store.specs.Finding.Finding.{Finds};
ghost use Rattle.office_store.specs.Metering.Sound.{HasReadableMeters};
ghost use Rattle.office_store.specs.Metering.Meters.{CountsOpenings};

use crate::metering::installations::standing;
use crate::metering::rows::{row_at, row_of};
use crate::text;
use office_events::{Installation, Name};
use sqlite::{Alter, Connection};
use store_tables::{RowFault, check_open, last_installation};

/// Returns the stored state of a meter, or None if the store has no meter with this name.
pub fn meter<S: Alter>(
    conn: &mut Connection<S>,
    name: &Name,
) -> Result<Option<Installation>, RowFault>
    requires { conn.old.in_transaction ≡ false }
    ensures finds { Finds S.Store conn.old conn.new result
        (λ facts found. found ≡ meter_of facts name.now)
        (λ facts. IsUtf8 name.now × HasReadableMeters facts) }
    ensures sound { IfOk result (λ found. IfSome found IsSound) }
{
    let meter = text(name)?;
    match row_of(conn, meter)? {
        None => Ok(None),
        Some(row) => Ok(Some(standing(conn, &row)?)),
    }
}

/// Returns the state of the meter that was installed last at an accounting register (a named
/// counter of a device). Returns None if no meter was installed at this register.
pub fn installation<S: Alter>(
    conn: &mut Connection<S>,
    register: &Name,
) -> Result<Option<Installation>, RowFault>
    requires { conn.old.in_transaction ≡ false }
    ensures finds { Finds S.Store conn.old conn.new result
        (λ facts found. found ≡ installation_at facts register.now)
        (λ facts. IsUtf8 register.now × HasReadableMeters facts) }
    ensures sound { IfOk result (λ found. IfSome found IsSound) }
{
    let register = text(register)?;
    match row_at(conn, register)? {
        None => Ok(None),
        Some(row) => Ok(Some(standing(conn, &row)?)),
    }
}

/// Returns the greatest index in `installations`. Rows are numbered from 1, so this index is the
/// number of meters.
fn last_place<S: Alter>(conn: &mut Connection<S>) -> Result<Option<u64>, RowFault>
    requires { conn.old.in_transaction ≡ false }
    ensures { Finds S.Store conn.old conn.new result CountsOpenings HasReadableMeters }
{
    check_open(conn)?;
    last_installation(conn)
}

/// Returns how many meters the store records as installed, closed meters included.
pub fn installation_count<S: Alter>(conn: &mut Connection<S>) -> Result<usize, RowFault>
    requires { conn.old.in_transaction ≡ false }
    ensures { Finds S.Store conn.old conn.new result
        (λ facts count. count ≡ length (openings_in facts)) HasReadableMeters }
{
    match last_place(conn)? {
        None => Ok(0),
        Some(place) => Ok(place as usize),
    }
}
