//! Queries for single rows of a meter, with contracts about the records that the rows encode.
ghost use Rattle.std.specs.Prelude.{◌≡◌, false};
ghost use Rattle.office_books.specs.Facts.{opening_of, installed_at};
ghost use Rattle.office_store.specs.Finding.Finding.{Finds};
ghost use Rattle.office_store.specs.Metering.Sound.{HasReadableMeters};
ghost use Rattle.office_store.specs.Metering.Meters.{FindsRow, FindsRange, FindsFirst};

use office_books::voids_leave_no_trace;
use sqlite::{Alter, Connection};
use store_tables::{
    EntryRow, Installation, RowFault, check_open, entry_at, installation_at, installation_of,
    range_of,
};

/// Queries the meter's row in `installations`. The row has the meter's last entry and total energy.
pub(crate) fn row_of<S: Alter>(
    conn: &mut Connection<S>,
    meter: &str,
) -> Result<Option<Installation>, RowFault>
    requires { conn.old.in_transaction ≡ false }
    ensures { Finds S.Store conn.old conn.new result
        (λ facts found. FindsRow facts (opening_of facts meter.now) found) HasReadableMeters }
{
    check_open(conn)?;
    installation_of(conn, meter)
}

/// Queries the row of the meter that was installed last at an accounting register (a named energy
/// counter).
pub(crate) fn row_at<S: Alter>(
    conn: &mut Connection<S>,
    register: &str,
) -> Result<Option<Installation>, RowFault>
    requires { conn.old.in_transaction ≡ false }
    ensures { Finds S.Store conn.old conn.new result
        (λ facts found. FindsRow facts (installed_at facts register.now) found) HasReadableMeters }
{
    check_open(conn)?;
    installation_at(conn, register)
}

/// Queries the range of a meter's counter: how many values the counter has before it rolls over.
pub(crate) fn range<S: Alter>(
    conn: &mut Connection<S>,
    meter: &str,
) -> Result<Option<u64>, RowFault>
    requires { conn.old.in_transaction ≡ false }
    ensures { Finds S.Store conn.old conn.new result (FindsRange meter.now)
        HasReadableMeters }
{
    check_open(conn)?;
    range_of(conn, meter)
}

/// Queries the first entry of a meter, its opening, which was made at installation.
pub(crate) fn first_entry<S: Alter>(
    conn: &mut Connection<S>,
    meter: &str,
) -> Result<Option<EntryRow>, RowFault>
    requires { conn.old.in_transaction ≡ false }
    ensures { Finds S.Store conn.old conn.new result (FindsFirst meter.now)
        HasReadableMeters }
{
    voids_leave_no_trace();
    check_open(conn)?;
    entry_at(conn, meter, 1)
}
