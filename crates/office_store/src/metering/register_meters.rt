//! Queries for all meters that were installed at an accounting register (a named energy counter),
//! one after another.
ghost use Rattle.std.specs.Prelude.{◌≡◌, false, List, map, IsUtf8};
ghost use Rattle.office_books.specs.Entries.{installations_of};
ghost use Rattle.office_events.specs.declared.facts.Opening.{Opening as RecordedOpening};
ghost use Rattle.office_books.specs.Intervals.{installations_at};
ghost use Rattle.office_books.specs.Meters.{installation_of};
ghost use Rattle.store_tables.specs.Meters.Rows.{installed_shown, IsInstalled, IsSoundInstalled};
ghost use Rattle.office_store.specs.Finding.Finding.{Finds, OfLawful, ReadsAll};
ghost use Rattle.office_store.specs.Metering.RegisterMeters.{AreRowsOf, ShowsMetersAt};
ghost use Rattle.office_store.specs.Metering.Sound.{HasReadableMeters};

use crate::finding::push_item;
use crate::metering::installations::standing;
use crate::{register_meter_rows, text};
use office_events::{Installation, Name};
use sqlite::{Alter, Connection, Row};
use std::alloc::Global;
use store_tables::{RowFault, check_open, read_installation};

/// Queries the rows of `installations` for the meters of an accounting register (a named energy
/// counter), in the order in which the meters were installed.
fn rows_at<S: Alter>(conn: &mut Connection<S>, register: &str) -> Result<Vec<Row>, RowFault>
    requires { conn.old.in_transaction ≡ false }
    ensures { Finds S.Store conn.old conn.new result
        (OfLawful (ShowsMetersAt register.now)) HasReadableMeters }
{
    check_open(conn)?;
    Ok(register_meter_rows(conn, register)?)
}

/// Reads rows of `installations` from the result rows of a query.
fn installed_in(rows: &Vec<Row>) -> Result<Vec<store_tables::Installation>, RowFault>
    ensures { ReadsAll rows.now.items installed_shown IsInstalled IsSoundInstalled
        (λ v. v.items) result }
{
    let mut installed = Vec::new(*rows.allocator());
    for row in rows {
        let installation = read_installation(row)?;
        push_item(&mut installed, installation)?;
    }
    Ok(installed)
}

/// Queries and reads the rows of `installations` for the meters of an accounting register (a named
/// energy counter).
fn installed_at<S: Alter>(
    conn: &mut Connection<S>,
    register: &str,
) -> Result<Vec<store_tables::Installation>, RowFault>
    requires { conn.old.in_transaction ≡ false }
    ensures { Finds S.Store conn.old conn.new result
        (λ facts v. AreRowsOf facts (installations_at facts register.now) v.items)
        HasReadableMeters }
{
    let rows = rows_at(conn, register)?;
    installed_in(&rows)
}

/// Returns the states of the meters that the rows of `installations` in `rows` name. The states
/// have the order of `rows`.
fn standing_all<S: Alter>(
    alloc: Global,
    conn: &mut Connection<S>,
    rows: &[store_tables::Installation],
) -> Result<Vec<Installation>, RowFault>
    requires { conn.old.in_transaction ≡ false }
    ensures { Finds S.Store conn.old conn.new result
        (λ facts v. (openings : List RecordedOpening) → AreRowsOf facts openings rows.now
        → v.items ≡ map (installation_of facts) openings)
        (λ facts. HasReadableMeters facts × (openings : List RecordedOpening)
        × AreRowsOf facts openings rows.now) }
{
    let mut found = Vec::new(alloc);
    for row in rows {
        let installation = standing(conn, row)?;
        push_item(&mut found, installation)?;
    }
    Ok(found)
}

/// Returns the state of each meter that was installed at an accounting register (a named energy
/// counter), including closed meters, in the order of installation.
pub fn meters_at<S: Alter>(
    alloc: Global,
    conn: &mut Connection<S>,
    register: &Name,
) -> Result<Vec<Installation>, RowFault>
    requires { conn.old.in_transaction ≡ false }
    ensures { Finds S.Store conn.old conn.new result
        (λ facts v. v.items ≡ installations_of facts register.now)
        (λ facts. IsUtf8 register.now × HasReadableMeters facts) }
{
    let register = text(register)?;
    let installed = installed_at(conn, register)?;
    standing_all(alloc, conn, &installed)
}
