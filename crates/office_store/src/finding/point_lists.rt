//! Queries for the SunSpec points that a device is polled for, and for the plan of the device's
//! reads. A plan is the fewest Modbus reads that cover a point list.
ghost use Rattle.std.specs.Prelude.{◌≡◌, false, Some, IfOk, IfErr, IsUtf8};
ghost use Rattle.office_books.specs.Facts.{list_of};
ghost use Rattle.read_plan.specs.PlannedLists.{IsPlanned};
ghost use Rattle.point_list.specs.Points.{IsPointList};
ghost use Rattle.sqlite.specs.declared.error.ErrorCode.TheVariants.{OutOfMemory};
ghost use Rattle.sqlite.specs.declared.error.Error.TheVariants.{SqliteFailure};
ghost use Rattle.store_tables.specs.Failing.{IsRowFault};
ghost use Rattle.store_tables.specs.declared.faults.RowFault.TheVariants.{Sql};
ghost use Rattle.office_books.specs.Plans.{read_count_of, reads_from};
ghost use Rattle.office_store.specs.Rows.{points_of};
ghost use Rattle.office_store.specs.Finding.Finding.{Finds, OfLawful};
ghost use Rattle.office_store.specs.Finding.Points.{HasReadablePoints};

use crate::finding::memory::want_of_memory;
use crate::finding::point_rows::{points_in, rows_of};
use crate::text;
use mb_wire::ReadSpan;
use office_books::reads_from;
use office_events::Name;
use point_list::{ListedPoint, PointList};
use read_plan::{PlannedList, lists_are_planned_once};
use sqlite::{Alter, Connection};
use std::alloc::Global;
use store_tables::RowFault;

/// Plans the Modbus reads that cover a device's SunSpec points. Reports points that form no valid
/// point list (for example, two points with the same name) as `Damaged`.
fn with_plan(alloc: Global, points: Vec<ListedPoint>) -> Result<PlannedList, RowFault>
    ensures points { IfOk result (λ list. list.points ≡ points.items) }
    ensures planned { IfOk result IsPlanned }
    ensures fault { IfErr result (IsRowFault (IsPointList points.items)) }
{
    let Ok(list) = PointList::new(points) else {
        return Err(RowFault::Damaged);
    };
    match PlannedList::new(alloc, list) {
        Ok(planned) => Ok(planned),
        Err(_) => Err(want_of_memory()),
    }
}

/// Returns the SunSpec points that a device is polled for, from the tables.
fn points<S: Alter>(conn: &mut Connection<S>, device: &str) -> Result<Vec<ListedPoint>, RowFault>
    requires { conn.old.in_transaction ≡ false }
    ensures { Finds S.Store conn.old conn.new result
        (OfLawful (λ facts v. v.items ≡ points_of facts device.now))
        (λ facts. HasReadablePoints facts device.now) }
{
    let rows = rows_of(conn, device)?;
    points_in(&rows)
}

/// Returns the list of SunSpec points that a device is polled for, with its planned reads, or None
/// if the device has no list.
pub fn list<S: Alter>(
    alloc: Global,
    conn: &mut Connection<S>,
    device: &Name,
) -> Result<Option<PlannedList>, RowFault>
    requires { conn.old.in_transaction ≡ false }
    ensures { Finds S.Store conn.old conn.new result
        (λ facts list. list ≡ list_of facts device.now)
        (λ facts. IsUtf8 device.now × HasReadablePoints facts device.now) }
{
    lists_are_planned_once();
    let device = text(device)?;
    let points = points(conn, device)?;
    if points.is_empty() {
        return Ok(None);
    }
    Ok(Some(with_plan(alloc, points)?))
}

/// Returns how many Modbus reads are planned for a device's point list, or None if the device has
/// no list.
pub fn read_count<S: Alter>(
    alloc: Global,
    conn: &mut Connection<S>,
    device: &Name,
) -> Result<Option<usize>, RowFault>
    requires { conn.old.in_transaction ≡ false }
    ensures { Finds S.Store conn.old conn.new result
        (λ facts n. n ≡ read_count_of (list_of facts device.now))
        (λ facts. IsUtf8 device.now × HasReadablePoints facts device.now) }
{
    match list(alloc, conn, device)? {
        Some(list) => Ok(Some(office_books::read_count(&list))),
        None => Ok(None),
    }
}

/// Returns the spans of Modbus registers that a plan (the fewest reads that cover a point list)
/// reads. The first span is that of the read with the index `from`; at most `most` spans are
/// returned.
fn spans_of(
    alloc: Global,
    list: &PlannedList,
    from: u64,
    most: usize,
) -> Result<Vec<ReadSpan>, RowFault>
    ensures spans { IfOk result (λ v. v.items ≡ reads_from from most (Some list.now)) }
    ensures fault { IfErr result (λ e. e ≡ Sql (SqliteFailure OutOfMemory)) }
{
    match reads_from(alloc, list, from, most) {
        Ok(spans) => Ok(spans),
        Err(_) => Err(want_of_memory()),
    }
}

/// Returns the spans of Modbus registers that a device is polled for. The first span is that of the
/// planned read with the index `from`; at most `most` spans are returned.
pub fn reads<S: Alter>(
    alloc: Global,
    conn: &mut Connection<S>,
    device: &Name,
    from: u64,
    most: usize,
) -> Result<Vec<ReadSpan>, RowFault>
    requires { conn.old.in_transaction ≡ false }
    ensures { Finds S.Store conn.old conn.new result
        (λ facts v. v.items ≡ reads_from from most (list_of facts device.now))
        (λ facts. IsUtf8 device.now × HasReadablePoints facts device.now) }
{
    let Some(list) = list(alloc, conn, device)? else {
        return Ok(Vec::new(alloc));
    };
    spans_of(alloc, &list, from, most)
}
