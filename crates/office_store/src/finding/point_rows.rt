//! Queries for the points of a device's point list.
ghost use Rattle.std.specs.Prelude.{◌≡◌, false, string_bytes};
ghost use Rattle.store_tables.specs.Asking.{ReadsRow};
ghost use Rattle.store_tables.specs.Columns.{or_damaged};
ghost use Rattle.point_list.specs.Fields.{type_of};
ghost use Rattle.point_list.specs.Lists.{scale_spelled, name_spelled};
ghost use Rattle.store_tables.specs.Devices.Rows.{point_shown};
ghost use Rattle.office_store.specs.Finding.Finding.{Finds, OfLawful, ReadsAll};
ghost use Rattle.office_store.specs.Finding.Points.{point_with, IsPointOf, IsReadablePoint};
ghost use Rattle.office_store.specs.Finding.Points.{HasReadablePoints};
ghost use Rattle.office_store.specs.Finding.Showing.{ShowsPoints};

use crate::finding::memory::push_item;
use point_list::{ListedPoint, PointName, PointScale, fixed_scale, point_type};
use sqlite::{Alter, Connection, Row};
use store_tables::{RowFault, check_open, point_rows, read_point};
use sun_points::PointType;

fn point_name(text: String) -> Result<PointName, RowFault>
    ensures { result ≡ or_damaged (name_spelled (string_bytes text)) }
{
    match PointName::new(text.into_bytes()) {
        Ok(name) => Ok(name),
        Err(_) => Err(RowFault::Damaged),
    }
}

fn kind(text: &str) -> Result<PointType, RowFault>
    ensures { result ≡ or_damaged (type_of text.now) }
{
    match point_type(text.as_bytes()) {
        Some(kind) => Ok(kind),
        None => Err(RowFault::Damaged),
    }
}

fn scale(text: String) -> Result<PointScale, RowFault>
    ensures { result ≡ or_damaged (scale_spelled (string_bytes text)) }
{
    if text.is_empty() {
        return Ok(PointScale::Unscaled);
    }
    match fixed_scale(text.as_bytes()) {
        Some(scale) => Ok(PointScale::Fixed(scale)),
        None => Ok(PointScale::Named(point_name(text)?)),
    }
}

/// Converts a row of `points` to a SunSpec point of a point list. Reports texts that can't be
/// parsed as `Damaged`.
fn point_from(row: store_tables::Point) -> Result<ListedPoint, RowFault>
    ensures { result ≡ point_with (string_bytes row.name) (string_bytes row.kind)
        (string_bytes row.scale) row.row }
{
    let name = point_name(row.name)?;
    let kind = kind(row.kind.as_str())?;
    let scale = scale(row.scale)?;
    Ok(ListedPoint {
        name,
        function: row.row.function,
        area: row.row.area,
        address: row.row.address,
        kind,
        scale,
    })
}

/// Reads a SunSpec point from a result row of the query for a device's points.
fn point_in(row: &Row) -> Result<ListedPoint, RowFault>
    ensures { ReadsRow row.now point_shown IsPointOf IsReadablePoint result }
{
    let found = read_point(row)?;
    point_from(found)
}

/// Reads SunSpec points from the result rows of the query for a device's points.
pub(crate) fn points_in(rows: &Vec<Row>) -> Result<Vec<ListedPoint>, RowFault>
    ensures { ReadsAll rows.now.items point_shown IsPointOf IsReadablePoint
        (λ v. v.items) result }
{
    let mut points = Vec::new(*rows.allocator());
    for row in rows {
        let point = point_in(row)?;
        push_item(&mut points, point)?;
    }
    Ok(points)
}

/// Queries the rows of a device's points, in the order of its point list.
pub(crate) fn rows_of<S: Alter>(
    conn: &mut Connection<S>,
    device: &str,
) -> Result<Vec<Row>, RowFault>
    requires { conn.old.in_transaction ≡ false }
    ensures { Finds S.Store conn.old conn.new result
        (OfLawful (ShowsPoints device.now)) (λ facts. HasReadablePoints facts device.now) }
{
    check_open(conn)?;
    Ok(point_rows(conn, device)?)
}
