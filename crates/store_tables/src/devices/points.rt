//! SQL statements on the table `points`, which has the SunSpec points that each device is polled
//! for.
ghost use Rattle.std.specs.Prelude.{All};
ghost use Rattle.sqlite.specs.Held.{state};
ghost use Rattle.store_tables.specs.Content.{Edits, with_row, without_where};
ghost use Rattle.store_tables.specs.Steps.{Steps, IsSameBorrow};
ghost use Rattle.store_tables.specs.Answer.{FirstFirst};
ghost use Rattle.store_tables.specs.Asking.{Asks, ReportsRows, Shows};
ghost use Rattle.store_tables.specs.Devices.Rows.{listed_as, point_columns, point_shown, point_place};
ghost use Rattle.store_tables.specs.Devices.Rows.{is_point_of, with_points, with_list, IsSoundPoint};
ghost use Rattle.store_tables.specs.Devices.Trees as trees;

use crate::devices::rows::{Point, PointRow};
use crate::number;
use sqlite::{Alter, Connection, Error, Row, Transaction, params};

/// Inserts a point into a device's point list. The point's type and scale are texts, as in the CSV
/// file of a point list.
fn insert_point<'a, S: Alter>(
    tx: &mut Transaction<'_, S>,
    device: &'a str,
    name: &'a str,
    kind: &'a str,
    scale: &'a str,
    point: PointRow,
) -> Result<usize, Error>
    requires sound { IsSoundPoint point }
    ensures same_reference { IsSameBorrow tx.old.conn tx.new.conn }
    ensures does { Steps (state S.Store tx.old.conn.now) (state S.Store tx.new.conn.now) result
        (Edits trees.points point_columns
        (with_row (listed_as device.now name.now kind.now scale.now point))) }
{
    let place = number(point.place);
    tx.execute(
        "INSERT INTO points (device, place, name, function, area, address, kind, scale) VALUES (?1, ?2, ?3, ?4, ?5, ?6, ?7, ?8)",
        params![
            device,
            &place,
            name,
            u32::from(point.function.code()),
            u32::from(point.area),
            u32::from(point.address),
            kind,
            scale
        ],
    )
}

/// Deletes all points of a device's point list.
fn delete_points<S: Alter>(tx: &mut Transaction<'_, S>, device: &str) -> Result<usize, Error>
    ensures same_reference { IsSameBorrow tx.old.conn tx.new.conn }
    ensures does { Steps (state S.Store tx.old.conn.now) (state S.Store tx.new.conn.now) result
        (Edits trees.points point_columns (without_where (is_point_of device.now))) }
{
    tx.execute("DELETE FROM points WHERE device = ?1", params![device])
}

/// Inserts points into a device's point list one by one. Points that are already in the list stay.
fn insert_points<S: Alter>(
    tx: &mut Transaction<'_, S>,
    device: &str,
    points: &[Point],
) -> Result<(), Error>
    requires sound { All (λ p. IsSoundPoint p.row) points.now }
    ensures same_reference { IsSameBorrow tx.old.conn tx.new.conn }
    ensures does { Steps (state S.Store tx.old.conn.now) (state S.Store tx.new.conn.now) result
        (Edits trees.points point_columns (with_points device.now points.now)) }
{
    for point in points {
        insert_point(
            tx,
            device,
            point.name.as_str(),
            point.kind.as_str(),
            point.scale.as_str(),
            point.row,
        )?;
    }
    Ok(())
}

/// Replaces the point list of a device: deletes its points, and inserts the new ones.
pub fn replace_points<S: Alter>(
    tx: &mut Transaction<'_, S>,
    device: &str,
    points: &[Point],
) -> Result<(), Error>
    requires sound { All (λ p. IsSoundPoint p.row) points.now }
    ensures same_reference { IsSameBorrow tx.old.conn tx.new.conn }
    ensures does { Steps (state S.Store tx.old.conn.now) (state S.Store tx.new.conn.now) result
        (Edits trees.points point_columns (with_list device.now points.now)) }
{
    delete_points(tx, device)?;
    insert_points(tx, device, points)
}

/// Queries the points of a device's point list in the order of the list. Use `read_point` to decode
/// each row.
pub fn point_rows<S: Alter>(conn: &mut Connection<S>, device: &str) -> Result<Vec<Row>, Error>
    ensures asks { Asks S.Store conn.old conn.new }
    ensures shows { ReportsRows S.Store conn.old conn.new trees.points point_columns result
        (Shows (is_point_of device.now) (FirstFirst point_place) point_shown) }
{
    conn.query_all(
        "SELECT place, name, function, area, address, kind, scale FROM points WHERE device = ?1 ORDER BY place",
        params![device],
    )
}
