//! Reads a point list from comma-separated values.
ghost use Rattle.std.specs.Prelude.{◌≡◌, ◌+◌, ◌≤◌, ◌++◌, ◌∷◌, IfOk, IfErr, OnOk, [], length, map};
ghost use Rattle.csv.specs.Records.{fields_of};
ghost use Rattle.point_list.specs.Faults.{seen_row};
ghost use Rattle.point_list.specs.Lists.{ExplainsList, SpellsBelow, SpellsList, faults_below};
ghost use Rattle.point_list.specs.Lists.{faulty_first, faulty_points, faulty_rows, is_header};
ghost use Rattle.point_list.specs.Lists.{is_header_text, list_faults, rows_read, scale_fault};
ghost use Rattle.point_list.specs.Points.{IsPointList};

use crate::fault::{FaultyRow, FaultyRows, ListFault, RowFault};
use crate::lawful::is_group;
use crate::list::PointList;
use crate::point::{ListedPoint, PointScale, find_scale};
use crate::row::{RowFields, least_row_fault};
use crate::row_points::points_of_rows;
use crate::rows::first_rows;
use csv::ByteRecord;
use std::alloc::{AllocError, Global};

fn is_header_text(row: RowFields<'_>) -> bool
    ensures { result ≡ is_header_text (seen_row row.entry) }
{
    row.name == b"name".as_slice()
        && row.function == b"function".as_slice()
        && row.area == b"area".as_slice()
        && row.address == b"address".as_slice()
        && row.kind == b"type".as_slice()
        && row.scale == b"scale".as_slice()
}

fn is_header(row: &ByteRecord) -> bool
    ensures { result ≡ is_header (fields_of row.now) }
{
    match RowFields::of_row(row) {
        Some(fields) => is_header_text(fields),
        None => false,
    }
}

fn scale_fault(points: &[ListedPoint], point: &ListedPoint) -> Option<RowFault>
    ensures { result ≡ scale_fault points.now point.now point.now.scale }
{
    match &point.scale {
        PointScale::Unscaled | PointScale::Fixed(_) => None,
        PointScale::Named(name) => match find_scale(points, name.as_bytes()) {
            Some(scale) if is_group(point, scale) => None,
            Some(_) => Some(RowFault::GroupTooWide),
            None => Some(RowFault::NoSuchScale),
        },
    }
}

// Adds the fault of a point list's row to `faults`, if the row has one. `place` is the row's index
// below the header, from 0. The header is row 1, so index 0 is row 2.
fn add_fault(
    place: usize,
    fault: Option<RowFault>,
    faults: &mut Vec<FaultyRow>,
) -> Result<(), AllocError>
    requires { place ≤ 513 }
    ensures { OnOk result (faults.new.items
        ≡ faults.old.items ++ faulty_rows (place + 2) (fault ∷ [])) }
{
    if let Some(fault) = fault {
        faults.push(FaultyRow {
            row: place + 2,
            fault,
        })?;
    }
    Ok(())
}

// Returns the faulty rows of a point list, without faults of scale points (SunSpec scale factors),
// which the function `scale_faults` finds.
fn faulty_rows(alloc: Global, rows: &[ByteRecord]) -> Result<Vec<FaultyRow>, AllocError>
    requires { length rows.now ≤ 513 }
    ensures { IfOk result
        (λ faults. faults.items ≡ faulty_first (map fields_of rows.now) (length rows.now)) }
{
    let mut faults = Vec::new(alloc);
    for place in 0..rows.len() {
        let fault = least_row_fault(place, &rows[..place], &rows[place]);
        add_fault(place, fault, &mut faults)?;
    }
    Ok(faults)
}

fn scale_faults(alloc: Global, points: &[ListedPoint]) -> Result<Vec<FaultyRow>, AllocError>
    requires { length points.now ≤ 513 }
    ensures { IfOk result (λ faults. faults.items ≡ faulty_points points.now) }
{
    let mut faults = Vec::new(alloc);
    for place in 0..points.len() {
        let fault = scale_fault(points, &points[place]);
        add_fault(place, fault, &mut faults)?;
    }
    Ok(faults)
}

// Returns the fault of a CSV text whose header is missing or wrong.
fn no_header(alloc: Global) -> ListFault
    ensures { ExplainsList (list_faults []) result }
{
    let mut rows = Vec::new(alloc);
    let header = FaultyRow {
        row: 1,
        fault: RowFault::Header,
    };
    match rows.push(header) {
        Ok(()) => ListFault::Faults(FaultyRows::new(rows)),
        Err(_) => ListFault::Memory,
    }
}

// Checks the scale points (SunSpec scale factors) of points that have no other fault, and creates
// the point list.
fn list_of_points(alloc: Global, points: Vec<ListedPoint>) -> Result<PointList, ListFault>
    requires few { length points.items ≤ 513 }
    requires lawful { faulty_points points.items ≡ [] → IsPointList points.items }
    ensures list { IfOk result
        (λ list. (list ≡ points.items) × (faulty_points points.items ≡ [])) }
    ensures faults { IfErr result (ExplainsList (faulty_points points.items)) }
{
    let faults = scale_faults(alloc, &points)?;
    if !faults.is_empty() {
        return Err(ListFault::Faults(FaultyRows::new(faults)));
    }
    Ok(PointList::of_lawful(points))
}

fn list_below(alloc: Global, rows: &[ByteRecord]) -> Result<PointList, ListFault>
    requires { length rows.now ≤ 513 }
    ensures list { IfOk result (SpellsBelow (map fields_of rows.now)) }
    ensures faults { IfErr result (ExplainsList (faults_below (map fields_of rows.now))) }
{
    let faults = faulty_rows(alloc, rows)?;
    if !faults.is_empty() {
        return Err(ListFault::Faults(FaultyRows::new(faults)));
    }
    let points = points_of_rows(alloc, rows)?;
    list_of_points(alloc, points)
}

/// Parses a point list from comma-separated values: a header
/// `name,function,area,address,type,scale`, and a row for each point. A byte order mark and blank
/// lines are skipped. At most 513 rows below the header are read.
///
/// - The function code of a point is 3 or 4, its area number (no read has points of two areas) 0 to
///   255, and its address 0 to 65535.
/// - The scale of a point is empty, -10 to 10, or the name of a sunssf point in the list.
///
/// An error of the CSV reader is reported as `Memory` (not enough memory). The complete CSV text is
/// in memory, so the reader can fail for no other reason.
pub fn read_list(alloc: Global, text: &[u8]) -> Result<PointList, ListFault>
    ensures list { IfOk result (λ list. SpellsList text.now list) }
    ensures faults { IfErr result (ExplainsList (list_faults (rows_read text.now))) }
{
    let rows = first_rows(alloc, text)?;
    match rows.split_first() {
        Some((header, rows)) if is_header(header) => list_below(alloc, rows),
        _ => Err(no_header(alloc)),
    }
}
