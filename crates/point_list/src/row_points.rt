//! Creates the points of a point list from its CSV rows.
ghost use Rattle.std.specs.Prelude.{◌≡◌, IfOk, map};
ghost use Rattle.csv.specs.Records.{fields_of};
ghost use Rattle.point_list.specs.Faults.{seen_row};
ghost use Rattle.point_list.specs.Lists.{name_spelled, named_scale, point_of_row, point_spelled};
ghost use Rattle.point_list.specs.Lists.{points_of, scale_spelled, spelled_with};

use crate::fields::{fixed_scale, function, number_in, point_type};
use crate::name::PointName;
use crate::point::{ListedPoint, PointScale};
use crate::row::RowFields;
use csv::ByteRecord;
use std::alloc::{AllocError, Global};

fn name_of(alloc: Global, field: &[u8]) -> Result<Option<PointName>, AllocError>
    ensures { IfOk result (λ name. name ≡ name_spelled field.now) }
{
    let bytes = field.to_vec(alloc)?;
    Ok(PointName::new(bytes).ok())
}

fn named_scale(alloc: Global, field: &[u8]) -> Result<Option<PointScale>, AllocError>
    ensures { IfOk result (λ scale. scale ≡ named_scale field.now) }
{
    match name_of(alloc, field)? {
        Some(name) => Ok(Some(PointScale::Named(name))),
        None => Ok(None),
    }
}

fn scale_of(alloc: Global, field: &[u8]) -> Result<Option<PointScale>, AllocError>
    ensures { IfOk result (λ scale. scale ≡ scale_spelled field.now) }
{
    if field.is_empty() {
        return Ok(Some(PointScale::Unscaled));
    }
    match fixed_scale(field) {
        Some(scale) => Ok(Some(PointScale::Fixed(scale))),
        None => named_scale(alloc, field),
    }
}

// Returns the point with this name, this scale, and the other four fields of a row. The caller
// parses the name and the scale, because these two allocate memory.
fn point_with(
    name: Option<PointName>,
    scale: Option<PointScale>,
    row: RowFields<'_>,
) -> Option<ListedPoint>
    ensures { result ≡ spelled_with name scale (seen_row row.entry) }
{
    let name = name?;
    let function = function(row.function)?;
    let area = number_in(0, 255, row.area)? as u8;
    let address = number_in(0, 65535, row.address)? as u16;
    let kind = point_type(row.kind)?;
    let scale = scale?;
    Some(ListedPoint {
        name,
        function,
        area,
        address,
        kind,
        scale,
    })
}

fn point_of_fields(alloc: Global, row: RowFields<'_>) -> Result<Option<ListedPoint>, AllocError>
    ensures { IfOk result (λ point. point ≡ point_spelled (seen_row row.entry)) }
{
    let name = name_of(alloc, row.name)?;
    let scale = scale_of(alloc, row.scale)?;
    Ok(point_with(name, scale, row))
}

fn point_of_row(alloc: Global, row: &ByteRecord) -> Result<Option<ListedPoint>, AllocError>
    ensures { IfOk result (λ point. point ≡ point_of_row (fields_of row.now)) }
{
    match RowFields::of_row(row) {
        Some(fields) => point_of_fields(alloc, fields),
        None => Ok(None),
    }
}

/// Returns the points that the CSV rows of a point list encode. Rows with an invalid field are
/// skipped.
pub fn points_of_rows(alloc: Global, rows: &[ByteRecord]) -> Result<Vec<ListedPoint>, AllocError>
    ensures { IfOk result (λ points. points.items ≡ points_of (map fields_of rows.now)) }
{
    let mut points = Vec::new(alloc);
    for row in rows {
        if let Some(point) = point_of_row(alloc, row)? {
            points.push(point)?;
        }
    }
    Ok(points)
}
