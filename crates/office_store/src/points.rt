//! Conversions from the SunSpec points of a device's point list to rows of `points`.
ghost use Rattle.std.specs.Prelude.{◌≡◌, ◌++◌, ◌∷◌, [], IfOk, All};
ghost use Rattle.std.specs.Fmt.{signed_decimal};
ghost use Rattle.std.specs.String.{string_bytes};
ghost use Rattle.point_list.specs.RowTexts as written;
ghost use Rattle.store_tables.specs.Limits.{IsPlace};
ghost use Rattle.store_tables.specs.Devices.Rows.{IsSoundPoint};
ghost use Rattle.office_store.specs.Rows.{IsPlacedPoint, ArePlacedPoints, point_row};

use mb_wire::ReadFunction;
use point_list::{ListedPoint, PointName, PointScale, type_text};
use sqlite::Error;
use std::alloc::Global;
use std::str;
use store_tables::{GREATEST_PLACE, Point, PointRow, RowFault};
use sun_points::PointType;

/// Returns the text that the table `points` stores for a SunSpec point type. Returns an SQLite
/// error if memory runs out.
fn kind(alloc: Global, kind: PointType) -> Result<String, Error>
    ensures { IfOk result (λ text. string_bytes text ≡ written.type_text kind) }
{
    Ok(type_text(alloc, kind)?)
}

/// Returns the decimal text of a scale exponent, as the table `points` stores it.
fn exponent(alloc: Global, exponent: i8) -> Result<String, Error>
    ensures { IfOk result (λ text. string_bytes text ≡ signed_decimal exponent) }
{
    Ok(format!(in alloc; "{exponent}")?)
}

/// Copies a text. Returns an SQLite error if memory runs out.
fn copy(alloc: Global, text: &str) -> Result<String, Error>
    ensures { IfOk result (λ copy. string_bytes copy ≡ text.now) }
{
    Ok(String::from_str(alloc, text)?)
}

/// Returns the text of a SunSpec point's name. Reports a name that is not UTF-8 as `Damaged`.
fn name(alloc: Global, name: &PointName) -> Result<String, RowFault>
    ensures { IfOk result (λ text. string_bytes text ≡ name.now) }
{
    match str::from_utf8(name.as_bytes()) {
        Ok(text) => Ok(copy(alloc, text)?),
        Err(_) => Err(RowFault::Damaged),
    }
}

/// Returns the text of a SunSpec point's scale: empty, an exponent, or the name of another point.
fn scale(alloc: Global, scale: &PointScale) -> Result<String, RowFault>
    ensures { IfOk result (λ text. string_bytes text ≡ written.scale_text scale.now) }
{
    match scale {
        PointScale::Unscaled => Ok(String::new(alloc)),
        PointScale::Fixed(fixed) => Ok(exponent(alloc, fixed.exponent())?),
        PointScale::Named(point) => name(alloc, point),
    }
}

fn numbers(place: u64, function: ReadFunction, area: u8, address: u16) -> PointRow
    ensures row { result ≡ point_row place function area address }
    ensures sound { IsPlace place → IsSoundPoint result }
{
    PointRow {
        place,
        function,
        area,
        address,
    }
}

/// Converts a SunSpec point at index `place` of its point list to the columns of `points`.
fn point_at(alloc: Global, point: &ListedPoint, place: u64) -> Result<Point, RowFault>
    ensures listed { IfOk result (IsPlacedPoint place point.now) }
    ensures sound { IsPlace place → IfOk result (λ p. IsSoundPoint p.row) }
{
    let name = name(alloc, &point.name)?;
    let kind = kind(alloc, point.kind)?;
    let scale = scale(alloc, &point.scale)?;
    Ok(Point {
        name,
        kind,
        scale,
        row: numbers(place, point.function, point.area, point.address),
    })
}

fn push(points: &mut Vec<Point>, point: Point) -> Result<(), Error>
    ensures { IfOk result (λ _. points.new.items ≡ points.old.items ++ point ∷ []) }
{
    points.push(point)?;
    Ok(())
}

/// Converts the SunSpec points of a device's point list to rows of `points`, with indices from 1.
/// Reports a name that is not UTF-8 as `Damaged`.
pub fn points_at(alloc: Global, points: &[ListedPoint]) -> Result<Vec<Point>, RowFault>
    ensures listed { IfOk result (ArePlacedPoints points.now) }
    ensures sound { IfOk result (λ ps. All (λ p. IsSoundPoint p.row) ps.items) }
{
    let mut rows = Vec::new(alloc);
    for (index, point) in points.iter().enumerate() {
        if GREATEST_PLACE <= index as u64 {
            return Err(RowFault::Damaged);
        }
        push(&mut rows, point_at(alloc, point, index as u64 + 1)?)?;
    }
    Ok(rows)
}
