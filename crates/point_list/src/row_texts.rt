//! Creates the rows of a point list and their CSV text.
ghost use Rattle.std.specs.Prelude.{◌≡◌, ◌≤◌, ◌∷◌, IfOk, OnOk, map};
ghost use Rattle.std.specs.List.{All};
ghost use Rattle.std.specs.Fmt.{decimal};
ghost use Rattle.std.specs.String.{string_bytes};
ghost use Rattle.csv.specs.Records.{fields_of};
ghost use Rattle.point_list.specs.RowTexts.{header_row, row_of, rows_text, scale_text, type_text};

use crate::point::{ListedPoint, PointScale};
use csv::{ByteRecord, WriterBuilder};
use std::alloc::{AllocError, Global};
use sun_points::PointType;

fn number_text(alloc: Global, number: u16) -> Result<String, AllocError>
    ensures { IfOk result (λ text. string_bytes text ≡ decimal number) }
{
    format!(in alloc; "{number}")
}

/// Returns the text of a point type in a point list, for example `acc32`, or `string8` for a text
/// of 8 registers.
pub fn type_text(alloc: Global, kind: PointType) -> Result<String, AllocError>
    ensures { IfOk result (λ text. string_bytes text ≡ type_text kind) }
{
    match kind {
        PointType::Int16 => format!(in alloc; "int16"),
        PointType::Uint16 => format!(in alloc; "uint16"),
        PointType::Enum16 => format!(in alloc; "enum16"),
        PointType::Int32 => format!(in alloc; "int32"),
        PointType::Uint32 => format!(in alloc; "uint32"),
        PointType::Bitfield32 => format!(in alloc; "bitfield32"),
        PointType::Acc32 => format!(in alloc; "acc32"),
        PointType::Sunssf => format!(in alloc; "sunssf"),
        PointType::Text(length) => {
            let registers = length.registers();
            format!(in alloc; "string{registers}")
        }
    }
}

fn scale_text(alloc: Global, scale: &PointScale) -> Result<Vec<u8>, AllocError>
    ensures { IfOk result (λ text. text.items ≡ scale_text scale.now) }
{
    match scale {
        PointScale::Unscaled => Ok(Vec::new(alloc)),
        PointScale::Fixed(scale) => {
            let exponent = scale.exponent();
            let text = format!(in alloc; "{exponent}")?;
            Ok(text.into_bytes())
        }
        PointScale::Named(name) => name.as_bytes().to_vec(alloc),
    }
}

fn point_row(alloc: Global, point: &ListedPoint) -> Result<ByteRecord, AllocError>
    ensures fields { IfOk result (λ row. fields_of row ≡ row_of point.now) }
    ensures area { OnOk result (point.now.area ≤ 255) }
{
    let function = number_text(alloc, u16::from(point.function.code()))?;
    let area = number_text(alloc, u16::from(point.area))?;
    let address = number_text(alloc, point.address)?;
    let kind = type_text(alloc, point.kind)?;
    let scale = scale_text(alloc, &point.scale)?;
    let fields = [
        point.name.as_bytes(),
        function.as_bytes(),
        area.as_bytes(),
        address.as_bytes(),
        kind.as_bytes(),
        scale.as_slice(),
    ];
    ByteRecord::from_fields(alloc, &fields)
}

fn header(alloc: Global) -> Result<ByteRecord, AllocError>
    ensures { IfOk result (λ row. fields_of row ≡ header_row) }
{
    let fields = [
        b"name".as_slice(),
        b"function".as_slice(),
        b"area".as_slice(),
        b"address".as_slice(),
        b"type".as_slice(),
        b"scale".as_slice(),
    ];
    ByteRecord::from_fields(alloc, &fields)
}

/// Returns the header of a point list, followed by a row for each point.
pub fn point_rows(alloc: Global, points: &[ListedPoint]) -> Result<Vec<ByteRecord>, AllocError>
    ensures rows { IfOk result
        (λ rows. map fields_of rows.items ≡ header_row ∷ map row_of points.now) }
    ensures areas { OnOk result (All (λ point. point.area ≤ 255) points.now) }
{
    let mut rows = Vec::new(alloc);
    rows.push(header(alloc)?)?;
    for point in points {
        rows.push(point_row(alloc, point)?)?;
    }
    Ok(rows)
}

/// Returns the comma-separated text of a list of rows.
pub fn text_of_rows(alloc: Global, rows: &[ByteRecord]) -> Result<Vec<u8>, AllocError>
    ensures { IfOk result (λ text. text.items ≡ rows_text (map fields_of rows.now)) }
{
    let mut writer = WriterBuilder::new().from_writer(Vec::new(alloc));
    for row in rows {
        if writer.write_byte_record(row).is_err() {
            return Err(AllocError);
        }
    }
    match writer.into_inner() {
        Ok(text) => Ok(text),
        Err(_) => Err(AllocError),
    }
}
