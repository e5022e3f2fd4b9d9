//! Finds the first fault of a row of a point list.
ghost use Rattle.std.specs.Prelude.{◌≡◌, map};
ghost use Rattle.std.specs.List.{list_any};
ghost use Rattle.std.specs.Option.{option_map};
ghost use Rattle.csv.specs.Records.{fields_of};
ghost use Rattle.point_list.specs.Faults.{conditions_where, seen_row, first_of, has_name};
ghost use Rattle.point_list.specs.Faults.{is_bad_scale, is_fixed_scale, least_fault, reaches_past};
ghost use Rattle.point_list.specs.Faults.{six_fields};

use crate::fault::RowFault;
use crate::fields::{fixed_scale, function, number_in, point_type};
use crate::lawful::{POINT_LIMIT, is_scaled_type};
use crate::name::is_point_name;
use csv::ByteRecord;
use mb_wire::ADDRESSES;
use sun_points::PointType;

/// The six fields of a row of a point list.
#[derive(Clone, Copy)]
pub struct RowFields<'a> {
    pub name: &'a [u8],
    pub function: &'a [u8],
    pub area: &'a [u8],
    pub address: &'a [u8],
    pub kind: &'a [u8],
    pub scale: &'a [u8],
}

impl<'a> RowFields<'a> {
    ghost use Rattle.std.specs.Option.{option_map};
    ghost use Rattle.point_list.specs.Faults.{six_fields};

    /// Returns the fields of a row by name, or `None` if the row does not have six fields.
    pub fn of_row(row: &'a ByteRecord) -> Option<RowFields<'a>>
        ensures { option_map seen_row result ≡ six_fields (fields_of row.now) }
    {
        if row.len() != 6 {
            return None;
        }
        Some(RowFields {
            name: row.get(0)?,
            function: row.get(1)?,
            area: row.get(2)?,
            address: row.get(3)?,
            kind: row.get(4)?,
            scale: row.get(5)?,
        })
    }
}

fn row_has_name(row: &ByteRecord, name: &[u8]) -> bool
    ensures { result ≡ has_name name.now (fields_of row.now) }
{
    match RowFields::of_row(row) {
        Some(fields) => fields.name == name,
        None => false,
    }
}

// Returns whether an earlier row of a point list has the name. Rows without six fields have no
// name.
fn is_taken(earlier: &[ByteRecord], name: &[u8]) -> bool
    ensures { result ≡ list_any (λ row. has_name name.now (fields_of row)) earlier.now }
{
    earlier.iter().any(|row| row_has_name(row, name))
}

// Returns whether a point of this type at this address extends past address 65535. Returns `false`
// for an invalid address or type, which has its own fault.
fn is_past_end(address: Option<u64>, kind: Option<PointType>) -> bool
    ensures { result ≡ reaches_past address kind }
{
    match (address, kind) {
        (Some(address), Some(kind)) => address > u64::from(ADDRESSES) - u64::from(kind.registers()),
        _ => false,
    }
}

fn is_fixed(scale: &[u8]) -> bool
    ensures { result ≡ is_fixed_scale scale.now }
{
    fixed_scale(scale).is_some()
}

fn is_bad(scale: &[u8], kind: Option<PointType>) -> bool
    ensures { result ≡ is_bad_scale scale.now kind }
{
    if scale.is_empty() {
        return false;
    }
    if !is_fixed(scale) && !is_point_name(scale) {
        return true;
    }
    match kind {
        Some(kind) => !is_scaled_type(kind),
        None => false,
    }
}

/// Returns the first fault of the row at index `place` below the header of a point list. The first
/// row below the header has index 0. Faults of the row's scale point (SunSpec scale factor) are not
/// checked.
pub fn least_row_fault(place: usize, earlier: &[ByteRecord], row: &ByteRecord) -> Option<RowFault>
    ensures { result ≡ least_fault place (map fields_of earlier.now) (fields_of row.now) }
{
    match RowFields::of_row(row) {
        Some(fields) => first_fault(place, is_taken(earlier, fields.name), fields),
        None => Some(RowFault::Csv),
    }
}

fn first_fault(place: usize, taken: bool, row: RowFields<'_>) -> Option<RowFault>
    ensures { result ≡ first_of (conditions_where taken place (seen_row row.entry)) }
{
    let kind = point_type(row.kind);
    let address = number_in(0, 65535, row.address);
    if !is_point_name(row.name) {
        Some(RowFault::Name)
    } else if taken {
        Some(RowFault::DoubleName)
    } else if function(row.function).is_none() {
        Some(RowFault::Function)
    } else if number_in(0, 255, row.area).is_none() {
        Some(RowFault::Area)
    } else if address.is_none() || is_past_end(address, kind) {
        Some(RowFault::Address)
    } else if kind.is_none() {
        Some(RowFault::Type)
    } else if is_bad(row.scale, kind) {
        Some(RowFault::Scale)
    } else if place >= POINT_LIMIT {
        Some(RowFault::TooMany)
    } else {
        None
    }
}
