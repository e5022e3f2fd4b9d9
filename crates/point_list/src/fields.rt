//! Parses the fields of a row of a point list.
ghost use Rattle.std.specs.Prelude.{◌≡◌, ◌≤◌, length, pos};
ghost use Rattle.sun_points.specs.Scale.{scale_of};
ghost use Rattle.point_list.specs.Fields.{fixed_scale_of, minus, number_of, number_within};
ghost use Rattle.point_list.specs.Fields.{function_of, text_type_of, type_of};

use mb_wire::{MAX_READ_REGISTERS, ReadFunction};
use sun_points::{PointType, Scale, TextLength, number_of_digits};

/// The maximum number of digits of a whole number in a point list's field.
const MOST_DIGITS: usize = 10;

fn number(field: &[u8]) -> Option<u64>
    ensures { result ≡ number_of field.now }
{
    number_of_digits(MOST_DIGITS, field)
}

/// Parses a whole number between `low` and `high`, inclusive.
pub fn number_in(low: u64, high: u64, field: &[u8]) -> Option<u64>
    ensures { result ≡ number_within low high field.now }
{
    match number(field) {
        Some(value) if low <= value && value <= high => Some(value),
        _ => None,
    }
}

/// Parses a Modbus function code, 3 or 4.
pub fn function(field: &[u8]) -> Option<ReadFunction>
    ensures { result ≡ function_of field.now }
{
    match number(field) {
        Some(3) => Some(ReadFunction::HoldingRegisters),
        Some(4) => Some(ReadFunction::InputRegisters),
        _ => None,
    }
}

// Parses the type of a text point, `string1` to `string125`, or returns `None` for any other field.
fn text_type(field: &[u8]) -> Option<PointType>
    ensures { result ≡ text_type_of field.now }
{
    if !field.starts_with(b"string") {
        return None;
    }
    let registers = number_in(1, u64::from(MAX_READ_REGISTERS), &field[6..])?;
    let length = TextLength::new(registers as u16)?;
    Some(PointType::Text(length))
}

/// Parses the type of a point, for example `acc32`, or `string8` for a text of 8 registers.
pub fn point_type(field: &[u8]) -> Option<PointType>
    ensures { result ≡ type_of field.now }
{
    if field == b"int16".as_slice() {
        Some(PointType::Int16)
    } else if field == b"uint16".as_slice() {
        Some(PointType::Uint16)
    } else if field == b"enum16".as_slice() {
        Some(PointType::Enum16)
    } else if field == b"int32".as_slice() {
        Some(PointType::Int32)
    } else if field == b"uint32".as_slice() {
        Some(PointType::Uint32)
    } else if field == b"bitfield32".as_slice() {
        Some(PointType::Bitfield32)
    } else if field == b"acc32".as_slice() {
        Some(PointType::Acc32)
    } else if field == b"sunssf".as_slice() {
        Some(PointType::Sunssf)
    } else {
        text_type(field)
    }
}

// Returns the register value of the negative scale `-number`, as 16-bit two's complement.
fn scale_word_below(number: u16) -> u16
    requires { number ≤ 10 }
    ensures { scale_of result ≡ Some (minus number) }
{
    match number {
        0 => 0,
        _ => 65535 - (number - 1),
    }
}

fn scale_from_zero(number: u16) -> Option<Scale>
    requires { number ≤ 10 }
    ensures { result ≡ Some (pos number) }
{
    Scale::new(number)
}

fn scale_to_zero(number: u16) -> Option<Scale>
    requires { number ≤ 10 }
    ensures { result ≡ Some (minus number) }
{
    Scale::new(scale_word_below(number))
}

/// Parses a fixed scale, -10 to 10. The sign `-` is allowed, and `+` is not.
pub fn fixed_scale(field: &[u8]) -> Option<Scale>
    ensures { result ≡ fixed_scale_of field.now }
{
    match field.split_first() {
        Some((b'-', rest)) => scale_to_zero(number_in(0, 10, rest)? as u16),
        Some(_) => scale_from_zero(number_in(0, 10, field)? as u16),
        None => None,
    }
}
