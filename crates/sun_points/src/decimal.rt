//! Writes numbers in decimal, scaled by a power of ten.
ghost use Rattle.std.specs.Prelude.{◌≤◌, ◌+◌, ◌*◌, ◌/◌, ◌^◌, ◌++◌, ◌≡◌, codes};
ghost use Rattle.std.specs.Fmt.{decimal};
ghost use Rattle.arrayvec.specs.ArrayVec.{array_vec_len};
ghost use Rattle.sun_points.specs.Decimal.{low_digits, magnitude_text, scaled_text};

use crate::digits::fill_digits;
use crate::scale::Scale;
use crate::sink::Sink;
use crate::text::append;
use arrayvec::ArrayVec;
use std::io;

/// The text of a scaled number: at most a sign, twenty digits, a decimal point and ten digits.
pub(crate) type NumberText = ArrayVec<u8, 32>;

/// Writes `value * 10 ^ scale` exactly. A scale of 0 or more appends that number of zeros to a
/// nonzero value. A negative scale gives that number of decimal places.
pub fn write_scaled<S: Sink>(value: i64, scale: Scale, output: &mut S) -> io::Result<()>
    ensures { S.takes output.old (scaled_text value scale) result output.new }
{
    output.take_text(scaled(value, scale).as_slice())
}

fn scaled(value: i64, scale: Scale) -> NumberText
    ensures { result.items ≡ scaled_text value scale }
{
    let mut text = NumberText::new();
    if value < 0 {
        text.push(b'-');
    }
    append_magnitude(&mut text, value.unsigned_abs(), scale);
    text
}

/// Returns the text of `magnitude * 10 ^ scale`.
pub(crate) fn scaled_magnitude(magnitude: u64, scale: Scale) -> NumberText
    ensures { result.items ≡ magnitude_text magnitude scale }
{
    let mut text = NumberText::new();
    append_magnitude(&mut text, magnitude, scale);
    text
}

fn append_magnitude(text: &mut NumberText, magnitude: u64, scale: Scale)
    requires { array_vec_len text.old ≤ 1 }
    ensures { text.new.items ≡ text.old.items ++ magnitude_text magnitude scale }
{
    let exponent = scale.exponent();
    let places = exponent.unsigned_abs();
    if exponent < 0 {
        append_with_decimals(text, magnitude, places);
    } else {
        append_with_zeros(text, magnitude, places);
    }
}

fn append_with_zeros(text: &mut NumberText, magnitude: u64, zeros: u8)
    requires room { array_vec_len text.old ≤ 1 }
    requires few { zeros ≤ 10 }
    ensures { text.new.items ≡ text.old.items ++ decimal (magnitude * 10 ^ zeros) }
{
    append_decimal(text, magnitude);
    if magnitude > 0 {
        append(text, &[b'0'; 10][..usize::from(zeros)]);
    }
}

fn append_with_decimals(text: &mut NumberText, magnitude: u64, places: u8)
    requires room { array_vec_len text.old ≤ 1 }
    requires few { places ≤ 10 }
    ensures { text.new.items ≡ text.old.items ++ (decimal (magnitude / 10 ^ places)
        ++ codes "." ++ low_digits 10 places magnitude) }
{
    append_decimal(text, magnitude / 10u64.pow(u32::from(places)));
    text.push(b'.');
    let mut digits = [b'0'; 10];
    let decimals = &mut digits[..usize::from(places)];
    fill_digits(magnitude, 10, decimals);
    append(text, decimals);
}

// Appends the decimal digits of a number. A `u64` has at most twenty digits.
fn append_decimal(text: &mut NumberText, number: u64)
    requires { array_vec_len text.old ≤ 1 }
    ensures digits { text.new.items ≡ text.old.items ++ decimal number }
    ensures few { array_vec_len text.new ≤ array_vec_len text.old + 20 }
{
    let mut buffer = itoa::Buffer::new();
    append(text, buffer.format(number).as_bytes());
}
