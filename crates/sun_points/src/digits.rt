//! Digits of numbers in bases up to 16.
ghost use Rattle.std.specs.Prelude.{◌≡◌, ◌<◌, ◌≤◌, length, true, false};
ghost use Rattle.std.specs.Fmt.{digit_glyph};
ghost use Rattle.sun_points.specs.Decimal.{low_digits};

/// Returns the character of a digit below 16, in lower case.
pub(crate) fn lower_digit(value: u8) -> u8
    requires { value < 16 }
    ensures { result ≡ digit_glyph false value }
{
    if value < 10 {
        b'0' + value
    } else {
        b'a' + (value - 10)
    }
}

/// Returns the character of a digit below 16, in upper case.
pub(crate) fn upper_digit(value: u8) -> u8
    requires { value < 16 }
    ensures { result ≡ digit_glyph true value }
{
    if value < 10 {
        b'0' + value
    } else {
        b'A' + (value - 10)
    }
}

/// Fills the slice with the lowest digits of the number in this base, the most significant digit
/// first.
pub(crate) fn fill_digits(number: u64, base: u64, digits: &mut [u8])
    requires some { 0 < base }
    requires few { base ≤ 16 }
    ensures { digits.new ≡ low_digits base (length digits.old) number }
{
    let count = digits.len();
    let mut rest = number;
    for place in 0..count {
        digits[count - 1 - place] = lower_digit((rest % base) as u8);
        rest /= base;
    }
}
