//! Parses decimal numbers in the values of HTTP headers.
ghost use Rattle.std.specs.Prelude.{◌≡◌};
ghost use Rattle.office_http.specs.Messages.Values.{digits_in, number_in};

use sun_points::number_of_digits;

/// The most decimal digits of a number in a header.
pub const MOST_DIGITS: usize = 19;

/// Parses one to nineteen decimal digits as a number.
pub fn digits(word: &[u8]) -> Option<u64>
    ensures { result ≡ digits_in word.now }
{
    number_of_digits(MOST_DIGITS, word)
}

/// Parses one to nineteen decimal digits as a number of at most 2^63 - 1.
pub fn number(word: &[u8]) -> Option<u64>
    ensures { result ≡ number_in word.now }
{
    let value = digits(word)?;
    if value <= 9_223_372_036_854_775_807 {
        Some(value)
    } else {
        None
    }
}
