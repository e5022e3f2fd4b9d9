//! Parses numbers in option values.
ghost use Rattle.std.specs.Prelude.{◌≡◌, ◌≤◌, IfSome};
ghost use Rattle.command_words.specs.Values.Numbers.{number_up_to};

use sun_points::number_of_digits;

/// The maximum number of digits of a decimal number in the arguments of a command.
pub const MOST_DIGITS: usize = 10;

/// Parses a number from 1 to `most`, of one to ten digits.
pub fn number_up_to(most: u32, word: &str) -> Option<u32>
    ensures value { result ≡ number_up_to most word.now }
    ensures within { IfSome result (λ number. number ≤ most) }
{
    let value = number_of_digits(MOST_DIGITS, word.as_bytes())?;
    if 1 <= value && value <= u64::from(most) {
        Some(value as u32)
    } else {
        None
    }
}
