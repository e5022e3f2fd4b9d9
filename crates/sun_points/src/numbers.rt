//! Parses numbers from decimal digits.

ghost use Rattle.std.specs.Prelude.{◌≡◌, ◌≤◌, IsTrue, length};
ghost use Rattle.std.specs.Char.{is_ascii_digit};
ghost use Rattle.std.specs.List.{list_all};
ghost use Rattle.sun_points.specs.Numbers.Digits.{digits_value, number_of_digits};

/// Parses a text of one to `most` decimal digits, or returns `None` for any other text. `most` is
/// limited to 19, because 20 digits may exceed 64 bits.
pub fn number_of_digits(most: usize, word: &[u8]) -> Option<u64>
    requires { most ≤ 19 }
    ensures { result ≡ number_of_digits most word.now }
{
    if word.is_empty() || word.len() > most || !are_digits(word) {
        return None;
    }
    Some(digits_value(word))
}

fn are_digits(word: &[u8]) -> bool
    ensures { result ≡ list_all is_ascii_digit word.now }
{
    word.iter().all(|byte| byte.is_ascii_digit())
}

fn digits_value(digits: &[u8]) -> u64
    requires few { length digits.now ≤ 19 }
    requires digits { IsTrue (list_all is_ascii_digit digits.now) }
    ensures { result ≡ digits_value digits.now }
{
    let mut value = 0;
    for digit in digits {
        value = 10 * value + u64::from(*digit - b'0');
    }
    value
}
