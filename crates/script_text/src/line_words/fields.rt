//! Parses the next word of a script line as a name, a number, a scale factor, a counter range or a
//! timestamp.
ghost use Rattle.std.specs.Prelude.{◌≡◌, option_map};
ghost use Rattle.script_text.specs.LineWords.Fields.{AnyName, Number, Signed, Scale, Range, Moment, first_value, end_of_words};
ghost use Rattle.script_text.specs.LineWords.Values.{name_of, scale_of, signed_of};

use crate::line_words::values::number;
use crate::line_words::words::Words;
use energy_core::MAX_RANGE;
use office_events::{GivenScale, Name};

// Parses a non-empty word as a name. The inner value is `None` if the word is not a valid name (1
// to 16 ASCII letters, digits, `_` or `-`, with a letter first).
fn any_name(word: &[u8]) -> Option<Option<Name>>
    ensures { result ≡ name_of word.now }
{
    match word {
        [] => None,
        _ => Some(Name::new(word)),
    }
}

// Parses an integer: digits, with or without a leading `-`.
fn signed_number(word: &[u8]) -> Option<i64>
    ensures { result ≡ signed_of word.now }
{
    match word {
        [b'-', digits @ ..] => {
            let magnitude = number(digits)?;
            Some(-(magnitude as i64))
        }
        _ => {
            let magnitude = number(word)?;
            Some(magnitude as i64)
        }
    }
}

// Parses a scale factor: a fixed power of ten, or `@` and the address of the Modbus register with
// the scale factor.
fn given_scale(word: &[u8]) -> Option<GivenScale>
    ensures { result ≡ scale_of word.now }
{
    match word {
        [b'@', digits @ ..] => Some(GivenScale::Register(number(digits)?)),
        _ => Some(GivenScale::Fixed(signed_number(word)?)),
    }
}

/// Parses the next word of a script line as a name. The inner value is `None` if the word is not a
/// valid name (1 to 16 ASCII letters, digits, `_` or `-`, with a letter first).
pub fn next_name(words: &mut Words<'_>) -> Option<Option<Name>>
    ensures { option_map (λ name. (name, words.new)) result ≡ first_value AnyName words.old }
{
    any_name(words.next_word()?)
}

/// Parses the next word of a script line as a number, at most 2^63 - 1.
pub fn next_number(words: &mut Words<'_>) -> Option<u64>
    ensures { option_map (λ number. (number, words.new)) result ≡ first_value Number words.old }
{
    number(words.next_word()?)
}

/// Parses the next word of a script line as an integer: digits, with or without a leading `-`.
pub fn next_signed(words: &mut Words<'_>) -> Option<i64>
    ensures { option_map (λ number. (number, words.new)) result ≡ first_value Signed words.old }
{
    signed_number(words.next_word()?)
}

/// Parses the next word of a script line as a scale factor: a fixed power of ten, or `@` and the
/// address of the Modbus register with the scale factor.
pub fn next_scale(words: &mut Words<'_>) -> Option<GivenScale>
    ensures { option_map (λ scale. (scale, words.new)) result ≡ first_value Scale words.old }
{
    given_scale(words.next_word()?)
}

/// Parses the next word of a script line as the range of a counter. A missing word means the range
/// of an `acc32` counter.
pub fn next_range(words: &mut Words<'_>) -> Option<u64>
    ensures { option_map (λ range. (range, words.new)) result ≡ first_value Range words.old }
{
    match words.next_word() {
        Some(word) => number(word),
        None => Some(MAX_RANGE),
    }
}

/// Parses the next word of a script line as a timestamp. A missing word means no timestamp.
pub fn next_moment(words: &mut Words<'_>) -> Option<Option<u64>>
    ensures { option_map (λ moment. (moment, words.new)) result ≡ first_value Moment words.old }
{
    match words.next_word() {
        Some(word) => Some(Some(number(word)?)),
        None => Some(None),
    }
}

/// Returns `Some` if no word of a script line is left, otherwise `None`.
pub fn end_of_words(words: &mut Words<'_>) -> Option<()>
    ensures { result ≡ end_of_words words.old }
{
    match words.next_word() {
        Some(_) => None,
        None => Some(()),
    }
}
