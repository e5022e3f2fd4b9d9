//! The numbers, bytes, names and scale factors that the words of a script line spell.
ghost use Rattle.std.specs.Prelude.{◌≡◌, ◌≤◌, IfOk, IfSome, IsErr, IsSome};
ghost use Rattle.std.specs.List.{list_all};
ghost use Rattle.hex.specs.Hex.{is_hex_digit};
ghost use Rattle.script_text.specs.LineWords.Values.{SpellsBytes, bytes_of, is_paired, number_of};

use std::alloc::{AllocError, Global};
use sun_points::number_of_digits;

/// The greatest number that a word of a script may spell: 2^63 - 1.
const GREATEST: u64 = 9_223_372_036_854_775_807;

/// The maximum number of decimal digits of a number in a script line.
const MOST_DIGITS: usize = 19;

/// The maximum number of hexadecimal digits in a word of a script line.
const MOST_HEX_DIGITS: usize = 131_072;

/// Parses a number of one to nineteen digits, up to 2^63 - 1.
pub fn number(word: &[u8]) -> Option<u64>
    ensures value { result ≡ number_of word.now }
    ensures most { IfSome result (λ value. value ≤ 9223372036854775807) }
{
    let value = number_of_digits(MOST_DIGITS, word)?;
    if value <= GREATEST { Some(value) } else { None }
}

/// Parses a word of hexadecimal digits, in upper or lower case, that spells 1 to 65,536 bytes.
#[tactic(auto, using(crate::proofs::LineWordsLemmas::HexWords::no_bytes, crate::proofs::LineWordsLemmas::HexWords::hex_spells))]
pub fn hex_bytes(alloc: Global, word: &[u8]) -> Result<Option<Vec<u8>>, AllocError>
    ensures value { IfOk result (SpellsBytes word.now) }
    ensures memory { IsErr result → IsSome (bytes_of word.now) }
{
    if word.is_empty() || word.len() > MOST_HEX_DIGITS {
        return Ok(None);
    }
    if !is_hex(word) {
        return Ok(None);
    }
    match hex::decode(alloc, word) {
        Ok(bytes) => Ok(Some(bytes)),
        Err(_) => Err(AllocError),
    }
}

// Returns whether a word consists of pairs of hexadecimal digits.
fn is_hex(word: &[u8]) -> bool
    ensures { result ≡ is_paired word.now }
{
    word.len() % 2 == 0 && are_hex_digits(word)
}

fn are_hex_digits(word: &[u8]) -> bool
    ensures { result ≡ list_all is_hex_digit word.now }
{
    word.iter().all(|&byte| is_hex_digit(byte))
}

fn is_hex_digit(byte: u8) -> bool
    ensures { result ≡ is_hex_digit byte }
{
    matches!(byte, b'A'..=b'F' | b'a'..=b'f' | b'0'..=b'9')
}
