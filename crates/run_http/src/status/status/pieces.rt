//! Appends bytes, numbers and words to the text of a response.
ghost use Rattle.std.specs.Prelude.{◌≡◌, ◌++◌, OnOk, decimal};
ghost use Rattle.std.specs.Fmt.{signed_decimal};

use itoa::Buffer;
use std::alloc::AllocError;

/// Appends bytes to a text. If memory runs out, the text may have only a part of the bytes.
pub fn append_bytes(text: &mut Vec<u8>, bytes: &[u8]) -> Result<(), AllocError>
    ensures { OnOk result (text.new.items ≡ text.old.items ++ bytes.now) }
{
    text.extend_from_slice(bytes)
}

/// Appends to a text the bytes `before`, and then a number in decimal digits.
pub fn write_number(text: &mut Vec<u8>, before: &[u8], number: u64) -> Result<(), AllocError>
    ensures { OnOk result (text.new.items ≡ text.old.items ++ before.now ++ decimal number) }
{
    append_bytes(text, before)?;
    let mut buffer = Buffer::new();
    append_bytes(text, buffer.format(number).as_bytes())
}

/// Appends to a text the bytes `before`, and then a word.
pub fn write_word(text: &mut Vec<u8>, before: &[u8], word: &[u8]) -> Result<(), AllocError>
    ensures { OnOk result (text.new.items ≡ text.old.items ++ before.now ++ word.now) }
{
    append_bytes(text, before)?;
    append_bytes(text, word)
}

/// Appends to a text the bytes `before`, and then a scale exponent, which may be negative.
pub fn write_scale(text: &mut Vec<u8>, before: &[u8], sf: i16) -> Result<(), AllocError>
    ensures { OnOk result (text.new.items ≡ text.old.items ++ before.now ++ signed_decimal sf) }
{
    let mut buffer = Buffer::new();
    write_word(text, before, buffer.format(sf).as_bytes())
}
