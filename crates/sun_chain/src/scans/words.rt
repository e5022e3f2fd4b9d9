//! Converts bytes to 16-bit words.
ghost use Rattle.std.specs.Prelude.{◌≡◌, IfOk};
ghost use Rattle.mb_wire.specs.Bytes.{words_of};

use std::alloc::{AllocError, Global};

/// Converts bytes to 16-bit words, high byte first, as Modbus sends registers. An odd last byte is
/// dropped.
pub fn words_of_bytes(alloc: Global, bytes: &[u8]) -> Result<Vec<u16>, AllocError>
    ensures { IfOk result (λ words. words.items ≡ words_of bytes.now) }
{
    let mut words = Vec::new(alloc);
    let mut left = bytes;
    while let [high, low, rest @ ..] = left {
        words.push(u16::from(*high) * 256 + u16::from(*low))?;
        left = rest;
    }
    Ok(words)
}
