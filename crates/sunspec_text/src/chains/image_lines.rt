//! Reads an image of Modbus registers from lines `ADDRESS HEX`, where HEX are the 16-bit words from
//! ADDRESS on.
ghost use Rattle.std.specs.Prelude.{◌≡◌, IfOk, IfErr, OnOk, Some, option_map};
ghost use Rattle.sun_chain.specs.Image.{word_in};
ghost use Rattle.sunspec_text.specs.Chains.ImageLines.{SpellsWords, address_of, write_of, words_after};
ghost use Rattle.command_io.specs.Lines.{seen_line};
ghost use Rattle.sunspec_text.specs.Chains.Seen.{ExplainsLine, ExplainsText, ReportsImage, seen_put};

use command_io::{InputLine, InputLines};
use script_text::{Words, hex_bytes, number};
use std::alloc::{AllocError, Global};
use sun_chain::scans::words_of_bytes;
use sun_chain::{Image, ImageFault};

/// The reason why lines `ADDRESS HEX` give no image of Modbus registers.
#[derive(Clone, Copy)]
pub(crate) enum LoadFault {
    /// The input line with this number is malformed, or its registers extend past address 65,535.
    BadLine(u64),
    Memory,
}

/// The 16-bit words of some Modbus registers, and the address of the first register.
#[derive(Drop)]
pub(crate) struct Put {
    address: u16,
    words: Vec<u16>,
}

/// Reads lines `ADDRESS HEX` into an image of Modbus registers.
pub(crate) fn load(alloc: Global, text: &[u8]) -> Result<Image, LoadFault>
    ensures image { IfOk result (ReportsImage text.now) }
    ensures fault { IfErr result (ExplainsText text.now) }
{
    let mut image = Image::new(alloc);
    let mut lines = InputLines::new(text);
    while let Some(line) = lines.next_line() {
        write_line(alloc, &mut image, line)?;
    }
    Ok(image)
}

// Parses a line `ADDRESS HEX`, and adds its Modbus registers to the image.
fn write_line(alloc: Global, image: &mut Image, line: InputLine<'_>) -> Result<(), LoadFault>
    ensures put { OnOk result
        (words_after (word_in image.old) line.entry.text.now ≡ Some (word_in image.new)) }
    ensures bad { IfErr result
        (λ fault. ExplainsLine fault (word_in image.old) (seen_line line.entry)) }
{
    let Ok(said) = read_put(alloc, line.text) else {
        return Err(LoadFault::Memory);
    };
    let Some(put) = said else {
        return Err(LoadFault::BadLine(line.number));
    };
    match image.put(put.address, &put.words) {
        Ok(()) => Ok(()),
        Err(ImageFault::PastEnd) => Err(LoadFault::BadLine(line.number)),
        Err(ImageFault::Memory) => Err(LoadFault::Memory),
    }
}

// Parses a line `ADDRESS HEX`. Returns `None` if the line is malformed.
fn read_put(alloc: Global, line: &[u8]) -> Result<Option<Put>, AllocError>
    ensures { IfOk result (λ said. option_map seen_put said ≡ write_of line.now) }
{
    let mut words = Words::new(line);
    let Some(first) = words.next_word() else {
        return Ok(None);
    };
    let second = words.next_word();
    if words.next_word().is_some() {
        return Ok(None);
    }
    let Some(address) = address(first) else {
        return Ok(None);
    };
    let words = match second {
        None => Some(Vec::new(alloc)),
        Some(hex) => words_in_hex(alloc, hex)?,
    };
    Ok(words.map(|words| Put { address, words }))
}

// Parses a Modbus address, 0 to 65,535.
fn address(word: &[u8]) -> Option<u16>
    ensures { result ≡ address_of word.now }
{
    match number(word) {
        Some(value) if value <= 65535 => Some(value as u16),
        _ => None,
    }
}

fn words_in_hex(alloc: Global, hex: &[u8]) -> Result<Option<Vec<u16>>, AllocError>
    ensures { IfOk result (SpellsWords hex.now) }
{
    match hex_bytes(alloc, hex)? {
        Some(bytes) if bytes.len() % 2 == 0 => Ok(Some(words_of_bytes(alloc, &bytes)?)),
        _ => Ok(None),
    }
}
