//! Writes text, names and hex digits, the parts of a printed line.
ghost use Rattle.std.specs.Prelude.{◌≡◌, ◌++◌, ◌*◌, ◌≤◌, length};
ghost use Rattle.hex.specs.Hex.{encode_lower};
ghost use Rattle.sun_points.specs.Writing.{GotText};

use std::io::{self, Write};
use sun_points::Sink;

/// The maximum number of bytes that one write prints in hex.
const PIECE: usize = 32;

/// The maximum number of hex digits that one write to the output prints, two for each byte.
const DIGITS: usize = 2 * PIECE;

/// Writes the complete text. If the write fails, the writer has received only a beginning of the
/// text.
pub(crate) fn write_text<W: Write>(text: &[u8], output: &mut W) -> io::Result<()>
    ensures { GotText result text.now (W.contents output.old) (W.contents output.new) }
{
    output.take_text(text)
}

fn write_both<W: Write>(first: &[u8], second: &[u8], output: &mut W) -> io::Result<()>
    ensures { GotText result (first.now ++ second.now)
        (W.contents output.old) (W.contents output.new) }
{
    write_text(first, output)?;
    write_text(second, output)
}

/// Writes a line in three parts to the writer: a keyword, a name, and the text after the name.
pub(crate) fn write_named<W: Write>(
    word: &[u8],
    name: &[u8],
    rest: &[u8],
    output: &mut W,
) -> io::Result<()>
    ensures { GotText result (word.now ++ name.now ++ rest.now)
        (W.contents output.old) (W.contents output.new) }
{
    write_text(word, output)?;
    write_both(name, rest, output)
}

/// Writes bytes in lower-case hex to the output, at most 32 bytes (`PIECE`) in one write.
pub(crate) fn write_hex<W: Write>(bytes: &[u8], output: &mut W) -> io::Result<()>
    ensures { GotText result (encode_lower bytes.now)
        (W.contents output.old) (W.contents output.new) }
{
    let mut rest = bytes;
    while !rest.is_empty() {
        let (piece, after) = rest.split_at(rest.len().min(PIECE));
        write_piece(piece, output)?;
        rest = after;
    }
    Ok(())
}

fn write_piece<W: Write>(bytes: &[u8], output: &mut W) -> io::Result<()>
    requires { length bytes.now ≤ PIECE }
    ensures { GotText result (encode_lower bytes.now)
        (W.contents output.old) (W.contents output.new) }
{
    let mut digits = [0; DIGITS];
    let text = &mut digits[..2 * bytes.len()];
    write_digits(bytes, text);
    write_text(text, output)
}

/// Encodes bytes in lower-case hex into `text`, which has two digits for each byte.
fn write_digits(bytes: &[u8], text: &mut [u8])
    requires { length text.old ≡ 2 * length bytes.now }
    ensures { text.new ≡ encode_lower bytes.now }
{
    // Encoding fails only if `text` has another length than two digits a byte, which the contract
    // excludes.
    let _ = hex::encode_to_slice(bytes, text);
}
