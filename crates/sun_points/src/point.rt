//! Decodes the registers of a SunSpec point by its type.
ghost use Rattle.std.specs.Prelude.{◌≡◌, ◌≤◌, ◌==◌, nat_le, if◌then◌else◌, length};
ghost use Rattle.std.specs.Int.{w16, w32, cast_signed};
ghost use Rattle.std.specs.List.{list_all};
ghost use Rattle.sun_points.specs.PointType.{registers_of};
ghost use Rattle.sun_points.specs.Point.{Absent, Signed, Unsigned, Bits, Text as Words, long, seen, value_of};

use crate::point_type::PointType;
use crate::text::Text;

/// The value of a SunSpec point. A text borrows the registers.
#[derive(Clone, Copy, PartialEq, Eq)]
pub enum Point<'a> {
    /// The registers have the value that means "not implemented" for the point's type.
    Absent,
    Signed(i64),
    Unsigned(u64),
    Bits(u32),
    Text(Text<'a>),
}

/// Decodes a point of type `ty` from its registers.
pub fn read_point(ty: PointType, words: &[u16]) -> Point<'_>
    requires { length words.now ≡ registers_of ty }
    ensures { seen result ≡ value_of ty words.now }
{
    match ty {
        PointType::Int16 | PointType::Sunssf => read_signed_word(words[0]),
        PointType::Uint16 | PointType::Enum16 => read_unsigned_word(words[0]),
        PointType::Int32 => read_signed_long(long_in(words)),
        PointType::Uint32 => read_unsigned_long(long_in(words)),
        PointType::Bitfield32 => read_bits(long_in(words)),
        PointType::Acc32 => read_counter(long_in(words)),
        PointType::Text(_) => read_text(words),
    }
}

// Returns the 32-bit number in the first two registers, high word first.
fn long_in(words: &[u16]) -> u32
    requires { 2 ≤ length words.now }
    ensures { result ≡ long words.now }
{
    (u32::from(words[0]) << 16) | u32::from(words[1])
}

fn read_signed_word(word: u16) -> Point<'static>
    ensures { seen result ≡ (if word == 0x8000 then Absent else Signed (cast_signed w16 word)) }
{
    match word {
        0x8000 => Point::Absent,
        _ => Point::Signed(i64::from(word.cast_signed())),
    }
}

fn read_unsigned_word(word: u16) -> Point<'static>
    ensures { seen result ≡ (if word == 0xFFFF then Absent else Unsigned word) }
{
    match word {
        0xFFFF => Point::Absent,
        _ => Point::Unsigned(u64::from(word)),
    }
}

fn read_signed_long(long: u32) -> Point<'static>
    ensures { seen result ≡ (if long == 0x80000000 then Absent else Signed (cast_signed w32 long)) }
{
    match long {
        0x8000_0000 => Point::Absent,
        _ => Point::Signed(i64::from(long.cast_signed())),
    }
}

fn read_unsigned_long(long: u32) -> Point<'static>
    ensures { seen result ≡ (if long == 0xFFFFFFFF then Absent else Unsigned long) }
{
    match long {
        0xFFFF_FFFF => Point::Absent,
        _ => Point::Unsigned(u64::from(long)),
    }
}

fn read_bits(long: u32) -> Point<'static>
    ensures { seen result ≡ (if nat_le 0x80000000 long then Absent else Bits long) }
{
    match long {
        0x8000_0000.. => Point::Absent,
        _ => Point::Bits(long),
    }
}

fn read_counter(long: u32) -> Point<'static>
    ensures { seen result ≡ (if long == 0 then Absent else Unsigned long) }
{
    match long {
        0 => Point::Absent,
        _ => Point::Unsigned(u64::from(long)),
    }
}

fn read_text(words: &[u16]) -> Point<'_>
    ensures { seen result ≡ (if list_all (λ w. w == 0) words.now then Absent else Words words.now) }
{
    if is_zero(words) {
        Point::Absent
    } else {
        Point::Text(Text { words })
    }
}

fn is_zero(words: &[u16]) -> bool
    ensures { result ≡ list_all (λ w. w == 0) words.now }
{
    words.iter().all(|word| *word == 0)
}
