//! Writes the value of a SunSpec point as text.
ghost use Rattle.std.specs.Prelude.{◌≡◌};
ghost use Rattle.sun_points.specs.Point.{seen};
ghost use Rattle.sun_points.specs.PointText.{bits_text, point_text};

use crate::decimal::{scaled_magnitude, write_scaled};
use crate::digits::fill_digits;
use crate::point::Point;
use crate::scale::Scale;
use crate::sink::Sink;
use std::io;

impl Point<'_> {
    /// Writes the value of a SunSpec point as text: `absent`, a number times the power of ten, `0x`
    /// with eight lower-case hex digits, or the characters of a text point.
    pub fn write<S: Sink>(&self, scale: Scale, output: &mut S) -> io::Result<()>
        ensures { S.takes output.old (point_text (seen self.now) scale) result output.new }
    {
        match self {
            Point::Absent => output.take_text(b"absent"),
            Point::Signed(value) => write_scaled(*value, scale, output),
            Point::Unsigned(value) => output.take_text(scaled_magnitude(*value, scale).as_slice()),
            Point::Bits(bits) => output.take_text(&hex_of(*bits)),
            Point::Text(text) => text.write(output),
        }
    }
}

fn hex_of(bits: u32) -> [u8; 10]
    ensures { result ≡ bits_text bits }
{
    let mut text = *b"0x00000000";
    fill_digits(u64::from(bits), 16, &mut text[2..]);
    text
}
