//! Decodes the registers of a meter's counter and of its scale factor.
ghost use Rattle.std.specs.Prelude.{◌≡◌};
ghost use Rattle.sun_points.specs.Counters.{acc32_value, scale_value};

/// Returns the count in the two registers of an acc32, high word first. A count of 0 is valid, in
/// contrast to `read_point`, which returns `Absent` for an acc32 of 0.
pub fn acc32(high: u16, low: u16) -> u32
    ensures { result ≡ acc32_value high low }
{
    u32::from(high) * 65536 + u32::from(low)
}

/// Returns the power of ten in a sunssf register. Any 16-bit value is allowed, and 0x8000 ("not
/// implemented") means 0.
pub fn sunssf(word: u16) -> i16
    ensures { result ≡ scale_value word }
{
    if word == 0x8000 {
        0
    } else {
        word.cast_signed()
    }
}
