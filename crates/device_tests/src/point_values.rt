//! Tests the values of SunSpec points, decoded from Modbus registers, and the printing of texts in
//! registers.
use point_list::point_type;
use std::alloc::Global;
use std::process::Abort;
use std::test::Fail;
use sun_points::{Point, PointType, Scale, Text, read_point};

// A SunSpec point type, two registers, the expected value of the point and its expected text. A
// type with one register uses only the first register.
static READINGS: [(&[u8], u16, u16, Point<'static>, &str); 33] = [
    (b"int16", 0xFFFF, 0, Point::Signed(-1), "-1"),
    (b"int16", 0x8001, 0, Point::Signed(-32767), "-32767"),
    (b"int16", 0x7FFF, 0, Point::Signed(32767), "32767"),
    (b"int16", 0, 0, Point::Signed(0), "0"),
    (b"int16", 0x8000, 0, Point::Absent, "absent"),
    (b"uint16", 0x8000, 0, Point::Unsigned(32768), "32768"),
    (b"uint16", 0xFFFE, 0, Point::Unsigned(65534), "65534"),
    (b"uint16", 0, 0, Point::Unsigned(0), "0"),
    (b"uint16", 0xFFFF, 0, Point::Absent, "absent"),
    (b"enum16", 4, 0, Point::Unsigned(4), "4"),
    (b"enum16", 0xFFFE, 0, Point::Unsigned(65534), "65534"),
    (b"enum16", 0xFFFF, 0, Point::Absent, "absent"),
    (b"int32", 0xFFFF, 0xFFFE, Point::Signed(-2), "-2"),
    (
        b"int32",
        0x8000,
        1,
        Point::Signed(-2147483647),
        "-2147483647",
    ),
    (
        b"int32",
        0x7FFF,
        0xFFFF,
        Point::Signed(2147483647),
        "2147483647",
    ),
    (b"int32", 0, 0, Point::Signed(0), "0"),
    (b"int32", 0x8000, 0, Point::Absent, "absent"),
    (b"uint32", 1, 2, Point::Unsigned(65538), "65538"),
    (
        b"uint32",
        0xFFFF,
        0xFFFE,
        Point::Unsigned(4294967294),
        "4294967294",
    ),
    (b"uint32", 0, 0, Point::Unsigned(0), "0"),
    (b"uint32", 0xFFFF, 0xFFFF, Point::Absent, "absent"),
    (
        b"bitfield32",
        0x7FFF,
        1,
        Point::Bits(0x7fff0001),
        "0x7fff0001",
    ),
    (
        b"bitfield32",
        0,
        0xAB,
        Point::Bits(0x000000ab),
        "0x000000ab",
    ),
    (
        b"bitfield32",
        0x7FFF,
        0xFFFF,
        Point::Bits(0x7fffffff),
        "0x7fffffff",
    ),
    (b"bitfield32", 0, 0, Point::Bits(0x00000000), "0x00000000"),
    (b"bitfield32", 0x8000, 0, Point::Absent, "absent"),
    (
        b"acc32",
        0xFFFF,
        0xFFFF,
        Point::Unsigned(4294967295),
        "4294967295",
    ),
    (b"acc32", 0, 1, Point::Unsigned(1), "1"),
    (b"acc32", 0, 0, Point::Absent, "absent"),
    (b"sunssf", 0xFFFD, 0, Point::Signed(-3), "-3"),
    (b"sunssf", 10, 0, Point::Signed(10), "10"),
    (b"sunssf", 0xFFF6, 0, Point::Signed(-10), "-10"),
    (b"sunssf", 0x8000, 0, Point::Absent, "absent"),
];

// Returns whether two registers, read as a point of a type, have the expected value and text.
fn is_read(
    alloc: Global,
    ty: PointType,
    words: &[u16],
    value: Point<'_>,
    shown: &str,
) -> Result<bool, Fail> {
    let count = usize::from(ty.registers());
    let point = read_point(ty, words.get(..count).ok_or("too few words")?);
    let mut text = Vec::new(alloc);
    point.write(Scale::default(), &mut text)?;
    Ok(point == value && text.as_slice() == shown.as_bytes())
}

// For each SunSpec point type, registers decode to the values at both ends of the type's range, and
// to `absent`.
#[test]
fn registers_are_read_by_type(rt: HostRuntime) -> Result<(), Fail> {
    for (i, (name, high, low, value, shown)) in READINGS.iter().enumerate() {
        let ty = point_type(name).ok_or("no such type")?;
        let is_so = is_read(rt.alloc(), ty, &[*high, *low], *value, shown)?;
        assert!(rt; is_so, "reading {i}");
    }
    Ok(())
}

fn length(rt: &impl Abort, alloc: Global, words: &[u16]) -> usize {
    let mut output = Vec::new(alloc);
    Text { words }.write(&mut output).expect(rt, "not written");
    output.len()
}

// The text of 125 registers is printed with at most 1,000 characters. Of a text of 126 registers,
// only the first 125 registers are printed.
#[test]
fn the_longest_text(rt: HostRuntime) {
    assert!(rt; length(&rt, rt.alloc(), &[0xFFFF; 125]) == 1000);
    assert!(rt; length(&rt, rt.alloc(), &[0x4141; 126]) == 250);
}
