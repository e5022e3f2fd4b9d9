//! Tests SunSpec scale factors, the names of scale points in the SunSpec model tables, and counters
//! in two Modbus registers with their scale factors.
use sun_chain::scale_name;
use sun_points::{Scale, acc32, sunssf};

// The register value of a scale point, and the expected scale factor, or `None` if the register
// value is not a valid scale factor.
static REGISTERS: [(u16, Option<i8>); 8] = [
    (0, Some(0)),
    (10, Some(10)),
    (11, None),
    (0xFFF6, Some(-10)),
    (0xFFF5, None),
    (0x8000, Some(0)),
    (0x7FFF, None),
    (0x8001, None),
];

fn exponent_of(word: u16) -> Option<i8> {
    Some(Scale::new(word)?.exponent())
}

// A scale factor is from -10 to 10. A scale factor that is not implemented counts as 0.
#[test]
fn exponents_are_ten_at_most(rt: HostRuntime) {
    for (word, exponent) in &REGISTERS {
        assert!(rt; exponent_of(*word) == *exponent, "{word}");
    }
    assert!(rt; Scale::default().exponent() == 0);
}

static NAMES: [(u16, &str, Option<&str>); 8] = [
    (103, "WH", Some("WH_SF")),
    (101, "TmpOt", Some("Tmp_SF")),
    (203, "TotWhExp", Some("TotWh_SF")),
    (204, "TotVArhExpQ4PhC", Some("TotVArh_SF")),
    (103, "WH_SF", None),
    (1, "Mn", None),
    (103, "TotWhExp", None),
    (104, "WH", None),
];

// Tests that `scale_name` finds the scale point of each scaled point in the program's model tables,
// and finds none for other points.
#[test]
fn points_name_their_scale_points(rt: HostRuntime) {
    for (id, name, scale) in &NAMES {
        assert!(rt; scale_name(*id, name) == *scale, "{name}");
    }
}

// The two registers of a counter, high word first, and the counter's value.
static COUNTS: [(u16, u16, u32); 3] = [
    (0x0001, 0x0000, 65_536),
    (0xFFFF, 0xFFFF, 4_294_967_295),
    (0, 0, 0),
];

// The value of a register that contains a scale factor, and the power of ten that it encodes.
static POWERS: [(u16, i16); 3] = [(0xFFFD, -3), (2, 2), (0x8000, 0)];

// A counter's first register is the high word, and scale factors are signed. A scale factor that is
// not implemented counts as 0.
#[test]
fn the_high_word_comes_first_and_powers_have_a_sign(rt: HostRuntime) {
    for (high, low, count) in &COUNTS {
        assert!(rt; acc32(*high, *low) == *count, "{high} {low}");
    }
    for (word, power) in &POWERS {
        assert!(rt; sunssf(*word) == *power, "{word}");
    }
}
