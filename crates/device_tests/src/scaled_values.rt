//! Tests the texts of scaled values. The expected texts were computed with decimal arithmetic in
//! another language.

use crate::given::assert_same;
use std::alloc::Global;
use std::process::Abort;
use sun_points::{Scale, write_scaled};

static VALUES: [i64; 6] = [0, 5, -5, 2301, i64::MIN, i64::MAX];

// A scale factor, and the expected texts of the test values at this scale factor, each after a
// space.
static SCALED: [(i16, &str); 21] = [
    (
        -10,
        " 0.0000000000 0.0000000005 -0.0000000005 0.0000002301 -922337203.6854775808 922337203.6854775807",
    ),
    (
        -9,
        " 0.000000000 0.000000005 -0.000000005 0.000002301 -9223372036.854775808 9223372036.854775807",
    ),
    (
        -8,
        " 0.00000000 0.00000005 -0.00000005 0.00002301 -92233720368.54775808 92233720368.54775807",
    ),
    (
        -7,
        " 0.0000000 0.0000005 -0.0000005 0.0002301 -922337203685.4775808 922337203685.4775807",
    ),
    (
        -6,
        " 0.000000 0.000005 -0.000005 0.002301 -9223372036854.775808 9223372036854.775807",
    ),
    (
        -5,
        " 0.00000 0.00005 -0.00005 0.02301 -92233720368547.75808 92233720368547.75807",
    ),
    (
        -4,
        " 0.0000 0.0005 -0.0005 0.2301 -922337203685477.5808 922337203685477.5807",
    ),
    (
        -3,
        " 0.000 0.005 -0.005 2.301 -9223372036854775.808 9223372036854775.807",
    ),
    (
        -2,
        " 0.00 0.05 -0.05 23.01 -92233720368547758.08 92233720368547758.07",
    ),
    (
        -1,
        " 0.0 0.5 -0.5 230.1 -922337203685477580.8 922337203685477580.7",
    ),
    (0, " 0 5 -5 2301 -9223372036854775808 9223372036854775807"),
    (
        1,
        " 0 50 -50 23010 -92233720368547758080 92233720368547758070",
    ),
    (
        2,
        " 0 500 -500 230100 -922337203685477580800 922337203685477580700",
    ),
    (
        3,
        " 0 5000 -5000 2301000 -9223372036854775808000 9223372036854775807000",
    ),
    (
        4,
        " 0 50000 -50000 23010000 -92233720368547758080000 92233720368547758070000",
    ),
    (
        5,
        " 0 500000 -500000 230100000 -922337203685477580800000 922337203685477580700000",
    ),
    (
        6,
        " 0 5000000 -5000000 2301000000 -9223372036854775808000000 9223372036854775807000000",
    ),
    (
        7,
        " 0 50000000 -50000000 23010000000 -92233720368547758080000000 92233720368547758070000000",
    ),
    (
        8,
        " 0 500000000 -500000000 230100000000 -922337203685477580800000000 922337203685477580700000000",
    ),
    (
        9,
        " 0 5000000000 -5000000000 2301000000000 -9223372036854775808000000000 9223372036854775807000000000",
    ),
    (
        10,
        " 0 50000000000 -50000000000 23010000000000 -92233720368547758080000000000 92233720368547758070000000000",
    ),
];

fn write_at(rt: &impl Abort, value: i64, exponent: i16, output: &mut Vec<u8>) {
    let scale = Scale::new(exponent.cast_unsigned()).expect(rt, "no scale");
    output.push(b' ').expect(rt, "no memory");
    write_scaled(value, scale, output).expect(rt, "not written");
}

// Asserts that the test values, printed with the scale factor `exponent`, give the expected text
// `want`.
fn assert_scaled(rt: &impl Abort, alloc: Global, values: &[i64], exponent: i16, want: &str) {
    let mut line = Vec::new(alloc);
    for value in values {
        write_at(rt, *value, exponent, &mut line);
    }
    assert_same(rt, line.as_slice(), want);
}

// Values are written exactly at each scale factor from -10 to 10.
#[test]
fn values_are_written_at_each_scale(rt: HostRuntime) {
    for (exponent, want) in &SCALED {
        assert_scaled(&rt, rt.alloc(), &VALUES, *exponent, want);
    }
    assert_scaled(&rt, rt.alloc(), &[12], 3, " 12000");
    assert_scaled(&rt, rt.alloc(), &[1000], 0, " 1000");
    assert_scaled(&rt, rt.alloc(), &[-1234], -2, " -12.34");
}
