//! Tests ranges of consecutive registers that one request reads.
use mb_wire::{ReadFunction, ReadSpan, Request};

const THREE: ReadSpan = ReadSpan {
    function: ReadFunction::HoldingRegisters,
    address: 107,
    count: 3,
};

const LAST: ReadSpan = ReadSpan {
    function: ReadFunction::InputRegisters,
    address: 65535,
    count: 1,
};

// Valid ranges of registers to read by one request, each with function code, address and count. The
// next list has invalid ranges.
static LAWFUL: [(u8, u16, u16); 4] = [(3, 0, 125), (4, 0, 125), (3, 65411, 125), (4, 65535, 1)];

static UNLAWFUL: [(u8, u16, u16); 8] = [
    (2, 0, 1),
    (5, 0, 1),
    (3, 0, 0),
    (3, 0, 126),
    (4, 0, 126),
    (4, 65535, 2),
    (3, 65412, 125),
    (4, 0, 65535),
];

/// A range that one request reads has 1 to 125 registers within the 65536 addresses of a device.
#[test]
fn spans_are_lawful(rt: HostRuntime) {
    assert!(rt; ReadSpan::new(3, 107, 3) == Some(THREE));
    assert!(rt; ReadSpan::new(4, 65535, 1) == Some(LAST));
    for (function, address, count) in LAWFUL {
        assert!(rt; ReadSpan::new(function, address, count).is_some());
    }
    for (function, address, count) in UNLAWFUL {
        assert!(rt; ReadSpan::new(function, address, count).is_none());
    }
}

/// A range of registers gives the read request for exactly these registers.
#[test]
fn a_span_is_asked_for(rt: HostRuntime) {
    assert!(rt; (THREE.function.code(), LAST.function.code()) == (3, 4));
    match THREE.request() {
        Request::ReadHolding { address, quantity } => assert!(rt; (address, quantity) == (107, 3)),
        _ => panic!(rt; "no holding registers"),
    }
    match LAST.request() {
        Request::ReadInput { address, quantity } => assert!(rt; (address, quantity) == (65535, 1)),
        _ => panic!(rt; "no input registers"),
    }
}
