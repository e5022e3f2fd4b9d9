//! Tests the largest requests, up to address 65535, to a device that has all addresses (Modbus
//! Application Protocol V1.1b3, sections 4.3 and 6.1 to 6.12).
use crate::devices::{answers, answers_all};
use crate::examples::Exchange;
use crate::quantities::request_of;
use mb_device::{Area, Bank, Kind};
use std::alloc::Global;
use std::process::Abort;

static ALL_ADDRESSES: [Area; 4] = [
    Area {
        kind: Kind::Coil,
        start: 0,
        count: 65536,
    },
    Area {
        kind: Kind::Discrete,
        start: 0,
        count: 65536,
    },
    Area {
        kind: Kind::Holding,
        start: 0,
        count: 65536,
    },
    Area {
        kind: Kind::Input,
        start: 0,
        count: 65536,
    },
];

fn whole_bank(rt: &impl Abort, alloc: Global) -> Bank {
    Bank::new(alloc, &ALL_ADDRESSES).ok().expect(rt, "no bank")
}

// A request: its function code, address, number after the address, byte count and length in bytes,
// with 0xFF in each byte after the byte count. Then the response's length and first two bytes.
struct Case {
    function: u8,
    address: u16,
    number: u16,
    count: u8,
    length: usize,
    answered: usize,
    front: [u8; 2],
}

macro_rules! case {
    ($function:expr, $address:expr, $number:expr, $count:expr, $length:expr, $answered:expr, $front:expr) => {
        Case {
            function: $function,
            address: $address,
            number: $number,
            count: $count,
            length: $length,
            answered: $answered,
            front: $front,
        }
    };
}

static CASES: [Case; 21] = [
    // Requests that end at address 65535, that extend past it, and that have a quantity beyond the
    // limit.
    case!(1, 63536, 2000, 0, 5, 252, [1, 250]),
    case!(1, 63537, 2000, 0, 5, 2, [0x81, 2]),
    case!(1, 0, 2001, 0, 5, 2, [0x81, 3]),
    case!(2, 63536, 2000, 0, 5, 252, [2, 250]),
    case!(2, 63537, 2000, 0, 5, 2, [0x82, 2]),
    case!(2, 0, 2001, 0, 5, 2, [0x82, 3]),
    case!(3, 65411, 125, 0, 5, 252, [3, 250]),
    case!(3, 65412, 125, 0, 5, 2, [0x83, 2]),
    case!(3, 0, 126, 0, 5, 2, [0x83, 3]),
    case!(4, 65411, 125, 0, 5, 252, [4, 250]),
    case!(4, 65412, 125, 0, 5, 2, [0x84, 2]),
    case!(4, 0, 126, 0, 5, 2, [0x84, 3]),
    case!(15, 63568, 1968, 246, 252, 5, [15, 0xF8]),
    case!(15, 63569, 1968, 246, 252, 2, [0x8F, 2]),
    case!(15, 0, 1969, 247, 253, 2, [0x8F, 3]),
    case!(16, 65413, 123, 246, 252, 5, [16, 0xFF]),
    case!(16, 65414, 123, 246, 252, 2, [0x90, 2]),
    case!(16, 0, 124, 247, 253, 2, [0x90, 3]),
    // Tests of requests that begin at address 65535, the last address of a device.
    case!(5, 65535, 0xFF00, 0, 5, 5, [5, 0xFF]),
    case!(6, 65535, 0xFFFF, 0, 5, 5, [6, 0xFF]),
    case!(3, 65535, 2, 0, 5, 2, [0x83, 2]),
];

fn is_answered(bank: &mut Bank, case: &Case) -> bool {
    let pdu = request_of(case.function, case.address, case.number, case.count, 0xFF);
    let mut out = [1; 253];
    let count = bank.answer(&pdu[..case.length.clamp(1, 253)], &mut out);
    count == case.answered && out[..2] == case.front[..]
}

// The values of coils and registers after writes: at the address before the first written one, at
// the first written one, and at the last one.
static WRITTEN: [(Kind, u16, u16); 6] = [
    (Kind::Coil, 63567, 0),
    (Kind::Coil, 63568, 1),
    (Kind::Coil, 65535, 1),
    (Kind::Holding, 65412, 0),
    (Kind::Holding, 65413, 0xFFFF),
    (Kind::Holding, 65535, 0xFFFF),
];

/// A device with all addresses responds to requests up to address 65535.
#[test]
fn whole_banks_answer_to_their_last_address(rt: HostRuntime) {
    let mut bank = whole_bank(&rt, rt.alloc());
    for (i, case) in CASES.iter().enumerate() {
        assert!(rt; is_answered(&mut bank, case), "case {i}");
    }
    for (kind, address, value) in WRITTEN {
        assert!(rt; bank.get(kind, address) == Some(value), "{address}");
    }
}

// Reads and other requests to a device whose registers are all 0.
static AMONG_ZEROS: [Exchange; 5] = [
    Exchange {
        request: &[3, 0xFF, 0xFF, 0, 1],
        reply: &[3, 2, 0, 0],
    },
    Exchange {
        request: &[3, 0, 0, 0, 0x7E],
        reply: &[0x83, 3],
    },
    Exchange {
        request: &[3, 0xFF, 0xFF, 0, 2],
        reply: &[0x83, 2],
    },
    Exchange {
        request: &[0x2B, 0x0E],
        reply: &[0xAB, 1],
    },
    Exchange {
        request: &[0x83, 0],
        reply: &[0x83, 1],
    },
];

/// A device with all addresses responds to the longest reads and writes of registers.
#[test]
fn a_whole_bank_of_registers_answers(rt: HostRuntime) {
    let mut bank = whole_bank(&rt, rt.alloc());
    let mut zeros = [0; 252];
    zeros[..2].copy_from_slice(&[3, 0xFA]);
    assert!(rt; answers(&mut bank, &[3, 0, 0, 0, 0x7D], &zeros));
    answers_all(&rt, &mut bank, &AMONG_ZEROS);
}
