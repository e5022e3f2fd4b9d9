//! Tests the responses of a simulated device to single requests.
use crate::devices::{GAPS, answers_all};
use crate::examples::{EXAMPLES, Exchange};
use mb_device::{Area, Bank, Kind};
use std::alloc::Global;
use std::process::Abort;

// The requests to a device whose register map has gaps, with the device's responses. Its holding
// register 11 is 7, and register 12 is 8.
static IN_GAPS: [Exchange; 6] = [
    Exchange {
        request: &[3, 0, 10, 0, 4],
        reply: &[3, 8, 0, 0, 0, 7, 0, 8, 0, 0],
    },
    Exchange {
        request: &[3, 0, 13, 0, 2],
        reply: &[0x83, 2],
    },
    Exchange {
        request: &[16, 0, 13, 0, 2, 4, 0, 1, 0, 2],
        reply: &[0x90, 2],
    },
    Exchange {
        request: &[3, 0, 13, 0, 1],
        reply: &[3, 2, 0, 0],
    },
    Exchange {
        request: &[5, 0, 10, 0x12, 0x34],
        reply: &[0x85, 3],
    },
    Exchange {
        request: &[4, 0, 10, 0, 1],
        reply: &[0x84, 2],
    },
];

/// A simulated device refuses requests for addresses in the gaps of its register map.
#[test]
fn gaps_are_no_addresses(rt: HostRuntime) {
    let mut bank = Bank::new(rt.alloc(), &GAPS).ok().expect(&rt, "no bank");
    assert!(rt; bank.set(Kind::Holding, 11, 7) && bank.set(Kind::Holding, 12, 8));
    answers_all(&rt, &mut bank, &IN_GAPS);
}

static AREAS: [Area; 4] = [
    Area {
        kind: Kind::Coil,
        start: 0,
        count: 200,
    },
    Area {
        kind: Kind::Discrete,
        start: 190,
        count: 40,
    },
    Area {
        kind: Kind::Holding,
        start: 0,
        count: 200,
    },
    Area {
        kind: Kind::Input,
        start: 8,
        count: 1,
    },
];

// The addresses of the coils that are on in the simulated device of the Modbus standard's examples,
// followed by those of the discrete inputs that are on.
static COILS: [u16; 12] = [19, 21, 22, 25, 26, 27, 28, 30, 32, 33, 35, 37];

static DISCRETES: [u16; 14] = [
    198, 199, 201, 203, 204, 205, 207, 208, 210, 211, 212, 214, 216, 217,
];

// Returns a simulated device with the values that the Modbus standard's examples read.
fn bank_of_examples(rt: &impl Abort, alloc: Global) -> Bank {
    let mut bank = Bank::new(alloc, &AREAS).ok().expect(rt, "no bank");
    for address in COILS {
        bank.set(Kind::Coil, address, 1);
    }
    for address in DISCRETES {
        bank.set(Kind::Discrete, address, 1);
    }
    bank.set(Kind::Holding, 107, 0x022B);
    bank.set(Kind::Holding, 109, 0x64);
    bank.set(Kind::Input, 8, 10);
    bank
}

// Reads that return the values written by the Modbus standard's examples of writes.
static READ_BACK: [Exchange; 2] = [
    Exchange {
        request: &[3, 0, 1, 0, 2],
        reply: &[3, 4, 0, 10, 1, 2],
    },
    Exchange {
        request: &[1, 0, 0xAC, 0, 1],
        reply: &[1, 1, 1],
    },
];

/// A simulated device responds to the Modbus standard's example requests with the standard's
/// example responses.
#[test]
fn examples_of_the_standard_are_answered(rt: HostRuntime) {
    let mut bank = bank_of_examples(&rt, rt.alloc());
    answers_all(&rt, &mut bank, &EXAMPLES);
    answers_all(&rt, &mut bank, &READ_BACK);
}
