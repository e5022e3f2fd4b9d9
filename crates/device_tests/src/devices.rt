//! Simulated devices that several tests use, and checks of their responses.
use crate::examples::Exchange;
use mb_device::{Area, Bank, Kind};
use std::alloc::Global;
use std::process::Abort;

/// The areas (address ranges) of a simulated device: two adjacent areas of holding registers, a
/// third after a gap, and a coil.
pub(crate) static GAPS: [Area; 4] = [
    Area {
        kind: Kind::Holding,
        start: 10,
        count: 2,
    },
    Area {
        kind: Kind::Holding,
        start: 12,
        count: 2,
    },
    Area {
        kind: Kind::Holding,
        start: 20,
        count: 1,
    },
    Area {
        kind: Kind::Coil,
        start: 10,
        count: 1,
    },
];

static REGISTERS: [Area; 1] = [Area {
    kind: Kind::Holding,
    start: 0,
    count: 125,
}];

/// Returns a device whose holding register 0 has the value 9.
pub(crate) fn bank_with_nine(rt: &impl Abort, alloc: Global) -> Bank {
    let mut bank = Bank::new(alloc, &REGISTERS).ok().expect(rt, "no bank");
    bank.set(Kind::Holding, 0, 9);
    bank
}

/// Returns whether the simulated device responds to the request `pdu` with the bytes of `answer`.
pub(crate) fn answers(bank: &mut Bank, pdu: &[u8], answer: &[u8]) -> bool {
    if pdu.is_empty() || pdu.len() > 253 {
        return false;
    }
    let mut out = [1; 253];
    let count = bank.answer(pdu, &mut out);
    out.get(..count) == Some(answer)
}

/// Asserts that the simulated device responds to the request of each exchange with the response of
/// that exchange.
pub(crate) fn answers_all(rt: &impl Abort, bank: &mut Bank, exchanges: &[Exchange]) {
    for (i, exchange) in exchanges.iter().enumerate() {
        assert!(rt;
            answers(bank, exchange.request, exchange.reply),
            "request {i}"
        );
    }
}
