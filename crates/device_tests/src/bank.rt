//! Tests the register map of a simulated device.
use crate::devices::GAPS;
use mb_device::{Area, Bank, BankFault, Kind};

// A write of a value at an address, whether the device has the address, and the value that a later
// read returns.
struct Write {
    kind: Kind,
    address: u16,
    value: u16,
    kept: Option<u16>,
}

static WRITES: [Write; 6] = [
    Write {
        kind: Kind::Holding,
        address: 11,
        value: 7,
        kept: Some(7),
    },
    Write {
        kind: Kind::Holding,
        address: 12,
        value: 8,
        kept: Some(8),
    },
    Write {
        kind: Kind::Holding,
        address: 13,
        value: 0,
        kept: Some(0),
    },
    Write {
        kind: Kind::Coil,
        address: 10,
        value: 5,
        kept: Some(1),
    },
    Write {
        kind: Kind::Holding,
        address: 14,
        value: 1,
        kept: None,
    },
    Write {
        kind: Kind::Input,
        address: 10,
        value: 1,
        kept: None,
    },
];

/// A simulated device stores values at the addresses of its areas (address ranges), and refuses any
/// other address.
#[test]
fn values_are_kept_where_there_are_addresses(rt: HostRuntime) {
    let mut bank = Bank::new(rt.alloc(), &GAPS).ok().expect(&rt, "no bank");
    for write in &WRITES {
        let is_there = bank.set(write.kind, write.address, write.value);
        assert!(rt; is_there == write.kept.is_some());
    }
    for write in &WRITES {
        assert!(rt; bank.get(write.kind, write.address) == write.kept);
    }
}

// An area (address range) that cannot be added to a device with ten coils from address 0, its
// fault, and the fault's numeric code.
struct Refused {
    area: Area,
    fault: BankFault,
    number: u8,
}

static REFUSED: [Refused; 4] = [
    Refused {
        area: Area {
            kind: Kind::Coil,
            start: 9,
            count: 1,
        },
        fault: BankFault::AreasOverlap,
        number: 1,
    },
    Refused {
        area: Area {
            kind: Kind::Coil,
            start: 9,
            count: 65536,
        },
        fault: BankFault::AreasOverlap,
        number: 1,
    },
    Refused {
        area: Area {
            kind: Kind::Input,
            start: 9,
            count: 0,
        },
        fault: BankFault::OutOfRange,
        number: 2,
    },
    Refused {
        area: Area {
            kind: Kind::Input,
            start: 1,
            count: 65536,
        },
        fault: BankFault::OutOfRange,
        number: 2,
    },
];

/// An area (address range) that overlaps another, is empty or extends past address 65535 is
/// refused.
#[test]
fn areas_have_their_faults(rt: HostRuntime) {
    let coils = Area {
        kind: Kind::Coil,
        start: 0,
        count: 10,
    };
    for refused in &REFUSED {
        let made = Bank::new(rt.alloc(), &[coils, refused.area]);
        let fault = made.err().expect(&rt, "no fault");
        assert!(rt; (fault, fault.number()) == (refused.fault, refused.number));
    }
    assert!(rt; BankFault::Memory.number() == 3);
}
