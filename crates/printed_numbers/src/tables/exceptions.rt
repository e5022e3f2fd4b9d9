//! The meanings of the exception codes of devices (MODBUS Application Protocol V1.1b3, section 7).
ghost use Rattle.printed_numbers.specs.Numbers.{Answers};
ghost use Rattle.printed_numbers.specs.declared.kind.Kind.TheVariants.{Exception};

use crate::kind::Kind;
use crate::meaning::Meaning;

static ILLEGAL_FUNCTION: Meaning = Meaning {
    kind: Kind::Exception,
    number: 1,
    means: "illegal function: the device doesn't support the request's function",
    cause: "function 4 for a device that has only 3, or the other way round",
    remedy: "use the other function, 3 or 4, in the point list and for the register",
};

static ILLEGAL_DATA_ADDRESS: Meaning = Meaning {
    kind: Kind::Exception,
    number: 2,
    means: "illegal data address: the device doesn't have all of the registers",
    cause: "an address of another model, or one that the manufacturer's table counts from 1",
    remedy: "scan the device and compare addresses; subtract 1 from those that are counted from 1",
};

static ILLEGAL_DATA_VALUE: Meaning = Meaning {
    kind: Kind::Exception,
    number: 3,
    means: "illegal data value: the device doesn't return that many registers",
    cause: "a device that returns fewer registers at a time than the standard allows",
    remedy: "poll fewer registers at a time, by areas in the point list",
};

static DEVICE_FAILURE: Meaning = Meaning {
    kind: Kind::Exception,
    number: 4,
    means: "server device failure: the device failed to process the request",
    cause: "a device that is starting, or out of order",
    remedy: "wait for the next round; otherwise check the device",
};

static ACKNOWLEDGE: Meaning = Meaning {
    kind: Kind::Exception,
    number: 5,
    means: "acknowledge: the device needs a long time for the request",
    cause: "a device that is busy with another program's request",
    remedy: "wait for the next round",
};

static DEVICE_BUSY: Meaning = Meaning {
    kind: Kind::Exception,
    number: 6,
    means: "server device busy",
    cause: "a device that is polled by several programs, or too often",
    remedy: "poll it less often, or from fewer programs",
};

static PARITY_ERROR: Meaning = Meaning {
    kind: Kind::Exception,
    number: 8,
    means: "memory parity error",
    cause: "a device whose memory fails",
    remedy: "check the device",
};

static PATH_UNAVAILABLE: Meaning = Meaning {
    kind: Kind::Exception,
    number: 10,
    means: "gateway path unavailable: the gateway can't reach that unit",
    cause: "a wrong unit identifier, or a misconfigured gateway",
    remedy: "compare the device's unit identifier with the gateway's settings",
};

static TARGET_SILENT: Meaning = Meaning {
    kind: Kind::Exception,
    number: 11,
    means: "gateway target device failed to respond",
    cause: "a device behind the gateway that is off, or a wrong unit identifier",
    remedy: "check that the device is on, and compare its unit identifier with the gateway's settings",
};

/// Returns the meaning of an exception code of the Modbus standard.
pub fn exception(number: u32) -> Option<&'static Meaning>
    ensures { Answers Exception number result }
{
    match number {
        1 => Some(&ILLEGAL_FUNCTION),
        2 => Some(&ILLEGAL_DATA_ADDRESS),
        3 => Some(&ILLEGAL_DATA_VALUE),
        4 => Some(&DEVICE_FAILURE),
        5 => Some(&ACKNOWLEDGE),
        6 => Some(&DEVICE_BUSY),
        8 => Some(&PARITY_ERROR),
        10 => Some(&PATH_UNAVAILABLE),
        11 => Some(&TARGET_SILENT),
        _ => None,
    }
}
