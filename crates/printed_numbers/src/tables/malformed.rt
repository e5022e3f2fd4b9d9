//! The meanings of the faults for which a device's response counts as malformed.
ghost use Rattle.printed_numbers.specs.Numbers.{Answers};
ghost use Rattle.printed_numbers.specs.declared.kind.Kind.TheVariants.{Malformed};

use crate::kind::Kind;
use crate::meaning::Meaning;

static WRONG_FUNCTION: Meaning = Meaning {
    kind: Kind::Malformed,
    number: 1,
    means: "the response's function code doesn't match the request",
    cause: "a gateway that mixes up the responses of its devices",
    remedy: "check the gateway, and that no other program shares its connection",
};

static WRONG_LENGTH: Meaning = Meaning {
    kind: Kind::Malformed,
    number: 2,
    means: "the response is empty, or its length doesn't match its function and byte count",
    cause: "a gateway or device that truncates its responses",
    remedy: "poll fewer registers at a time, by areas in the point list, and update the device's firmware",
};

static WRONG_BYTE_COUNT: Meaning = Meaning {
    kind: Kind::Malformed,
    number: 3,
    means: "the response's byte count doesn't match the request",
    cause: "a device that returns fewer registers than requested",
    remedy: "poll fewer registers at a time, by areas in the point list",
};

static WRONG_ECHO: Meaning = Meaning {
    kind: Kind::Malformed,
    number: 4,
    means: "the response to a write doesn't repeat it; no poll writes",
    cause: "nothing that this program does, since no poll writes",
    remedy: "find out which program writes to the device",
};

static WRONG_UNIT: Meaning = Meaning {
    kind: Kind::Malformed,
    number: 5,
    means: "the response comes from another unit (checked first)",
    cause: "a wrong unit identifier, or a gateway that answers for another device",
    remedy: "compare the unit identifier with the device's settings: it is often 1, 126 or 255",
};

/// Returns the meaning of the fault with the given numeric code in a device's malformed response.
pub fn malformation(number: u32) -> Option<&'static Meaning>
    ensures { Answers Malformed number result }
{
    match number {
        1 => Some(&WRONG_FUNCTION),
        2 => Some(&WRONG_LENGTH),
        3 => Some(&WRONG_BYTE_COUNT),
        4 => Some(&WRONG_ECHO),
        5 => Some(&WRONG_UNIT),
        _ => None,
    }
}
