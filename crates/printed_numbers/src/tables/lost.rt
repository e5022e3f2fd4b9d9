//! The meanings of the causes for which a poll is lost.
ghost use Rattle.printed_numbers.specs.Numbers.{Answers};
ghost use Rattle.printed_numbers.specs.declared.kind.Kind.TheVariants.{Lost};

use crate::kind::Kind;
use crate::meaning::Meaning;

static GONE: Meaning = Meaning {
    kind: Kind::Lost,
    number: 1,
    means: "the device closed the connection",
    cause: "a device that restarted, or that accepts fewer connections than it has",
    remedy: "nothing if it answers again; otherwise check which other programs are connected to it",
};

static GARBLED: Meaning = Meaning {
    kind: Kind::Lost,
    number: 2,
    means: "the stream was garbled",
    cause: "a gateway or device whose frames are not Modbus TCP",
    remedy: "check that the port speaks Modbus TCP; the device is reconnected at its next round",
};

static CONNECTION_FAILED: Meaning = Meaning {
    kind: Kind::Lost,
    number: 3,
    means: "the connection failed",
    cause: "an interrupted network, gateway or device",
    remedy: "nothing if it answers again; otherwise check the cables, the gateway and the device",
};

static RESTART: Meaning = Meaning {
    kind: Kind::Lost,
    number: 4,
    means: "the office was reopened",
    cause: "a program that was stopped and restarted while the poll was pending",
    remedy: "nothing: the next round polls again",
};

/// Returns the meaning of the cause with the given numeric code for losing a poll.
pub fn loss(number: u32) -> Option<&'static Meaning>
    ensures { Answers Lost number result }
{
    match number {
        1 => Some(&GONE),
        2 => Some(&GARBLED),
        3 => Some(&CONNECTION_FAILED),
        4 => Some(&RESTART),
        _ => None,
    }
}
