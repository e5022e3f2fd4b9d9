//! The meanings of the causes for which the program rejects a meter reading.
ghost use Rattle.printed_numbers.specs.Numbers.{Answers};
ghost use Rattle.printed_numbers.specs.declared.kind.Kind.TheVariants.{Held};

use crate::kind::Kind;
use crate::meaning::Meaning;

static NOT_ACCUMULATED: Meaning = Meaning {
    kind: Kind::Held,
    number: 1,
    means: "the device reports 0: not accumulated",
    cause: "a device that doesn't count this energy, or that has just started",
    remedy: "nothing if it passes; otherwise book another counter, since the device doesn't have this one",
};

static SCALE_CHANGED: Meaning = Meaning {
    kind: Kind::Held,
    number: 2,
    means: "the scale changed",
    cause: "changed settings or firmware of the device, or a wrong scale at installation",
    remedy: "check the device, and enter a rescale if its scale has changed for good",
};

static READ_NOT_LATER: Meaning = Meaning {
    kind: Kind::Held,
    number: 3,
    means: "the time is not later than the last entry",
    cause: "two responses in one second, or a clock that was set back",
    remedy: "nothing for a single reading; otherwise correct the clock",
};

static READ_AFTER_TOO_LONG: Meaning = Meaning {
    kind: Kind::Held,
    number: 4,
    means: "the step since the last entry would span more than 3,000 quarter hours",
    cause: "a device that wasn't reached for more than 31 days",
    remedy: "enter manual readings for times in between, at most 31 days apart",
};

static GAP_TOO_LONG: Meaning = Meaning {
    kind: Kind::Held,
    number: 5,
    means: "the counter may have rolled over unnoticed since the last entry",
    cause: "a gap in which the maximum power could count through the whole range",
    remedy: "enter a manual reading, and give the rollovers during the gap as ROLLS",
};

static TOO_FAST: Meaning = Meaning {
    kind: Kind::Held,
    number: 6,
    means: "more energy than the ceiling allows",
    cause: "a ceiling that is too low, a counter that was reset or exchanged, or a wrong reading",
    remedy: "compare the reading with the meter: enter a reset or an exchange if the counter was changed, or a manual reading if it is right",
};

static READ_PAST_TOTAL: Meaning = Meaning {
    kind: Kind::Held,
    number: 7,
    means: "the meter's total would exceed 4 * 10^18 mWh",
    cause: "a wrong reading, or a wrong scale",
    remedy: "compare the reading and the scale with the meter",
};

static NOT_BELOW_RANGE: Meaning = Meaning {
    kind: Kind::Held,
    number: 8,
    means: "the counter is at or above its range",
    cause: "a RANGE at installation that is below the counter's, or a wrong reading",
    remedy: "exchange the meter for itself under a new name, with the right RANGE",
};

/// Returns the meaning of the cause with the given numeric code for rejecting a meter reading.
pub fn hold(number: u32) -> Option<&'static Meaning>
    ensures { Answers Held number result }
{
    match number {
        1 => Some(&NOT_ACCUMULATED),
        2 => Some(&SCALE_CHANGED),
        3 => Some(&READ_NOT_LATER),
        4 => Some(&READ_AFTER_TOO_LONG),
        5 => Some(&GAP_TOO_LONG),
        6 => Some(&TOO_FAST),
        7 => Some(&READ_PAST_TOTAL),
        8 => Some(&NOT_BELOW_RANGE),
        _ => None,
    }
}
