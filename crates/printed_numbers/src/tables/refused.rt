//! The meanings of the reasons for which the program refuses a script line, a request or a device
//! event.
ghost use Rattle.printed_numbers.specs.Numbers.{Answers};
ghost use Rattle.printed_numbers.specs.declared.kind.Kind.TheVariants.{Refused};

use crate::kind::Kind;
use crate::meaning::Meaning;

static NOT_FOUND: Meaning = Meaning {
    kind: Kind::Refused,
    number: 1,
    means: "no device, register, meter, list, entry or poll has that name or number, or the register never had a meter",
    cause: "a misspelt name, a register or meter that isn't set up yet, or a device without a point list",
    remedy: "check the name; give a device its point list before its first round",
};

static EXISTS: Meaning = Meaning {
    kind: Kind::Refused,
    number: 2,
    means: "the name is already in use, or the register already has an open meter",
    cause: "a set-up that is entered again under other numbers, or a meter installed where another one still counts",
    remedy: "choose another name; to replace a meter, exchange it or close the old one first",
};

static CLOCK_BACK: Meaning = Meaning {
    kind: Kind::Refused,
    number: 3,
    means: "the time is before the latest accepted event",
    cause: "script lines that are out of order, or a clock that was set back",
    remedy: "sort the lines by time; correct the clock, and wait until it passes the latest event",
};

static BAD_SCALE: Meaning = Meaning {
    kind: Kind::Refused,
    number: 4,
    means: "the scale is not from -3 to 3",
    cause: "a scale read at a wrong address, or -32768, which marks a scale that the device doesn't have",
    remedy: "look up the address of the counter's scale factor in the device's documentation",
};

static NEGATIVE_STEP: Meaning = Meaning {
    kind: Kind::Refused,
    number: 5,
    means: "the counter would go backwards",
    cause: "a mistyped number, a counter that was set back, or a rollover that ROLLS doesn't count",
    remedy: "compare the number with the meter; count rollovers in ROLLS, and enter a reset if the counter was set back",
};

static NOT_LATER: Meaning = Meaning {
    kind: Kind::Refused,
    number: 6,
    means: "the time is not later than the meter's last entry",
    cause: "two entries of a meter in one second, or a manual reading for a time that has later entries",
    remedy: "query the meter's last entry, and give a later time",
};

static SPAN_TOO_LONG: Meaning = Meaning {
    kind: Kind::Refused,
    number: 7,
    means: "the step would span more than 3,000 quarter hours",
    cause: "more than 31 days without an entry",
    remedy: "enter manual readings for times in between, at most 31 days apart",
};

static TOTAL_FULL: Meaning = Meaning {
    kind: Kind::Refused,
    number: 8,
    means: "the meter's total would exceed 4 * 10^18 mWh",
    cause: "a mistyped number or scale: no meter counts that much",
    remedy: "compare the number and the scale with the meter",
};

static ENDED: Meaning = Meaning {
    kind: Kind::Refused,
    number: 9,
    means: "the register's meter was closed",
    cause: "an entry for a meter after it was closed",
    remedy: "install the next meter at the register first",
};

static BUSY: Meaning = Meaning {
    kind: Kind::Refused,
    number: 10,
    means: "the device is not connected, is already connected, or can't start a poll now: its window is full or its stream is garbled",
    cause: "a poll before the device was connected, or more polls than its window",
    remedy: "connect the device first, wait for its pending polls, and reconnect it after a garbled stream",
};

static REUSED: Meaning = Meaning {
    kind: Kind::Refused,
    number: 11,
    means: "the caller already used this number for another request",
    cause: "two requests under one number, or a line that was changed after it was entered",
    remedy: "give each new request an unused number; an unchanged request may be repeated, and acts once",
};

static LIMIT: Meaning = Meaning {
    kind: Kind::Refused,
    number: 12,
    means: "a name, number or time is out of range, a start or a counter with its scale needs more registers than one read has, the plan has no such read, a list has faults, or a limit is reached: 64 devices, 32 registers per device or 4096 installations",
    cause: "a name that isn't 1 to 16 letters, digits, _ and -, starting with a letter, or a number that is out of range",
    remedy: "look up the limits of the line in docs/SCRIPT.md; check a point list with sunreg plan",
};

static STORE: Meaning = Meaning {
    kind: Kind::Refused,
    number: 13,
    means: "the database failed",
    cause: "a full or failing disk, or a file without write permission",
    remedy: "check the free disk space and the file's permissions, then restart: everything acknowledged is kept",
};

static MEMORY: Meaning = Meaning {
    kind: Kind::Refused,
    number: 14,
    means: "out of memory",
    cause: "a machine or container with too little memory",
    remedy: "give the program more memory, and retry",
};

static STOPPED: Meaning = Meaning {
    kind: Kind::Refused,
    number: 15,
    means: "the office stopped after 13 or 14 while it settled polls, and must be reopened",
    cause: "a disk or memory failure while readings were booked",
    remedy: "check the disk and the memory, then restart the program: everything acknowledged is kept",
};

static NOT_VOIDABLE: Meaning = Meaning {
    kind: Kind::Refused,
    number: 16,
    means: "the entry is not a device reading, is already voided, or is followed by an entry that is not a device reading",
    cause: "a wrong PLACE, an entry that is already voided, or a manual entry, which can't be voided",
    remedy: "count the meter's entries from its opening, which is 1; a reading before a manual entry can't be voided",
};

static NOT_PLAUSIBLE: Meaning = Meaning {
    kind: Kind::Refused,
    number: 17,
    means: "without the voided reading, the next one would have been rejected",
    cause: "a reading that was right, or a next one that is wrong too",
    remedy: "void the later wrong reading first",
};

/// Returns the meaning of the reason with the given numeric code for refusing a script line, a
/// request or a device event.
pub fn refusal(number: u32) -> Option<&'static Meaning>
    ensures { Answers Refused number result }
{
    match number {
        1 => Some(&NOT_FOUND),
        2 => Some(&EXISTS),
        3 => Some(&CLOCK_BACK),
        4 => Some(&BAD_SCALE),
        5 => Some(&NEGATIVE_STEP),
        6 => Some(&NOT_LATER),
        7 => Some(&SPAN_TOO_LONG),
        8 => Some(&TOTAL_FULL),
        9 => Some(&ENDED),
        10 => Some(&BUSY),
        11 => Some(&REUSED),
        12 => Some(&LIMIT),
        13 => Some(&STORE),
        14 => Some(&MEMORY),
        15 => Some(&STOPPED),
        16 => Some(&NOT_VOIDABLE),
        17 => Some(&NOT_PLAUSIBLE),
        _ => None,
    }
}
