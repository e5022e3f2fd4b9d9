//! Tests the numeric codes and the texts of refusals and faults. Examples are the faults of inputs,
//! of script lines, and of the program's arguments. Also tests the failure counter of a store, and
//! the words that are printed before numeric codes.
use command_io::ReadFault;
use command_words::{DeviceFault, ListFault, WordsFault};
use energy_core::Cause;
use office_books::{BooksFault, Failures, StoreFault};
use office_events::{Refusal, StoreCause};
use office_program::RoundFault;
use printed_numbers::{Kind, kind_named, kinds};
use script_text::LineFault;
use std::alloc::Global;
use std::fmt::Display;
use std::process::Abort;

const REFUSED: &str = "the store of the books refused or failed";

const DAMAGED: &str = "the store of the books is damaged: it holds what cannot be";

const NO_DAY: &str = "an interval row has no civil day in the zone of the books";

const MEMORY: &str = "memory ran out";

// The refusals in the order of their numeric codes, 1 to 17.
static REFUSALS: [Refusal; 17] = [
    Refusal::NotFound,
    Refusal::Exists,
    Refusal::ClockBack,
    Refusal::BadScale,
    Refusal::NegativeStep,
    Refusal::NotLater,
    Refusal::SpanTooLong,
    Refusal::TotalFull,
    Refusal::Ended,
    Refusal::Busy,
    Refusal::Reused,
    Refusal::Limit,
    Refusal::Store(StoreCause::NoDay),
    Refusal::Memory,
    Refusal::Stopped,
    Refusal::NotVoidable,
    Refusal::NotPlausible(Cause::TooFast),
];

static SENTENCES: [&str; 17] = [
    "no device, register, meter, list, entry or poll has that name, place or number",
    "the name is taken, or a meter is open at the register",
    "the moment is before that of the latest accepted event",
    "the scale is not from -3 to 3",
    "the counter would have gone back since the last entry",
    "the moment is not later than that of the last entry",
    "more than 3000 quarter hours passed since the last entry",
    "the energy of the meter would pass 4 * 10^18 mWh",
    "the meter at the register was closed",
    "the device is not connected, is connected already, or can start no poll now",
    "the caller used the number for another request",
    "a name, a number or a moment is out of its range, or there is no room for one more",
    NO_DAY,
    MEMORY,
    "the office has stopped, as the books or memory failed while polls were settled: open it again",
    "the entry is no reading of the device that stands, or the next that stands is none",
    "the next entry would have been held after the one before: the counter went further than the ceiling allows",
];

static CAUSES: [(StoreCause, u8, &str); 3] = [
    (StoreCause::Refused, 1, REFUSED),
    (StoreCause::Damaged, 2, DAMAGED),
    (StoreCause::NoDay, 3, NO_DAY),
];

const ENDED_ROUND: &str = "the office refused an event of the round: memory ran out";

const ENDED_LINK: &str = "a read or a write of the connection failed";

const ENDED_OUTPUT: &str = "what the office told could not be printed";

const ENDED_TURNS: &str = "the round was not over after 100000 reads";

static ROUNDS: [(RoundFault, u8, &str); 4] = [
    (RoundFault::Refused(Refusal::Memory), 1, ENDED_ROUND),
    (RoundFault::Link, 2, ENDED_LINK),
    (RoundFault::Output, 3, ENDED_OUTPUT),
    (RoundFault::TurnsUsed, 4, ENDED_TURNS),
];

static STORES: [(StoreFault, &str); 2] = [
    (StoreFault::Refused, REFUSED),
    (StoreFault::Damaged, DAMAGED),
];

// Asserts that a fault has this text, and that the text does not end with a full stop.
fn assert_text<F: Display>(rt: &impl Abort, alloc: Global, fault: &F, text: &str) {
    let said = format!(in alloc; "{fault}").expect(rt, "a text");
    assert!(rt; said.as_str() == text, "{text}");
    assert!(rt; !text.ends_with('.'), "{text}");
}

/// Each refusal has its numeric code, 1 to 17, and its text.
#[test]
fn refusals_have_numbers_and_sentences(rt: HostRuntime) {
    let mut number = 0u8;
    for (refusal, text) in REFUSALS.iter().zip(&SENTENCES) {
        number = number.saturating_add(1);
        assert!(rt; refusal.number() == number);
        assert_text(&rt, rt.alloc(), refusal, *text);
    }
    for (cause, number, text) in &CAUSES {
        assert!(rt; cause.number() == *number);
        assert!(rt; Refusal::Store(*cause).number() == 13);
        assert_text(&rt, rt.alloc(), cause, *text);
    }
}

/// Each fault of a polling round has its numeric code and its text, and each fault of a store has
/// its text.
#[test]
fn faults_have_numbers_and_sentences(rt: HostRuntime) {
    for (fault, number, text) in &ROUNDS {
        assert!(rt; fault.number() == *number);
        assert_text(&rt, rt.alloc(), fault, *text);
    }
    for (fault, text) in &STORES {
        assert_text(&rt, rt.alloc(), fault, *text);
        assert_text(&rt, rt.alloc(), &BooksFault::Store(*fault), *text);
    }
    assert_text(&rt, rt.alloc(), &BooksFault::Memory, MEMORY);
}

const LINES: [(LineFault, &str); 2] = [
    (
        LineFault::Bad,
        "the line has none of the forms of a script's lines",
    ),
    (LineFault::Memory, "memory ran out"),
];

const INPUTS: [(ReadFault, &str); 3] = [
    (ReadFault::TooLong, "the input has more than 4194304 bytes"),
    (
        ReadFault::Failed,
        "reading the input failed or was interrupted",
    ),
    (ReadFault::Memory, "out of memory"),
];

const DEVICES: [(DeviceFault, &str); 3] = [
    (
        DeviceFault::Malformed,
        "not NAME=HOST:PORT with a PORT from 1 to 65535",
    ),
    (DeviceFault::Repeated, "its NAME is used twice"),
    (DeviceFault::TooMany, "more than 64 devices"),
];

const PARTS: [(ListFault, &str); 2] = [
    (
        ListFault::Part {
            part: "b=:5020",
            fault: DeviceFault::Malformed,
        },
        "invalid device 'b=:5020': not NAME=HOST:PORT with a PORT from 1 to 65535",
    ),
    (ListFault::Memory, "out of memory"),
];

// Asserts that each given fault, such as one of a script line or a point list, is displayed as its
// given text. The text does not end with a full stop.
fn assert_texts<F: Display>(rt: &impl Abort, alloc: Global, texts: &[(F, &str)]) {
    for (fault, text) in texts {
        assert_text(rt, alloc, fault, *text);
    }
}

/// Each fault of a script line, of an input and of the program's arguments has its text.
#[test]
fn each_fault_has_its_text(rt: HostRuntime) {
    assert_texts(&rt, rt.alloc(), &LINES);
    assert_texts(&rt, rt.alloc(), &INPUTS);
    assert_texts(&rt, rt.alloc(), &DEVICES);
    assert_texts(&rt, rt.alloc(), &PARTS);
    let wrong = String::from_str(rt.alloc(), "error: x\n").expect(&rt, "no memory");
    let help = String::from_str(rt.alloc(), "Usage: x\n").expect(&rt, "no memory");
    let texts = [
        (WordsFault::Wrong(wrong), "error: x\n"),
        (WordsFault::Help(help), "Usage: x\n"),
        (WordsFault::Memory, "out of memory"),
    ];
    assert_texts(&rt, rt.alloc(), &texts)
}

const STORE_REFUSED: BooksFault = BooksFault::Store(StoreFault::Refused);

const STORE_DAMAGED: BooksFault = BooksFault::Store(StoreFault::Damaged);

// The results of successive calls to a store. Each result comes with the number of failures and the
// last failure that the store must report after the call.
static CALLS: [(Result<u8, BooksFault>, u64, Option<BooksFault>); 5] = [
    (Ok(7), 0, None),
    (Err(STORE_REFUSED), 1, Some(STORE_REFUSED)),
    (Err(BooksFault::Memory), 1, Some(BooksFault::Memory)),
    (Err(STORE_DAMAGED), 2, Some(STORE_DAMAGED)),
    (Ok(9), 2, Some(STORE_DAMAGED)),
];

/// Each failure of a store is counted, and the last failure is noted. If memory runs out, the
/// failure is noted but not counted.
#[test]
fn each_failure_is_counted_with_its_kind(rt: HostRuntime) {
    let mut failures = Failures::new();
    for (answer, count, last) in CALLS {
        assert!(rt; failures.noted(answer) == answer);
        assert!(rt; failures == Failures { count, last });
    }
}

/// Each word that is printed before numeric codes, such as `fault`, identifies a set of codes.
/// `tests/words.py` tests the explanation of each code.
#[test]
fn each_kind_is_named(rt: HostRuntime) {
    for kind in kinds() {
        let found = kind_named(kind.word()).expect(&rt, "no kind");
        assert!(rt; found.word() == kind.word());
    }
    assert!(rt; kind_named("fault") == Some(Kind::RowFault));
    assert!(rt; kind_named("cause").is_none());
}
