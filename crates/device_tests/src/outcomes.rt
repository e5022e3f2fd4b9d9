//! Tests the numeric codes of poll outcomes, and of the faults with which a poll can't start.
use mb_wire::ReplyFault;
use poll_core::{Closing, LostCause, Malformation, Outcome, StartFault};

struct Numbered {
    outcome: Outcome,
    number: u8,
    code: u8,
}

macro_rules! numbered {
    ($outcome:expr, $number:expr, $code:expr) => {
        Numbered {
            outcome: $outcome,
            number: $number,
            code: $code,
        }
    };
}

static OUTCOMES: [Numbered; 12] = [
    numbered!(Outcome::Answered, 1, 0),
    numbered!(Outcome::Exception(6), 2, 6),
    numbered!(Outcome::Silent, 3, 0),
    numbered!(Outcome::Malformed(Malformation::WrongFunction), 4, 1),
    numbered!(Outcome::Malformed(Malformation::WrongLength), 4, 2),
    numbered!(Outcome::Malformed(Malformation::WrongByteCount), 4, 3),
    numbered!(Outcome::Malformed(Malformation::WrongEcho), 4, 4),
    numbered!(Outcome::Malformed(Malformation::WrongUnit), 4, 5),
    numbered!(Outcome::Lost(LostCause::Gone), 5, 1),
    numbered!(Outcome::Lost(LostCause::Garbled), 5, 2),
    numbered!(Outcome::Lost(LostCause::Failed), 5, 3),
    numbered!(Outcome::Lost(LostCause::Restart), 5, 4),
];

static FAULTS: [(StartFault, u8); 4] = [
    (StartFault::WindowFull, 1),
    (StartFault::IdBusy, 2),
    (StartFault::ClockBack, 3),
    (StartFault::Closed, 4),
];

/// Each outcome of a poll has its expected numeric code, and its expected detail code (such as a
/// Modbus exception code).
#[test]
fn outcomes_have_numbers(rt: HostRuntime) {
    for (i, it) in OUTCOMES.iter().enumerate() {
        let is_so = it.outcome.number() == it.number && it.outcome.code() == it.code;
        assert!(rt; is_so, "outcome {i}");
    }
}

/// Each fault with which a poll can't start has its expected numeric code.
#[test]
fn refusals_have_numbers(rt: HostRuntime) {
    for (fault, number) in &FAULTS {
        assert!(rt; fault.number() == *number, "{number}");
    }
}

/// The detail code of a malformed outcome is the numeric code of the response's fault. The detail
/// code of a lost outcome is the numeric code of its cause.
#[test]
fn malformations_and_losses_follow_their_causes(rt: HostRuntime) {
    assert!(rt; Malformation::from(ReplyFault::WrongEcho).number() == 4);
    assert!(rt; LostCause::from(Closing::Gone).number() == 1);
    assert!(rt; LostCause::from(Closing::Failed).number() == 3);
}
