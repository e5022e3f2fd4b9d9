//! Tests the printed text of polling rounds that succeed or fail, and the outcomes of their polls.
use crate::links::{IdleLink, replies};
use crate::offices::{inv, office_after};
use crate::rounds::{ANSWERED, Done, Ends, LOST, ONE_BY_ONE, ends, listed, round};
use crate::tried::{Trial, try_in_memory};
use crate::writers::Narrow;
use mb_wire::sockets::FixedClock;
use mb_wire::{Link, MemoryLink};
use office_books::Books;
use office_core::Office;
use office_events::{Name, Refusal};
use office_program::{RoundFault, round_over};
use poll_core::{LostCause, Outcome};
use std::alloc::Global;
use std::process::Abort;
use std::str;

const BOTH_ANSWERED: &str = "ok
started 1 1 2 00000000000601030000007d
poll 1 answered
ok
started 2 1 2 0001000000060103007d0001
poll 2 answered
ok
ok
";

const GONE: &str = "ok
started 1 1 2 00000000000601030000007d
poll 1 lost 1
ok
";

// The printed text of a polling round if the device does not respond within its timeout of five
// seconds.
const SILENT: &str = "ok
started 1 1 2 00000000000601030000007d
ok
poll 1 silent
ok
started 2 1 2 0001000000060103007d0001
ok
poll 2 silent
ok
ok
";

const BROKEN_OFF: &str = "ok
started 1 1 2 00000000000601030000007d
poll 1 lost 3
ok
";

const SECOND_LOST: &str = "ok
started 1 1 2 00000000000601030000007d
poll 1 answered
ok
started 2 1 2 0001000000060103007d0001
poll 2 lost 3
ok
";

/// The behavior of the device that a test simulates in a polling round: it responds, closes the
/// connection, accepts no bytes, or sends nothing.
#[derive(Clone, Copy)]
enum Does {
    /// The device responds to both Modbus reads. If a number is given, the call with this number to
    /// the link (the connection to the device) fails.
    Replies(Option<u64>),
    /// The device closes the connection without a response.
    Ends,
    /// The device accepts no bytes.
    TakesNothing,
    /// The device does not respond.
    IsSilent,
}

/// A test case: the behavior of the device, the times of the clock, the expected result of the
/// polling round, its printed text, and the outcomes of its polls.
type Case = (
    Does,
    &'static [u64],
    Result<(), RoundFault>,
    &'static str,
    Ends,
);

const NOT_FOUND: Result<(), RoundFault> = Err(RoundFault::Refused(Refusal::NotFound));

const SET_BACK: Result<(), RoundFault> = Err(RoundFault::Refused(Refusal::ClockBack));

const PAST_THE_LAST: Result<(), RoundFault> = Err(RoundFault::Refused(Refusal::Limit));

const LINK: Result<(), RoundFault> = Err(RoundFault::Link);

const WENT: Option<Option<Outcome>> = Some(Some(Outcome::Lost(LostCause::Gone)));

const WAS_SILENT: Option<Option<Outcome>> = Some(Some(Outcome::Silent));

const NONE: Ends = [None, None, None];

const BOTH: Ends = [ANSWERED, ANSWERED, None];

const FIRST: Ends = [LOST, None, None];

const SECOND: Ends = [ANSWERED, LOST, None];

static CASES: [Case; 11] = [
    // In this case the device responds to each Modbus read of the plan (the reads that cover the
    // device's points).
    (
        Does::Replies(None),
        &[1000, 1001],
        Ok(()),
        BOTH_ANSWERED,
        BOTH,
    ),
    // The device closes the connection before it responds.
    (Does::Ends, &[1000], Ok(()), GONE, [WENT, None, None]),
    // The device does not respond, and each Modbus read of the device's plan (the reads that cover
    // its point list) is still sent.
    (
        Does::IsSilent,
        &[1000, 1000, 1004, 1005, 1005, 1009, 1010],
        Ok(()),
        SILENT,
        [WAS_SILENT, WAS_SILENT, None],
    ),
    // The clock was set back, or shows a time after the latest supported one. The time is refused,
    // so the pending poll is lost.
    (
        Does::IsSilent,
        &[1000, 1002, 1001],
        SET_BACK,
        BROKEN_OFF,
        FIRST,
    ),
    (
        Does::IsSilent,
        &[1000, 1002, 4_102_444_801],
        PAST_THE_LAST,
        BROKEN_OFF,
        FIRST,
    ),
    // In the first four of these test cases, one of the four calls to the link (the connection to
    // the device) fails. The polling round makes one write and one read for each of its two polls.
    // In the fifth case no call fails, because the round makes no fifth call.
    (Does::Replies(Some(1)), &[1000], LINK, BROKEN_OFF, FIRST),
    (Does::Replies(Some(2)), &[1000], LINK, BROKEN_OFF, FIRST),
    (Does::Replies(Some(3)), &[1000], LINK, SECOND_LOST, SECOND),
    (Does::Replies(Some(4)), &[1000], LINK, SECOND_LOST, SECOND),
    (Does::Replies(Some(5)), &[1000], Ok(()), BOTH_ANSWERED, BOTH),
    // If a write transfers no bytes, it counts as a failure of the link (the connection to the
    // device).
    (Does::TakesNothing, &[1000], LINK, BROKEN_OFF, FIRST),
];

// Executes a polling round over a link (a connection to a device) in memory with this input. One
// call to the link may fail. Returns the number of failed calls.
fn round_over_memory<B: Books>(
    alloc: Global,
    office: &mut Office<B>,
    times: &[u64],
    input: &[u8],
    given: &mut [u8],
    failing: Option<u64>,
) -> (Done, u64) {
    let mut link = MemoryLink::new(input, given, 259, failing);
    let done = round(alloc, office, &mut link, times);
    (done, link.failures())
}

// Executes a polling round with a device that behaves as `does` says. Returns the number of failed
// calls to the link (the connection to the device).
fn round_of<B: Books>(
    alloc: Global,
    office: &mut Office<B>,
    does: Does,
    times: &[u64],
    input: &[u8],
) -> (Done, u64) {
    let mut given = [0; 24];
    match does {
        Does::Replies(failing) => {
            round_over_memory(alloc, office, times, input, &mut given, failing)
        }
        Does::Ends => round_over_memory(alloc, office, times, &[], &mut given, None),
        Does::TakesNothing => round_over_memory(alloc, office, times, &[], &mut [], None),
        Does::IsSilent => {
            let mut link = IdleLink::new();
            let done = round(alloc, office, &mut link, times);
            (done, link.failures())
        }
    }
}

pub(crate) fn assert_case<B: Books>(rt: &impl Abort, alloc: Global, books: B, place: usize) {
    let input = replies(rt, alloc);
    let case = CASES.get(place).expect(rt, "a case");
    let (does, times, wanted, printed, polls) = *case;
    let mut office = listed(rt, alloc, books, ONE_BY_ONE);
    let (done, failures) = round_of(alloc, &mut office, does, times, &input);
    assert!(rt; done.done == wanted, "{printed}");
    assert!(rt; str::from_utf8(&done.printed) == Ok(printed), "{printed}");
    assert!(rt; ends(&mut office) == polls, "{printed}");
    assert!(rt; failures == u64::from(wanted == LINK), "{printed}");
}

static FRAMES: &[u8] =
    b"\x00\x00\x00\x00\x00\x06\x01\x03\x00\x00\x00\x7d\x00\x01\x00\x00\x00\x06\x01\x03\x00\x7d\x00\x01";

// Asserts that a polling round sends each Modbus read of the device's plan (the reads that cover
// its point list) once. This holds even if responses arrive in chunks of `piece` bytes.
pub(crate) fn assert_pieces<B: Books>(rt: &impl Abort, alloc: Global, books: B, piece: usize) {
    let input = replies(rt, alloc);
    let mut office = listed(rt, alloc, books, ONE_BY_ONE);
    let mut given = [0; 24];
    let mut link = MemoryLink::new(&input, &mut given, piece.max(1), None);
    let done = round(alloc, &mut office, &mut link, &[1000]);
    assert!(rt; done.done == Ok(()), "{piece}");
    assert!(rt; link.given() == FRAMES, "{piece}");
    assert!(rt; ends(&mut office) == BOTH, "{piece}");
}

// Asserts that a polling round is refused for an unknown device, and for a device without a point
// list. For the latter, the connection and its end are accepted.
pub(crate) fn assert_not_found<B: Books>(rt: &impl Abort, alloc: Global, books: B) {
    let mut office = office_after(rt, alloc, books, &[ONE_BY_ONE]);
    for _round in 0..2 {
        let done = round(alloc, &mut office, &mut IdleLink::new(), &[1000]);
        assert!(rt; done.done == NOT_FOUND);
        assert!(rt; str::from_utf8(&done.printed) == Ok("ok\nok\n"));
    }
    for name in [Name::new(b"none"), Name::new(b"9")] {
        let mut link = IdleLink::new();
        let done = round_into(alloc, &mut office, &mut link, name, 0);
        assert!(rt; done == NOT_FOUND);
    }
}

// Executes a polling round whose output writer accepts `room` bytes.
fn round_into<B: Books, L: Link>(
    alloc: Global,
    office: &mut Office<B>,
    link: &mut L,
    name: Option<Name>,
    room: usize,
) -> Result<(), RoundFault> {
    let mut clock = FixedClock::new(&[1000]);
    let mut output = Narrow { room };
    round_over(alloc, link, office, name, &mut clock, &mut output)
}

// Asserts that a polling round fails if its output writer accepts too few bytes.
pub(crate) fn assert_narrow<B: Books>(
    rt: &impl Abort,
    alloc: Global,
    books: B,
    room: usize,
    polls: Ends,
) {
    let input = replies(rt, alloc);
    let mut office = listed(rt, alloc, books, ONE_BY_ONE);
    let mut given = [0; 24];
    let mut link = MemoryLink::new(&input, &mut given, 259, None);
    let done = round_into(alloc, &mut office, &mut link, inv(), room);
    assert!(rt; done == Err(RoundFault::Output), "room for {room}");
    assert!(rt; ends(&mut office) == polls, "room for {room}");
}

// Asserts that a polling round ends after it has read 100,000 times from its link (the connection
// to the device).
pub(crate) fn assert_takes<B: Books>(rt: &impl Abort, alloc: Global, books: B) {
    let mut office = listed(rt, alloc, books, ONE_BY_ONE);
    let mut link = IdleLink::new();
    let done = round(alloc, &mut office, &mut link, &[1000]);
    assert!(rt; done.done == Err(RoundFault::TurnsUsed));
    assert!(rt; link.takes() == 100_000);
    assert!(rt; ends(&mut office) == [LOST, None, None]);
}

/// Each polling round of the test cases has the expected result, printed text and outcomes of
/// polls.
#[test]
fn rounds_end_so(rt: HostRuntime) {
    for place in 0..CASES.len() {
        try_in_memory(&rt, rt.alloc(), Trial::Round(place));
    }
}

/// If responses arrive complete or one byte at a time, then a polling round succeeds.
#[test]
fn replies_come_byte_by_byte(rt: HostRuntime) {
    for piece in [259, 1] {
        try_in_memory(&rt, rt.alloc(), Trial::Pieces(piece));
    }
}

/// If a device is unknown or has no point list, then its polling round is refused.
#[test]
fn a_device_that_is_not_found_is_refused(rt: HostRuntime) {
    try_in_memory(&rt, rt.alloc(), Trial::NoDevice);
}

/// A polling round ends at the first output line that cannot be written. The line is `ok`, the
/// started poll, or the answered poll.
#[test]
fn each_line_may_fail(rt: HostRuntime) {
    for (room, polls) in [(2, NONE), (20, FIRST), (50, [ANSWERED, None, None])] {
        try_in_memory(&rt, rt.alloc(), Trial::Narrow(room, polls));
    }
}

/// A polling round ends after 100,000 reads from its link (the connection to the device).
#[test]
fn a_round_has_so_many_takes(rt: HostRuntime) {
    try_in_memory(&rt, rt.alloc(), Trial::Takes);
}
