//! Tests polling rounds over a store that fails at a chosen call.
use crate::failures::assert_stopped;
use crate::links::replies;
use crate::offices::opened;
use crate::rounds::{ANSWERED, Ends, ONE_BY_ONE, RESTARTED, ends, listed, round};
use crate::tried::{Trial, try_failing};
use mb_wire::MemoryLink;
use office_books::Books;
use office_events::{Refusal, StoreCause};
use office_program::RoundFault;
use std::alloc::Global;
use std::process::Abort;

// The expected fault of a polling round whose store fails.
const REFUSED: Result<(), RoundFault> = Err(RoundFault::Refused(Refusal::Store(
    StoreCause::Refused,
)));

const STOPPED: Result<(), RoundFault> = Err(RoundFault::Refused(Refusal::Stopped));

const NONE: Ends = [None, None, None];

// The expected outcomes of the polls after a failure and a restart. The store fails when the first
// start, the first response, the second start or the second response is recorded.
static LEFT: [Ends; 4] = [
    NONE,
    [RESTARTED, None, None],
    [ANSWERED, None, None],
    [ANSWERED, RESTARTED, None],
];

// Numbers that a test reports instead of an index in `LEFT` (a table of expected outcomes).
// `NOT_REFUSED` means that no call to the store failed. `NOT_BROKEN` means that the chosen call
// failed before the polling round began.
const NOT_REFUSED: u64 = 10;

const NOT_BROKEN: u64 = 11;

fn place_of(left: Ends) -> u64 {
    let mut place = 0u64;
    for polls in LEFT {
        if polls == left {
            return place;
        }
        place = place.saturating_add(1);
    }
    place
}

/// Executes a polling round over a store that fails at a chosen call. If an event before the round
/// fails, it is processed again.
///
/// If the call that records a poll's start fails, no poll is pending, and a restart adds no
/// outcome. If the call that records a response fails, every event is refused until a restart,
/// which loses the poll. Returns the index in `LEFT` of the outcomes after the restart.
pub(crate) fn refuse_call<B: Books>(rt: &impl Abort, alloc: Global, books: B) -> u64 {
    let mut office = listed(rt, alloc, books, ONE_BY_ONE);
    let mut given = [0; 24];
    let input = replies(rt, alloc);
    let mut link = MemoryLink::new(&input, &mut given, 259, None);
    let done = round(alloc, &mut office, &mut link, &[1000]).done;
    if matches!(office.poll(1), Err(Refusal::Stopped)) {
        assert_stopped(rt, alloc, &mut office);
        let again = round(alloc, &mut office, &mut link, &[1000]).done;
        assert!(rt; again == STOPPED);
    }
    let polls = ends(&mut office);
    let books = office.into_books();
    if books.faults() == 0 {
        return NOT_REFUSED;
    }
    if done == Ok(()) {
        return NOT_BROKEN;
    }
    assert!(rt; done == REFUSED);
    let left = ends(&mut opened(rt, alloc, books, 5000));
    assert!(rt; polls == NONE || polls == left);
    place_of(left)
}

/// If the store fails, the polling round ends, and the outcomes of completed polls remain recorded.
#[test]
fn failing_books_break_the_round_off(rt: HostRuntime) {
    let mut last = 0;
    for number in 1..1000 {
        let left = try_failing(&rt, rt.alloc(), number, Trial::RefusedRound);
        if left == NOT_REFUSED {
            assert!(rt; last == 3);
            return;
        }
        if left != NOT_BROKEN {
            assert!(rt; left == last || left == last.saturating_add(1));
            last = left;
        }
    }
    panic!(rt; "a call fails each time");
}
