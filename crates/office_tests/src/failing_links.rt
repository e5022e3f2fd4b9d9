//! Tests polling rounds in which a chosen call to the link (the connection to the device) fails.
use crate::links::replies;
use crate::offices::opened;
use crate::rounds::{ANSWERED, BOTH_AT_ONCE, Ends, LOST, ends, listed, round};
use crate::tried::{Trial, try_in_memory};
use mb_wire::MemoryLink;
use office_books::Books;
use office_program::RoundFault;
use std::alloc::Global;
use std::process::Abort;

// The number of calls to the link (the connection to the device) in one polling round, if the link
// transfers at most 7 bytes in each call. The two requests of the round together need 4 calls, the
// first response needs 37, and the second response needs 2.
const CALLS: u64 = 43;

const UP_TO_FIRST: u64 = 41;

// Returns true if the polls have the outcomes that are expected if call `number` to the link (the
// connection to the device) fails.
fn are_ends(polls: Ends, number: u64) -> bool {
    if number <= UP_TO_FIRST {
        polls == [LOST, LOST, None]
    } else if number <= CALLS {
        polls == [ANSWERED, LOST, None]
    } else {
        polls == [ANSWERED, ANSWERED, None]
    }
}

/// Runs a polling round whose two polls are pending at the same time, and in which call `number` to
/// the link (the connection to the device) fails. The call fails only if the round makes so many
/// calls. Asserts that the round then fails with the fault `Link`, that each pending poll is lost,
/// and that a restart changes no outcome.
pub(crate) fn fail_call<B: Books>(rt: &impl Abort, alloc: Global, books: B, number: u64) {
    let mut office = listed(rt, alloc, books, BOTH_AT_ONCE);
    let mut given = [0; 24];
    let input = replies(rt, alloc);
    let mut link = MemoryLink::new(&input, &mut given, 7, Some(number));
    let done = round(alloc, &mut office, &mut link, &[1000]).done;
    let wanted = if number <= CALLS {
        Err(RoundFault::Link)
    } else {
        Ok(())
    };
    assert!(rt; done == wanted, "call {number}");
    assert!(rt; are_ends(ends(&mut office), number), "call {number}");
    let mut again = opened(rt, alloc, office.into_books(), 5000);
    assert!(rt; are_ends(ends(&mut again), number), "call {number}");
}

/// If any call to the link (the connection to the device) fails, all polls that are then pending in
/// the polling round are lost.
#[test]
fn a_failing_link_loses_what_waits(rt: HostRuntime) {
    for number in 1..=CALLS + 1 {
        try_in_memory(&rt, rt.alloc(), Trial::Link(number));
    }
}
