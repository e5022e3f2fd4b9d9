//! Runs the tests that are generic over the store. Only this module runs such tests over a store in
//! memory, because each call of them takes seconds to prove.
use crate::offices::books_failing_at;
use crate::rounds::Ends;
use crate::{
    failing_links, failures, kept_answers, parts, refusing_books, requests, round_cases, site,
};
use office_books::Books;
use std::alloc::Global;
use std::process::Abort;

/// A test that runs over any implementation of the store (the trait `Books`).
#[derive(Clone, Copy)]
pub(crate) enum Trial {
    /// The test that executes a script (a text of timed events and commands) over a store that may
    /// fail.
    Script,
    /// A polling round over a store that fails at a chosen call.
    RefusedRound,
    /// A polling round in which the call with this number to the link (the connection to the
    /// device) fails.
    Link(u64),
    /// The polling round of the test case with this index.
    Round(usize),
    /// A polling round whose responses arrive in chunks of this number of bytes.
    Pieces(usize),
    /// Polling rounds of devices that do not exist or that have no point list.
    NoDevice,
    /// A polling round whose output writer accepts only this number of bytes, and the expected
    /// outcomes of its polls.
    Narrow(usize, Ends),
    /// A polling round that reads from its link (the connection to the device) until the maximum
    /// number of reads, and ends with the fault `TurnsUsed`.
    Takes,
    /// Test steps over a store with a cache of lookup results.
    Kept,
    /// A query for the accounting registers (named counters) of a Modbus read, by the read's index
    /// in a list of test cases.
    Read(usize),
    Site,
    Names,
    Parts,
    Changes,
    Requests,
}

/// Runs a test over a store, and returns the number that the test's function returns, or 0 if the
/// function returns nothing.
fn try_over<B: Books>(rt: &impl Abort, alloc: Global, books: B, trial: Trial) -> u64 {
    match trial {
        Trial::Script => return failures::play(rt, alloc, books),
        Trial::RefusedRound => return refusing_books::refuse_call(rt, alloc, books),
        Trial::Kept => return kept_answers::play_all(rt, alloc, books),
        Trial::Read(place) => return kept_answers::read_twice(rt, alloc, books, place),
        Trial::Site => return site::ask(rt, alloc, books),
        Trial::Link(number) => failing_links::fail_call(rt, alloc, books, number),
        Trial::Round(place) => round_cases::assert_case(rt, alloc, books, place),
        Trial::Pieces(piece) => round_cases::assert_pieces(rt, alloc, books, piece),
        Trial::NoDevice => round_cases::assert_not_found(rt, alloc, books),
        Trial::Narrow(room, polls) => round_cases::assert_narrow(rt, alloc, books, room, polls),
        Trial::Takes => round_cases::assert_takes(rt, alloc, books),
        Trial::Names => site::look_up(rt, alloc, books),
        Trial::Parts => parts::ask_parts(rt, alloc, books),
        Trial::Changes => parts::ask_changed(rt, alloc, books),
        Trial::Requests => requests::play(rt, alloc, books),
    }
    0
}

/// Runs a test over a store in memory that fails at the call with the number `failing`. If
/// `failing` is 0, no call fails.
pub(crate) fn try_failing(rt: &impl Abort, alloc: Global, failing: u64, trial: Trial) -> u64 {
    try_over(rt, alloc, books_failing_at(rt, alloc, failing), trial)
}

/// Runs a test over a store in memory that does not fail.
pub(crate) fn try_in_memory(rt: &impl Abort, alloc: Global, trial: Trial) {
    let _returned = try_failing(rt, alloc, 0, trial);
}
