//! Tests how an event from a device (such as its response) is processed, together with the events
//! that the polling rounds then generate.
use crate::benches::{Bench, Moment, Step, play};
use crate::observer::Seen;
use crate::offices::new_books;
use office_program::Stage;
use poll_core::Closing;
use std::alloc::Global;
use std::process::Abort;

fn seen(rt: &impl Abort, alloc: Global, moments: &[Moment]) -> Bench<Seen> {
    play(rt, alloc, new_books(rt, alloc), moments, Seen::new(alloc))
}

// Test cases: events, the text that the observer must have recorded, and the number of bytes in all
// Modbus request frames. The request of each read is a frame of 12 bytes.
static TURNS: [(&[Moment], &str, usize); 7] = [
    // A device is polled until the end of its polling round.
    (
        &[
            (1001, Step::Stands(0)),
            (1002, Step::First(0)),
            (1003, Step::Second(0)),
        ],
        "0C 0S 0Ba 0S 0Ba 0G ",
        24,
    ),
    // Two devices are polled at the same time.
    (
        &[
            (1001, Step::Stands(1)),
            (1001, Step::Stands(0)),
            (1002, Step::First(1)),
            (1002, Step::First(0)),
            (1002, Step::Second(0)),
            (1002, Step::Second(1)),
        ],
        "1C 1S 0C 0S 1Ba 1S 0Ba 0S 0Ba 0G 1Ba 1G ",
        48,
    ),
    // One timer event makes two pending polls time out.
    (
        &[
            (1001, Step::Stands(0)),
            (1001, Step::Stands(1)),
            (1003, Step::Tick),
            (1006, Step::Tick),
            (1011, Step::Tick),
        ],
        "0C 0S 1C 1S T Tss 0S 1S Tss 0G 1G ",
        48,
    ),
    // The end of a connection loses only the polls of the connection's device.
    (
        &[
            (1001, Step::Stands(0)),
            (1001, Step::Stands(1)),
            (1002, Step::Ended(0, Closing::Failed)),
            (1002, Step::Ended(0, Closing::Gone)),
            (1003, Step::First(1)),
        ],
        "0C 0S 1C 1S 0Fl 1Ba 1S ",
        36,
    ),
    // A test case for polling rounds: a device connects again after its connection failed.
    (
        &[
            (1001, Step::Stands(0)),
            (1002, Step::Ended(0, Closing::Failed)),
            (1003, Step::Stands(0)),
        ],
        "0C 0S 0Fl 0C 0S ",
        24,
    ),
    // Events from devices that are not being polled, and from a device index that does not exist,
    // are ignored.
    (
        &[
            (1001, Step::First(0)),
            (1001, Step::Stands(2)),
            (1001, Step::Ended(1, Closing::Gone)),
        ],
        "",
        0,
    ),
    // An event with a time before the latest time ends the polling round. The command `sunreg run`
    // never causes such an event, because `SteadyClock` prevents it.
    (
        &[(1001, Step::Stands(0)), (999, Step::First(0))],
        "0C 0S 0B! 0F! ",
        12,
    ),
];

/// A device event is processed first. Then the polling rounds generate further events, such as the
/// start of the next poll, and these further events are processed.
#[test]
fn turns_feed_what_rounds_wish(rt: HostRuntime) {
    for (moments, text, frames) in TURNS {
        let bench = seen(&rt, rt.alloc(), moments);
        assert!(rt; bench.observer.text.as_str() == text);
        assert!(rt; bench.observer.frames == frames, "{text}");
    }
}

// Returns the stage of the polling round (such as waiting for responses) of the device with this
// index.
fn stage(bench: &Bench<Seen>, place: usize) -> Option<Stage> {
    let round = bench.rounds.get(place)?;
    Some(round.stage)
}

/// A device that connected a second time waits for responses, as in the fifth of the test cases
/// `TURNS`.
#[test]
fn a_device_that_came_again_waits(rt: HostRuntime) {
    let bench = seen(&rt, rt.alloc(), TURNS[4].0);
    assert!(rt; stage(&bench, 0) == Some(Stage::Waiting));
    assert!(rt; stage(&bench, 1) == Some(Stage::Off));
    assert!(rt; stage(&bench, 2) == None);
}
