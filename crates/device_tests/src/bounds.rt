//! Tests a polling session with the least and the greatest window (1 and 16 pending polls) and
//! timeout (1 and 60 seconds).
use crate::first_poll::first_poll;
use crate::session_script::{Asked, Event, GOOD, Line, play, refuse, start};
use poll_core::{Outcome, Session, StartFault};
use std::process::Abort;

// Starts as many polls as the window (the limit on pending polls) allows, and asserts that one more
// poll is refused.
fn fill(rt: &impl Abort, session: &mut Session, window: u8) {
    for number in 0..window {
        let asked = Asked {
            moment: 1000,
            poll: u64::from(number),
            address: 0,
            count: 1,
            frame: [0, number, 0, 0, 0, 6, 1, 3, 0, 0, 0, 1],
        };
        start(rt, session, &asked);
    }
    refuse(rt, session, 1000, StartFault::WindowFull)
}

/// A window (a limit on pending polls) of 1 or of 16 allows exactly this number of pending polls.
#[test]
fn windows_hold_1_to_16_polls(rt: HostRuntime) {
    fill(&rt, &mut Session::new(5, 1), 1);
    fill(&rt, &mut Session::new(5, 16), 16)
}

/// Each timeout in seconds, with the session events of a poll that is started at time 100. The
/// events are in the last second before the deadline and at the deadline.
static TIMEOUTS: [(u64, &[Line]); 4] = [
    (
        1,
        &[
            Line {
                event: Event::Tick { moment: 100 },
                reported: &[],
            },
            Line {
                event: Event::Tick { moment: 101 },
                reported: &[(1, Outcome::Silent)],
            },
        ],
    ),
    (
        1,
        &[
            Line {
                event: Event::Piece {
                    moment: 100,
                    bytes: &GOOD,
                },
                reported: &[(1, Outcome::Answered)],
            },
            Line {
                event: Event::Tick { moment: 101 },
                reported: &[],
            },
        ],
    ),
    (
        60,
        &[
            Line {
                event: Event::Tick { moment: 159 },
                reported: &[],
            },
            Line {
                event: Event::Tick { moment: 160 },
                reported: &[(1, Outcome::Silent)],
            },
        ],
    ),
    (
        60,
        &[
            Line {
                event: Event::Piece {
                    moment: 159,
                    bytes: &GOOD,
                },
                reported: &[(1, Outcome::Answered)],
            },
            Line {
                event: Event::Tick { moment: 160 },
                reported: &[],
            },
        ],
    ),
];

/// A poll with a timeout of 1 or of 60 seconds times out exactly at its deadline.
#[test]
fn polls_wait_for_1_to_60_seconds(rt: HostRuntime) {
    for (timeout, lines) in &TIMEOUTS {
        let mut session = first_poll(&rt, *timeout, 1);
        play(&rt, rt.alloc(), &mut session, lines);
    }
}
