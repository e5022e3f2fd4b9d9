//! Tests a polling session that ends after four bytes of the response to its first poll.
use crate::first_poll::play_at_windows;
use crate::session_script::{Event, Line};
use poll_core::{Closing, LostCause, Outcome, StartFault};

const FOUR_BYTES: Line = Line {
    event: Event::Piece {
        moment: 104,
        bytes: &[0, 0, 0, 0],
    },
    reported: &[],
};

const NO_START: Line = Line {
    event: Event::Refused {
        moment: 105,
        fault: StartFault::Closed,
    },
    reported: &[],
};

const NO_ROOM: Line = Line {
    event: Event::Ready { id: 1, count: 0 },
    reported: &[],
};

static ENDS: [[Line; 4]; 3] = [
    [
        FOUR_BYTES,
        Line {
            event: Event::Close {
                moment: 104,
                closing: Closing::Gone,
            },
            reported: &[(1, Outcome::Lost(LostCause::Gone))],
        },
        NO_START,
        NO_ROOM,
    ],
    [
        FOUR_BYTES,
        Line {
            event: Event::Close {
                moment: 104,
                closing: Closing::Failed,
            },
            reported: &[(1, Outcome::Lost(LostCause::Failed))],
        },
        NO_START,
        NO_ROOM,
    ],
    [
        FOUR_BYTES,
        Line {
            event: Event::Close {
                moment: 105,
                closing: Closing::Gone,
            },
            reported: &[(1, Outcome::Silent)],
        },
        NO_START,
        NO_ROOM,
    ],
];

/// When a polling session ends, all pending polls are lost.
#[test]
fn the_end_of_a_session_loses_polls(rt: HostRuntime) {
    for lines in &ENDS {
        play_at_windows(&rt, rt.alloc(), lines);
    }
}
