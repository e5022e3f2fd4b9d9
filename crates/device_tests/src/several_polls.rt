//! Tests several polls of one polling session, one after another and at the same time.
use crate::session_script::{Asked, Event, GOOD, Line, play};
use poll_core::{Closing, LostCause, Outcome, Session, StartFault};

static ONE_AFTER_ANOTHER: [Line; 7] = [
    Line {
        event: Event::Start(Asked {
            moment: 1898,
            poll: 1,
            address: 40094,
            count: 3,
            frame: [0, 0, 0, 0, 0, 6, 1, 3, 0x9c, 0x9e, 0, 3],
        }),
        reported: &[],
    },
    Line {
        event: Event::Tick { moment: 1903 },
        reported: &[(1, Outcome::Silent)],
    },
    // A response that arrives after its poll timed out.
    Line {
        event: Event::Piece {
            moment: 1903,
            bytes: &GOOD,
        },
        reported: &[],
    },
    Line {
        event: Event::Start(Asked {
            moment: 1904,
            poll: 2,
            address: 40094,
            count: 3,
            frame: [0, 1, 0, 0, 0, 6, 1, 3, 0x9c, 0x9e, 0, 3],
        }),
        reported: &[],
    },
    Line {
        event: Event::Refused {
            moment: 1903,
            fault: StartFault::WindowFull,
        },
        reported: &[],
    },
    Line {
        event: Event::Close {
            moment: 1905,
            closing: Closing::Gone,
        },
        reported: &[(2, Outcome::Lost(LostCause::Gone))],
    },
    Line {
        event: Event::Refused {
            moment: 1905,
            fault: StartFault::Closed,
        },
        reported: &[],
    },
];

/// The starts of two polls in a polling session with a window (a limit on pending polls) of two.
static TWO_STARTS: [Line; 6] = [
    Line {
        event: Event::Ready { id: 0, count: 2 },
        reported: &[],
    },
    Line {
        event: Event::Start(Asked {
            moment: 1000,
            poll: 1,
            address: 0,
            count: 1,
            frame: [0, 0, 0, 0, 0, 6, 1, 3, 0, 0, 0, 1],
        }),
        reported: &[],
    },
    Line {
        event: Event::Ready { id: 1, count: 1 },
        reported: &[],
    },
    Line {
        event: Event::Start(Asked {
            moment: 1000,
            poll: 2,
            address: 1,
            count: 1,
            frame: [0, 1, 0, 0, 0, 6, 1, 3, 0, 1, 0, 1],
        }),
        reported: &[],
    },
    Line {
        event: Event::Ready { id: 2, count: 0 },
        reported: &[],
    },
    Line {
        event: Event::Refused {
            moment: 1000,
            fault: StartFault::WindowFull,
        },
        reported: &[],
    },
];

static SECOND_FIRST: [Line; 1] = [Line {
    event: Event::Piece {
        moment: 1001,
        bytes: &[
            0, 1, 0, 0, 0, 5, 1, 3, 2, 0, 7, 0, 0, 0, 0, 0, 5, 1, 3, 2, 0, 9,
        ],
    },
    reported: &[(2, Outcome::Answered), (1, Outcome::Answered)],
}];

static BOTH_SILENT: [Line; 1] = [Line {
    event: Event::Tick { moment: 1005 },
    reported: &[(1, Outcome::Silent), (2, Outcome::Silent)],
}];

static THREE_ENDS: [Line; 7] = [
    Line {
        event: Event::Start(Asked {
            moment: 1000,
            poll: 1,
            address: 0,
            count: 1,
            frame: [0, 0, 0, 0, 0, 6, 1, 3, 0, 0, 0, 1],
        }),
        reported: &[],
    },
    Line {
        event: Event::Start(Asked {
            moment: 1002,
            poll: 2,
            address: 0,
            count: 1,
            frame: [0, 1, 0, 0, 0, 6, 1, 3, 0, 0, 0, 1],
        }),
        reported: &[],
    },
    Line {
        event: Event::Start(Asked {
            moment: 1002,
            poll: 3,
            address: 0,
            count: 1,
            frame: [0, 2, 0, 0, 0, 6, 1, 3, 0, 0, 0, 1],
        }),
        reported: &[],
    },
    // The second poll's response, followed by a frame with an invalid length field, at the first
    // poll's deadline.
    Line {
        event: Event::Piece {
            moment: 1005,
            bytes: &[0, 1, 0, 0, 0, 5, 1, 3, 2, 0, 7, 0, 0, 0, 0, 0, 0],
        },
        reported: &[
            (1, Outcome::Silent),
            (2, Outcome::Answered),
            (3, Outcome::Lost(LostCause::Garbled)),
        ],
    },
    Line {
        event: Event::Refused {
            moment: 1005,
            fault: StartFault::Closed,
        },
        reported: &[],
    },
    // Bytes that a polling session receives after an invalid length field are discarded.
    Line {
        event: Event::Piece {
            moment: 1006,
            bytes: &GOOD,
        },
        reported: &[],
    },
    Line {
        event: Event::Close {
            moment: 1006,
            closing: Closing::Gone,
        },
        reported: &[],
    },
];

/// Polls can be started and completed one after another.
#[test]
fn one_poll_after_another(rt: HostRuntime) {
    let mut session = Session::new(5, 1);
    play(&rt, rt.alloc(), &mut session, &ONE_AFTER_ANOTHER)
}

/// Two polls are completed in the order of their responses.
#[test]
fn two_polls_settle_in_the_order_of_their_frames(rt: HostRuntime) {
    let mut session = Session::new(5, 2);
    play(&rt, rt.alloc(), &mut session, &TWO_STARTS);
    play(&rt, rt.alloc(), &mut session, &SECOND_FIRST)
}

/// Two polls time out in the order of their starts.
#[test]
fn two_polls_are_silent_in_the_order_of_their_starts(rt: HostRuntime) {
    let mut session = Session::new(5, 2);
    play(&rt, rt.alloc(), &mut session, &TWO_STARTS);
    play(&rt, rt.alloc(), &mut session, &BOTH_SILENT)
}

/// If one event completes several polls, those that timed out come first, then those with a
/// response, and last those that were lost with their connection.
#[test]
fn silence_comes_before_frames_and_these_before_loss(rt: HostRuntime) {
    let mut session = Session::new(5, 3);
    play(&rt, rt.alloc(), &mut session, &THREE_ENDS)
}
