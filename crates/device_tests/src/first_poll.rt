//! Tests the events of a polling session whose first poll was started at time 100.
use crate::session_script::{Asked, Event, GOOD, Line, assert_ready, feed, play, start};
use poll_core::{LostCause, Malformation, Outcome, Session};
use std::alloc::Global;
use std::process::Abort;

/// The first poll of the polling session, which reads 3 registers from address 40094.
static FIRST: Asked = Asked {
    moment: 100,
    poll: 1,
    address: 40094,
    count: 3,
    frame: [0, 0, 0, 0, 0, 6, 1, 3, 0x9c, 0x9e, 0, 3],
};

/// Creates a polling session with this timeout in seconds and this window (limit on pending polls),
/// and starts the first poll.
pub fn first_poll(rt: &impl Abort, timeout: u64, window: usize) -> Session {
    assert!(rt; 1 <= timeout && timeout <= 60);
    assert!(rt; 1 <= window && window <= 16);
    let mut session = Session::new(timeout, window);
    start(rt, &mut session, &FIRST);
    session
}

/// Responses to a poll with a timeout of 5 seconds that was started at time 100.
static REPLIES: [[Line; 2]; 4] = [
    [
        Line {
            event: Event::Piece {
                moment: 104,
                bytes: &GOOD,
            },
            reported: &[(1, Outcome::Answered)],
        },
        // A second response with the transaction identifier of the first response belongs to no
        // pending poll.
        Line {
            event: Event::Piece {
                moment: 104,
                bytes: &GOOD,
            },
            reported: &[],
        },
    ],
    // A response that arrives at the deadline of the poll, which then times out.
    [
        Line {
            event: Event::Piece {
                moment: 105,
                bytes: &GOOD,
            },
            reported: &[(1, Outcome::Silent)],
        },
        Line {
            event: Event::Tick { moment: 106 },
            reported: &[],
        },
    ],
    // Two copies of one response in one chunk of the stream.
    [
        Line {
            event: Event::Piece {
                moment: 104,
                bytes: &[
                    0, 0, 0, 0, 0, 9, 1, 3, 6, 0, 0, 20, 80, 0, 0, 0, 0, 0, 0, 0, 9, 1, 3, 6, 0, 0,
                    20, 80, 0, 0,
                ],
            },
            reported: &[(1, Outcome::Answered)],
        },
        Line {
            event: Event::Piece {
                moment: 104,
                bytes: &GOOD,
            },
            reported: &[],
        },
    ],
    // A response with the transaction identifier 9, which none of the session's polls has. The
    // first poll is still without an outcome after this response.
    [
        Line {
            event: Event::Piece {
                moment: 104,
                bytes: &[0, 9, 0, 0, 0, 9, 1, 3, 6, 0, 0, 20, 80, 0, 0],
            },
            reported: &[],
        },
        Line {
            event: Event::Piece {
                moment: 104,
                bytes: &GOOD,
            },
            reported: &[(1, Outcome::Answered)],
        },
    ],
];

static OTHER_FRAMES: [[Line; 1]; 6] = [
    [Line {
        event: Event::Piece {
            moment: 104,
            bytes: &[0, 0, 0, 0, 0, 3, 1, 0x83, 6],
        },
        reported: &[(1, Outcome::Exception(6))],
    }],
    [Line {
        event: Event::Piece {
            moment: 104,
            bytes: &[0, 0, 0, 0, 0, 3, 2, 0x83, 6],
        },
        reported: &[(1, Outcome::Malformed(Malformation::WrongUnit))],
    }],
    [Line {
        event: Event::Piece {
            moment: 104,
            bytes: &[0, 0, 0, 0, 0, 3, 1, 0x84, 2],
        },
        reported: &[(1, Outcome::Malformed(Malformation::WrongFunction))],
    }],
    [Line {
        event: Event::Piece {
            moment: 104,
            bytes: &[0, 0, 0, 0, 0, 4, 1, 0x83, 2, 0],
        },
        reported: &[(1, Outcome::Malformed(Malformation::WrongLength))],
    }],
    [Line {
        event: Event::Piece {
            moment: 104,
            bytes: &[0, 0, 0, 0, 0, 7, 1, 3, 4, 0, 0, 0, 0],
        },
        reported: &[(1, Outcome::Malformed(Malformation::WrongByteCount))],
    }],
    [Line {
        event: Event::Piece {
            moment: 104,
            bytes: &[0, 0, 0, 0, 0, 1],
        },
        reported: &[(1, Outcome::Lost(LostCause::Garbled))],
    }],
];

/// Plays the events on polling sessions after their first poll was started. The timeout is 5
/// seconds, and the windows (limits on pending polls) are 1, 2 and 16.
pub fn play_at_windows(rt: &impl Abort, alloc: Global, lines: &[Line]) {
    for window in [1, 2, 16] {
        let mut session = first_poll(rt, 5, window);
        play(rt, alloc, &mut session, lines);
    }
}

/// Feeds the response to the first poll to the polling session byte by byte, and asserts that only
/// the last byte completes the poll.
fn feed_bytes(rt: &impl Abort, alloc: Global, session: &mut Session) {
    for (i, byte) in GOOD.iter().enumerate() {
        let reported = feed(rt, alloc, session, 104, &[*byte]);
        assert!(rt; reported.len() == usize::from(i == 14), "byte {i}");
    }
}

/// A response before the deadline completes the poll exactly once.
#[test]
fn a_reply_in_time_answers(rt: HostRuntime) {
    for lines in &REPLIES {
        play_at_windows(&rt, rt.alloc(), lines);
    }
}

/// A frame that is not a valid response to a pending poll does not complete the poll.
#[test]
fn other_frames_are_no_answers(rt: HostRuntime) {
    for lines in &OTHER_FRAMES {
        play_at_windows(&rt, rt.alloc(), lines);
    }
}

/// A response to a poll may arrive byte by byte.
#[test]
fn a_reply_may_come_byte_by_byte(rt: HostRuntime) {
    for window in [1, 2, 16] {
        let mut session = first_poll(&rt, 5, window);
        feed_bytes(&rt, rt.alloc(), &mut session);
    }
}

static REGISTERS: [Option<u16>; 4] = [Some(0), Some(5200), Some(0), None];

/// A completed poll returns the registers of its response to the caller.
#[test]
fn words_are_lent(rt: HostRuntime) {
    let mut session = first_poll(&rt, 5, 1);
    assert!(rt; !session.settling());
    let settled = session.next(104, &GOOD).expect(&rt, "no turn").settled;
    let reply = settled.and_then(|it| it.reply).expect(&rt, "no reply");
    for (i, word) in REGISTERS.iter().enumerate() {
        assert!(rt; reply.word(i) == *word, "register {i}");
    }
}

/// After the polling session's function `next` has returned a completed poll, `settling` is true:
/// the caller must call `next` again for further outcomes.
#[test]
fn a_reported_call_is_under_way(rt: HostRuntime) {
    let mut session = first_poll(&rt, 5, 2);
    assert!(rt; !session.settling());
    assert!(rt; session.next(104, &GOOD).expect(&rt, "no turn").taken == 15);
    assert!(rt; session.settling());
    assert_ready(&rt, &session, 1, 2);
}
