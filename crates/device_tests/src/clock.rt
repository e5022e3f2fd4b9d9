//! Tests that a polling session refuses events whose time is earlier than that of the previous
//! event, and that it still works afterwards.
use crate::first_poll::first_poll;
use crate::session_script::{Event, GOOD, Line, play};
use poll_core::{ClockBack, Closing, Outcome, StartFault};

/// The events that follow in a polling session after it refused an event with an earlier time than
/// the previous event. The session also refuses to start a poll at such a time. The response to the
/// first poll still completes this poll.
static AFTERWARDS: [Line; 2] = [
    Line {
        event: Event::Refused {
            moment: 99,
            fault: StartFault::ClockBack,
        },
        reported: &[],
    },
    Line {
        event: Event::Piece {
            moment: 100,
            bytes: &GOOD,
        },
        reported: &[(1, Outcome::Answered)],
    },
];

/// A polling session refuses received bytes with an earlier time than the previous event, and does
/// not change.
#[test]
fn a_piece_of_an_earlier_moment_is_refused(rt: HostRuntime) {
    let mut session = first_poll(&rt, 5, 2);
    assert!(rt; !session.settling());
    assert!(rt; session.next(99, &GOOD).err() == Some(ClockBack));
    play(&rt, rt.alloc(), &mut session, &AFTERWARDS)
}

/// A polling session refuses a timer event with an earlier time than the previous event, and does
/// not change.
#[test]
fn a_tick_of_an_earlier_moment_is_refused(rt: HostRuntime) {
    let mut session = first_poll(&rt, 5, 2);
    assert!(rt; !session.settling());
    assert!(rt; session.tick(99).err() == Some(ClockBack));
    play(&rt, rt.alloc(), &mut session, &AFTERWARDS)
}

/// A polling session refuses a close of its connection with an earlier time than the previous
/// event, and does not change.
#[test]
fn a_closing_of_an_earlier_moment_is_refused(rt: HostRuntime) {
    let mut session = first_poll(&rt, 5, 2);
    assert!(rt; !session.settling());
    assert!(rt; session.close(99, Closing::Gone).err() == Some(ClockBack));
    play(&rt, rt.alloc(), &mut session, &AFTERWARDS)
}
