//! Tests that the transaction identifier of a pending poll is not reused, even after 65,535 further
//! polls.
use crate::session_script::{Asked, Event, Line, feed, play, start};
use poll_core::{Outcome, Session, StartFault};
use std::alloc::Global;
use std::process::Abort;

static FIRST: Asked = Asked {
    moment: 1000,
    poll: 0,
    address: 0,
    count: 1,
    frame: [0, 0, 0, 0, 0, 6, 1, 3, 0, 0, 0, 1],
};

static BUSY: [Line; 4] = [
    Line {
        event: Event::Ready { id: 0, count: 0 },
        reported: &[],
    },
    Line {
        event: Event::Refused {
            moment: 1001,
            fault: StartFault::IdBusy,
        },
        reported: &[],
    },
    Line {
        event: Event::Tick { moment: 1060 },
        reported: &[(0, Outcome::Silent)],
    },
    Line {
        event: Event::Ready { id: 0, count: 2 },
        reported: &[],
    },
];

/// Starts a poll with this number, which is also its transaction identifier, and feeds its response
/// to the polling session.
fn ask(rt: &impl Abort, alloc: Global, session: &mut Session, poll: u16) {
    let [high, low] = poll.to_be_bytes();
    let asked = Asked {
        moment: 1001,
        poll: u64::from(poll),
        address: 0,
        count: 1,
        frame: [high, low, 0, 0, 0, 6, 1, 3, 0, 0, 0, 1],
    };
    start(rt, session, &asked);
    let reply = [high, low, 0, 0, 0, 5, 1, 3, 2, 0, 7];
    let reported = feed(rt, alloc, session, 1001, &reply);
    let answered = [(u64::from(poll), Outcome::Answered)];
    assert!(rt; reported.as_slice() == answered.as_slice());
}

/// The transaction identifier of a pending poll is not used for another poll.
#[test]
fn an_id_that_waits_is_not_used_again(rt: HostRuntime) {
    let mut session = Session::new(60, 2);
    start(&rt, &mut session, &FIRST);
    for poll in 1..=65535u16 {
        ask(&rt, rt.alloc(), &mut session, poll);
    }
    play(&rt, rt.alloc(), &mut session, &BUSY)
}
