//! Plays lists of polling session events, and asserts the outcomes that the session reports for
//! each event.
use mb_wire::ReadSpan;
use poll_core::{Closing, Outcome, Session, StartFault};
use std::alloc::Global;
use std::process::Abort;

/// The latest time that a polling session accepts, in seconds since 1970-01-01 UTC.
const LATEST: u64 = 4_102_444_800;

/// A response of unit 1 with transaction identifier 0 and the registers 0, 5200 and 0.
pub const GOOD: [u8; 15] = [0, 0, 0, 0, 0, 9, 1, 3, 6, 0, 0, 20, 80, 0, 0];

/// The number of a poll, and the outcome that the session reports for the poll.
pub type Reported = (u64, Outcome);

/// An event of a polling session, and the outcomes that the session must report for the event.
pub struct Line {
    pub event: Event,
    pub reported: &'static [Reported],
}

pub enum Event {
    Start(Asked),
    Refused { moment: u64, fault: StartFault },
    Ready { id: u16, count: usize },
    Piece { moment: u64, bytes: &'static [u8] },
    Tick { moment: u64 },
    Close { moment: u64, closing: Closing },
}

/// A poll of holding registers of unit 1, and the expected frame of its request.
#[derive(Clone, Copy)]
pub struct Asked {
    pub moment: u64,
    pub poll: u64,
    pub address: u16,
    pub count: u16,
    pub frame: [u8; 12],
}

/// Plays the events on a polling session in order, and asserts the outcomes that the session
/// reports for each event.
pub fn play(rt: &impl Abort, alloc: Global, session: &mut Session, lines: &[Line]) {
    for (i, line) in lines.iter().enumerate() {
        let reported = bring(rt, alloc, session, &line.event);
        assert!(rt; reported.as_slice() == line.reported, "line {i}");
    }
}

fn bring(rt: &impl Abort, alloc: Global, session: &mut Session, event: &Event) -> Vec<Reported> {
    match event {
        Event::Start(asked) => start(rt, session, asked),
        Event::Refused { moment, fault } => refuse(rt, session, *moment, *fault),
        Event::Ready { id, count } => assert_ready(rt, session, *id, *count),
        Event::Piece { moment, bytes } => return feed(rt, alloc, session, *moment, bytes),
        Event::Tick { moment } => return tick(rt, alloc, session, *moment),
        Event::Close { moment, closing } => return close(rt, alloc, session, *moment, *closing),
    }
    Vec::new(alloc)
}

// Tries to start a poll, and returns the length of the request's frame in bytes.
fn try_start(
    rt: &impl Abort,
    session: &mut Session,
    asked: &Asked,
    out: &mut [u8; 260],
) -> Result<usize, StartFault> {
    assert!(rt; !session.settling());
    assert!(rt; asked.moment <= LATEST);
    let span = ReadSpan::new(3, asked.address, asked.count).expect(rt, "no span");
    session.start(asked.moment, asked.poll, 1, span, out)
}

/// Starts a poll, and asserts the frame of its request.
pub fn start(rt: &impl Abort, session: &mut Session, asked: &Asked) {
    let mut out = [0; 260];
    let started = try_start(rt, session, asked, &mut out);
    assert!(rt; started == Ok(12) && out[..12] == asked.frame[..]);
}

/// Tries to start a poll, and asserts the fault by which the session refuses it.
pub fn refuse(rt: &impl Abort, session: &mut Session, moment: u64, fault: StartFault) {
    let asked = Asked {
        moment,
        poll: 99,
        address: 0,
        count: 1,
        frame: [0; 12],
    };
    let mut out = [0; 260];
    let started = try_start(rt, session, &asked, &mut out);
    assert!(rt; started == Err(fault));
}

/// Asserts the next transaction identifier of a polling session, and the number of polls that may
/// be started.
pub fn assert_ready(rt: &impl Abort, session: &Session, id: u16, count: usize) {
    let ready = session.ready();
    assert!(rt; ready.id == id && ready.count == count);
}

/// Feeds received bytes to the polling session, and returns the polls that these bytes complete.
pub fn feed(
    rt: &impl Abort,
    alloc: Global,
    session: &mut Session,
    moment: u64,
    piece: &[u8],
) -> Vec<Reported> {
    assert!(rt; !session.settling());
    assert!(rt; moment <= LATEST);
    let mut reported = Vec::new(alloc);
    let mut at = 0;
    'turns: loop {
        let turn = session.next(moment, &piece[at..]).expect(rt, "no turn");
        at += turn.taken;
        match turn.settled {
            None => return reported,
            Some(settled) => reported
                .push((settled.poll, settled.outcome))
                .expect(rt, "no memory"),
        }
    }
}

/// Feeds a timer event to the polling session, and returns the polls that time out.
fn tick(rt: &impl Abort, alloc: Global, session: &mut Session, moment: u64) -> Vec<Reported> {
    assert!(rt; !session.settling());
    assert!(rt; moment <= LATEST);
    let mut reported = Vec::new(alloc);
    'turns: loop {
        match session.tick(moment).expect(rt, "no tick") {
            None => return reported,
            Some(settled) => reported
                .push((settled.poll, settled.outcome))
                .expect(rt, "no memory"),
        }
    }
}

/// Ends the polling session, and returns the polls that its end completes.
fn close(
    rt: &impl Abort,
    alloc: Global,
    session: &mut Session,
    moment: u64,
    closing: Closing,
) -> Vec<Reported> {
    assert!(rt; !session.settling());
    assert!(rt; moment <= LATEST);
    let mut reported = Vec::new(alloc);
    'turns: loop {
        match session.close(moment, closing).expect(rt, "not closed") {
            None => return reported,
            Some(settled) => reported
                .push((settled.poll, settled.outcome))
                .expect(rt, "no memory"),
        }
    }
}
