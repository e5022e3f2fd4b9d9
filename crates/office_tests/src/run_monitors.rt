//! Tests the monitor of `sunreg run`, which counts events and writes log lines.
use crate::benches::{Bench, Moment, Step, names, play};
use crate::offices::{inv, new_books};
use office_events::{Answer, Event, Refusal};
use office_program::Sum;
use poll_core::Closing;
use run_http::status::{RunMonitor, write_lines, write_sum};
use std::alloc::Global;
use std::process::Abort;
use std::str;

// Processes the given events for the two devices of the test setup, with the monitor of `sunreg
// run` as the observer of all events.
fn polled(rt: &impl Abort, alloc: Global, moments: &[Moment]) -> Bench<RunMonitor> {
    let monitor = RunMonitor::new(alloc, &names()).expect(rt, "a monitor");
    play(rt, alloc, new_books(rt, alloc), moments, monitor)
}

const STANDS: Moment = (1001, Step::Stands(0));

// Test cases, in the order of the queries: the index of a device, and the Modbus frame that the
// monitor of `sunreg run` returns for this device.
static FRAMES: [(usize, &[u8]); 4] = [
    (0, b"\x00\x00\x00\x00\x00\x06\x01\x03\x00\x00\x00\x7d"),
    (0, b""),
    (1, b""),
    (2, b""),
];

// Returns true if the device with this index is connected, or `None` if there is no such device.
fn is_connected(polled: &Bench<RunMonitor>, place: usize) -> Option<bool> {
    let state = polled.observer.states.get(place)?;
    Some(state.connected)
}

/// The monitor of `sunreg run` stores a Modbus frame for the device to which the frame is sent, and
/// returns the frame once.
#[test]
fn frames_wait_for_their_device(rt: HostRuntime) {
    let mut polled = polled(&rt, rt.alloc(), &[STANDS]);
    assert!(rt; is_connected(&polled, 0) == Some(true));
    assert!(rt; is_connected(&polled, 1) == Some(false));
    assert!(rt; is_connected(&polled, 2) == None);
    for (place, wanted) in FRAMES {
        let frames = polled.observer.take_outgoing(place);
        assert!(rt; frames.as_slice() == wanted, "{place}");
    }
}

// Lists of events that begin with the connection of a device. Each list has its expected number of
// lost polls, and its expected number of polls that time out.
static ENDINGS: [(&[Moment], u64, u64); 2] = [
    (&[STANDS, (1002, Step::Ended(0, Closing::Failed))], 1, 0),
    (&[STANDS, (1006, Step::Tick), (1011, Step::Tick)], 0, 2),
];

/// After the connection of a device has ended, the monitor of `sunreg run` drops the Modbus frames
/// for the device.
#[test]
fn frames_of_an_ended_connection_are_dropped(rt: HostRuntime) {
    for (moments, lost, silent) in ENDINGS {
        let mut polled = polled(&rt, rt.alloc(), moments);
        assert!(rt; is_connected(&polled, 0) == Some(false));
        assert!(rt; polled.observer.counts.lost == lost);
        assert!(rt; polled.observer.counts.silent == silent);
        assert!(rt; polled.observer.counts.refusals == 0);
        assert!(rt; polled.observer.take_outgoing(0).is_empty());
    }
}

// A Modbus frame with a wrong unit identifier, followed by the end of the connection.
static WRONG_UNIT: [Moment; 3] = [
    STANDS,
    (1002, Step::Came(0, b"\x00\x00\x00\x00\x00\x03\x02\x83\x02")),
    (1007, Step::Tick),
];

fn first_sum(polled: &Bench<RunMonitor>) -> Option<Sum> {
    let round = polled.rounds.first()?;
    Some(round.sum)
}

/// At the end of a polling round the monitor of `sunreg run` has counted the round's polls by
/// outcome.
#[test]
fn a_round_has_a_sum(rt: HostRuntime) {
    let polled = polled(&rt, rt.alloc(), &WRONG_UNIT);
    let sum = Sum {
        answered: 0,
        silent: 1,
        failed: 1,
    };
    assert!(rt; first_sum(&polled) == Some(sum));
}

const LINES: &str = "1700000000 inv connected
1700000001 inv refused 15
1700000002 inv failed
1700000002 inv round answered 3 silent 1 failed 0
";

/// The monitor of `sunreg run` writes a log line for a new connection, a refused event, the end of
/// a connection, and the end of a polling round. The monitor writes no log line for a timer event.
#[test]
fn lines_are_for_people(rt: HostRuntime) {
    let noted = Ok(Answer::Noted);
    let events = [
        (1_700_000_000, Event::Connected(inv()), noted),
        (1_700_000_000, Event::Tick, noted),
        (1_700_000_001, Event::Tick, Err(Refusal::Stopped)),
        (1_700_000_002, Event::Gone(inv(), Closing::Failed), noted),
    ];
    let mut text = Vec::new(rt.alloc());
    for (at, event, answer) in &events {
        assert!(rt; write_lines(&mut text, *at, &inv(), event, *answer, &[]).is_ok());
    }
    assert!(rt; write_sum(&mut text, 1_700_000_002, &inv(), 3, 1, 0).is_ok());
    assert!(rt; str::from_utf8(&text) == Ok(LINES));
}
