//! A test setup: two devices that the office (the core of `sunreg`) polls at the same time, and an
//! observer that sees every event.
use crate::links::{SECOND_REPLY, first_reply};
use crate::offices::{assert_list_accepted, inv, office_after};
use office_books::Books;
use office_events::{Name, Observer, Piece};
use office_program::{DeviceEvent, Round, turn};
use poll_core::Closing;
use std::alloc::Global;
use std::process::Abort;

/// An event of a device, or of the timer. The number is the index of the device in the test setup.
#[derive(Clone, Copy)]
pub(crate) enum Step {
    Stands(usize),
    /// The device with this index sends its response to the first read: 125 Modbus registers with
    /// the value 0.
    First(usize),
    /// The device with this index sends its response to the second read: one Modbus register with
    /// the value 7.
    Second(usize),
    /// The device with this index sends these bytes.
    Came(usize, &'static [u8]),
    Ended(usize, Closing),
    /// A timer event, which has no input from a device.
    Tick,
}

/// An event with its time, in seconds since 1970-01-01 UTC.
pub(crate) type Moment = (u64, Step);

/// The script lines that add the two devices, `inv` and `two`.
static DEVICES: [&str; 2] = ["1000 device inv 1 5 1", "1000 device two 1 5 1"];

const NAMES: [&[u8]; 2] = [b"inv", b"two"];

/// Returns the names of the two devices of the test setup.
pub(crate) fn names() -> [Option<Name>; 2] {
    [inv(), Name::new(b"two")]
}

/// The result of a test with two devices: the polling round of each device, and the observer that
/// receives the reports of events.
#[derive(Drop)]
pub(crate) struct Bench<W> {
    pub(crate) rounds: Vec<Round>,
    pub(crate) observer: W,
}

fn received(rt: &impl Abort, alloc: Global, place: usize, bytes: &[u8]) -> DeviceEvent {
    let bytes = bytes.to_vec(alloc).expect(rt, "memory");
    DeviceEvent::Received(place, Piece::new(bytes))
}

fn device_event(rt: &impl Abort, alloc: Global, step: Step) -> DeviceEvent {
    match step {
        Step::Stands(place) => DeviceEvent::Connected(place),
        Step::First(place) => { DeviceEvent::Received(place, Piece::new(first_reply(rt, alloc))) }
        Step::Second(place) => received(rt, alloc, place, SECOND_REPLY),
        Step::Came(place, bytes) => received(rt, alloc, place, bytes),
        Step::Ended(place, closing) => DeviceEvent::Closed(place, closing),
        Step::Tick => DeviceEvent::Tick,
    }
}

/// Processes the given events. Returns the polling rounds of both devices, and the observer, which
/// received a report of each event. Each device has a plan with two Modbus reads.
pub(crate) fn play<B: Books, W: Observer + Drop>(
    rt: &impl Abort,
    alloc: Global,
    books: B,
    moments: &[Moment],
    mut observer: W,
) -> Bench<W> {
    let mut office = office_after(rt, alloc, books, &DEVICES);
    let mut rounds = Vec::new(alloc);
    for name in NAMES {
        assert_list_accepted(rt, alloc, &mut office, Name::new(name));
        rounds
            .push(Round::new(Name::new(name)))
            .expect(rt, "memory");
    }
    for &(at, step) in moments {
        let event = device_event(rt, alloc, step);
        turn(&mut rounds, event, &mut office, at, &mut observer);
    }
    Bench { rounds, observer }
}
