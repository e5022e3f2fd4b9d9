//! Processes one device event, and then feeds the events that the polling rounds generate to the
//! office (the event engine).
ghost use Rattle.std.specs.Prelude.{◌≡◌, ℕ, List, Some, None, slice_get};
ghost use Rattle.office_program.specs.Passing.{Lasts};
ghost use Rattle.office_program.specs.Driver.Turns.{at_place, brought, came, came_from, opened, table, wished};
ghost use Rattle.office_program.specs.Driver.Going.{Settles, Turns};
ghost use Rattle.office_program.specs.DeviceRounds.Rounds.{joined, leaving};

use crate::device_rounds::{Round, Stage};
use crate::driver::device_events::DeviceEvent;
use crate::driver::feed::{feed_one, first_request};
use office_books::Books;
use office_core::Office;
use office_events::{Event, Name, Observer, Piece};
use poll_core::Closing;

/// The largest number of events of polling rounds that one call of `turn` (which processes one
/// device event) feeds to the event engine after the device event. If the rounds generate more
/// events, the next call of `turn` feeds them.
pub const MAX_REQUESTS: u32 = 256;

// Feeds the events that the polling rounds generate to the event engine, until no round generates
// an event or 256 events were fed.
fn settle<B: Books, V: Observer>(
    rounds: &mut [Round],
    office: &mut Office<B>,
    at: u64,
    observer: &mut V,
)
    ensures settles { Settles B.ledger V.sees at office.old office.new
        rounds.old rounds.new observer.old observer.new }
    ensures lasts { Lasts B.ledger office.old office.new }
{
    for _step in 0..MAX_REQUESTS {
        let Some((place, event)) = first_request(rounds) else {
            return;
        };
        feed_one(rounds, Some(place), &event, office, at, observer);
    }
}

fn join(rounds: &mut [Round], place: usize)
    ensures { rounds.new ≡ at_place place joined rounds.old }
{
    if place < rounds.len() {
        rounds[place].join();
    }
}

fn leave(rounds: &mut [Round], place: usize, closing: Closing)
    ensures { rounds.new ≡ at_place place (leaving closing) rounds.old }
{
    if place < rounds.len() {
        rounds[place].leave(closing);
    }
}

// Feeds the event `event` to the event engine, and then the events that the polling rounds
// generate. `place` is the index of the device whose polling round gets the answer to `event`.
fn begin<B: Books, V: Observer>(
    rounds: &mut [Round],
    place: Option<usize>,
    event: &Event,
    office: &mut Office<B>,
    at: u64,
    observer: &mut V,
)
    ensures turns { Turns B.ledger V.sees at (table (Some (wished place event.now)) rounds.old)
        office.old office.new rounds.new observer.old observer.new }
    ensures lasts { Lasts B.ledger office.old office.new }
{
    feed_one(rounds, place, event, office, at, observer);
    settle(rounds, office, at, observer);
}

// Feeds the events that the polling rounds generate to the event engine, without a device event
// before them.
fn feed_requests<B: Books, V: Observer>(
    rounds: &mut [Round],
    office: &mut Office<B>,
    at: u64,
    observer: &mut V,
)
    ensures turns { Turns B.ledger V.sees at (table None rounds.old)
        office.old office.new rounds.new observer.old observer.new }
    ensures lasts { Lasts B.ledger office.old office.new }
{
    settle(rounds, office, at, observer);
}

// Returns the name of the device with the index `place`, if its polling round is waiting for
// responses. Otherwise returns `None`.
fn waiting_at(rounds: &[Round], place: usize) -> Option<Option<Name>>
    ensures { (piece : List ℕ) → came_from place result piece
        ≡ came place (slice_get rounds.now place) piece }
{
    if place < rounds.len() {
        let round = &rounds[place];
        if matches!(round.stage, Stage::Waiting) {
            return Some(round.device);
        }
    }
    None
}

// Feeds bytes received from a device to the event engine, if the device's polling round is waiting
// for responses. Otherwise drops the bytes, since no poll expects them.
fn take_bytes<B: Books, V: Observer>(
    rounds: &mut [Round],
    place: usize,
    piece: Piece,
    office: &mut Office<B>,
    at: u64,
    observer: &mut V,
)
    ensures turns { Turns B.ledger V.sees at (brought place piece rounds.old)
        office.old office.new rounds.new observer.old observer.new }
    ensures lasts { Lasts B.ledger office.old office.new }
{
    match waiting_at(rounds, place) {
        Some(device) => {
            let event = Event::Bytes(device, piece);
            begin(rounds, Some(place), &event, office, at, observer);
        }
        None => feed_requests(rounds, office, at, observer),
    }
}

/// Processes a device event, and then feeds the events that the polling rounds generate to the
/// event engine.
///
/// Bytes that a polling round waits for, and timer events, are fed to the event engine. A
/// connection or its end only changes the state of the device's polling round. Then the event of
/// the first device whose round generates an event is fed, again and again. The call ends when no
/// round generates an event, or after 256 events of rounds. All events have the timestamp `at`, in
/// seconds since 1970-01-01 UTC.
pub fn turn<B: Books, V: Observer>(
    rounds: &mut [Round],
    device_event: DeviceEvent,
    office: &mut Office<B>,
    at: u64,
    observer: &mut V,
)
    ensures turns { Turns B.ledger V.sees at (opened device_event rounds.old)
        office.old office.new rounds.new observer.old observer.new }
    ensures lasts { Lasts B.ledger office.old office.new }
{
    match device_event {
        DeviceEvent::Connected(place) => {
            join(rounds, place);
            feed_requests(rounds, office, at, observer);
        }
        DeviceEvent::Received(place, piece) => take_bytes(
            rounds, place, piece, office, at, observer,
        ),
        DeviceEvent::Closed(place, closing) => {
            leave(rounds, place, closing);
            feed_requests(rounds, office, at, observer);
        }
        DeviceEvent::Tick => begin(rounds, None, &Event::Tick, office, at, observer),
    }
}
