//! The state of a device after each of its events: whether it is connected, and the time of its
//! latest accepted reading.
ghost use Rattle.std.specs.Prelude.{◌≡◌};
ghost use Rattle.std.specs.List.{list_any};
ghost use Rattle.run_http.specs.Status.Monitor.Watching as watching;

use crate::status::status::DeviceState;
use office_events::{Answer, Event, Name, Note, Refusal};

/// Returns the state of a device that is not connected and has no reading.
pub(crate) fn unconnected(name: Option<Name>) -> DeviceState
    ensures { result ≡ watching.unconnected name }
{
    DeviceState {
        name,
        connected: false,
        latest: None,
    }
}

fn is_reading(note: &Note) -> bool
    ensures { result ≡ watching.is_reading note.now }
{
    match note {
        Note::Outcome { .. } => false,
        Note::Reading { .. } => true,
        Note::Held { .. } => false,
    }
}

fn has_reading(notes: &[Note]) -> bool
    ensures { result ≡ list_any watching.is_reading notes.now }
{
    notes.iter().any(|note| is_reading(note))
}

fn is_connected(before: bool, event: &Event, answer: Result<Answer, Refusal>) -> bool
    ensures { result ≡ watching.is_connected before event.now answer }
{
    match (event, answer) {
        (Event::Connected(_), Ok(_)) => true,
        (Event::Connected(_), Err(_)) => before,
        (Event::Bytes(_, _), _) => before,
        (Event::Tick, _) => before,
        (Event::Gone(_, _), _) => false,
        (Event::Command(_), _) => before,
        (Event::Asked(_), _) => before,
    }
}

/// Returns the state of a device after one of its events: whether it is connected, and the time of
/// its latest accepted reading.
pub(crate) fn followed(
    state: DeviceState,
    at: u64,
    event: &Event,
    answer: Result<Answer, Refusal>,
    notes: &[Note],
) -> DeviceState
    ensures { result ≡ watching.followed at event.now answer notes.now state }
{
    DeviceState {
        name: state.name,
        connected: is_connected(state.connected, event, answer),
        latest: if has_reading(notes) {
            Some(at)
        } else {
            state.latest
        },
    }
}
