//! Feeds one event to an office (the event engine), and passes the engine's answer to a polling
//! round.
ghost use Rattle.std.specs.Prelude.{◌≡◌};
ghost use Rattle.office_program.specs.Passing.{Lasts};
ghost use Rattle.office_program.specs.Driver.Turns as turns;
ghost use Rattle.office_program.specs.Driver.Turns.{answered_for, wished};
ghost use Rattle.office_program.specs.Driver.Going.{FeedsOne};

use crate::device_rounds::{Round, apply_notes_to_all, find_requesting};
use office_books::Books;
use office_core::Office;
use office_events::{Answer, Event, Observer, Refusal};

// Passes the event engine's answer to the polling round with the index `place`, which generated the
// event or waited for its bytes. If `place` is `None`, drops the answer.
fn answer_for(rounds: &mut [Round], place: Option<usize>, answer: Result<Answer, Refusal>)
    ensures { rounds.new ≡ answered_for place answer rounds.old }
{
    if let Some(place) = place {
        if place < rounds.len() {
            rounds[place].answer(answer);
        }
    }
}

/// Feeds one event to the event engine. `place` is the slot of the polling round that generated the
/// event or waited for its bytes, or `None` for a timer event.
///
/// Passes the engine's answer to the polling round in slot `place`, and the engine's notifications
/// to all rounds. Shows the event with its answer to the observer.
pub(crate) fn feed_one<B: Books, V: Observer>(
    rounds: &mut [Round],
    place: Option<usize>,
    event: &Event,
    office: &mut Office<B>,
    at: u64,
    observer: &mut V,
)
    ensures feeds { FeedsOne B.ledger V.sees at (wished place event.now) office.old office.new
        rounds.old rounds.new observer.old observer.new }
    ensures lasts { Lasts B.ledger office.old office.new }
{
    let answer = office.feed(at, event);
    answer_for(rounds, place, answer);
    let notes = office.notes();
    let frames = office.outgoing();
    apply_notes_to_all(rounds, notes);
    observer.observe(place, at, event, answer, notes, frames);
}

/// Returns the slot (the index) of the first polling round that generates an event, and this event.
/// Returns `None` if no round generates an event.
pub(crate) fn first_request(rounds: &[Round]) -> Option<(usize, Event)>
    ensures { turns.as_wished result ≡ turns.first_request rounds.now }
{
    let place = find_requesting(rounds)?;
    if place < rounds.len() {
        let event = rounds[place].requested_event()?;
        return Some((place, event));
    }
    None
}
