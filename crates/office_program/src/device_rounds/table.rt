//! The polling rounds of all devices, in the order of the devices' slots (indices).
ghost use Rattle.std.specs.Prelude.{◌≡◌, map, position};
ghost use Rattle.office_program.specs.DeviceRounds.Rounds.{heard, has_request};

use crate::device_rounds::round::Round;
use office_events::Note;

/// Returns the slot (the index) of the first polling round that generates an event, or `None` if no
/// round generates an event.
pub fn find_requesting(rounds: &[Round]) -> Option<usize>
    ensures { result ≡ position has_request rounds.now }
{
    rounds.iter().position(|round| round.stage.has_request())
}

/// Updates all polling rounds by the event engine's notifications. Each round uses only the
/// notifications of its own polls.
pub fn apply_notes_to_all(rounds: &mut [Round], notes: &[Note])
    ensures { rounds.new ≡ map (heard notes.now) rounds.old }
{
    for round in rounds.iter_mut() {
        round.apply_notes(notes);
    }
}
