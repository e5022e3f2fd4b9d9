//! The progress of a device's polling round (one poll for each Modbus read of its plan) over a link
//! to the device.
ghost use Rattle.std.specs.Prelude.{◌≡◌};
ghost use Rattle.office_program.specs.Polling as polling;
ghost use Rattle.office_program.specs.Polling.{ended_by, round_after};
ghost use Rattle.office_program.specs.Stepping.{unfed};

use crate::device_rounds::{Round, Stage};
use office_events::{Answer, Event, Name, Note};

/// The polling round of a device over a link, with the timestamp of its latest accepted event.
#[derive(Drop)]
pub(crate) struct Progress {
    pub(crate) round: Round,
    /// The timestamp of the latest accepted event, in seconds since 1970-01-01 UTC, or 0 if no
    /// event was accepted.
    pub(crate) latest: u64,
}

// Changes the stage of the polling round to `Leaving` if the event is the disconnection of the
// round's device.
fn end_by(round: &mut Round, event: &Event)
    ensures { round.new ≡ ended_by event.now round.old }
{
    match event {
        Event::Connected(_) => {}
        Event::Bytes(_, _) => {}
        Event::Tick => {}
        Event::Gone(_, closing) => round.leave(*closing),
        Event::Command(_) => {}
        Event::Asked(_) => {}
    }
}

impl Progress {
    /// Creates the progress of a polling round that has fed no event to the event engine yet.
    pub(crate) fn new(device: Option<Name>) -> Progress
        ensures { result ≡ unfed device }
    {
        let mut round = Round::new(device);
        round.join();
        Progress { round, latest: 0 }
    }

    /// Updates the polling round after the office (the event engine) accepted an event of the
    /// round. The update uses the event, the engine's answer and the engine's notifications.
    pub(crate) fn note(&mut self, at: u64, event: &Event, answer: Answer, notes: &[Note])
        ensures round { self.new.round ≡ round_after event.now answer notes.now self.old.round }
        ensures latest { self.new.latest ≡ at }
    {
        end_by(&mut self.round, event);
        self.round.answer(Ok(answer));
        self.round.apply_notes(notes);
        self.latest = at;
    }

    /// Returns true if the polling round is over.
    pub(crate) fn is_over(&self) -> bool
        ensures { result ≡ polling.is_over self.now.round.stage }
    {
        match self.round.stage {
            Stage::Off => true,
            Stage::Joining => false,
            Stage::Starting => false,
            Stage::Waiting => false,
            Stage::Leaving(_) => false,
        }
    }
}
