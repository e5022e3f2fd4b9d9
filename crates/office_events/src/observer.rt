//! The trait of an observer, which gets a report of each event that the program processes.
use crate::answers::{Answer, Note};
use crate::events::Event;
use crate::refusals::Refusal;

/// An observer that gets a report of each event: the event, its answer, its notifications and the
/// frames to send. `place` is the index of the device whose polling round (all reads of the device)
/// caused the event, or `None`.
pub trait Observer {
    ghost use Rattle.std.specs.Prelude.{Option};
    ghost use Rattle.office_events.specs.Showing.{Shown, shown};

    // The relation between the observer's state before a report, the report, and the observer's
    // state after the report.
    ghost sees: { Self → Shown → Self → Type 0 };

    fn observe(
        &mut self,
        place: Option<usize>,
        at: u64,
        event: &Event,
        answer: Result<Answer, Refusal>,
        notes: &[Note],
        frames: &[u8],
    )
        ensures { sees self.old (shown place at event.now answer notes.now frames.now) self.new };
}
