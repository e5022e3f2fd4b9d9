//! Theorems: after a crash the store has the records of all acknowledged events, possibly with
//! those of one failed event.
ghost use Rattle.office_core.specs.Stopping.{EventsAreLeftWhole, RunsAreLeftWhole};

/// Proves that after a crash the store has the records of all acknowledged events.
///
/// After a crash the store may also have the complete records of one failed event after the last
/// recorded event. Failed means refusal 13 (the store failed) or 14 (out of memory). If no event
/// added a record, a crash may leave the same records as before the events.
pub fn events_are_left_whole()
    ensures { EventsAreLeftWhole }
{}

/// Proves that after a run of events and a crash the store has the records of all acknowledged
/// events. The run begins with the opening of the store (program start).
pub fn runs_are_left_whole()
    ensures { RunsAreLeftWhole }
{}
