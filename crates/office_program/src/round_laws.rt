//! The theorem that a polling round generates its events in the order that the definition `next_in`
//! gives. This definition computes the next action from the events that the round fed before.
ghost use Rattle.office_program.specs.Polling.{RoundsHold};

use office_books::{facts_are_lawful, polls_end_once, polls_fit};
use poll_core::{each_once, one_event_more};

/// Proves that a `Round` (a polling round) always generates the event that the definition `next_in`
/// gives, whatever the office (the event engine) accepted before the round. The proof is by
/// induction over the events that the round fed.
pub(crate) fn rounds_hold()
    ensures { RoundsHold }
{
    each_once();
    one_event_more();
    polls_end_once();
    polls_fit();
    facts_are_lawful();
}
