//! Theorem: each started poll has ended exactly once or is pending (without an outcome).
ghost use Rattle.office_books.specs.History.{History};
ghost use Rattle.office_books.specs.Refusals.{AreAccepted};
ghost use Rattle.office_books.specs.PollEndings.{PollsEndOnce};
ghost use Rattle.office_books.specs.Endings.{EachEndsOnce};

use poll_core::{each_once, one_event_more};

/// Proves for all accepted events that each poll has ended or is pending. A poll that ended has
/// exactly one recorded outcome, which follows from the events of the poll's Modbus session.
pub fn polls_end_once()
    ensures polls { (history : History) → AreAccepted history → PollsEndOnce history }
    ensures each { (history : History) → AreAccepted history → EachEndsOnce history }
{
    each_once();
    one_event_more();
}
