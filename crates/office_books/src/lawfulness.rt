//! Theorems about the records after any accepted events: the rules for adding records accept each
//! of them after the earlier ones. Names are distinct, each poll ended once or is pending, and
//! energies come from valid entries.
ghost use Rattle.office_books.specs.Lawfulness.{BooksAreTrue, FactsAreLawful, NamesAreDistinct};

use crate::endings::polls_end_once;
use crate::laws::{meters_are_kept, truth_is_recorded, voids_leave_no_trace};
use poll_core::one_event_more;

/// Proves that the records after any accepted events are lawful. The rules for adding records
/// accept each record after the earlier records.
pub fn facts_are_lawful()
    ensures { FactsAreLawful }
{
    one_event_more();
    polls_end_once();
    meters_are_kept();
}

/// Proves that no two devices, accounting registers or meters have the same name in lawful records
/// (which the rules for adding records accept). The open meter of an accounting register (a named
/// energy counter) is the latest meter that was installed there.
pub fn names_are_distinct()
    ensures { NamesAreDistinct }
{}

/// Proves for all accepted events that each poll ended once or is pending (without an outcome). The
/// energy of each meter, in total and by quarter hour, comes from its valid (not voided) entries.
/// If a meter that shows its true counts is polled often enough, its recorded energy equals the
/// true energy.
pub fn books_are_true()
    ensures { BooksAreTrue }
{
    polls_end_once();
    facts_are_lawful();
    names_are_distinct();
    meters_are_kept();
    voids_leave_no_trace();
    truth_is_recorded();
}
