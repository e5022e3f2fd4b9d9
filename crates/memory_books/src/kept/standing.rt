//! Updates the cached state of a meter when an entry of the meter is added.
ghost use Rattle.memory_books.specs.Kept.Changes.{EntryKeepsAnswers};

use crate::kept::answers::Answers;
use office_books::moved;
use office_events::{BookedEntry, Installation};

/// Advances the cached state of a meter by an entry of this meter. Does nothing if the state is not
/// cached.
pub(crate) fn advance_installation(rows: &mut Answers<Installation>, booked: &BookedEntry)
    ensures { EntryKeepsAnswers booked.now rows.old rows.new }
{
    if let Some(row) = rows.remove(&booked.meter) {
        let after = moved(&row, booked);
        rows.insert(&booked.meter, after);
    }
}
