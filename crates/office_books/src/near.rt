//! Replaces the energy in the state that a meter had before an entry by the meter's present total
//! energy.
ghost use Rattle.std.specs.Prelude.{◌≡◌};
ghost use Rattle.office_books.specs.Near.{with_energy};
ghost use Rattle.office_books.specs.Ranges.{IsSound};

use office_events::{EntryContext, Installation};

/// Returns the entry and its context. In the meter's state before the entry, the meter's present
/// total energy replaces the energy.
pub fn with_whole_energy(place: &EntryContext, whole: &Installation) -> EntryContext
    ensures same { result ≡ with_energy whole.now.total place.now }
    ensures sound { IsSound place.now.before → IsSound whole.now → IsSound result.before }
{
    EntryContext {
        before: Installation {
            opening: place.before.opening,
            last: place.before.last,
            total: whole.total,
            ended: place.before.ended,
        },
        row: place.row,
        next: place.next,
    }
}
