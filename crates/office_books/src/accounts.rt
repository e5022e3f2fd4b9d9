//! Computes the state of a meter from stored rows, which may be damaged.
ghost use Rattle.std.specs.Prelude.{◌≡◌, None, IfSome};
ghost use Rattle.meter_journal.specs.Journal.{entries_in};
ghost use Rattle.meter_journal.specs.Lists.{latest_first};
ghost use Rattle.office_books.specs.Meters.{standing};
ghost use Rattle.office_books.specs.Ranges.{IsSound};
ghost use Rattle.office_books.specs.Sound.{HasNumbers, HaveAccount};

use crate::openings::{has_numbers, installed};
use energy_core::accounts_are_sound;
use meter_journal::{EntryRow, checked_tally};
use office_events::{Installation, Opening};

/// Returns the state of a meter from its opening (installation record) and its later entry rows,
/// the oldest first.
///
/// Returns `None` if a number of the opening is out of range, or if the energy of the valid (not
/// voided) entries cannot be added up.
pub fn installation_after(opening: &Opening, rows: &[EntryRow], ended: bool) -> Option<Installation>
    ensures stands { IfSome result
        (λ row. row ≡ standing opening.now (entries_in (latest_first rows.now)) ended) }
    ensures sound { IfSome result IsSound }
    ensures none { result ≡ None → HasNumbers opening.now → ¬ HaveAccount opening.now rows.now }
{
    accounts_are_sound();
    if !has_numbers(opening) {
        return None;
    }
    let meter = installed(opening);
    let tally = checked_tally(&meter, rows)?;
    Some(Installation {
        opening: *opening,
        last: tally.last,
        total: tally.total,
        ended,
    })
}
