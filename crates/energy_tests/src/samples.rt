//! Meters and entry rows that the tests share.
ghost use Rattle.std.specs.Prelude.{◌≡◌, true, false};

use energy_core::{Entry, Last};
use meter_journal::{EntryKind, EntryRow, Installed};

/// A meter with a 32-bit counter that showed 5000 counts at 1000 s.
pub(crate) const HOUSE: Installed = Installed {
    range: 4_294_967_296,
    ceiling: 100_000,
    opening: Last {
        at: 1000,
        raw: 5000,
        sf: 0,
    },
};

/// Returns the entry row of a reading that is not voided (cancelled).
pub(crate) fn reading(place: u64, at: u64, raw: u32, rolls: u8) -> EntryRow
    ensures place { result.place ≡ place }
    ensures stands { result.stands ≡ true }
{
    EntryRow {
        place,
        kind: EntryKind::Reading,
        entry: Entry::Step { at, raw, rolls },
        stands: true,
    }
}

/// Returns an entry row, marked as voided (cancelled).
pub(crate) fn struck(row: EntryRow) -> EntryRow
    ensures place { result.place ≡ row.place }
    ensures stands { result.stands ≡ false }
{
    EntryRow {
        stands: false,
        ..row
    }
}

/// Returns an entry row with its kind replaced.
pub(crate) fn of_kind(kind: EntryKind, row: EntryRow) -> EntryRow
    ensures place { result.place ≡ row.place }
{
    EntryRow { kind, ..row }
}
