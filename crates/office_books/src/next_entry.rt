//! Judges the next entry (a reading, reset, closing or similar) of an installed meter by the rules
//! for meter entries, and adds it to the meter's state.
ghost use Rattle.std.specs.Prelude.{◌≡◌};
ghost use Rattle.office_books.specs.Readings.{judgement};
ghost use Rattle.office_books.specs.Ranges.{IsSound};
ghost use Rattle.office_books.specs.Steps.{moved_by};
ghost use Rattle.office_books.specs.Sound.{MayEnter, MovesBy, StaysAt};

use crate::soundness::is_sound;
use energy_core::{Entry, Ranged, Reading, Terms, Verdict};
use office_events::{BookedEntry, Installation};

fn terms_of(row: &Installation) -> Terms
    ensures ceiling { result.ceiling ≡ row.now.opening.ceiling }
    ensures total { result.total ≡ row.now.total }
{
    Terms {
        ceiling: row.opening.ceiling,
        total: row.total,
    }
}

/// Returns the verdict on a reading that follows the present state of an installed meter.
pub fn verdict_at(row: &Installation, reading: &Reading) -> Verdict
    requires { IsSound row.now }
    ensures { result ≡ judgement row.now reading.now }
{
    let Some(counter) = Ranged::new(row.opening.range) else {
        unreachable!()
    };
    energy_core::judge(&counter, &terms_of(row), &row.last, reading)
}

/// Returns the state of a meter after one more entry (a reading, reset, closing or similar). If the
/// rules for meter entries do not accept the entry, returns the unchanged state.
pub fn after_entry(row: &Installation, entry: &Entry) -> Installation
    requires { IsSound row.now }
    ensures sound { IsSound result }
    ensures same { (result.opening ≡ row.now.opening) × (result.ended ≡ row.now.ended) }
    ensures entered { MovesBy entry.now row.now result }
    ensures refused { StaysAt entry.now row.now result }
{
    let Some(counter) = Ranged::new(row.opening.range) else {
        unreachable!()
    };
    match energy_core::enter(&counter, &terms_of(row), &row.last, entry) {
        Ok((last, step)) => Installation {
            opening: row.opening,
            last,
            total: row.total + step.mwh,
            ended: row.ended,
        },
        Err(_) => *row,
    }
}

/// Returns the state of a meter after a stored entry (a reading, reset, closing or similar). A
/// closing entry closes the meter. A state with a number out of range is returned unchanged.
pub fn moved(row: &Installation, booked: &BookedEntry) -> Installation
    ensures { IsSound row.now → MayEnter row.now booked.now.entry
        → result ≡ moved_by booked.now.kind booked.now.entry row.now }
{
    if !is_sound(row) {
        return *row;
    }
    let entered = after_entry(row, &booked.entry);
    Installation {
        opening: entered.opening,
        last: entered.last,
        total: entered.total,
        ended: booked.kind.is_closing() || entered.ended,
    }
}
