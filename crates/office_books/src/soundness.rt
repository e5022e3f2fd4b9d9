//! Checks whether each number of a meter's state (such as its energy) is in its permitted range, as
//! judging the meter's next reading requires.
ghost use Rattle.std.specs.Prelude.{◌≡◌, false, IsTrue};
ghost use Rattle.office_books.specs.Ranges.{IsSound};

use energy_core::{MAX_CEILING, MAX_RANGE, MAX_SCALE, MAX_TOTAL, MIN_RANGE, MIN_SCALE};
use office_events::Installation;

/// Returns true if all numbers of a meter's state are in range, as judging its next reading
/// requires.
pub fn is_sound(row: &Installation) -> bool
    ensures so { IsTrue result → IsSound row.now }
    ensures if_so { IsSound row.now → IsTrue result }
    ensures unsound { result ≡ false → ¬ IsSound row.now }
{
    let ranged = MIN_RANGE <= row.opening.range && row.opening.range <= MAX_RANGE;
    let limited = 1 <= row.opening.ceiling && row.opening.ceiling <= MAX_CEILING;
    let scaled = MIN_SCALE <= row.last.sf && row.last.sf <= MAX_SCALE;
    let shown = u64::from(row.last.raw) < row.opening.range;
    ranged && limited && scaled && shown && row.total <= MAX_TOTAL
}
