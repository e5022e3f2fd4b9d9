//! The state of a meter at its installation.
ghost use Rattle.std.specs.Prelude.{◌≡◌, IsTrue};
ghost use Rattle.office_books.specs.Meters as meters;
ghost use Rattle.office_books.specs.Sound.{HasNumbers, as_begun};

use crate::soundness::is_sound;
use energy_core::Last;
use meter_journal::Installed;
use office_events::{Installation, Opening};

/// Returns the state of a meter's counter at its installation: timestamp, counter value and scale
/// factor.
pub fn opened(opening: &Opening) -> Last
    ensures { result ≡ meters.opened opening.now }
{
    Last {
        at: opening.at,
        raw: opening.raw,
        sf: opening.sf,
    }
}

/// Returns the range and the maximum power of a meter, and the state of its counter at the
/// installation.
pub fn installed(opening: &Opening) -> Installed
    ensures { result ≡ meters.installed opening.now }
{
    Installed {
        range: opening.range,
        ceiling: opening.ceiling,
        opening: opened(opening),
    }
}

/// Returns the state of a meter directly after its installation, with an energy of 0 mWh.
pub fn begun(opening: &Opening) -> Installation
    ensures { result ≡ as_begun opening.now }
{
    Installation {
        opening: *opening,
        last: opened(opening),
        total: 0,
        ended: false,
    }
}

/// Returns true if the numbers of an opening (installation record of a meter) are in range.
pub fn has_numbers(opening: &Opening) -> bool
    ensures so { IsTrue result → HasNumbers opening.now }
    ensures if_so { HasNumbers opening.now → IsTrue result }
{
    is_sound(&begun(opening))
}
