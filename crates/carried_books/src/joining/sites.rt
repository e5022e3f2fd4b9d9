//! Combines the meters of an accounting register (a named counter) in earlier database files with
//! those of the current file. A meter that continues in the current file becomes one meter with the
//! energy of all files.
ghost use Rattle.std.specs.Prelude.{◌≡◌};
ghost use Rattle.carried_books.specs.Joining.Sites as sites;

use crate::joining::earlier::EarlierRegister;
use crate::joining::meters::{as_one, both};
use office_events::{Installation, Name};

/// A meter over all database files. `earlier` is its energy in the earlier files, in mWh, if these
/// files have the meter.
#[derive(Clone, Copy)]
pub struct LatestMeter {
    pub meter: Installation,
    pub earlier: Option<u64>,
}

/// Returns the meters that earlier database files assign to a register (a named counter), in the
/// order of installation. Each meter has its data from all of these files.
///
/// Returns an empty list of meters if no earlier database file has a register (a named counter)
/// with the requested name.
pub fn earlier_meters<'a>(earlier: &'a [EarlierRegister], register: &Name) -> &'a [Installation]
    ensures { result.now ≡ sites.earlier_meters earlier.now register.now }
{
    for one in earlier {
        if one.name.is(register) {
            return one.meters.as_slice();
        }
    }
    &[]
}

// Returns whether the meter `stands` was still open at the end of the earlier database files, and
// the current file's meter `row` has the name of `stands`.
fn is_left(stands: &Installation, row: &Installation) -> bool
    ensures { result ≡ sites.is_left stands.now row.now }
{
    let is_one = row.opening.meter.is(&stands.opening.meter);
    both(!stands.ended, is_one)
}

// Returns the latest meter of a register (a named counter) if only earlier database files have a
// meter of this register.
fn of_earlier(stands: &Installation) -> LatestMeter
    ensures { result ≡ sites.of_earlier stands.now }
{
    LatestMeter {
        meter: *stands,
        earlier: Some(stands.total),
    }
}

// Returns the latest meter of a register (a named counter). The current database file has the meter
// `row`, and the last meter of the earlier files is `stands`.
fn of_both(stands: &Installation, row: &Installation) -> LatestMeter
    ensures { result ≡ sites.of_both stands.now row.now }
{
    if is_left(stands, row) {
        LatestMeter {
            meter: as_one(stands, row),
            earlier: Some(stands.total),
        }
    } else {
        LatestMeter {
            meter: *row,
            earlier: None,
        }
    }
}

// Returns the latest meter of a register (a named counter) over all database files, or `None` if no
// file has a meter of this register.
fn latest(stands: &Option<Installation>, row: &Option<Installation>) -> Option<LatestMeter>
    ensures { result ≡ sites.latest stands.now row.now }
{
    match stands {
        None => match row {
            None => None,
            Some(row) => Some(LatestMeter {
                meter: *row,
                earlier: None,
            }),
        },
        Some(stands) => match row {
            None => Some(of_earlier(stands)),
            Some(row) => Some(of_both(stands, row)),
        },
    }
}

/// Returns the latest meter of a register (a named counter), from its meters in the earlier files
/// and its latest meter in the current file.
///
/// Suppose that the last meter of a register (a named counter) in the earlier files is not closed,
/// and the current file's meter has its name. Then the latest meter is one meter with the energy of
/// all files. If the current file has another meter of the register, that meter alone is the latest
/// meter. If the current file has none, the latest meter is the last one in the earlier files.
pub fn latest_meter(earlier: &[Installation], row: &Option<Installation>) -> Option<LatestMeter>
    ensures { result ≡ sites.latest_meter earlier.now row.now }
{
    let stands = earlier.last().copied();
    latest(&stands, row)
}
