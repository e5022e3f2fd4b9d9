//! Makes one list of the meters that an accounting register (a named counter) has in several
//! database files, the oldest file first. A meter that continues an earlier file's meter becomes
//! one meter with it.
ghost use Rattle.std.specs.Prelude.{◌≡◌, ◌↔◌, ◌&&◌, IsTrue, not, find, IfOk};
ghost use Rattle.meter_journal.specs.Audit.CarriedFiles.{GoesOnAs};
ghost use Rattle.carried_books.specs.Joining.Meters as meters;
ghost use Rattle.carried_books.specs.Joining.Meters.{AddOrAreApart, AddsNext, AddsOrIsApart, GoesOn};

use energy_core::Last;
use meter_journal::Installed;
use office_books::installed;
use office_events::Installation;
use std::alloc::AllocError;

/// Two meters of a register (a named counter) that conflict, an earlier and a later one. The
/// earlier meter was not closed before the later meter began, or both have the same name. The later
/// meter does not continue the last earlier meter.
#[derive(Clone, Copy)]
pub struct Apart {
    pub stands: Installation,
    pub begins: Installation,
}

pub(crate) fn both(one: bool, other: bool) -> bool
    ensures { result ≡ one && other }
{
    one && other
}

// Returns whether two states of a counter are equal.
fn is_same(last: &Last, other: &Last) -> bool
    ensures { IsTrue result ↔ (last.now ≡ other.now) }
{
    last.at == other.at && last.raw == other.raw && last.sf == other.sf
}

// Returns whether the meter `meter`, in the state `last`, continues as the meter `next` of the next
// database file.
fn goes_on_as(meter: &Installed, last: &Last, ended: bool, next: &Installed) -> bool
    ensures { IsTrue result ↔ GoesOnAs meter.now last.now ended next.now }
{
    !ended
        && next.range == meter.range
        && next.ceiling == meter.ceiling
        && is_same(&next.opening, last)
}

/// Returns whether the meter `stands` of an earlier database file continues as the meter `row` of
/// the same name in a later file.
pub(crate) fn goes_on(stands: &Installation, row: &Installation) -> bool
    ensures { IsTrue result ↔ GoesOn stands.now row.now }
{
    let is_one = row.opening.meter.is(&stands.opening.meter);
    let stood = installed(&stands.opening);
    let next = installed(&row.opening);
    both(
        is_one,
        goes_on_as(&stood, &stands.last, stands.ended, &next),
    )
}

/// Returns one meter over two database files. The meter has the opening (first entry) of `stands`,
/// the later state of `row`, and the energy in both files.
pub(crate) fn as_one(stands: &Installation, row: &Installation) -> Installation
    ensures { result ≡ meters.as_one stands.now row.now }
{
    Installation {
        opening: stands.opening,
        last: row.last,
        total: stands.total.saturating_add(row.total),
        ended: row.ended,
    }
}

/// Returns whether the meter `stands` was closed before the meter `row` began, and the two meters
/// have different names.
pub(crate) fn is_before(stands: &Installation, row: &Installation) -> bool
    ensures { result ≡ meters.is_before stands.now row.now }
{
    let is_same = row.opening.meter.is(&stands.opening.meter);
    let is_earlier = stands.last.at <= row.opening.at;
    both(stands.ended, both(is_earlier, !is_same))
}

// Returns the first of the earlier meters in `known` that was not closed before the meter `row`
// began, or that has the name of `row`. Returns `None` if `known` has no such meter.
fn not_before(known: &[Installation], row: &Installation) -> Option<Installation>
    ensures { result ≡ find (λ stands. not (meters.is_before stands row.now)) known.now }
{
    for stands in known {
        if !is_before(stands, row) {
            return Some(*stands);
        }
    }
    None
}

// Appends the meter `row` to the earlier meters in `known`. If a meter in `known` was not closed
// before `row` began, or has the name of `row`, returns both meters instead.
fn add_next(known: &mut Vec<Installation>, row: &Installation) -> Result<Option<Apart>, AllocError>
    ensures { IfOk result (AddsNext known.old.items row.now known.new.items) }
{
    match not_before(known.as_slice(), row) {
        Some(stands) => Ok(Some(Apart {
            stands,
            begins: *row,
        })),
        None => {
            known.push(*row)?;
            Ok(None)
        }
    }
}

// Adds the meter `row` to the earlier meters in `known`, if `row` continues the last of them or
// begins after all were closed. If `row` does neither, returns `row` and an earlier meter with
// which `row` conflicts.
fn add_meter(known: &mut Vec<Installation>, row: &Installation) -> Result<Option<Apart>, AllocError>
    ensures { IfOk result (AddsOrIsApart known.old.items row.now known.new.items) }
{
    let Some(last) = known.pop() else {
        return add_next(known, row);
    };
    if goes_on(&last, row) {
        known.push(as_one(&last, row))?;
        return Ok(None);
    }
    known.push(last)?;
    add_next(known, row)
}

/// Adds the meters in `listed`, of one database file, to the earlier files' meters in `known`. If a
/// meter conflicts with an earlier one, returns both. A meter must continue an earlier meter, or
/// begin after the earlier ones were closed.
///
/// The meters in `listed` are in the order of their installation.
pub fn add_meters(
    known: &mut Vec<Installation>,
    listed: &[Installation],
) -> Result<Option<Apart>, AllocError>
    ensures { IfOk result (AddOrAreApart known.old.items listed.now known.new.items) }
{
    for row in listed {
        match add_meter(known, row) {
            Err(fault) => return Err(fault),
            Ok(apart) => {
                if apart.is_some() {
                    return Ok(apart);
                }
            }
        }
    }
    Ok(None)
}
