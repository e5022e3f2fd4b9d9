//! Checks one after another whether the rules for meter entries accept the entry rows of a meter,
//! in constant memory.
ghost use Rattle.std.specs.Prelude.{◌≡◌, ◌+◌, ◌<◌, ◌^◌, IfOk};
ghost use Rattle.std.specs.Option.{ForSome};
ghost use Rattle.energy_core.specs.Laws.{IsShareable};
ghost use Rattle.meter_journal.specs.Journal as journal;
ghost use Rattle.meter_journal.specs.Audit.Passing as passing;

use crate::audit::faults::RowFault;
use crate::audit::rows::{TableRow, entry_of, has_unused, kind_of};
use crate::{EntryKind, Installed};
use energy_core::{Cause, Last, Ranged, Reading, Step, Terms, Verdict, enter, judge};

/// The state of the check of a meter's rows after an entry row: its sequence number, the last valid
/// (not voided) entry, the energy in mWh, whether the meter was closed, and whether the row is
/// valid.
#[derive(Clone, Copy, PartialEq, Eq)]
pub struct Check {
    pub place: u64,
    pub last: Last,
    pub total: u64,
    pub is_ended: bool,
    pub stands: bool,
}

/// Returns the state of the check of a meter's rows after the opening row, which has the meter's
/// first count.
pub fn begin(meter: &Installed) -> Check
    requires { passing.MayBeChecked meter.now }
    ensures value { result ≡ passing.begun meter.now }
    ensures sound { passing.IsSoundCheck meter.now result }
{
    Check {
        place: 1,
        last: meter.opening,
        total: 0,
        is_ended: false,
        stands: true,
    }
}

/// Returns whether entries of this kind are accepted readings.
fn is_reading(kind: EntryKind) -> bool
    ensures { result ≡ journal.is_reading kind }
{
    match kind {
        EntryKind::Reading => true,
        EntryKind::Manual | EntryKind::Closing | EntryKind::Reset | EntryKind::Rescale => false,
    }
}

/// Returns whether a row changes the counter's scale factor although the row is not a rescale.
fn is_off_scale(check: &Check, kind: EntryKind, row: &TableRow) -> bool
    ensures { result ≡ passing.is_off_scale check.now kind row.now }
{
    match kind {
        EntryKind::Rescale => false,
        EntryKind::Reading | EntryKind::Manual | EntryKind::Closing | EntryKind::Reset => {
            row.sf != check.last.sf
        }
    }
}

/// Returns the kind of an entry row, or the row's first fault. A row without fault has the next
/// sequence number, and columns that its kind allows.
fn shape(check: &Check, row: &TableRow) -> Result<EntryKind, RowFault>
    requires { check.now.place < 2 ^ 63 }
    ensures { result ≡ passing.shape_of check.now row.now }
{
    let wanted = check.place + 1;
    if row.place != wanted {
        return Err(RowFault::Place { wanted });
    }
    let Some(kind) = kind_of(row) else {
        return Err(RowFault::OpenedAgain);
    };
    if check.is_ended {
        return Err(RowFault::AfterClosing);
    }
    if row.is_voided && !is_reading(kind) {
        return Err(RowFault::CannotBeVoided);
    }
    if has_unused(kind, row) {
        return Err(RowFault::Unused);
    }
    if is_off_scale(check, kind, row) {
        return Err(RowFault::Scale {
            wanted: check.last.sf,
        });
    }
    Ok(kind)
}

/// Returns why the rules for meter entries reject a row as a valid (not voided) reading. Returns
/// `None` if the rules accept the reading, or if the row's kind is not a reading.
fn reading_fault(
    meter: &Installed,
    check: &Check,
    kind: EntryKind,
    row: &TableRow,
) -> Option<RowFault>
    requires meter { passing.MayBeChecked meter.now }
    requires sound { passing.IsSoundCheck meter.now check.now }
    ensures { result ≡ passing.reading_fault meter.now check.now kind row.now }
{
    if !is_reading(kind) {
        return None;
    }
    let Some(counter) = Ranged::new(meter.range) else {
        unreachable!()
    };
    let terms = Terms {
        ceiling: meter.ceiling,
        total: check.total,
    };
    let reading = Reading {
        at: row.moment,
        raw: row.raw,
        sf: check.last.sf,
    };
    match judge(&counter, &terms, &check.last, &reading) {
        Verdict::Held(cause) => Some(RowFault::Held(cause)),
        Verdict::Accepted { rolls, step: _ } => {
            if row.rolls == rolls {
                None
            } else {
                Some(RowFault::Rolls { wanted: rolls })
            }
        }
    }
}

/// Returns why the rules for meter entries reject a voided (cancelled) reading that directly
/// follows a valid row. Returns `None` if the rules accept the reading, or if the row before is
/// voided.
fn stood_fault(
    meter: &Installed,
    check: &Check,
    kind: EntryKind,
    row: &TableRow,
) -> Option<RowFault>
    requires meter { passing.MayBeChecked meter.now }
    requires sound { passing.IsSoundCheck meter.now check.now }
    ensures { result ≡ passing.stood_fault meter.now check.now kind row.now }
{
    if check.stands {
        reading_fault(meter, check, kind, row)
    } else {
        None
    }
}

/// Returns why a voided (cancelled) reading can't have been accepted when it was recorded, whether
/// or not the row before it is valid. Returns `None` if there is no such reason.
fn voided_fault(meter: &Installed, check: &Check, row: &TableRow) -> Option<RowFault>
    ensures { result ≡ passing.voided_fault meter.now check.now row.now }
{
    if row.raw == 0 {
        return Some(RowFault::Held(Cause::NotAccumulated));
    }
    if meter.range <= u64::from(row.raw) {
        return Some(RowFault::Held(Cause::NotBelowRange));
    }
    if row.moment <= check.last.at {
        return Some(RowFault::Held(Cause::NotLater));
    }
    if 1 < row.rolls {
        return Some(RowFault::Rolls { wanted: 1 });
    }
    None
}

/// Returns the state of the check of a meter's rows after a valid (not voided) row, and the step to
/// the row's entry (the energy since the last valid entry). On error, returns the first fault of
/// the row.
fn check_valid_row(
    meter: &Installed,
    check: &Check,
    kind: EntryKind,
    row: &TableRow,
) -> Result<(Check, Option<Step>), RowFault>
    requires meter { passing.MayBeChecked meter.now }
    requires sound { passing.IsSoundCheck meter.now check.now }
    requires place { row.now.place < 2 ^ 63 }
    ensures value { result ≡ passing.stood meter.now check.now kind row.now }
    ensures sound { IfOk result (λ r. passing.IsSoundCheck meter.now r.0) }
    ensures total { IfOk result (λ r. r.0.total ≡ check.now.total + passing.energy_in r.1) }
    ensures step { IfOk result (λ r. ForSome r.1 IsShareable) }
{
    if let Some(fault) = reading_fault(meter, check, kind, row) {
        return Err(fault);
    }
    let Some(counter) = Ranged::new(meter.range) else {
        unreachable!()
    };
    let terms = Terms {
        ceiling: meter.ceiling,
        total: check.total,
    };
    match enter(&counter, &terms, &check.last, &entry_of(kind, row)) {
        Ok((last, step)) => {
            let next = Check {
                place: row.place,
                last,
                total: check.total + step.mwh,
                is_ended: kind.is_closing(),
                stands: true,
            };
            Ok((next, Some(step)))
        }
        Err(fault) => Err(RowFault::Refused(fault)),
    }
}

/// Checks the next entry row of a meter. Returns the state of the check after the row, and the step
/// to the row's entry (the energy since the last valid entry). A voided (cancelled) row has no
/// step. On error, returns the first fault of the row.
///
/// To continue the check of a meter's rows after a refused row, set the field `place` of the
/// check's state to the row's sequence number, and change nothing else.
pub fn pass(
    meter: &Installed,
    check: &Check,
    row: &TableRow,
) -> Result<(Check, Option<Step>), RowFault>
    requires meter { passing.MayBeChecked meter.now }
    requires sound { passing.IsSoundCheck meter.now check.now }
    requires place { row.now.place < 2 ^ 63 }
    ensures value { result ≡ passing.passed meter.now check.now row.now }
    ensures sound { IfOk result (λ r. passing.IsSoundCheck meter.now r.0) }
    ensures total { IfOk result (λ r. r.0.total ≡ check.now.total + passing.energy_in r.1) }
    ensures step { IfOk result (λ r. ForSome r.1 IsShareable) }
{
    let kind = shape(check, row)?;
    if !row.is_voided {
        return check_valid_row(meter, check, kind, row);
    }
    if let Some(fault) = voided_fault(meter, check, row) {
        return Err(fault);
    }
    if let Some(fault) = stood_fault(meter, check, kind, row) {
        return Err(fault);
    }
    let next = Check {
        place: row.place,
        last: check.last,
        total: check.total,
        is_ended: check.is_ended,
        stands: false,
    };
    Ok((next, None))
}
