//! Builds the description of an installed meter from its opening, the first entry.
ghost use Rattle.std.specs.Prelude.{◌≡◌, ◌↔◌, IsTrue, IsSome, IfSome};
ghost use Rattle.meter_journal.specs.declared.lines.Installed.{Installed as TheMeter};
ghost use Rattle.meter_journal.specs.Audit.Rows.{opening_row};
ghost use Rattle.meter_journal.specs.Audit.Passing.{MayBeChecked};
ghost use Rattle.table_audit.specs.Lawful.{last_shown, IsOpenedBy};

use energy_core::{Last, MAX_CEILING, MAX_SCALE, MIN_SCALE, Ranged};
use meter_journal::Installed;
use meter_journal::audit::{RowKind, TableRow};

/// Returns whether a row of `entries` is an opening: index 1, the kind `Opening`, no rollovers, no
/// value after a reset, and not voided (cancelled).
fn is_opening(row: &TableRow) -> bool
    ensures { IsTrue result ↔ (row.now ≡ opening_row (last_shown row.now)) }
{
    row.place == 1
        && row.kind == RowKind::Opening
        && row.rolls == 0
        && row.after == 0
        && !row.is_voided
}

/// Returns whether a meter's counter range, ceiling (maximum power) and opening (raw value and
/// scale factor of the first entry) are within the program's bounds. The time of the opening may
/// have any value.
fn may_be_checked(meter: &Installed) -> bool
    ensures { IsTrue result ↔ MayBeChecked meter.now }
{
    Ranged::new(meter.range).is_some()
        && 1 <= meter.ceiling
        && meter.ceiling <= MAX_CEILING
        && u64::from(meter.opening.raw) < meter.range
        && MIN_SCALE <= meter.opening.sf
        && meter.opening.sf <= MAX_SCALE
}

/// Builds the meter that the opening entry `row` installs. Returns None if the entry is no opening,
/// or if the meter has values outside the program's bounds.
pub(crate) fn opened(range: u64, ceiling: u64, row: &TableRow) -> Option<Installed>
    ensures may { IfSome result MayBeChecked }
    ensures opened { IfSome result (IsOpenedBy range ceiling row.now) }
    ensures each { (meter : TheMeter) → MayBeChecked meter → IsOpenedBy range ceiling row.now meter
        → IsSome result }
{
    if !is_opening(row) {
        return None;
    }
    let meter = Installed {
        range,
        ceiling,
        opening: Last {
            at: row.moment,
            raw: row.raw,
            sf: row.sf,
        },
    };
    if may_be_checked(&meter) {
        Some(meter)
    } else {
        None
    }
}
