//! Checks all entry rows of a meter in one call: the rules for meter entries must accept each row
//! after the rows before it.
ghost use Rattle.std.specs.Prelude.{◌<◌, ◌^◌, All, reverse, IfOk, IfErr};
ghost use Rattle.meter_journal.specs.Audit.Fitting.{AreReported};
ghost use Rattle.meter_journal.specs.Audit.Passing.{MayBeChecked};
ghost use Rattle.meter_journal.specs.Audit.Laws.{HasPassed, IsFirstRefused};

use crate::Installed;
use crate::audit::checks::{Check, begin, pass};
use crate::audit::faults::RowFault;
use crate::audit::laws::passed_rows_fit;
use crate::audit::rows::TableRow;

/// The index of the first entry row that the rules for meter entries do not accept after the rows
/// before it, and the reason.
#[derive(Clone, Copy, PartialEq, Eq)]
pub struct RefusedRow {
    pub index: usize,
    pub fault: RowFault,
}

/// Checks a meter's table rows after the opening row (its first entry), in order of their sequence
/// numbers. Returns the state of the check after all rows. On error, returns the first refused row.
pub fn check_rows(meter: &Installed, rows: &[TableRow]) -> Result<Check, RefusedRow>
    requires meter { MayBeChecked meter.now }
    requires places { All (λ row. row.place < 2 ^ 63) rows.now }
    ensures fine { IfOk result (HasPassed meter.now (reverse rows.now)) }
    ensures refused { IfErr result (λ _. AreReported meter.now (reverse rows.now) → ⊥) }
    ensures first { IfErr result (IsFirstRefused meter.now rows.now) }
{
    passed_rows_fit();
    let mut check = begin(meter);
    for (index, row) in rows.iter().enumerate() {
        match pass(meter, &check, row) {
            Ok((next, _)) => check = next,
            Err(fault) => return Err(RefusedRow { index, fault }),
        }
    }
    Ok(check)
}
