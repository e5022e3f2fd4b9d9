//! The progress of a check of a meter's entry rows, and of the interval rows (the energies of
//! quarter hours) computed from them.
ghost use Rattle.std.specs.Prelude.{◌≡◌, ◌<◌, ◌^◌, [], drop};
ghost use Rattle.std.specs.Prelude.{IfOk, OnOk};
ghost use Rattle.meter_journal.specs.declared.lines.Installed.{Installed as TheMeter};
ghost use Rattle.meter_journal.specs.Audit.Passing.{MayBeChecked};
ghost use Rattle.meter_journal.specs.Audit.Going.{IsSoundProgress, HasGone, GoesOver, DropsDone, settled_in};

use crate::audit::checks::{Check, begin, pass};
use crate::audit::faults::RowFault;
use crate::audit::laws::passed_rows_fit;
use crate::audit::rows::TableRow;
use crate::{Installed, append_shares};
use interval_core::{Share, shares_add_up};
use std::alloc::{AllocError, Global};

/// The state of the check of a meter's tables after an entry row, and the pending interval rows
/// (energies by quarter hour). The pending rows were computed from the entries and have not been
/// compared with the table yet. The next entry may add energy only to the last pending row.
#[derive(Drop)]
pub struct Progress {
    pub check: Check,
    pub wanted: Vec<Share>,
}

/// Begins a check of a meter's table rows after the opening row (the meter's first entry). Stores
/// the allocator for later, and allocates nothing.
pub fn start(alloc: Global, meter: &Installed) -> Progress
    requires { MayBeChecked meter.now }
    ensures sound { IsSoundProgress meter.now result }
    ensures gone { HasGone meter.now [] [] result }
{
    Progress {
        check: begin(meter),
        wanted: Vec::new(alloc),
    }
}

/// Checks the next row of a meter in the table of entries. Returns the row's fault if the check
/// refuses the row. After a refusal, only the check's sequence number has advanced.
///
/// The function's only error is that memory ran out. After this error, the interval rows (energies
/// by quarter hour) still to be compared are unspecified.
pub fn take_row(
    meter: &Installed,
    progress: &mut Progress,
    row: &TableRow,
) -> Result<Option<RowFault>, AllocError>
    requires meter { MayBeChecked meter.now }
    requires sound { IsSoundProgress meter.now progress.old }
    requires place { row.now.place < 2 ^ 63 }
    ensures sound { OnOk result (IsSoundProgress meter.now progress.new) }
    ensures goes_on { IfOk result (GoesOver meter.now progress.old row.now progress.new) }
{
    shares_add_up();
    passed_rows_fit();
    match pass(meter, &progress.check, row) {
        Ok((next, step)) => {
            if let Some(step) = step {
                append_shares(&mut progress.wanted, &step)?;
            }
            progress.check = next;
            Ok(None)
        }
        Err(fault) => {
            progress.check.place = row.place;
            Ok(Some(fault))
        }
    }
}

// Removes all interval rows (energies by quarter hour) that are still to be compared, except the
// last row.
fn leave_last(wanted: &mut Vec<Share>)
    ensures { let done = settled_in wanted.old.items in
        wanted.new.items ≡ drop done wanted.old.items }
{
    let count = wanted.len();
    if count > 1 {
        let last = wanted[count - 1];
        wanted[0] = last;
        wanted.truncate(1);
    }
}

/// Removes the pending interval rows (still to be compared) to which no later entry can add energy:
/// all rows except the last.
pub fn drop_done(progress: &mut Progress)
    ensures sound { (meter : TheMeter) → IsSoundProgress meter progress.old
        → IsSoundProgress meter progress.new }
    ensures check { progress.new.check ≡ progress.old.check }
    ensures last { let done = settled_in progress.old.wanted.items in
        progress.new.wanted.items ≡ drop done progress.old.wanted.items }
    ensures goes_on { DropsDone progress.old progress.new }
{
    leave_last(&mut progress.wanted);
}
