//! Compares the stored interval rows (the energies of quarter hours) with the interval rows
//! computed from the meter's entries.
ghost use Rattle.std.specs.Prelude.{◌≡◌, ◌↔◌, ◌<◌, ◌^◌, IsNone, IfSome};
ghost use Rattle.meter_journal.specs.Audit.Comparing.{fault_between, difference_after, IsFirst};

use interval_core::Share;

/// The difference between an interval row (the energy of a quarter hour) in a table and the row
/// computed from the meter's entries. Energies are in mWh.
#[derive(Clone, Copy, PartialEq, Eq)]
pub enum IntervalFault {
    /// The table lacks an interval row (the energy of a quarter hour) that was computed from the
    /// entries.
    Missing { start: u64, wanted: u64 },
    /// The table has an interval row (the energy of a quarter hour) that was not computed from the
    /// entries.
    Unwanted { start: u64, has: u64 },
    /// The table has the interval row of a quarter hour, but with an energy other than the computed
    /// energy.
    Differs { start: u64, has: u64, wanted: u64 },
}

/// The first difference between computed and stored interval rows (energies by quarter hour), after
/// `same` equal rows. `wanted_done` and `found_done` count the computed and the stored rows up to
/// and including the difference.
#[derive(Clone, Copy, PartialEq, Eq)]
pub struct IntervalDifference {
    pub same: usize,
    pub fault: IntervalFault,
    pub wanted_done: usize,
    pub found_done: usize,
}

/// Returns how a computed and a stored interval row (the energy of a quarter hour) differ, or
/// `None` if they are equal. If the starts of both rows differ, only the earlier row is reported.
fn between(wanted: &Share, found: &Share) -> Option<IntervalFault>
    ensures { result ≡ fault_between wanted.now found.now }
{
    if wanted.start < found.start {
        return Some(IntervalFault::Missing {
            start: wanted.start,
            wanted: wanted.mwh,
        });
    }
    if found.start < wanted.start {
        return Some(IntervalFault::Unwanted {
            start: found.start,
            has: found.mwh,
        });
    }
    if wanted.mwh == found.mwh {
        return None;
    }
    Some(IntervalFault::Differs {
        start: wanted.start,
        has: found.mwh,
        wanted: wanted.mwh,
    })
}

/// Returns the first difference between two lists of interval rows (energies of quarter hours),
/// given the number of equal rows before it.
fn difference_at(same: usize, fault: IntervalFault) -> IntervalDifference
    requires { same < 2 ^ 63 }
    ensures { result ≡ difference_after same fault }
{
    let (wanted_more, found_more) = match fault {
        IntervalFault::Missing { .. } => (1, 0),
        IntervalFault::Unwanted { .. } => (0, 1),
        IntervalFault::Differs { .. } => (1, 1),
    };
    IntervalDifference {
        same,
        fault,
        wanted_done: same + wanted_more,
        found_done: same + found_more,
    }
}

/// Returns the first difference between computed and stored interval rows (energies of quarter
/// hours), or `None` if the lists are equal. Both lists must be in order of their starts. To
/// continue, skip `wanted_done` computed rows and `found_done` stored rows.
pub fn first_difference(wanted: &[Share], found: &[Share]) -> Option<IntervalDifference>
    ensures none { IsNone result ↔ (found.now ≡ wanted.now) }
    ensures first { IfSome result (IsFirst wanted.now found.now) }
{
    for (same, row) in wanted.iter().enumerate() {
        if same >= found.len() {
            let fault = IntervalFault::Missing {
                start: row.start,
                wanted: row.mwh,
            };
            return Some(difference_at(same, fault));
        }
        if let Some(fault) = between(row, &found[same]) {
            return Some(difference_at(same, fault));
        }
    }
    if wanted.len() < found.len() {
        let row = found[wanted.len()];
        let fault = IntervalFault::Unwanted {
            start: row.start,
            has: row.mwh,
        };
        return Some(difference_at(wanted.len(), fault));
    }
    None
}
