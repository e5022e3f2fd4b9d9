//! Lists the entries of a meter by sequence number.
ghost use Rattle.std.specs.Prelude.{◌≡◌, ◌++◌, ◌∷◌, List, [], reverse, IfOk, OnOk};
ghost use Rattle.meter_journal.specs.Lists.{latest_first};
ghost use Rattle.meter_journal.specs.declared.lines.EntryRow.{EntryRow as JournalRow};
ghost use Rattle.office_events.specs.declared.facts.Opening.{Opening as RecordedOpening};
ghost use Rattle.office_books.specs.Entries.{first_from, listed_rows, place_of, scale_after};

use crate::openings::opened;
use energy_core::{Entry, Last};
use meter_journal::EntryRow;
use office_events::Opening;
use std::alloc::{AllocError, Global};

/// An entry of a meter. A later void (cancellation) can only mark the entry as invalid, or change
/// its number of rollovers if the entry before it is voided.
#[derive(Clone, Copy, PartialEq, Eq)]
pub enum MeterEntry {
    /// The opening: the state of the counter when the meter was installed. The opening has sequence
    /// number 1, and cannot be voided (cancelled).
    Opening(Last),
    /// An entry after the opening (first entry), with the scale factor of the counter after this
    /// entry.
    Later { row: EntryRow, sf: i16 },
}

impl MeterEntry {
    /// Returns the sequence number of the entry, from 1.
    pub fn place(&self) -> u64
        ensures { result ≡ place_of self.now }
    {
        match self {
            MeterEntry::Opening(_) => 1,
            MeterEntry::Later { row, .. } => row.place,
        }
    }
}

/// Returns the scale factor after an entry row. A valid change of scale sets a new scale factor,
/// and any other entry keeps the old one.
fn scale_with(sf: i16, row: &EntryRow) -> i16
    ensures { (opening : RecordedOpening) (rows : List JournalRow) → sf ≡ scale_after opening rows
        → result ≡ scale_after opening (row.now ∷ rows) }
{
    match row.entry {
        Entry::Change { sf, .. } if row.stands => sf,
        Entry::Change { .. } | Entry::Step { .. } => sf,
    }
}

/// Appends an entry to the list, if its sequence number is at least `from` and the list has fewer
/// than `most` entries.
fn list(
    listed: &mut Vec<MeterEntry>,
    entry: MeterEntry,
    from: u64,
    most: u32,
) -> Result<(), AllocError>
    ensures { (before : List MeterEntry) → listed.old.items ≡ first_from from most before
        → OnOk result (listed.new.items ≡ first_from from most (before ++ entry ∷ [])) }
{
    if from <= entry.place() && listed.len() < most as usize {
        listed.push(entry)?;
    }
    Ok(())
}

/// Returns at most `most` entries of a meter from sequence number `from` on. `rows` has the meter's
/// entries after its opening (first entry), the oldest first.
pub fn list_entries(
    alloc: Global,
    opening: &Opening,
    rows: &[EntryRow],
    from: u64,
    most: u32,
) -> Result<Vec<MeterEntry>, AllocError>
    ensures { IfOk result (λ v. v.items
        ≡ first_from from most (reverse (listed_rows opening.now (latest_first rows.now)))) }
{
    let mut listed = Vec::new(alloc);
    list(
        &mut listed,
        MeterEntry::Opening(opened(opening)),
        from,
        most,
    )?;
    let mut scale = opening.sf;
    for row in rows {
        scale = scale_with(scale, row);
        list(
            &mut listed,
            MeterEntry::Later {
                row: *row,
                sf: scale,
            },
            from,
            most,
        )?;
    }
    Ok(listed)
}
