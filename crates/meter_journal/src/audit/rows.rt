//! The rows of the database table of a meter's entries, as a query returned them.
ghost use Rattle.std.specs.Prelude.{◌≡◌};
ghost use Rattle.meter_journal.specs.Audit.Passing as passing;

use crate::EntryKind;
use energy_core::Entry;

/// The kind of an entry, as the table of entries states it.
#[derive(Clone, Copy)]
pub enum RowKind {
    /// The opening of the meter: its first count, recorded when the meter was installed.
    Opening,
    /// A reading of the meter that the rules for meter entries accepted.
    Reading,
    /// A count that a person read from the meter and entered.
    Manual,
    /// The last count of a meter, entered by the person who closed the meter.
    Closing,
    /// A reset: the counter was set to another count.
    Reset,
    /// A rescale: the counter was set to another count and to another scale factor.
    Rescale,
}

/// A row of the table of entries, without the column of its meter. `moment` is in seconds since
/// 1970-01-01 UTC, and `sf` is the scale factor after the entry.
#[derive(Clone, Copy)]
pub struct TableRow {
    pub place: u64,
    pub kind: RowKind,
    pub moment: u64,
    pub raw: u32,
    pub rolls: u8,
    pub after: u32,
    pub sf: i16,
    /// Whether the table of voids (cancellations) has a row that names this entry.
    pub is_voided: bool,
}

/// Returns the kind of the entry that a row of the table of entries records, or `None` for an
/// opening, the first entry of a meter.
pub(crate) fn kind_of(row: &TableRow) -> Option<EntryKind>
    ensures { result ≡ passing.kind_in row.now.kind }
{
    match row.kind {
        RowKind::Opening => None,
        RowKind::Reading => Some(EntryKind::Reading),
        RowKind::Manual => Some(EntryKind::Manual),
        RowKind::Closing => Some(EntryKind::Closing),
        RowKind::Reset => Some(EntryKind::Reset),
        RowKind::Rescale => Some(EntryKind::Rescale),
    }
}

/// Returns the meter entry that a row of the table of entries records. `kind` is the entry's kind.
pub(crate) fn entry_of(kind: EntryKind, row: &TableRow) -> Entry
    ensures { result ≡ passing.entry_in kind row.now }
{
    match kind {
        EntryKind::Reading | EntryKind::Manual | EntryKind::Closing => Entry::Step {
            at: row.moment,
            raw: row.raw,
            rolls: row.rolls,
        },
        EntryKind::Reset | EntryKind::Rescale => Entry::Change {
            at: row.moment,
            before: row.raw,
            after: row.after,
            sf: row.sf,
        },
    }
}

/// Returns whether a column of a row of the table of entries is not 0 although entries of the row's
/// kind `kind` do not use the column.
pub(crate) fn has_unused(kind: EntryKind, row: &TableRow) -> bool
    ensures { result ≡ passing.has_unused kind row.now }
{
    match kind {
        EntryKind::Reading | EntryKind::Manual | EntryKind::Closing => row.after != 0,
        EntryKind::Reset | EntryKind::Rescale => row.rolls != 0,
    }
}
