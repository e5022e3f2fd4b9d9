//! Tallies the entries of a meter in a range of civil days.
ghost use Rattle.std.specs.Prelude.{◌≡◌, ◌&&◌, ◌++◌, ◌∷◌, [], List, Some, None, if◌then◌else◌};
ghost use Rattle.std.specs.Option.{option_or};
ghost use Rattle.office_books.specs.declared.entries.MeterEntry.{MeterEntry as Listed};
ghost use Rattle.energy_report.specs.RowLines.{one_more_if};
ghost use Rattle.energy_report.specs.Statements as statements;
ghost use Rattle.energy_report.specs.Statements.{tally_of};

use energy_core::{Entry, Last};
use interval_core::{DayRange, Zone};
use meter_journal::EntryKind;
use office_books::MeterEntry;

/// The tally of a meter's entries in a range of days. The tally has the counter's state after the
/// first and after the last entry, and the numbers of corrections, openings and closings.
///
/// Each number saturates at 2^64 - 1.
#[derive(Clone, Copy)]
pub struct EntryTally {
    /// The counter's state after the first and after the last valid (not voided) entry in the range
    /// of days. `None` if there is no valid entry.
    pub first: Option<Last>,
    pub last: Option<Last>,
    /// The number of a meter's valid (not voided) readings by hand in the range of days.
    pub by_hand: u64,
    /// How many valid (not voided) resets a meter has in the range of days, and how many valid
    /// rescales (changes of the scale factor).
    pub resets: u64,
    pub rescales: u64,
    /// The number of voided (cancelled) entries in the range of days. A voided entry counts if its
    /// own timestamp is in the range, whenever it was voided.
    pub voids: u64,
    /// The numbers of a meter's openings (first entries) and valid closings (last entries) in the
    /// range of days.
    pub openings: u64,
    pub closings: u64,
}

impl EntryTally {
    /// Creates the tally (first and last entry, corrections) of an empty list of entries.
    pub fn new() -> EntryTally
        ensures none { (zone : Zone) (range : DayRange) → result ≡ tally_of zone range [] }
    {
        EntryTally {
            first: None,
            last: None,
            by_hand: 0,
            resets: 0,
            rescales: 0,
            voids: 0,
            openings: 0,
            closings: 0,
        }
    }

    /// Adds entries of a meter to the tally (first and last entry, corrections), in order.
    pub fn take_all(&mut self, zone: &Zone, range: &DayRange, entries: &[MeterEntry])
        ensures { (before : List Listed) → self.old ≡ tally_of zone.now range.now before
            → self.new ≡ tally_of zone.now range.now (before ++ entries.now) }
    {
        for entry in entries {
            self.count_entry(zone, range, entry);
        }
    }

    // Adds the next entry of a meter to the tally (first and last entry, corrections).
    fn count_entry(&mut self, zone: &Zone, range: &DayRange, entry: &MeterEntry)
        ensures { (before : List Listed) → self.old ≡ tally_of zone.now range.now before
            → self.new ≡ tally_of zone.now range.now (before ++ entry.now ∷ []) }
    {
        let stand = counter_after_entry(entry);
        let is_within = range.has_moment(zone, stand.at);
        let counts = both(is_within, is_valid(entry));
        *self = EntryTally {
            first: earlier(self.first, counts, stand),
            last: later(self.last, counts, stand),
            by_hand: tallied(self.by_hand, both(counts, is_by_hand(entry))),
            resets: tallied(self.resets, both(counts, is_reset(entry))),
            rescales: tallied(self.rescales, both(counts, is_rescale(entry))),
            voids: tallied(self.voids, both(is_within, !is_valid(entry))),
            openings: tallied(self.openings, both(counts, is_opening(entry))),
            closings: tallied(self.closings, both(counts, is_closing(entry))),
        };
    }
}

// Returns the state of a meter's counter after a meter entry.
fn counter_after_entry(entry: &MeterEntry) -> Last
    ensures { result ≡ statements.counter_after_entry entry.now }
{
    match entry {
        MeterEntry::Opening(last) => *last,
        MeterEntry::Later { row, sf } => match row.entry {
            Entry::Step { at, raw, .. } => Last { at, raw, sf: *sf },
            Entry::Change { at, after, .. } => Last {
                at,
                raw: after,
                sf: *sf,
            },
        },
    }
}

fn is_valid(entry: &MeterEntry) -> bool
    ensures { result ≡ statements.stands entry.now }
{
    match entry {
        MeterEntry::Opening(_) => true,
        MeterEntry::Later { row, .. } => row.stands,
    }
}

fn is_by_hand(entry: &MeterEntry) -> bool
    ensures { result ≡ statements.has_kind statements.is_manual entry.now }
{
    match entry {
        MeterEntry::Opening(_) => false,
        MeterEntry::Later { row, .. } => match row.kind {
            EntryKind::Manual => true,
            EntryKind::Reading | EntryKind::Closing | EntryKind::Reset | EntryKind::Rescale => {
                false
            }
        },
    }
}

fn is_reset(entry: &MeterEntry) -> bool
    ensures { result ≡ statements.has_kind statements.is_reset entry.now }
{
    match entry {
        MeterEntry::Opening(_) => false,
        MeterEntry::Later { row, .. } => match row.kind {
            EntryKind::Reset => true,
            EntryKind::Reading | EntryKind::Manual | EntryKind::Closing | EntryKind::Rescale => {
                false
            }
        },
    }
}

fn is_rescale(entry: &MeterEntry) -> bool
    ensures { result ≡ statements.has_kind statements.is_rescale entry.now }
{
    match entry {
        MeterEntry::Opening(_) => false,
        MeterEntry::Later { row, .. } => match row.kind {
            EntryKind::Rescale => true,
            EntryKind::Reading | EntryKind::Manual | EntryKind::Closing | EntryKind::Reset => false,
        },
    }
}

fn is_opening(entry: &MeterEntry) -> bool
    ensures { result ≡ statements.is_opening entry.now }
{
    match entry {
        MeterEntry::Opening(_) => true,
        MeterEntry::Later { .. } => false,
    }
}

fn is_closing(entry: &MeterEntry) -> bool
    ensures { result ≡ statements.has_kind statements.is_closing entry.now }
{
    match entry {
        MeterEntry::Opening(_) => false,
        MeterEntry::Later { row, .. } => match row.kind {
            EntryKind::Closing => true,
            EntryKind::Reading | EntryKind::Manual | EntryKind::Reset | EntryKind::Rescale => false,
        },
    }
}

// Returns whether both conditions are true.

pub(crate) fn both(one: bool, other: bool) -> bool
    ensures { result ≡ one && other }
{
    one && other
}

fn earlier(first: Option<Last>, counts: bool, stand: Last) -> Option<Last>
    ensures { result ≡ option_or first (if counts then Some stand else None) }
{
    match first {
        Some(_) => first,
        None => { if counts { Some(stand) } else { None } }
    }
}

fn later(last: Option<Last>, counts: bool, stand: Last) -> Option<Last>
    ensures { result ≡ if counts then Some stand else last }
{
    if counts { Some(stand) } else { last }
}

pub(crate) fn tallied(count: u64, counts: bool) -> u64
    ensures { result ≡ one_more_if counts count }
{
    count.saturating_add(u64::from(counts))
}
