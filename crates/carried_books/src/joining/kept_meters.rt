//! The data of a meter that are collected over several database files, for its statement (the
//! numbers against which a bill is checked).
ghost use Rattle.std.specs.Prelude.{◌≡◌, ◌≤◌, if◌then◌else◌};
ghost use Rattle.office_books.specs.Entries.{all_entries};
ghost use Rattle.office_books.specs.Holds.{holds_of};
ghost use Rattle.office_books.specs.Ledgers.{Consults, Finds};
ghost use Rattle.office_books.specs.Intervals.{rows_of_meter};
ghost use Rattle.energy_report.specs.Held.{held_within};
ghost use Rattle.energy_report.specs.Statements.{energy_within};
ghost use Rattle.carried_books.specs.Joining.Statements as statements;
ghost use Rattle.carried_books.specs.Joining.Statements.{TalliesOn, ReportsPart, own_entries};

use crate::joining::meters::as_one;
use energy_report::{EnergyWithin, EntryTally, MeterStatement, RejectedCounts, RejectedWithin};
use interval_core::{DayRange, Zone};
use office_books::{Books, BooksFault, Span};
use office_core::span_around;
use office_events::{Installation, Name};

/// A meter over several database files: its state, and its statement (report) on a range of days.
#[derive(Clone, Copy)]
pub struct KeptMeter {
    pub stands: Installation,
    pub reported: MeterStatement,
}

// The number of entries in one database query. `MOST_PIECES` is the largest number of queries whose
// entry indexes all fit in 64 bits.
const PIECE: u32 = 65536;

const MOST_PIECES: u64 = 281_474_976_710_655;

// Returns the index, in a database file, of the first entry of a meter that no earlier file has.
// The index is 2 if the meter continues from an earlier file, because entry 1 then repeats the last
// entry of that file.
fn first_place(goes_on: bool) -> u64
    ensures place { result ≡ if goes_on then 2 else 1 }
    ensures few { result ≤ 2 }
{
    if goes_on { 2 } else { 1 }
}

// Returns the tally (first and last entry, corrections) of a meter's entries in the earlier
// database files and in the next file. The entries of the next file are queried in chunks.
fn tally_on<B: Books>(
    books: &mut B,
    begun: EntryTally,
    zone: &Zone,
    range: &DayRange,
    meter: &Name,
    goes_on: bool,
) -> Result<EntryTally, BooksFault>
    ensures found { Finds (B.ledger books.old) (B.ledger books.new) result
        (λ known new. TalliesOn zone.now range.now
        (own_entries goes_on (all_entries known meter.now)) begun new) }
    ensures reads { Consults (B.ledger books.old) (B.ledger books.new) result }
{
    let first = first_place(goes_on);
    let mut tally = begun;
    for turn in 0..MOST_PIECES {
        let piece = books.entries(meter, turn * 65536 + first, PIECE)?;
        tally.take_all(zone, range, &piece);
        if piece.len() < 65536 {
            return Ok(tally);
        }
    }
    Err(BooksFault::Memory)
}

// Returns the energy of a meter in a range of days, in mWh. Only the quarter hours in a time span
// that contains the range's days are queried.
fn energy<B: Books>(
    books: &mut B,
    zone: &Zone,
    range: &DayRange,
    meter: &Name,
) -> Result<u128, BooksFault>
    ensures found { Finds (B.ledger books.old) (B.ledger books.new) result
        (λ known mwh. mwh ≡ energy_within zone.now range.now (rows_of_meter known meter.now)) }
    ensures reads { Consults (B.ledger books.old) (B.ledger books.new) result }
{
    let mut energy = EnergyWithin::new(*zone, *range);
    books.intervals(meter, span_around(*range), &mut energy)?;
    Ok(energy.mwh())
}

// Returns the counts of a meter's rejected readings in a range of days, one for each cause of
// rejection.
fn held<B: Books>(
    books: &mut B,
    zone: &Zone,
    range: &DayRange,
    meter: &Name,
) -> Result<RejectedCounts, BooksFault>
    ensures found { Finds (B.ledger books.old) (B.ledger books.new) result
        (λ known counts. counts ≡ held_within zone.now range.now (holds_of known meter.now)) }
    ensures reads { Consults (B.ledger books.old) (B.ledger books.new) result }
{
    let mut held = RejectedWithin::new(*zone, *range);
    books.holds(meter, Span::All, &mut held)?;
    Ok(held.counts())
}

/// Returns the statement (report) of a meter in one database file. Its tally (first and last entry,
/// corrections) continues the tally of the earlier files.
pub(crate) fn part_in_file<B: Books>(
    books: &mut B,
    begun: EntryTally,
    zone: &Zone,
    range: &DayRange,
    meter: &Name,
    goes_on: bool,
) -> Result<MeterStatement, BooksFault>
    ensures found { Finds (B.ledger books.old) (B.ledger books.new) result
        (λ known reported. ReportsPart zone.now range.now meter.now goes_on known begun reported) }
    ensures reads { Consults (B.ledger books.old) (B.ledger books.new) result }
{
    let entries = tally_on(books, begun, zone, range, meter, goes_on)?;
    let mwh = energy(books, zone, range, meter)?;
    let held = held(books, zone, range, meter)?;
    Ok(MeterStatement {
        meter: *meter,
        entries,
        mwh,
        held,
    })
}

// Returns the sums of two counts of rejected readings, a sum for each cause of rejection.
fn both_held(one: &RejectedCounts, more: &RejectedCounts) -> RejectedCounts
    ensures { result ≡ statements.both_held one.now more.now }
{
    RejectedCounts {
        not_accumulated: one.not_accumulated.saturating_add(more.not_accumulated),
        scale_changed: one.scale_changed.saturating_add(more.scale_changed),
        not_later: one.not_later.saturating_add(more.not_later),
        span_too_long: one.span_too_long.saturating_add(more.span_too_long),
        gap_too_long: one.gap_too_long.saturating_add(more.gap_too_long),
        too_fast: one.too_fast.saturating_add(more.too_fast),
        total_full: one.total_full.saturating_add(more.total_full),
        not_below_range: one.not_below_range.saturating_add(more.not_below_range),
    }
}

/// Returns the data of a meter for its statement (billing report), over the earlier database files
/// and the next file.
pub(crate) fn with_part(kept: &KeptMeter, row: &Installation, part: &MeterStatement) -> KeptMeter
    ensures { result ≡ statements.with_part kept.now row.now part.now }
{
    KeptMeter {
        stands: as_one(&kept.stands, row),
        reported: MeterStatement {
            meter: kept.reported.meter,
            entries: part.entries,
            mwh: kept.reported.mwh.saturating_add(part.mwh),
            held: both_held(&kept.reported.held, &part.held),
        },
    }
}
