//! Theorems about lawful records, in which the rules for adding records accept each record after
//! the earlier records.
ghost use Rattle.office_books.specs.Laws.{FactsAreBounded, JournalsFit, MetersAreKept, TruthIsRecorded, VoidsLeaveNoTrace};
ghost use Rattle.office_books.specs.Ranges.{InstallationsAreInRange};

use meter_journal::{
    interval_rows_add_up, interval_rows_are_accounts, journals_are_kept, journals_balance,
    places_were_kept, rows_are_kept, truth_is_kept, voids_leave_no_trace as journal_voids,
};

/// Proves that, if the records are lawful, the rules for a meter's journal (history) accept each
/// line after the earlier lines.
pub fn journals_fit()
    ensures { JournalsFit }
{}

/// Proves that the energy of each meter balances if the records are lawful. The energy is the last
/// counter value (in mWh) less the first, plus a full range for each recorded rollover, plus the
/// differences that resets and rescales record.
///
/// A meter's voided (cancelled) entries do not count, and its energies by quarter hour add up to
/// its total energy.
pub fn meters_are_kept()
    ensures { MetersAreKept }
{
    journals_balance();
    journals_are_kept();
    interval_rows_are_accounts();
    interval_rows_add_up();
}

/// Proves that the readings of an honest meter are recorded truly if the meter is polled often
/// enough and has no entries but readings. No reading since the last void (cancellation) is
/// rejected. The recorded energy, in total and by quarter hour, equals the true energy.
pub fn truth_is_recorded()
    ensures { TruthIsRecorded }
{
    truth_is_kept();
}

/// Proves that voided (cancelled) entries leave no trace in a meter's total energy and in its
/// energy by quarter hour.
pub fn voids_leave_no_trace()
    ensures { VoidsLeaveNoTrace }
{
    rows_are_kept();
    journal_voids();
}

/// Proves that no timestamp, poll number or number of an idempotency key exceeds its limit in
/// records that the rules for adding records accept.
pub fn facts_are_bounded()
    ensures { FactsAreBounded }
{}

/// Proves that, if the rules for adding records accept all records, the counter values, scale
/// factors and energies of each meter are in range. This holds now and before each entry.
pub fn installations_are_in_range()
    ensures { InstallationsAreInRange }
{
    journals_are_kept();
    places_were_kept();
}
