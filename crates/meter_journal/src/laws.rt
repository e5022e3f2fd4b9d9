//! Theorems about every journal (history) of a meter that obeys the rules for meter entries. Each
//! theorem is the contract of a function. The function's body calls the theorem that the proof
//! needs, or is empty.
ghost use Rattle.meter_journal.specs.Laws.{JournalsBalance, JournalsAreKept};
ghost use Rattle.meter_journal.specs.Laws.{IntervalRowsAreAccounts, IntervalRowsAddUp, TruthIsKept};
ghost use Rattle.meter_journal.specs.Laws.{RowsStand, StandingEntriesFit, VoidsLeaveNoTrace};

use interval_core::{accounts_add_up, shares_add_up};

/// Theorem: the energy of a meter's valid (not voided) entries is the last counter value (in mWh)
/// less the first value, plus one full range for each recorded rollover. Each reset or rescale adds
/// the value before it less the value after it.
pub fn journals_balance()
    ensures { JournalsBalance }
{}

/// Theorem: the valid entries of a meter's journal (history) obey the rules for meter entries,
/// whatever voids (cancellations) the journal contains. The energies of the steps between these
/// entries add up to their total energy.
pub fn journals_are_kept()
    ensures { JournalsAreKept }
{}

/// Theorem: a meter's interval rows are the energies of the steps between valid (not voided)
/// entries, added up by quarter hour. One row exists for each interval that a step touches, in
/// order.
pub fn interval_rows_are_accounts()
    ensures { IntervalRowsAreAccounts }
{
    shares_add_up();
}

/// Theorem: the interval rows (energies by quarter hour) of a meter's journal (history) add up to
/// the energy of its valid (not voided) entries.
pub fn interval_rows_add_up()
    ensures { IntervalRowsAddUp }
{
    shares_add_up();
    accounts_add_up();
}

/// Theorem: consider the readings that were valid after the last void (cancellation), and all later
/// readings. Suppose `ShowsTrueRun`: the readings show a meter's true counts, none shows 0, and the
/// total energy stays within its limit. They are also so frequent that the counter can't make a
/// full turn between two of them. Then no later reading was rejected, and the journal (history)
/// records the true energy. The energy before the start of any interval is also true, except for
/// the step in progress at that start.
pub fn truth_is_kept()
    ensures { TruthIsKept }
{
    shares_add_up();
}

/// Theorem: the valid entries of a meter's journal (history) are the entries that no void
/// (cancellation) in the journal names.
pub fn rows_are_kept()
    ensures { RowsStand }
{}

/// Theorem: the rules for meter entries accept each valid (not voided) entry of a meter's journal
/// after the valid entries before it.
pub fn standing_entries_fit()
    ensures { StandingEntriesFit }
{}

/// Theorem: the valid (not voided) entries of a meter's journal (history) lead to the same state as
/// a journal that contains only these entries.
pub fn voids_leave_no_trace()
    ensures { VoidsLeaveNoTrace }
{}
