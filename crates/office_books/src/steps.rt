//! Theorems about what a new record changes in the state, the entry rows and the interval rows of a
//! meter.
ghost use Rattle.office_books.specs.Steps.{EntriesMoveOn, HoldsChangeNothing, OpeningsBegin, OtherMetersStay};
ghost use Rattle.office_books.specs.Voids.{VoidedEntriesGiveWay};

use meter_journal::{entries_go_on, voids_change_two_rows};

/// Proves that a record leaves a meter's state, its entry rows and its interval rows unchanged if
/// the record adds no line to the meter's journal (history).
pub fn other_meters_stay()
    ensures { OtherMetersStay }
{}

/// Proves that a rejected reading leaves the state of all meters unchanged.
pub fn holds_change_nothing()
    ensures { HoldsChangeNothing }
{}

/// Proves that a newly installed meter has the state of its opening (first entry), and is found by
/// its name and at its accounting register (a named energy counter).
pub fn openings_begin()
    ensures { OpeningsBegin }
{}

/// Proves what a new entry of a meter (such as a reading) changes: the counter's state, the meter's
/// entry rows, and the energy of the quarter hours over which the entry's energy is spread.
pub fn entries_move_on()
    ensures { EntriesMoveOn }
{
    entries_go_on();
}

/// Proves the effect of a void (cancellation of an entry) on the meter. The stored rows of the
/// voided entry and of the next valid entry change. In the meter's energy, one step (energy between
/// two entries) between the entry's neighbors replaces the steps to and from the entry.
pub fn voided_entries_give_way()
    ensures { VoidedEntriesGiveWay }
{
    voids_change_two_rows();
}
