//! Theorems on how a new line of a meter's journal (history) changes the state of the meter. Each
//! theorem is the contract of a function. The function's body calls the theorem that the proof
//! needs, or is empty.
ghost use Rattle.meter_journal.specs.Changes.{EntriesGoOn, PlacesWereKept, RowsLieWithin};
ghost use Rattle.meter_journal.specs.Changes.{SharesMoveEnergy, VoidsGoNoFurther};
ghost use Rattle.meter_journal.specs.Voids.{VoidsChangeTwoRows};

use interval_core::shares_add_up;

/// Theorem: each interval row of a meter begins before the last valid (not voided) entry, and its
/// quarter hour ends after the opening (first) entry.
pub fn rows_lie_within()
    ensures { RowsLieWithin }
{
    shares_add_up();
}

/// Theorem: voiding (cancelling) an entry never makes the time of the last valid entry later.
pub fn voids_go_no_further()
    ensures { VoidsGoNoFurther }
{}

/// Theorem: a new entry that the rules for meter entries accept becomes the last valid (not voided)
/// entry. The counter, the energy and the interval rows (energies by quarter hour) advance by the
/// energy up to the new entry.
pub fn entries_go_on()
    ensures { EntriesGoOn }
{
    shares_add_up();
}

/// Theorem: voiding (cancelling) an entry changes only its row and the row of the next valid entry.
/// The energies of the steps to and from the voided entry are subtracted from the interval rows
/// (energies by quarter hour). The energy between its neighbors is added.
pub fn voids_change_two_rows()
    ensures { VoidsChangeTwoRows }
{
    shares_add_up();
}

/// Theorem: adding shares (energies of quarter hours) to interval rows increases the energy of the
/// rows by the energy of the shares. Subtracting shares never increases the energy of the rows.
pub fn shares_move_energy()
    ensures { SharesMoveEnergy }
{}

/// Theorem: the valid (not voided) entries before any entry of a meter's journal obey the rules for
/// meter entries. The energies of the steps between these entries add up to their total energy.
pub fn places_were_kept()
    ensures { PlacesWereKept }
{}
