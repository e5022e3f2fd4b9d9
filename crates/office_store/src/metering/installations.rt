//! Builds a meter's installation (its opening, last entry and total energy) from its rows in three
//! tables.
ghost use Rattle.std.specs.Prelude.{◌≡◌, false, IfOk, IfErr};
ghost use Rattle.office_books.specs.Ranges.{IsSound};
ghost use Rattle.office_store.specs.Finding.Finding.{Finds};
ghost use Rattle.office_store.specs.Metering.Meters.{IsRowOf, opening_from, standing_from, IsStanding};
ghost use Rattle.office_store.specs.Metering.Sound.{IsNamed, HasReadableMeters};
ghost use Rattle.office_events.specs.declared.facts.Opening.{Opening as RecordedOpening};
ghost use Rattle.store_tables.specs.declared.faults.RowFault.TheVariants.{Damaged};

use crate::metering::rows::{first_entry, range};
use crate::name;
use energy_core::Last;
use office_books::{installations_are_in_range, is_sound};
use office_events::{Installation, Opening};
use sqlite::{Alter, Connection};
use store_tables::{EntryRow, InstallationRow, RowFault};

/// Builds the opening of a meter, the record of its installation, from its rows in `installations`,
/// `ranges` and `entries`.
fn opening(
    row: &store_tables::Installation,
    range: u64,
    first: EntryRow,
) -> Result<Opening, RowFault>
    ensures opening { IfOk result (λ opening. opening ≡ opening_from row.now range first) }
    ensures fault { IfErr result (λ e. (e ≡ Damaged) × (¬ IsNamed row.now)) }
{
    let meter = name(row.meter.as_str())?;
    let register = name(row.register.as_str())?;
    Ok(Opening {
        meter,
        register,
        ceiling: row.row.ceiling,
        range,
        at: first.moment,
        raw: first.raw,
        sf: first.sf,
    })
}

/// Builds the state of a meter from its opening (the record of its installation) and its row in
/// `installations`. Reports numbers out of their ranges as `Damaged`.
fn installed(opening: Opening, row: InstallationRow) -> Result<Installation, RowFault>
    ensures stands { IfOk result (λ found. found ≡ standing_from opening row) }
    ensures sound { IfOk result IsSound }
    ensures fault { IfErr result
        (λ e. (e ≡ Damaged) × (¬ IsSound (standing_from opening row))) }
{
    let found = Installation {
        opening,
        last: Last {
            at: row.last.moment,
            raw: row.last.raw,
            sf: row.last.sf,
        },
        total: row.last.total,
        ended: row.is_ended,
    };
    if is_sound(&found) {
        Ok(found)
    } else {
        Err(RowFault::Damaged)
    }
}

/// Returns the state of the meter that has the row `row` in `installations`. Also queries the
/// meter's counter range and first entry.
pub(crate) fn standing<S: Alter>(
    conn: &mut Connection<S>,
    row: &store_tables::Installation,
) -> Result<Installation, RowFault>
    requires { conn.old.in_transaction ≡ false }
    ensures finds { Finds S.Store conn.old conn.new result (IsStanding row.now)
        (λ facts. HasReadableMeters facts × (opening : RecordedOpening)
        × IsRowOf facts opening row.now) }
    ensures sound { IfOk result IsSound }
{
    installations_are_in_range();
    let meter = row.meter.as_str();
    let Some(counts) = range(conn, meter)? else {
        return Err(RowFault::Damaged);
    };
    let Some(first) = first_entry(conn, meter)? else {
        return Err(RowFault::Damaged);
    };
    let opening = opening(row, counts, first)?;
    installed(opening, row.row)
}
