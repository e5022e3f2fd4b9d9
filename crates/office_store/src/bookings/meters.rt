//! Writes the installations of meters to the tables of the store.
ghost use Rattle.sqlite.specs.Held.{state};
ghost use Rattle.store_tables.specs.Steps.{IsSameBorrow};
ghost use Rattle.office_events.specs.declared.facts.Fact.TheVariants as fact;
ghost use Rattle.office_store.specs.Going.{Goes};
ghost use Rattle.office_store.specs.Recording.{Records};

use crate::bookings::places::next_installation;
use crate::{begun_row, is_sound_opening, opening_row, text};
use office_books::openings_begin;
use office_events::Opening;
use sqlite::{Alter, Transaction};
use store_tables::{RowFault, insert_entry, insert_installation, insert_range};

/// Writes a new meter with its opening, the first entry. Inserts its installation with the index
/// after the last installation, its counter's range, and the opening.
pub fn enter_opening<S: Alter>(
    tx: &mut Transaction<'_, S>,
    opening: &Opening,
) -> Result<(), RowFault>
    ensures same_reference { IsSameBorrow tx.old.conn tx.new.conn }
    ensures does { Goes (state S.Store tx.old.conn.now) (state S.Store tx.new.conn.now) result
        (Records (fact.Opening opening.now)) }
{
    openings_begin();
    if !is_sound_opening(opening) {
        return Err(RowFault::Damaged);
    }
    let meter = text(&opening.meter)?;
    let register = text(&opening.register)?;
    let place = next_installation(tx)?;
    insert_installation(tx, meter, register, begun_row(opening, place))?;
    insert_range(tx, meter, opening.range)?;
    insert_entry(tx, meter, opening_row(opening))?;
    Ok(())
}
