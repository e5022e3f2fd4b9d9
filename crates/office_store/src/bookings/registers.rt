//! Writes accounting registers (named counters of devices) to the tables of the store.
ghost use Rattle.std.specs.Prelude.{◌≡◌, true};
ghost use Rattle.sqlite.specs.Held.{state};
ghost use Rattle.office_events.specs.declared.facts.Fact.TheVariants as fact;
ghost use Rattle.store_tables.specs.Steps.{IsSameBorrow};
ghost use Rattle.store_tables.specs.Devices.Rows.{IsSoundScale, fits_a_read};
ghost use Rattle.office_store.specs.Going.{Goes};
ghost use Rattle.office_store.specs.Recording.{Records};
ghost use Rattle.office_store.specs.Rows.{scale_as};

use crate::bookings::places::next_register;
use crate::{is_scale, register_row, text};
use office_events::{LAST_COUNTER, Register, ScaleSource};
use sqlite::{Alter, Transaction};
use store_tables::{RowFault, insert_register};

/// Returns true if the scale of an accounting register (a named energy counter) is in the ranges of
/// the table `registers`.
fn is_sound_scale(source: ScaleSource) -> bool
    ensures { result ≡ true → IsSoundScale (scale_as source) }
{
    match source {
        ScaleSource::Fixed(sf) => is_scale(sf),
        ScaleSource::Register(_) => true,
    }
}

/// Returns true if one Modbus read covers an energy counter and the Modbus register with the
/// counter's scale factor.
fn is_narrow(register: &Register) -> bool
    ensures { result ≡ fits_a_read register.now.address (scale_as register.now.scale) }
{
    let row = register_row(*register, 1);
    store_tables::fits_a_read(row.address, row.scale)
}

/// Writes an accounting register (a named energy counter of a device) with the index after the last
/// accounting register.
pub fn enter_register<S: Alter>(
    tx: &mut Transaction<'_, S>,
    register: &Register,
) -> Result<(), RowFault>
    ensures same_reference { IsSameBorrow tx.old.conn tx.new.conn }
    ensures does { Goes (state S.Store tx.old.conn.now) (state S.Store tx.new.conn.now) result
        (Records (fact.Register register.now)) }
{
    if LAST_COUNTER < u64::from(register.address)
        || !is_sound_scale(register.scale)
        || !is_narrow(register)
    {
        return Err(RowFault::Damaged);
    }
    let name = text(&register.name)?;
    let device = text(&register.device)?;
    let place = next_register(tx)?;
    let row = register_row(*register, place);
    insert_register(tx, name, device, row)?;
    Ok(())
}
