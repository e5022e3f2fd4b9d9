//! Adds up the energy by day of an accounting register (a named counter) over the earlier database
//! files and the current file.
ghost use Rattle.std.specs.Prelude.{Err};
ghost use Rattle.std.specs.declared.alloc.Global.{Global};
ghost use Rattle.std.specs.declared.vec.Vec.{Vec};
ghost use Rattle.interval_core.specs.declared.totals.DayTotal.{DayTotal};
ghost use Rattle.office_core.specs.Asking.{OnlyAsks};
ghost use Rattle.carried_books.specs.Joining.Offices.{AsksMeters, AsksRegister, LacksMemory};
ghost use Rattle.carried_books.specs.Joining.Offices.{ReportsDaysOver};

use crate::joining::days::{EarlierDays, JoinedDays};
use interval_core::{DayTotal, Zone};
use office_books::{Books, Span, facts_are_lawful};
use office_core::Office;
use office_events::{Installation, Name, Refusal};

// Adds the energy intervals (energies of quarter hours) of the meters in `meters` in a span of time
// to a sum by day, one meter after another.
fn add_meters_within<B: Books>(
    days: &mut JoinedDays,
    office: &mut Office<B>,
    meters: &[Installation],
    span: Span,
) -> Result<(), Refusal>
    ensures { AsksMeters B.ledger office.old office.new meters.now span days.old days.new result }
{
    for row in meters {
        match office.intervals_within(&Some(row.opening.meter), span, days) {
            Ok(()) => {}
            Err(why) => return Err(why),
        }
    }
    Ok(())
}

// Adds the energy intervals (energies of quarter hours) of an accounting register (a named counter)
// in a span of time to a sum by day. The intervals are those in the current database file.
fn add_register<B: Books>(
    days: &mut JoinedDays,
    office: &mut Office<B>,
    register: &Name,
    span: Span,
) -> Result<(), Refusal>
    ensures rows { AsksRegister B.ledger office.old office.new register.now span
        days.old days.new result }
    ensures asks { OnlyAsks B.ledger office.old office.new result }
{
    facts_are_lawful();
    match office.meters(&Some(*register)) {
        Ok(meters) => add_meters_within(days, office, &meters, span),
        Err(why) => Err(why),
    }
}

// Returns the refusal of a request if memory for the energies by day runs out: the refusal of a
// query for the register (a named counter), or `Memory` if this query succeeds.
fn without_memory<B: Books>(office: &mut Office<B>, register: &Name) -> Refusal
    ensures lacks { LacksMemory B.ledger office.old office.new register.now result }
    ensures asks { OnlyAsks {T = Vec DayTotal Global} B.ledger office.old office.new (Err result) }
{
    match office.meters(&Some(*register)) {
        Ok(_meters) => Refusal::Memory,
        Err(why) => why,
    }
}

/// Returns the energy by civil day of a register (a named counter) over earlier database files and
/// the current file, in mWh.
///
/// Of the current file, the energy by day over all files includes only the quarter hours in a span
/// of time. The time zone must be the one by which the energy in `earlier` was added up. The
/// current file is only queried. If a quarter hour starts before a quarter hour that was added
/// earlier, the refusal is the same as for a quarter hour without a civil day.
pub fn days_over<B: Books>(
    office: &mut Office<B>,
    zone: Zone,
    earlier: &EarlierDays,
    register: &Name,
    span: Span,
) -> Result<Vec<DayTotal>, Refusal>
    ensures days { ReportsDaysOver B.ledger office.old office.new zone earlier.now register.now span
        result }
    ensures asks { OnlyAsks B.ledger office.old office.new result }
{
    match earlier.continue_in(zone) {
        Err(_) => Err(without_memory(office, register)),
        Ok(copy) => {
            let mut days = copy;
            match add_register(&mut days, office, register, span) {
                Ok(()) => days.into_days(),
                Err(why) => Err(why),
            }
        }
    }
}
