//! File rollover: begins a new database file in which the open meters of an old file continue.
ghost use Rattle.carried_books.specs.Carrying.Carried.{Carries, Follows, OnlyAsked};
ghost use Rattle.carried_books.specs.Carrying.Feeding.{Passes};

use crate::carrying::faults::CarryFault;
use crate::carrying::feeding::feed_all;
use crate::carrying::plans::{Plan, plan_of};
use office_books::Books;
use office_core::Office;
use office_events::Refusal;
use std::alloc::Global;

// Feeds the commands of a plan (the commands that set up a new database file) to the file's office
// (event engine). Returns the number of installed meters, or the reason why a command could not be
// executed.
fn follow<N: Books>(office: &mut Office<N>, plan: Plan) -> Result<u64, CarryFault>
    ensures follows { Follows N.ledger plan office.old office.new result }
    ensures passes { Passes N.ledger office.old office.new }
{
    match plan {
        Plan::NotYet(meter) => Err(CarryFault::NotYet(meter)),
        Plan::Ready { commands, meters } => match feed_all(office, commands) {
            Ok(()) => Ok(meters),
            Err(why) => Err(CarryFault::New(why)),
        },
    }
}

/// Sets up the office (event engine) of a new database file from an old database file, and returns
/// the number of installed meters.
///
/// The new office (event engine) gets the devices, point lists and accounting registers (named
/// counters) of the old database file. Each open meter continues from its last valid (not voided)
/// entry, up to the timestamp `until` if one is given. The meters are installed in the order of
/// these entries. The old file is queried and not changed. All queries precede the first command to
/// the new office.
pub fn carry_books<O: Books, N: Books>(
    alloc: Global,
    old: &mut O,
    new: &mut Office<N>,
    until: Option<u64>,
) -> Result<u64, CarryFault>
    ensures carries { Carries (O.ledger old.old) (O.ledger old.new) until N.ledger
        new.old new.new result }
    ensures asks { OnlyAsked (O.ledger old.old) (O.ledger old.new) result }
    ensures passes { Passes N.ledger new.old new.new }
{
    match plan_of(alloc, old, until) {
        Ok(plan) => follow(new, plan),
        Err(fault) => Err(CarryFault::Old(Refusal::from(fault))),
    }
}
