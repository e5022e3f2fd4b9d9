//! Plans a new database file in which meters continue. All queries of the old file are done before
//! the first command for the new file.
ghost use Rattle.office_books.specs.Ledgers.{Consults, Finds};
ghost use Rattle.carried_books.specs.Carrying.Plans as plans;

use crate::carrying::commands::{TimedCommand, commands_for};
use crate::carrying::openings::{Openings, in_order, open_meters, openings_of};
use office_books::{Books, BooksFault};
use office_events::{Device, Name, Opening};
use std::alloc::Global;

/// The plan of a file rollover: the commands that set up a new database file in which meters
/// continue, or the reason why there are none.
///
/// The variant `Ready` of a file rollover's plan has the commands for the new file and the number
/// of meters that they install. The variant `NotYet` names a meter without a valid (not voided)
/// entry to continue from.
#[derive(Drop)]
pub enum Plan {
    Ready {
        commands: Vec<TimedCommand>,
        meters: u64,
    },
    /// The open meter with this name has no valid (not voided) entry up to the requested timestamp.
    NotYet(Name),
}

// Returns the plan for a new database file. The plan's commands set up the devices in `devices`,
// and install a meter for each opening (first entry) in `opened`.
fn plan_for<B: Books>(
    alloc: Global,
    books: &mut B,
    devices: &[Device],
    opened: Vec<Opening>,
) -> Result<Plan, BooksFault>
    ensures found { Finds (B.ledger books.old) (B.ledger books.new) result
        (λ known plan. plans.IsPlanFor known devices.now opened.items plan) }
    ensures reads { Consults (B.ledger books.old) (B.ledger books.new) result }
{
    let openings = in_order(opened)?;
    let commands = commands_for(alloc, books, devices, &openings)?;
    Ok(Plan::Ready {
        commands,
        meters: openings.len() as u64,
    })
}

/// Returns the plan (the commands that set up the file) for a new database file in which the meters
/// of the old file continue. The old file is only queried.
pub fn plan_of<B: Books>(
    alloc: Global,
    books: &mut B,
    until: Option<u64>,
) -> Result<Plan, BooksFault>
    ensures found { Finds (B.ledger books.old) (B.ledger books.new) result
        (λ known plan. plans.IsPlan known until plan) }
    ensures reads { Consults (B.ledger books.old) (B.ledger books.new) result }
{
    let devices = books.devices()?;
    let rows = open_meters(alloc, books, &devices)?;
    match openings_of(alloc, books, &rows, until)? {
        Openings::NotYet(meter) => Ok(Plan::NotYet(meter)),
        Openings::All(opened) => plan_for(alloc, books, &devices, opened),
    }
}
