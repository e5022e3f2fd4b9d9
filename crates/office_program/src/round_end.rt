//! Ends a polling round after a fault, by feeding the event `Gone` (the device is disconnected) to
//! the office (the event engine).
ghost use Rattle.std.specs.Prelude.{◌≡◌};
ghost use Rattle.office_program.specs.Between.{ClosesBroken, EndsAndPrints, EndsSilently};
ghost use Rattle.office_program.specs.Passing.{Lasts};
ghost use Rattle.office_program.specs.Rounds as rounds;
ghost use Rattle.office_program.specs.Rounds.{IsReportedOf};
ghost use Rattle.office_program.specs.Stepping as stepping;

use crate::fault::RoundFault;
use crate::fed_events::feed;
use crate::progress::Progress;
use mb_wire::sockets::Clock;
use office_books::Books;
use office_core::Office;
use office_events::Event;
use poll_core::{Closing, LAST_MOMENT};
use std::io::Write;

// Returns the timestamp of the event `Gone` (the device is disconnected): the clock's time
// `moment`. If the clock was set back or is past the largest supported timestamp, returns `latest`,
// the timestamp of the latest accepted event.
fn gone_at(latest: u64, moment: u64) -> u64
    ensures { result ≡ rounds.gone_at latest moment }
{
    if moment < latest || LAST_MOMENT < moment {
        latest
    } else {
        moment
    }
}

// Returns the fault to report for a polling round that ended early. This is `Output` if printing
// the last event failed, otherwise the cause that ended the round.
fn fault_after(cause: RoundFault, fault: RoundFault) -> RoundFault
    ensures { result ≡ stepping.fault_after cause fault }
{
    match fault {
        RoundFault::Refused(_) => cause,
        RoundFault::Link => cause,
        RoundFault::Output => RoundFault::Output,
        RoundFault::TurnsUsed => cause,
    }
}

// Returns true if the fault is a failed write of the program's output.
fn is_output(fault: RoundFault) -> bool
    ensures { result ≡ stepping.is_output fault }
{
    match fault {
        RoundFault::Refused(_) => false,
        RoundFault::Link => false,
        RoundFault::Output => true,
        RoundFault::TurnsUsed => false,
    }
}

// Feeds the event `gone` (the device is disconnected) to the event engine, and prints the engine's
// report of the event.
fn end_printed<B: Books, W: Write>(
    at: u64,
    gone: &Event,
    cause: RoundFault,
    office: &mut Office<B>,
    output: &mut W,
) -> RoundFault
    ensures ends { EndsAndPrints B.Books W.Write at gone.now cause office.old office.new
        output.old output.new result }
    ensures reported { IsReportedOf cause result }
    ensures lasts { Lasts B.ledger office.old office.new }
{
    match feed(office, at, gone, output) {
        Ok(_) => cause,
        Err(fault) => fault_after(cause, fault),
    }
}

// Feeds the event `gone` (the device is disconnected) to the event engine, and prints nothing,
// because an earlier write of the output failed.
fn end_unprinted<B: Books>(at: u64, gone: &Event, office: &mut Office<B>)
    ensures ends { EndsSilently B.Books at gone.now office.old office.new }
    ensures lasts { Lasts B.ledger office.old office.new }
{
    let _answer = office.feed(at, gone);
}

/// Feeds the event `Gone` (the device is disconnected) to the event engine, with the cause
/// `Failed`. Prints the engine's report of the event.
///
/// If the polling round ended early because a write of the output failed, nothing is printed.
/// Returns the fault to report: `Output` if printing the last event failed, otherwise the fault
/// that ended the round.
pub(crate) fn close<B: Books, C: Clock, W: Write>(
    progress: &Progress,
    cause: RoundFault,
    office: &mut Office<B>,
    clock: &mut C,
    output: &mut W,
) -> RoundFault
    ensures closes { ClosesBroken B.Books C.Clock W.Write progress.now cause
        office.old office.new clock.old clock.new output.old output.new result }
    ensures reported { IsReportedOf cause result }
    ensures lasts { Lasts B.ledger office.old office.new }
{
    let moment = clock.now();
    let at = gone_at(progress.latest, moment);
    let gone = Event::Gone(progress.round.device, Closing::Failed);
    if is_output(cause) {
        end_unprinted(at, &gone, office);
        return RoundFault::Output;
    }
    end_printed(at, &gone, cause, office, output)
}
