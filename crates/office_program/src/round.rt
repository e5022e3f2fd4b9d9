//! Polls one device once, over the link to the device: one poll for each Modbus read of the
//! device's plan.
ghost use Rattle.std.specs.Prelude.{◌≡◌, Err};
ghost use Rattle.mb_wire.specs.Links.{risen};
ghost use Rattle.office_program.specs.Between.{EndsUnconnected, PollsOut, PollsToEnd, RoundsOver, TakesTurns, ReportsConnection};
ghost use Rattle.office_program.specs.Faults.{OfOffice, is_link_fault};
ghost use Rattle.office_program.specs.Passing.{AreAtMost, AreTakes, CountsFailures, Lasts};
ghost use Rattle.office_program.specs.Rounds.{IsReportedOf};
ghost use Rattle.office_program.specs.Stepping.{IsNew};

use crate::fault::RoundFault;
use crate::fed_events::feed_next;
use crate::progress::Progress;
use crate::round_end::close;
use crate::steps::{feed_requested, turn};
use mb_wire::Link;
use mb_wire::sockets::Clock;
use office_books::Books;
use office_core::Office;
use office_events::Name;
use std::alloc::Global;
use std::io::Write;

/// The largest number of reads of the link in one polling round. Without this limit, a round with a
/// device that sends endlessly would not end.
pub const MOST_TAKES: u32 = 100_000;

// Feeds the first event of a polling round to the office (the event engine): `Connected` for the
// round's device.
fn connect<B: Books, C: Clock, W: Write>(
    progress: &mut Progress,
    office: &mut Office<B>,
    clock: &mut C,
    output: &mut W,
) -> Result<(), RoundFault>
    requires { IsNew progress.old }
    ensures connects { ReportsConnection B.Books C.Clock W.Write progress.old progress.new
        office.old office.new clock.old clock.new output.old output.new result }
    ensures kind { OfOffice result }
    ensures lasts { Lasts B.ledger office.old office.new }
{
    match progress.round.requested_event() {
        Some(connected) => feed_next(progress, &connected, office, clock, output),
        None => Ok(()),
    }
}

fn take_turns<L: Link, B: Books, C: Clock, W: Write>(
    alloc: Global,
    progress: &mut Progress,
    link: &mut L,
    office: &mut Office<B>,
    clock: &mut C,
    output: &mut W,
) -> Result<(), RoundFault>
    ensures steps { TakesTurns L.Link B.Books C.Clock W.Write progress.old progress.new
        link.old link.new office.old office.new clock.old clock.new output.old output.new result }
    ensures failures { L.failed link.new ≡ risen (is_link_fault result) (L.failed link.old) }
    ensures takes { AreAtMost 100000 (L.taken link.old) (L.taken link.new) }
    ensures used { result ≡ Err RoundFault.TurnsUsed
        → AreTakes 100000 (L.taken link.old) (L.taken link.new) }
    ensures lasts { Lasts B.ledger office.old office.new }
{
    for _turn in 0..MOST_TAKES {
        let is_over = turn(alloc, progress, link, office, clock, output)?;
        if is_over {
            return Ok(());
        }
    }
    Err(RoundFault::TurnsUsed)
}

// Polls a connected device until its polling round is over.
fn poll_connected<L: Link, B: Books, C: Clock, W: Write>(
    alloc: Global,
    progress: &mut Progress,
    link: &mut L,
    office: &mut Office<B>,
    clock: &mut C,
    output: &mut W,
) -> Result<(), RoundFault>
    ensures steps { PollsOut L.Link B.Books C.Clock W.Write progress.old progress.new
        link.old link.new office.old office.new clock.old clock.new output.old output.new result }
    ensures failures { L.failed link.new ≡ risen (is_link_fault result) (L.failed link.old) }
    ensures takes { AreAtMost 100000 (L.taken link.old) (L.taken link.new) }
    ensures used { result ≡ Err RoundFault.TurnsUsed
        → AreTakes 100000 (L.taken link.old) (L.taken link.new) }
    ensures lasts { Lasts B.ledger office.old office.new }
{
    match feed_requested(progress, link, office, clock, output) {
        Ok(()) => take_turns(alloc, progress, link, office, clock, output),
        Err(fault) => Err(fault),
    }
}

// Polls a connected device until its polling round is over. If a fault ends the round early, feeds
// the event `Gone` (the device is disconnected) to the event engine.
fn poll_to_end<L: Link, B: Books, C: Clock, W: Write>(
    alloc: Global,
    progress: &mut Progress,
    link: &mut L,
    office: &mut Office<B>,
    clock: &mut C,
    output: &mut W,
) -> Result<(), RoundFault>
    ensures polls { PollsToEnd L.Link B.Books C.Clock W.Write progress.old link.old link.new
        office.old office.new clock.old clock.new output.old output.new result }
    ensures turns { AreAtMost 100000 (L.taken link.old) (L.taken link.new) }
    ensures used { result ≡ Err RoundFault.TurnsUsed
        → AreTakes 100000 (L.taken link.old) (L.taken link.new) }
    ensures failures { CountsFailures result (L.failed link.old) (L.failed link.new) }
    ensures lasts { Lasts B.ledger office.old office.new }
{
    match poll_connected(alloc, progress, link, office, clock, output) {
        Ok(()) => Ok(()),
        Err(fault) => Err(close(progress, fault, office, clock, output)),
    }
}

// Ends a polling round whose first event, `Connected`, was refused or could not be printed. Feeds
// the event `Gone` (the device is disconnected) to the event engine, unless the engine refused
// `Connected`.
fn end_unconnected<B: Books, C: Clock, W: Write>(
    progress: &Progress,
    fault: RoundFault,
    office: &mut Office<B>,
    clock: &mut C,
    output: &mut W,
) -> RoundFault
    ensures ends { EndsUnconnected B.Books C.Clock W.Write progress.now fault
        office.old office.new clock.old clock.new output.old output.new result }
    ensures reported { IsReportedOf fault result }
    ensures lasts { Lasts B.ledger office.old office.new }
{
    match fault {
        RoundFault::Refused(_) => fault,
        RoundFault::Link => close(progress, fault, office, clock, output),
        RoundFault::Output => close(progress, fault, office, clock, output),
        RoundFault::TurnsUsed => close(progress, fault, office, clock, output),
    }
}

/// Polls a device once over a new link: one poll for each Modbus read of the device's plan.
///
/// The polling round feeds the event `Connected` to the event engine, and starts the Modbus reads
/// of the device's plan (which cover its point list) in order. The round feeds the bytes of the
/// link as they arrive, and a timer event if a read of the link times out. After each event that
/// ends a poll of the round, the round starts the next Modbus reads.
///
/// When all polls of the round have ended, or the link has ended, the round feeds the event `Gone`
/// (the device is disconnected). The timestamp of each event is the clock's time.
///
/// The polling round prints each accepted event in the format in which a script (a text of
/// commands) is answered: the event's notifications, and `ok` or the started polls. Refusals are
/// not printed.
///
/// If `device` is `None`, the engine treats it as an unknown device. After a fault the polling
/// round feeds the event `Gone` with the cause `Failed`. The round also prints this last event,
/// unless an earlier write of the output failed. If the engine refused the event `Connected`, the
/// round feeds no other event.
///
/// If the clock was set back, or is past the largest supported timestamp, the polling round's last
/// event has the timestamp of the latest accepted event. At the end none of the device's polls is
/// pending, unless the engine has stopped because the store or memory failed.
pub fn round_over<L: Link, B: Books, C: Clock, W: Write>(
    alloc: Global,
    link: &mut L,
    office: &mut Office<B>,
    device: Option<Name>,
    clock: &mut C,
    output: &mut W,
) -> Result<(), RoundFault>
    ensures rounds { RoundsOver L.Link B.Books C.Clock W.Write device link.old link.new
        office.old office.new clock.old clock.new output.old output.new result }
    ensures turns { AreAtMost 100000 (L.taken link.old) (L.taken link.new) }
    ensures used { result ≡ Err RoundFault.TurnsUsed
        → AreTakes 100000 (L.taken link.old) (L.taken link.new) }
    ensures failures { CountsFailures result (L.failed link.old) (L.failed link.new) }
    ensures lasts { Lasts B.ledger office.old office.new }
{
    let mut progress = Progress::new(device);
    match connect(&mut progress, office, clock, output) {
        Ok(()) => poll_to_end(alloc, &mut progress, link, office, clock, output),
        Err(fault) => Err(end_unconnected(&progress, fault, office, clock, output)),
    }
}
