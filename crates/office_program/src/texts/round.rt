//! Polls a device once, and prints the event engine's reports of the polling round.
ghost use Rattle.std.specs.Prelude.{◌≡◌, Err};
ghost use Rattle.office_program.specs.Passing.{AreAtMost, AreTakes, CountsFailures, Lasts};
ghost use Rattle.office_program.specs.Texts.Rounds as rounds;
ghost use Rattle.office_program.specs.Texts.Rounds.{IsRefusalReported, PollsRoundOver};

use crate::texts::end_texts::print_refusal;
use crate::{RoundFault, round_over};
use command_io::ExitStatus;
use mb_wire::Link;
use mb_wire::sockets::Clock;
use office_books::Books;
use office_core::Office;
use office_events::Name;
use std::alloc::Global;
use std::io::Write;

// Prints `refused N` if a refusal ended the polling round early. Prints nothing for any other
// result.
fn print_cause<W: Write>(done: Result<(), RoundFault>, output: &mut W) -> Result<(), RoundFault>
    ensures { IsRefusalReported done result (W.contents output.old) (W.contents output.new) }
{
    match done {
        Err(RoundFault::Refused(why)) => match print_refusal(why, output) {
            ExitStatus::Refused => done,
            ExitStatus::Fine | ExitStatus::Failed => Err(RoundFault::Output),
        },
        _ => done,
    }
}

/// Polls a device once over a new link: one poll for each Modbus read of the device's plan. Prints
/// each accepted event of the polling round in the format in which a script (a text of commands) is
/// answered, as `round_over` does.
///
/// If the office (the event engine) refuses an event, the last printed line is `refused N` with the
/// refusal's code. If `device` is `None`, the engine treats the device as unknown.
pub fn poll_round<L: Link, B: Books, C: Clock, W: Write>(
    alloc: Global,
    link: &mut L,
    office: &mut Office<B>,
    device: Option<Name>,
    clock: &mut C,
    output: &mut W,
) -> Result<(), RoundFault>
    ensures rounds { PollsRoundOver L.Link B.Books C.Clock W.Write device link.old link.new
        office.old office.new clock.old clock.new output.old output.new result }
    ensures turns { AreAtMost 100000 (L.taken link.old) (L.taken link.new) }
    ensures used { result ≡ Err RoundFault.TurnsUsed
        → AreTakes 100000 (L.taken link.old) (L.taken link.new) }
    ensures failures { CountsFailures result (L.failed link.old) (L.failed link.new) }
    ensures lasts { Lasts B.ledger office.old office.new }
{
    let done = round_over(alloc, link, office, device, clock, output);
    print_cause(done, output)
}

/// Returns the exit status of the command that polls a device once, for the result of its polling
/// round.
///
/// The exit status is `Refused` if the event engine refused an event. It is `Failed` if the link to
/// the device or the output failed, or the polling round used all its 100,000 reads of the link.
pub fn round_status(done: Result<(), RoundFault>) -> ExitStatus
    ensures { result ≡ rounds.round_status done }
{
    match done {
        Ok(()) => ExitStatus::Fine,
        Err(RoundFault::Refused(_)) => ExitStatus::Refused,
        Err(RoundFault::Link | RoundFault::Output | RoundFault::TurnsUsed) => ExitStatus::Failed,
    }
}
