//! Feeds events to the office (the engine that records energy), and prints its notifications and
//! answers.
ghost use Rattle.std.specs.Prelude.{◌≡◌};
ghost use Rattle.office_core.specs.Standing.{is_stopped};
ghost use Rattle.office_program.specs.Between.{FeedsAndPrints, PrintsReported, ReportsFirst, ReportsNext};
ghost use Rattle.office_program.specs.Faults.{OfOffice};
ghost use Rattle.office_program.specs.Passing.{Lasts};
ghost use Rattle.office_program.specs.Stepping as stepping;
ghost use Rattle.office_program.specs.Stepping.{FeedStops};

use crate::fault::RoundFault;
use crate::progress::Progress;
use crate::round_laws::rounds_hold;
use mb_wire::sockets::Clock;
use office_books::Books;
use office_core::Office;
use office_events::{Answer, Event};
use script_text::write_accepted;
use std::io::Write;

// Prints the notifications, the frames and the answer of an accepted event in the format in which a
// script (a text of commands) is answered.
fn print<B: Books, W: Write>(
    office: &Office<B>,
    answer: Answer,
    output: &mut W,
) -> Result<Answer, RoundFault>
    ensures prints { PrintsReported W.Write office.now answer output.old output.new result }
    ensures kind { OfOffice result }
{
    match write_accepted(&answer, office.notes(), office.outgoing(), output) {
        Ok(()) => Ok(answer),
        Err(_) => Err(RoundFault::Output),
    }
}

/// Feeds an event to the event engine. If the engine accepts the event, prints its notifications,
/// frames and answer.
pub(crate) fn feed<B: Books, W: Write>(
    office: &mut Office<B>,
    at: u64,
    event: &Event,
    output: &mut W,
) -> Result<Answer, RoundFault>
    ensures feeds { FeedsAndPrints B.Books W.Write at event.now office.old office.new
        output.old output.new result }
    ensures stops { FeedStops (is_stopped office.old) event.now result (is_stopped office.new) }
    ensures kind { OfOffice result }
    ensures lasts { Lasts B.ledger office.old office.new }
{
    match office.feed(at, event) {
        Ok(answer) => print(office, answer, output),
        Err(why) => Err(RoundFault::Refused(why)),
    }
}

/// Returns the timestamp of the latest event that the event engine accepted, after a polling round
/// ended with the fault `fault`. The round had fed the engine an event with the timestamp `at`.
///
/// Returns `at` if the engine accepted the event with timestamp `at` but the event's report could
/// not be printed, otherwise `latest`.
pub(crate) fn latest_after(fault: RoundFault, at: u64, latest: u64) -> u64
    ensures { result ≡ stepping.latest_after fault at latest }
{
    match fault {
        RoundFault::Refused(_) => latest,
        RoundFault::Link => latest,
        RoundFault::Output => at,
        RoundFault::TurnsUsed => latest,
    }
}

/// Feeds the next event of a polling round to the event engine, with the clock's time as its
/// timestamp.
pub(crate) fn feed_next<B: Books, C: Clock, W: Write>(
    progress: &mut Progress,
    event: &Event,
    office: &mut Office<B>,
    clock: &mut C,
    output: &mut W,
) -> Result<(), RoundFault>
    ensures reports { ReportsNext B.Books C.Clock W.Write event.now progress.old progress.new
        office.old office.new clock.old clock.new output.old output.new result }
    ensures connects { ReportsFirst B.Books C.Clock W.Write event.now progress.old progress.new
        office.old office.new clock.old clock.new output.old output.new result }
    ensures kind { OfOffice result }
    ensures lasts { Lasts B.ledger office.old office.new }
{
    rounds_hold();
    let at = clock.now();
    match feed(office, at, event, output) {
        Ok(answer) => {
            progress.note(at, event, answer, office.notes());
            Ok(())
        }
        Err(fault) => {
            progress.latest = latest_after(fault, at, progress.latest);
            Err(fault)
        }
    }
}
