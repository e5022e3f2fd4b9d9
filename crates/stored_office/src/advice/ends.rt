//! Decides whether explanatory messages on standard error follow the end of a command's task, such
//! as a round of polls. None follow if the task failed for a reason that has its own message.
ghost use Rattle.std.specs.Prelude.{◌≡◌};
ghost use Rattle.stored_office.specs.Advice.Ends as ends;

use crate::tasks::Done;
use command_io::ExitStatus;
use office_program::{PollEnd, RoundFault, ServeEnd};

/// Returns whether explanatory messages on standard error follow a round of polls. They follow if
/// the round was completed, or if the office (the part that checks and records events) refused to
/// start or refused a poll. Any other failure has its own message.
pub(crate) fn has_messages(end: PollEnd) -> bool
    ensures { result ≡ ends.has_messages end }
{
    match end {
        PollEnd::Polled(Ok(())) => true,
        PollEnd::Polled(Err(RoundFault::Refused(_))) => true,
        PollEnd::Polled(Err(RoundFault::Link)) => false,
        PollEnd::Polled(Err(RoundFault::Output)) => false,
        PollEnd::Polled(Err(RoundFault::TurnsUsed)) => false,
        PollEnd::Unopened(ExitStatus::Fine) => false,
        PollEnd::Unopened(ExitStatus::Refused) => true,
        PollEnd::Unopened(ExitStatus::Failed) => false,
        PollEnd::Unconnected => false,
    }
}

fn is_refusal(status: ExitStatus) -> bool
    ensures { result ≡ ends.is_refusal status }
{
    match status {
        ExitStatus::Fine => false,
        ExitStatus::Refused => true,
        ExitStatus::Failed => false,
    }
}

// Returns whether a task that serves HTTP ended because the office (the part that checks and
// records events) refused to start.
fn is_refused_serving(end: ServeEnd) -> bool
    ensures { result ≡ ends.is_refused_serving end }
{
    match end {
        ServeEnd::Served => false,
        ServeEnd::Unopened(status) => is_refusal(status),
        ServeEnd::NoPort => false,
        ServeEnd::Broken => false,
    }
}

// Returns whether a task that polls a device ended because the office (the part that checks and
// records events) refused to start.
fn is_refused_polling(end: PollEnd) -> bool
    ensures { result ≡ ends.is_refused_polling end }
{
    match end {
        PollEnd::Polled(_) => false,
        PollEnd::Unopened(status) => is_refusal(status),
        PollEnd::Unconnected => false,
    }
}

/// Returns whether a task may have failed because the latest record in the database is later than
/// the clock. Such a task prints only the numeric code of the refusal, and not this cause. The
/// command `run` explains the refusal itself.
pub fn may_be_ahead(done: Done) -> bool
    ensures { result ≡ ends.may_be_ahead done }
{
    match done {
        Done::Reported(_) => false,
        Done::Served(end) => is_refused_serving(end),
        Done::Entered(status) => is_refusal(status),
        Done::Polled(end) => is_refused_polling(end),
        Done::Ran(_) => false,
    }
}
