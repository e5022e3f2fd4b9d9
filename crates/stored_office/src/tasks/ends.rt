//! Maps the result of a task to the ending of its command: the exit status and the message.
ghost use Rattle.std.specs.Prelude.{◌≡◌};
ghost use Rattle.command_io.specs.Statuses.{status_number};
ghost use Rattle.office_program.specs.Texts.Rounds.{round_status};
ghost use Rattle.stored_files.specs.Ends.Endings.{ending_number};
ghost use Rattle.stored_office.specs.Tasks.Ends.{done_number, polling_number, run_number, serving_number};

use crate::tasks::tasks::Done;
use office_program::{PollEnd, RoundFault, ServeEnd};
use office_running::RunFault;
use stored_files::{Ending, Failure, ending_of};

// Returns how a command that polled a device ended (its exit status and message), from the result
// of the polling round.
fn ending_of_round<'a>(done: Result<(), RoundFault>, host: &'a str, port: u16) -> Ending<'a>
    ensures { ending_number result ≡ status_number (round_status done) }
{
    match done {
        Ok(()) => Ending::Fine,
        Err(RoundFault::Refused(_)) => Ending::Refused,
        Err(RoundFault::Link) => Ending::Failed(Failure::Broken { host, port }),
        Err(RoundFault::Output) => Ending::Failed(Failure::Streams),
        Err(RoundFault::TurnsUsed) => Ending::Failed(Failure::Endless { host, port }),
    }
}

// Returns the program's ending (success, or the failure to report) from the result of the command
// `serve`, which served HTTP on a port of a host.
fn ending_of_serving<'a>(end: ServeEnd, host: &'a str, port: u16) -> Ending<'a>
    ensures { ending_number result ≡ serving_number end }
{
    match end {
        ServeEnd::Served => Ending::Fine,
        ServeEnd::Unopened(status) => ending_of(status),
        ServeEnd::NoPort => Ending::Failed(Failure::Port { host, port }),
        ServeEnd::Broken => Ending::Failed(Failure::Listening),
    }
}

// Returns how the command that polls a device once, at port `port` of `host`, ended: with success,
// a refusal or a failure.
fn ending_of_polling<'a>(end: PollEnd, host: &'a str, port: u16) -> Ending<'a>
    ensures { ending_number result ≡ polling_number end }
{
    match end {
        PollEnd::Polled(done) => ending_of_round(done, host, port),
        PollEnd::Unopened(status) => ending_of(status),
        PollEnd::Unconnected => Ending::Failed(Failure::Unconnected { host, port }),
    }
}

// Returns the program's ending (success, or the failure to report) from the result of the command
// `run`, which polled devices and served HTTP on a port of a host.
fn ending_of_run<'a>(end: Result<(), RunFault>, host: &'a str, port: u16) -> Ending<'a>
    ensures { ending_number result ≡ run_number end }
{
    match end {
        Ok(()) => Ending::Fine,
        Err(RunFault::Unopened(status)) => ending_of(status),
        Err(RunFault::Port) => Ending::Failed(Failure::Port { host, port }),
        Err(RunFault::Sockets) => Ending::Failed(Failure::Sockets),
        Err(RunFault::Output) => Ending::Failed(Failure::Streams),
        Err(RunFault::Stopped) => Ending::Failed(Failure::Stopped),
        Err(RunFault::Memory) => Ending::Failed(Failure::Memory),
    }
}

/// Returns how a command ended (its exit status and message), from the result of its task. The
/// message names `host` and `port`, the address that the task connected to or listened on.
pub fn ending_of_done<'a>(done: Result<Done, Failure<'a>>, host: &'a str, port: u16) -> Ending<'a>
    ensures { ending_number result ≡ done_number done.entry }
{
    match done {
        Ok(Done::Reported(status)) => ending_of(status),
        Ok(Done::Served(end)) => ending_of_serving(end, host, port),
        Ok(Done::Entered(status)) => ending_of(status),
        Ok(Done::Polled(end)) => ending_of_polling(end, host, port),
        Ok(Done::Ran(end)) => ending_of_run(end, host, port),
        Err(failure) => Ending::Failed(failure),
    }
}
