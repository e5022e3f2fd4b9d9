//! Tests the exit statuses of commands that poll devices, serve HTTP or report energy, and the
//! failure messages of these commands.
use command_io::ExitStatus;
use office_events::Refusal;
use office_program::{PollEnd, RoundFault, ServeEnd};
use office_running::RunFault;
use std::alloc::Global;
use std::process::Abort;
use stored_files::{Ending, Failure, ending_of};
use stored_office::{Done, ending_of_done};

/// Test cases: the result of a task that uses port 80 of the host `h`, the exit status, and the
/// beginning of the failure message. Only exit status 3 has such a message.
const ENDS: [(Result<Done, Failure<'static>>, u8, &str); 25] = [
    (Ok(Done::Reported(ExitStatus::Fine)), 0, ""),
    (Ok(Done::Reported(ExitStatus::Refused)), 1, ""),
    (
        Ok(Done::Reported(ExitStatus::Failed)),
        3,
        "can't read standard input",
    ),
    (Ok(Done::Served(ServeEnd::Served)), 0, ""),
    (
        Ok(Done::Served(ServeEnd::Unopened(ExitStatus::Refused))),
        1,
        "",
    ),
    (
        Ok(Done::Served(ServeEnd::Unopened(ExitStatus::Failed))),
        3,
        "can't read standard input",
    ),
    (
        Ok(Done::Served(ServeEnd::NoPort)),
        3,
        "can't listen on port 80 of h",
    ),
    (
        Ok(Done::Served(ServeEnd::Broken)),
        3,
        "can't accept more connections",
    ),
    (Ok(Done::Polled(PollEnd::Polled(Ok(())))), 0, ""),
    (
        Ok(Done::Polled(PollEnd::Polled(Err(RoundFault::Refused(Refusal::NotFound))))),
        1,
        "",
    ),
    (
        Ok(Done::Polled(PollEnd::Polled(Err(RoundFault::Link)))),
        3,
        "the connection to port 80 of h failed",
    ),
    (
        Ok(Done::Polled(PollEnd::Polled(Err(RoundFault::Output)))),
        3,
        "can't read standard input",
    ),
    (
        Ok(Done::Polled(PollEnd::Polled(Err(RoundFault::TurnsUsed)))),
        3,
        "port 80 of h sent endless data",
    ),
    (
        Ok(Done::Polled(PollEnd::Unopened(ExitStatus::Refused))),
        1,
        "",
    ),
    (
        Ok(Done::Polled(PollEnd::Unopened(ExitStatus::Failed))),
        3,
        "can't read standard input",
    ),
    (
        Ok(Done::Polled(PollEnd::Unconnected)),
        3,
        "nothing answers at port 80 of h",
    ),
    (Ok(Done::Ran(Ok(()))), 0, ""),
    (
        Ok(Done::Ran(Err(RunFault::Unopened(ExitStatus::Refused)))),
        1,
        "",
    ),
    (
        Ok(Done::Ran(Err(RunFault::Unopened(ExitStatus::Failed)))),
        3,
        "can't read standard input",
    ),
    (
        Ok(Done::Ran(Err(RunFault::Port))),
        3,
        "can't listen on port 80 of h",
    ),
    (
        Ok(Done::Ran(Err(RunFault::Sockets))),
        3,
        "waiting for sockets failed",
    ),
    (
        Ok(Done::Ran(Err(RunFault::Output))),
        3,
        "can't read standard input",
    ),
    (
        Ok(Done::Ran(Err(RunFault::Stopped))),
        3,
        "the office stopped",
    ),
    (Ok(Done::Ran(Err(RunFault::Memory))), 3, "out of memory"),
    (Err(Failure::Host { host: "h" }), 3, "can't resolve h"),
];

/// The values of `ExitStatus`, each with the number that the process returns.
const STATUSES: [(ExitStatus, u8); 3] = [
    (ExitStatus::Fine, 0),
    (ExitStatus::Refused, 1),
    (ExitStatus::Failed, 3),
];

/// Asserts that a task ends with the exit status `status`, and that the text of its failure begins
/// with `text`.
fn ends(rt: &impl Abort, alloc: Global, done: Result<Done, Failure<'_>>, status: u8, text: &str) {
    let ending = ending_of_done(done, "h", 80);
    assert!(rt; ending.number() == status, "{text}");
    match &ending {
        Ending::Failed(failure) => {
            let said = format!(in alloc; "{failure}").expect(rt, "no memory");
            assert!(rt;
                !text.is_empty() && said.as_str().starts_with(text),
                "{text}"
            );
        }
        _ => assert!(rt; text.is_empty(), "{text}"),
    }
}

// Checks the exit status and the failure text for each way in which a report, a server, a polling
// round or a run of `sunreg run` ends.
#[test]
fn tasks_have_their_ends(rt: HostRuntime) {
    for (done, status, text) in ENDS {
        ends(&rt, rt.alloc(), done, status, text);
    }
    for (status, number) in STATUSES {
        assert!(rt; ending_of(status).number() == number);
    }
}
