//! Runs `sunreg run` on a store: polls devices on a schedule, serves HTTP, and records what
//! happens.
ghost use Rattle.office_http.specs.Messages.Hosts.{texts};
ghost use Rattle.office_core.specs.Leaving.{BooksStand};
ghost use Rattle.office_books.specs.History.{History};
ghost use Rattle.office_program.specs.Texts.Passing.{Lasts};
ghost use Rattle.office_running.specs.Runs.{BooksRun};

use crate::event_loop::run_open;
use crate::fault::RunFault;
use crate::lacking::lacks_in;
use crate::leftovers::{left_in, say_unopened};
use crate::settings::{Settings, Site};
use mb_wire::sockets::Clock;
use office_books::Books;
use office_program::open_office;
use std::alloc::Global;
use std::io::Write;
use std::net::Net;
use std::rt::Files;

/// The store after a run of `sunreg run`, and the result of the run.
#[derive(Drop)]
pub struct Ran<B> {
    pub books: B,
    pub end: Result<(), RunFault>,
}

/// Opens a store, polls its devices on a schedule, and serves HTTP on a port. The run ends after
/// its duration or at its end time, whichever is first.
///
/// Prints the timestamp of the latest record and the number of lost polls, and `listening PORT`
/// when the port is open. Then prints a line for each event. If a slow reader lets the queue of
/// lines fill, further lines are dropped and counted. Writes to `errors`, once each, what a device
/// lacks, and the meaning of each refusal and each rejected reading.
///
/// While the clock shows an earlier time than the latest timestamp, events get the latest
/// timestamp. The run reports once that the clock was set back. All timestamps are in seconds since
/// 1970-01-01 UTC.
pub fn run_office<R: Net + std::rt::Clock + Files, B: Books, C: Clock, W: Write, E: Write>(
    rt: &R,
    alloc: Global,
    mut books: B,
    settings: &Settings<'_>,
    sites: &[Site],
    clock: &mut C,
    output: &mut W,
    errors: &mut E,
) -> Ran<B>
    ensures books { (past : History) → BooksStand (B.ledger books) past
        → (B.ledger result.books).is_clean → BooksRun (texts settings.now.host_names.now)
        (C.moments clock.old) (C.moments clock.new) (B.ledger result.books) past }
    ensures lasts { Lasts (B.ledger books) (B.ledger result.books) }
{
    let zone = books.zone();
    let left = left_in(&mut books);
    let lacks = lacks_in(alloc, &mut books, sites);
    match open_office(alloc, books, clock, output) {
        Ok(mut office) => {
            let end = run_open(
                rt,
                alloc,
                left,
                lacks,
                settings,
                sites,
                zone,
                &mut office,
                clock,
                output,
                errors,
            );
            Ran {
                books: office.into_books(),
                end,
            }
        }
        Err(unopened) => {
            say_unopened(left, clock, errors);
            Ran {
                books: unopened.books,
                end: Err(RunFault::Unopened(unopened.status)),
            }
        }
    }
}
