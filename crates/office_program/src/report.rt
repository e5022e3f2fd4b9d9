//! Prints a report of the energy of an accounting register (a named energy counter) by civil day.
ghost use Rattle.office_program.specs.Texts.Passing.{Lasts};
ghost use Rattle.office_program.specs.Report.{ReportsOver};

use crate::command_end::CommandEnd;
use crate::texts::{open_office_to_ask, report_days};
use command_io::ExitStatus;
use mb_wire::sockets::Clock;
use office_books::Books;
use office_events::Name;
use std::alloc::Global;
use std::io::Write;

/// Opens an office (the event engine) for queries, and prints the energy of an accounting register
/// (a named energy counter) by civil day.
///
/// Each printed line is a day, except the last line, which has the number of days. The engine is
/// opened at the clock's time, or at the latest timestamp in the store if that timestamp is later.
/// So a clock that was set back hides no energy.
///
/// If opening the engine or the report is refused, the command prints only `refused N`. If
/// `register` is no valid name, the engine treats it as an unknown register. Returns the store.
pub fn report_books<B: Books, C: Clock, W: Write>(
    alloc: Global,
    books: B,
    register: &str,
    clock: &mut C,
    output: &mut W,
) -> CommandEnd<B, ExitStatus>
    ensures reports { ReportsOver B.Books C.Clock W.Write register.now books result.books
        clock.old clock.new output.old output.new result.end }
    ensures lasts { Lasts (B.ledger books) (B.ledger result.books) }
{
    match open_office_to_ask(alloc, books, clock, output) {
        Ok(mut office) => {
            let end = report_days(&mut office, &Name::new(register.as_bytes()), output);
            CommandEnd {
                books: office.into_books(),
                end,
            }
        }
        Err(unopened) => CommandEnd {
            books: unopened.books,
            end: unopened.status,
        },
    }
}
