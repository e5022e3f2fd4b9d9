//! Prints the statements of the meters of an accounting register (a named energy counter), from an
//! office (the event engine) that is opened over a store. A statement is a report on one meter, to
//! check a bill.
ghost use Rattle.office_program.specs.Texts.Passing.{Lasts};
ghost use Rattle.office_program.specs.Statement.{StatementOver};

use crate::command_end::CommandEnd;
use crate::texts::{open_office_to_ask, report_statement};
use command_io::ExitStatus;
use energy_report::StatementForm;
use mb_wire::sockets::Clock;
use office_books::Books;
use office_events::Name;
use std::alloc::Global;
use std::io::Write;

/// Opens an event engine for queries, at the clock's time or the store's latest timestamp,
/// whichever is later. Prints the statements (reports to check a bill) of an accounting register's
/// meters on a range of days. The days are civil days in the store's time zone.
///
/// If opening the engine or a query is refused, the command prints only `refused N`. If `register`
/// is no valid name, the engine treats it as an unknown register. Returns the store.
pub fn statement_books<B: Books, C: Clock, W: Write>(
    alloc: Global,
    books: B,
    register: &str,
    form: &StatementForm,
    clock: &mut C,
    output: &mut W,
) -> CommandEnd<B, ExitStatus>
    ensures reports { StatementOver B.Books C.Clock W.Write register.now form.now books result.books
        clock.old clock.new output.old output.new result.end }
    ensures lasts { Lasts (B.ledger books) (B.ledger result.books) }
{
    let zone = books.zone();
    match open_office_to_ask(alloc, books, clock, output) {
        Ok(mut office) => {
            let name = Name::new(register.as_bytes());
            let end = report_statement(alloc, &mut office, &zone, &name, form, output);
            CommandEnd {
                books: office.into_books(),
                end,
            }
        }
        Err(unopened) => CommandEnd {
            books: unopened.books,
            end: unopened.status,
        },
    }
}
