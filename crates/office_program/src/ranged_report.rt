//! Reports the energy of an accounting register (a named energy counter) on a range of civil days.
ghost use Rattle.office_program.specs.Texts.Passing.{Lasts};
ghost use Rattle.office_program.specs.RangedReport.{RangeOver};

use crate::command_end::CommandEnd;
use crate::texts::{open_office_to_ask, report_range};
use command_io::ExitStatus;
use energy_report::ReportForm;
use mb_wire::sockets::Clock;
use office_books::Books;
use office_events::Name;
use std::alloc::Global;
use std::io::Write;

/// Opens an office (the event engine) for queries, at the clock's time or the store's latest
/// timestamp, whichever is later. Prints the energy of an accounting register (a named energy
/// counter) on a range of days.
///
/// The argument `form` gives the days of the range, the period, the unit and the format. If the
/// range has a first and a last day, the command does not read all quarter hours. It reads only the
/// quarter hours of these days, and of at most two days before and two days after them.
///
/// If opening the engine or the report is refused, the command prints only `refused N`. If
/// `register` is no valid name, the engine treats it as an unknown register. Returns the store.
pub fn report_range_books<B: Books, C: Clock, W: Write>(
    alloc: Global,
    books: B,
    register: &str,
    form: &ReportForm,
    clock: &mut C,
    output: &mut W,
) -> CommandEnd<B, ExitStatus>
    ensures reports { RangeOver B.Books C.Clock W.Write register.now form.now books result.books
        clock.old clock.new output.old output.new result.end }
    ensures lasts { Lasts (B.ledger books) (B.ledger result.books) }
{
    match open_office_to_ask(alloc, books, clock, output) {
        Ok(mut office) => {
            let name = Name::new(register.as_bytes());
            let end = report_range(&mut office, &name, form, output);
            CommandEnd {
                books: office.into_books(),
                end,
            }
        }
        Err(unopened) => CommandEnd {
            books: unopened.books,
            end: unopened.status,
        },
    }
}
