//! Prints the report of an accounting register (a named energy counter) by civil day.
ghost use Rattle.office_program.specs.Texts.Reports.{Asks, ReportsDays, last_line, meant_by};
ghost use Rattle.office_program.specs.Texts.EndTexts.{IsReported};

use crate::texts::end_texts::{ended, print_refusal};
use command_io::ExitStatus;
use energy_report::RowLines;
use office_books::Books;
use office_core::Office;
use office_events::{Name, Refusal};
use script_text::write_end;
use std::io::Write;

// Prints the number of days of a report, or `refused N` if the report was refused.
fn print_last<W: Write>(reported: Result<(), Refusal>, count: u64, output: &mut W) -> ExitStatus
    ensures { IsReported (last_line count reported) (meant_by reported) result
        (W.contents output.old) (W.contents output.new) }
{
    match reported {
        Ok(()) => {
            let written = write_end(count, output);
            ended(written, ExitStatus::Fine)
        }
        Err(why) => print_refusal(why, output),
    }
}

/// Prints the energy of an accounting register (a named energy counter) by civil day, one line for
/// each day, and then the number of days.
///
/// If the office (the event engine) refuses the query, only `refused N` is printed. If `register`
/// is `None`, the query is treated as one for an unknown register.
pub fn report_days<B: Books, W: Write>(
    office: &mut Office<B>,
    register: &Option<Name>,
    output: &mut W,
) -> ExitStatus
    ensures prints { ReportsDays B.Books W.Write register.now office.old office.new
        output.old output.new result }
    ensures asks { Asks B.ledger office.old office.new }
{
    let mut days = RowLines::to(output);
    let reported = office.days(register, &mut days);
    if days.failed {
        return ExitStatus::Failed;
    }
    print_last(reported, days.count, days.output)
}
