//! Prints the report of an accounting register (a named energy counter) on a range of days.
ghost use Rattle.office_program.specs.Texts.RangedReports.{PrintsRest, ReportsRange};
ghost use Rattle.office_program.specs.Texts.Reports.{Asks};

use crate::texts::end_texts::print_refusal;
use command_io::ExitStatus;
use energy_report::{ReportForm, ReportRows};
use office_books::Books;
use office_core::Office;
use office_events::{Name, Refusal};
use std::io::Write;

// Prints the text after the report's last row, or `refused N` if the report was refused.
fn print_rest<W: Write>(reported: Result<(), Refusal>, rows: &mut ReportRows<'_, W>) -> ExitStatus
    ensures { PrintsRest W.contents reported result rows.old rows.new }
{
    match reported {
        Ok(()) => {
            rows.finish();
            if rows.has_failed() {
                ExitStatus::Failed
            } else {
                ExitStatus::Fine
            }
        }
        Err(why) => print_refusal(why, rows.output),
    }
}

/// Prints the energy of an accounting register (a named energy counter) on the days of a range, by
/// period, in a unit and a format.
///
/// If the office (the event engine) refuses the query, only `refused N` is printed. If `register`
/// is `None`, the query is treated as one for an unknown register.
pub fn report_range<B: Books, W: Write>(
    office: &mut Office<B>,
    register: &Option<Name>,
    form: &ReportForm,
    output: &mut W,
) -> ExitStatus
    ensures prints { ReportsRange B.Books W.Write register.now form.now office.old office.new
        output.old output.new result }
    ensures asks { Asks B.ledger office.old office.new }
{
    let mut rows = ReportRows::to(*form, output);
    let reported = office.days_within(register, form.range, &mut rows);
    print_rest(reported, &mut rows)
}
