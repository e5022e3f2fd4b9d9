//! Reports the energy of an accounting register (a named counter) over several database files.
ghost use Rattle.std.specs.Prelude.{◌≡◌, ◌<◌, ◌^◌, length, if◌then◌else◌};
ghost use Rattle.energy_report.specs.Texts.{report_text};
ghost use Rattle.office_books.specs.Rows.{TakesAll};
ghost use Rattle.office_program.specs.Texts.EndTexts.{IsReported};
ghost use Rattle.office_program.specs.Texts.RangedReports.{PrintsLast};
ghost use Rattle.carried_books.specs.Joining.Reports.{ReportsJoined};

use crate::joining::files::JoinedFiles;
use command_io::ExitStatus;
use energy_report::{ReportForm, ReportRows};
use interval_core::{DayTotal, accounts_are_one};
use office_books::RowSink;
use std::io::Write;

// Passes each day of a report to the writer `sink`, in order.
fn hand_on<K: RowSink<DayTotal>>(days: &[DayTotal], sink: &mut K)
    ensures took { TakesAll K.takes sink.old days.now sink.new }
    ensures few { length days.now < 2 ^ 64 }
{
    for day in days {
        sink.put(*day);
    }
}

// Prints the end of a report on energy by day, after its last day, and returns the exit status of
// the command.
fn finish<W: Write>(rows: &mut ReportRows<'_, W>) -> ExitStatus
    ensures { PrintsLast W.contents result rows.old rows.new }
{
    rows.finish();
    if rows.has_failed() {
        ExitStatus::Failed
    } else {
        ExitStatus::Fine
    }
}

/// Prints the energy of days by period (day, month or year). The request `form` has the range of
/// days, the unit and the format.
pub fn report_days<W: Write>(days: &[DayTotal], form: &ReportForm, output: &mut W) -> ExitStatus
    ensures { IsReported (report_text form.now days.now) ExitStatus.Fine result
        (W.contents output.old) (W.contents output.new) }
{
    let mut rows = ReportRows::to(*form, output);
    hand_on(days, &mut rows);
    finish(&mut rows)
}

/// Prints the energy of an accounting register (a named counter) over files that join (have one
/// history), by period. The request `form` has the range of days, the unit and the format.
///
/// The meters and energies in `joined` must have been collected for the time span that the function
/// `span_around` returns for the requested range of days.
pub fn report_joined<W: Write>(joined: JoinedFiles, form: &ReportForm, output: &mut W) -> ExitStatus
    ensures { ReportsJoined W.Write joined form.now output.old output.new result }
{
    accounts_are_one();
    let JoinedFiles { days, .. } = joined;
    let days = days.into_rows();
    report_days(&days, form, output)
}
