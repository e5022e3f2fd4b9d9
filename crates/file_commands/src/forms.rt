//! Converts command line options to the options of a report or a statement (a list of meters for
//! checking a bill).
ghost use Rattle.std.specs.Prelude.{◌≡◌, ◌↔◌, IsTrue, MatchResult};
ghost use Rattle.energy_report.specs.Days.{IsRange};
ghost use Rattle.file_commands.specs.Forms.{HasNoOption, IsNoRange, IsWanted, form_of, statement_of};

use command_words::FormWords;
use energy_report::{
    EnergyUnit, Format, Period, RangeFault, ReportForm, StatementForm, read_range,
};
use interval_core::DayRange;
use stored_files::Ending;

/// Parses the range of days in the options `--from` and `--till`.
pub fn range_of<'a>(words: &FormWords<'a>) -> Result<DayRange, Ending<'a>>
    ensures { MatchResult result (IsRange words.now.from words.now.till)
        (IsNoRange words.now.from words.now.till) }
{
    match read_range(words.from, words.till) {
        Ok(range) => Ok(range),
        Err(RangeFault::From) => Err(Ending::NoDay {
            option: "from",
            word: words.from.unwrap_or(""),
        }),
        Err(RangeFault::Till) => Err(Ending::NoDay {
            option: "till",
            word: words.till.unwrap_or(""),
        }),
        Err(RangeFault::Backward) => Err(Ending::Backward),
    }
}

/// Returns the options of a report, from its command line options and its range of days.
pub fn form_of(words: &FormWords<'_>, range: DayRange) -> ReportForm
    ensures { result ≡ form_of words.now range }
{
    ReportForm {
        range,
        period: words.period.unwrap_or(Period::Day),
        unit: words.unit.unwrap_or(EnergyUnit::MilliwattHours),
        format: words.format.unwrap_or(Format::Text),
    }
}

/// Returns the options of a statement (a list of meters for checking a bill).
pub fn statement_of(words: &FormWords<'_>, range: DayRange) -> StatementForm
    ensures { result ≡ statement_of words.now range }
{
    StatementForm {
        range,
        unit: words.unit.unwrap_or(EnergyUnit::MilliwattHours),
        format: words.format.unwrap_or(Format::Text),
    }
}

/// What the command `report` prints about one database file: an energy report or a statement
/// (billing report), with its options.
#[derive(Clone, Copy)]
pub enum Wanted {
    /// The default report: all days, in mWh, as text. No option requests another range, period,
    /// unit or format.
    Plain,
    Report(ReportForm),
    Statement(StatementForm),
}

// Returns whether no option sets the range, the period, the unit or the output format of a report.
fn has_no_option(words: &FormWords<'_>) -> bool
    ensures { IsTrue result ↔ HasNoOption words.now }
{
    words.from.is_none()
        && words.till.is_none()
        && words.period.is_none()
        && words.unit.is_none()
        && words.format.is_none()
}

/// Returns what the command line options request of the command `report` over one database file.
pub fn wanted_of<'a>(words: &FormWords<'a>) -> Result<Wanted, Ending<'a>>
    ensures { MatchResult result (IsWanted words.now)
        (IsNoRange words.now.from words.now.till) }
{
    if !words.statement && has_no_option(words) {
        return Ok(Wanted::Plain);
    }
    match range_of(words) {
        Ok(range) => {
            if words.statement {
                Ok(Wanted::Statement(statement_of(words, range)))
            } else {
                Ok(Wanted::Report(form_of(words, range)))
            }
        }
        Err(ending) => Err(ending),
    }
}
