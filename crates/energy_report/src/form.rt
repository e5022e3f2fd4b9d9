//! The settings (form) of a report or of a meter statement, and the arguments on the command line
//! that select them.
ghost use Rattle.std.specs.Prelude.{◌≡◌};
ghost use Rattle.jiff.specs.Words.{epoch_day};
ghost use Rattle.energy_report.specs.Periods as periods;
ghost use Rattle.energy_report.specs.Periods.{is_same};
ghost use Rattle.energy_report.specs.Words.{period_of, unit_of, format_of, plain_form};

use interval_core::{Day, DayRange};

/// The period (day, month or year) whose days form one row of a report.
#[derive(Clone, Copy, Debug, PartialEq, Eq)]
pub enum Period {
    Day,
    Month,
    Year,
}

/// The unit in which a report prints energy.
#[derive(Clone, Copy, Debug, PartialEq, Eq)]
pub enum EnergyUnit {
    /// Energies in whole milliwatt-hours (mWh).
    MilliwattHours,
    /// Kilowatt-hours (kWh) with six decimals, which represent every number of mWh exactly.
    KilowattHours,
}

/// The output format of a report or a statement.
#[derive(Clone, Copy, Debug, PartialEq, Eq)]
pub enum Format {
    /// Lines of text for people. The last line has the number of lines before it.
    Text,
    /// A CSV table with a header, as in RFC 4180.
    Csv,
    /// The output format JSON: an array with one object for each row of the report.
    Json,
}

/// The settings of a report: its range of days, its period, its unit and its format.
#[derive(Clone, Copy)]
pub struct ReportForm {
    pub range: DayRange,
    pub period: Period,
    pub unit: EnergyUnit,
    pub format: Format,
}

/// The settings of a statement (billing report): its range of days, its unit and its format.
#[derive(Clone, Copy)]
pub struct StatementForm {
    pub range: DayRange,
    pub unit: EnergyUnit,
    pub format: Format,
}

impl ReportForm {
    /// Returns the settings of a report without options: all days, one row for each day, energy in
    /// mWh, as text.
    pub fn plain() -> ReportForm
        ensures { result ≡ plain_form }
    {
        ReportForm {
            range: DayRange::all(),
            period: Period::Day,
            unit: EnergyUnit::MilliwattHours,
            format: Format::Text,
        }
    }
}

impl Period {
    /// Parses the name of a period: `day`, `month` or `year`. Returns `None` for any other word.
    pub fn read(word: &str) -> Option<Period>
        ensures { result ≡ period_of word.now }
    {
        match word {
            "day" => Some(Period::Day),
            "month" => Some(Period::Month),
            "year" => Some(Period::Year),
            _ => None,
        }
    }

    /// Returns whether two days are in the same period (day, month or year).
    pub fn has_both(self, one: Day, other: Day) -> bool
        ensures { result ≡ is_same self one other }
    {
        match self {
            Period::Day => one == other,
            Period::Month => one.year() == other.year() && one.month() == other.month(),
            Period::Year => one.year() == other.year(),
        }
    }

    /// Returns the last day of the period (day, month or year) that contains a day.
    pub fn last_day(self, day: Day) -> Day
        ensures { epoch_day result ≡ periods.last_day self day }
    {
        match self {
            Period::Day => day,
            Period::Month => day.last_of_month(),
            Period::Year => day.last_of_year(),
        }
    }
}

impl EnergyUnit {
    /// Parses the name of a unit: `mwh` or `kwh`. Returns `None` for any other word.
    pub fn read(word: &str) -> Option<EnergyUnit>
        ensures { result ≡ unit_of word.now }
    {
        match word {
            "mwh" => Some(EnergyUnit::MilliwattHours),
            "kwh" => Some(EnergyUnit::KilowattHours),
            _ => None,
        }
    }
}

impl Format {
    /// Parses the name of a format: `text`, `csv` or `json`. Returns `None` for any other word.
    pub fn read(word: &str) -> Option<Format>
        ensures { result ≡ format_of word.now }
    {
        match word {
            "text" => Some(Format::Text),
            "csv" => Some(Format::Csv),
            "json" => Some(Format::Json),
            _ => None,
        }
    }
}
