//! Finds the current file, in which the program records energy, by the periods in file names.
ghost use Rattle.std.specs.Prelude.{◌≡◌, ◌≤◌, ◌<◌, ◌*◌, ◌+◌, nat_lt};
ghost use Rattle.run_schedule.specs.Periods.Led as numbers;
ghost use Rattle.run_schedule.specs.Periods.Led.{IsReportedBy};

use crate::periods::names::{period_of_file, spells};
use energy_report::Period;
use std::alloc::{AllocError, Global};

fn pair(tens: u8, ones: u8) -> u32
    ensures value { result ≡ numbers.pair tens ones }
    ensures few { result < 2_500 }
{
    10 * u32::from(tens.saturating_sub(48)) + u32::from(ones.saturating_sub(48))
}

// Returns the year, month and day in the text of a period such as `2026-11`. A missing part is 0.
fn numbers_in(text: &[u8]) -> (u32, u32, u32)
    ensures year { result.0 ≡ numbers.year_in text.now }
    ensures month { result.1 ≡ numbers.month_in text.now }
    ensures day { result.2 ≡ numbers.day_in text.now }
    ensures few_years { result.0 < 252_500 }
    ensures few_months { result.1 < 2_500 }
    ensures few_days { result.2 < 2_500 }
{
    match text {
        [a, b, c, d, _, m, n, _, e, f, ..] => {
            (
                100 * pair(*a, *b) + pair(*c, *d),
                pair(*m, *n),
                pair(*e, *f),
            )
        }
        [a, b, c, d, _, m, n, ..] => (100 * pair(*a, *b) + pair(*c, *d), pair(*m, *n), 0),
        [a, b, c, d, ..] => (100 * pair(*a, *b) + pair(*c, *d), 0, 0),
        _ => (0, 0, 0),
    }
}

/// Returns a number for a calendar period. Among periods of one length, a later period has a
/// greater number.
pub(crate) fn number_in(text: &[u8]) -> u32
    ensures { result ≡ numbers.number_in text.now }
{
    let (year, month, day) = numbers_in(text);
    512 * year + 32 * month + day
}

fn other_length(length: Period) -> Period
    ensures { result ≡ numbers.other_length length }
{
    match length {
        Period::Day => Period::Day,
        Period::Month => Period::Year,
        Period::Year => Period::Month,
    }
}

fn rank(length: Period, text: &[u8]) -> u32
    ensures { result ≡ numbers.rank length text.now }
{
    let (year, month, day) = numbers_in(text);
    let own = if spells(length, text) { 512 } else { 0 };
    2 * 512 * year + own + 32 * month + day
}

// Returns the period in a file name, such as `2026-11`. The period has the configured length (such
// as a month), or the alternative length (such as a year).
fn name_by_length<'a>(file: &[u8], length: Period, name: &'a [u8]) -> Option<&'a [u8]>
    ensures { IsReportedBy file.now length name.now result }
{
    match period_of_file(file, length, name) {
        Some(text) => Some(text),
        None => period_of_file(file, other_length(length), name),
    }
}

fn is_before(length: Period, text: &[u8], other: &[u8]) -> bool
    ensures { result ≡ nat_lt (numbers.rank length text.now) (numbers.rank length other.now) }
{
    rank(length, text) < rank(length, other)
}

/// The period of the current file among the file names seen so far, such as `2026-11` or `2026`.
/// `None` if no name so far has a period.
#[derive(Drop)]
pub struct ActivePeriod {
    pub text: Option<Vec<u8>>,
}

impl ActivePeriod {
    ghost use Rattle.std.specs.Prelude.{◌≡◌, [], OnOk, OnErr, None};
    ghost use Rattle.run_schedule.specs.Periods.Led.{SeesOneMore};

    /// Makes the search result that is valid before any file name was seen: no period.
    pub fn none() -> ActivePeriod
        ensures { result.text ≡ None }
    {
        ActivePeriod { text: None }
    }

    // Returns whether the file of the period `text` outranks the current file among the file names
    // seen so far. A file's rank is that of its period's year, length, month and day, in this
    // order.
    fn gives_way_to(&self, length: Period, text: &[u8]) -> bool
        ensures { result ≡ numbers.gives_way self.now.text length text.now }
    {
        match &self.text {
            Some(led) => is_before(length, led, text),
            None => true,
        }
    }

    /// Considers the name of another file in the folder of the store. Keeps the period in the name
    /// if the file is more current than the files seen so far.
    ///
    /// A file of a later year is more current. Within a year, a file of the configured period
    /// length is more current than a file of another length. Of two files with the same year and
    /// period length, the file with the later month or day is more current.
    pub fn see(
        &mut self,
        alloc: Global,
        file: &[u8],
        length: Period,
        name: &[u8],
    ) -> Result<(), AllocError>
        ensures seen { OnOk result
            (SeesOneMore file.now length name.now self.old.text self.new.text) }
        ensures unseen { OnErr result (self.new ≡ self.old) }
    {
        match name_by_length(file, length, name) {
            None => Ok(()),
            Some(text) => {
                if !self.gives_way_to(length, text) {
                    return Ok(());
                }
                self.text = Some(Vec::from_slice(alloc, text)?);
                Ok(())
            }
        }
    }
}
