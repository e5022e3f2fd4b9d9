//! Finds the files of months or years (periods) among the file names in a folder.
ghost use Rattle.std.specs.Prelude.{◌≡◌, ℕ, List, IfOk, OnOk};
ghost use Rattle.std.specs.Option.{MatchOption};
ghost use Rattle.run_schedule.specs.Periods.Folders.{AddsEarlier, AreEarlier, IsEarlier, ListsEarlier, texts_in};
ghost use Rattle.run_schedule.specs.Periods.Led.{IsLed};

use crate::periods::led::{ActivePeriod, number_in};
use crate::periods::names::period_of_file;
use energy_report::Period;
use std::alloc::{AllocError, Global};

/// Finds the current file among the names of the files in a folder. `file` is the name without a
/// period, such as `office.db`.
pub fn active_period(
    alloc: Global,
    file: &[u8],
    length: Period,
    names: &[Vec<u8>],
) -> Result<ActivePeriod, AllocError>
    ensures { IfOk result (λ led. IsLed file.now length (texts_in names.now) led.text) }
{
    let mut led = ActivePeriod::none();
    for name in names {
        led.see(alloc, file, length, name.as_slice())?;
    }
    Ok(led)
}

// Returns the calendar period in a file name (such as `2026-10`), if the period is before the
// period `current`.
fn earlier_period<'a>(
    file: &[u8],
    length: Period,
    current: &[u8],
    name: &'a [u8],
) -> Option<&'a [u8]>
    ensures { MatchOption result
        ((text : List ℕ) → ¬ IsEarlier file.now length current.now name.now text)
        (λ text. IsEarlier file.now length current.now name.now text.now) }
{
    match period_of_file(file, length, name) {
        Some(text) => {
            if number_in(text) < number_in(current) {
                Some(text)
            } else {
                None
            }
        }
        None => None,
    }
}

// Appends the calendar period in a file name (such as `2026-10`) to a list, if the period is before
// the period `current`.
fn add_earlier(
    texts: &mut Vec<Vec<u8>>,
    alloc: Global,
    file: &[u8],
    length: Period,
    current: &[u8],
    name: &[u8],
) -> Result<(), AllocError>
    ensures { OnOk result (AddsEarlier file.now length current.now name.now
        (texts_in texts.old.items) (texts_in texts.new.items)) }
{
    match earlier_period(file, length, current, name) {
        Some(text) => {
            texts.push(Vec::from_slice(alloc, text)?)?;
            Ok(())
        }
        None => Ok(()),
    }
}

// Returns the calendar periods (such as `2026-10`) before `current` in file names, in the order of
// the names.
fn list_earlier(
    alloc: Global,
    file: &[u8],
    length: Period,
    current: &[u8],
    names: &[Vec<u8>],
) -> Result<Vec<Vec<u8>>, AllocError>
    ensures { IfOk result (λ texts. AreEarlier file.now length current.now (texts_in names.now)
        (texts_in texts.items)) }
{
    let mut texts = Vec::new(alloc);
    for name in names {
        add_earlier(&mut texts, alloc, file, length, current, name.as_slice())?;
    }
    Ok(texts)
}

/// Returns the periods before `current`, such as `2026-10`, whose files have one of the given
/// names. The oldest period comes first. `file` is the name without a period, such as `office.db`.
pub fn periods_before(
    alloc: Global,
    file: &[u8],
    length: Period,
    current: &[u8],
    names: &[Vec<u8>],
) -> Result<Vec<Vec<u8>>, AllocError>
    ensures { IfOk result (λ texts. ListsEarlier file.now length current.now (texts_in names.now)
        texts.items) }
{
    let mut texts = list_earlier(alloc, file, length, current, names)?;
    texts.sort()?;
    Ok(texts)
}
