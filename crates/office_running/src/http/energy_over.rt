//! The energy of an accounting register (a named energy counter) over earlier database files of the
//! store and the current file.
ghost use Rattle.std.specs.Prelude.{◌≡◌, ◌++◌, OnOk};
ghost use Rattle.std.specs.List.{find};
ghost use Rattle.std.specs.Option.{option_copied};
ghost use Rattle.energy_report.specs.Texts.{report_text};
ghost use Rattle.office_books.specs.Facts.{is_named};
ghost use Rattle.office_running.specs.Http.EnergyOver.{AsksEnergyOver, RepliesEnergyOver};

use carried_books::{EarlierDays, EarlierRegister, days_over, report_days};
use command_io::ExitStatus;
use energy_report::ReportForm;
use interval_core::{DayTotal, Zone, accounts_are_one};
use office_books::Books;
use office_core::{Office, span_around};
use office_events::{Name, Refusal};
use run_http::write_energy_reply;
use std::alloc::{AllocError, Global};

/// The accounting registers (named counters) in the database files before the current one, and the
/// time zone by whose days their energy was summed.
#[derive(Clone, Copy)]
pub struct EarlierFiles<'a> {
    pub zone: Zone,
    pub registers: &'a [EarlierRegister],
}

// Writes the energy report's lines for the days in `days`. Fails only if memory runs out.
fn write_days(days: &[DayTotal], form: &ReportForm, output: &mut Vec<u8>) -> Result<(), AllocError>
    ensures { OnOk result (output.new.items
        ≡ output.old.items ++ report_text form.now days.now) }
{
    match report_days(days, form, output) {
        ExitStatus::Fine => Ok(()),
        ExitStatus::Refused | ExitStatus::Failed => Err(AllocError),
    }
}

// Writes the energy report on an accounting register (a named energy counter) over the earlier
// database files and the current file.
fn write_energy_over<B: Books>(
    office: &mut Office<B>,
    zone: Zone,
    earlier: &EarlierDays,
    register: &Name,
    form: &ReportForm,
    output: &mut Vec<u8>,
) -> Result<Result<(), Refusal>, AllocError>
    ensures { AsksEnergyOver B.ledger office.old office.new zone earlier.now register.now form.now
        output.old.items output.new.items result }
{
    accounts_are_one();
    match days_over(office, zone, earlier, register, span_around(form.range)) {
        Err(why) => Ok(Err(why)),
        Ok(days) => {
            write_days(&days, form, output)?;
            Ok(Ok(()))
        }
    }
}

/// Appends the response with the energy report on an accounting register (a named energy counter).
/// The report covers the days of earlier database files and of the current file, in the site's time
/// zone. If the report's range has both ends, only the quarter hours of the range and of two days
/// on each side are read. If memory runs out, a part of the response is appended.
pub(crate) fn reply_energy_over<B: Books>(
    alloc: Global,
    text: &mut Vec<u8>,
    office: &mut Office<B>,
    zone: Zone,
    earlier: &EarlierDays,
    register: &Name,
    form: &ReportForm,
) -> Result<(), AllocError>
    ensures { RepliesEnergyOver B.ledger office.old office.new zone earlier.now register.now
        form.now text.old.items text.new.items result }
{
    let mut body = Vec::new(alloc);
    let answer = write_energy_over(office, zone, earlier, register, form, &mut body)?;
    write_energy_reply(text, &answer, &body)
}

// Returns whether the accounting register (a named energy counter) of an earlier database file has
// this name. `None` is an invalid name, which no register has.
fn is_of(it: &EarlierRegister, register: &Option<Name>) -> bool
    ensures { result ≡ is_named register.now it.now.name }
{
    match register {
        Some(name) => name.is(&it.name),
        None => false,
    }
}

/// Returns the first accounting register (a named energy counter) with this name among the
/// registers of earlier database files.
pub(crate) fn earlier_named<'a>(
    registers: &'a [EarlierRegister],
    register: &Option<Name>,
) -> Option<&'a EarlierRegister>
    ensures { option_copied result
        ≡ find (λ it. is_named register.now it.name) registers.now }
{
    registers.iter().find(|it| is_of(it, register))
}
