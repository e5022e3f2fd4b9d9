//! Parses the request targets for an accounting register (a named energy counter): its energy, or
//! its present and earlier meters.
ghost use Rattle.std.specs.Prelude.{◌≡◌};
ghost use Rattle.energy_report.specs.Days.{IsReadAs};
ghost use Rattle.run_http.specs.RegisterTargets as targets;

use crate::meter_targets::{after, slash_in};
use crate::route::{RunRoute, StatusRoute};
use energy_report::{EnergyUnit, Format, Period, ReportForm, read_day};
use interval_core::{Day, DayRange};
use office_events::Name;
use office_http::messages::Status;
use std::str::from_utf8;

// Parses a day as `YYYY-MM-DD`.
#[tactic(auto, using(crate::proofs::ReplyLemmas::Spelled::unread))]
fn day_of(text: &[u8]) -> Option<Day>
    ensures { IsReadAs text.now result }
{
    match from_utf8(text) {
        Ok(text) => read_day(text),
        Err(_) => None,
    }
}

fn range_of(from: &[u8], till: &[u8]) -> Option<DayRange>
    ensures { targets.IsRangeOf from.now till.now result }
{
    let Some(first) = day_of(from) else {
        return None;
    };
    let Some(last) = day_of(till) else {
        return None;
    };
    let range = DayRange {
        from: Some(first),
        till: Some(last),
    };
    if range.is_backward() {
        return None;
    }
    Some(range)
}

// Returns the format of an energy report with one plain-text line for each period (such as a day),
// in mWh.
fn lines_of(range: DayRange, period: Period) -> ReportForm
    ensures { result ≡ targets.lines_of range period }
{
    ReportForm {
        range,
        period,
        unit: EnergyUnit::MilliwattHours,
        format: Format::Text,
    }
}

// Returns the route to the daily energy in a range of days, or status 400 if the target has no
// valid range.
fn days_asked(name: &[u8], range: Option<DayRange>) -> RunRoute
    ensures { result ≡ targets.days_asked name.now range }
{
    match range {
        Some(range) => RunRoute::Energy {
            register: Name::new(name),
            form: lines_of(range, Period::Day),
        },
        None => RunRoute::Own(StatusRoute::Rejected(Status::BadRequest)),
    }
}

// Returns the route to the energy of an accounting register (a named energy counter) by month, over
// all days.
fn months_asked(name: &[u8]) -> RunRoute
    ensures { result ≡ targets.months_asked name.now }
{
    RunRoute::Energy {
        register: Name::new(name),
        form: lines_of(DayRange::all(), Period::Month),
    }
}

// Parses the two days of a target for daily energy. A target with another segment after them has no
// route.
fn days_till(name: &[u8], from: &[u8], till: &[u8]) -> Option<RunRoute>
    ensures { targets.IsDaysTill name.now from.now till.now result }
{
    if slash_in(till).is_some() {
        return None;
    }
    Some(days_asked(name, range_of(from, till)))
}

// Parses the part of a target after `/registers/NAME/days/`.
fn days_in(name: &[u8], text: &[u8]) -> Option<RunRoute>
    ensures { targets.IsDaysIn name.now text.now result }
{
    match slash_in(text) {
        Some(at) => days_till(name, &text[..at], &text[at + 1..]),
        None => None,
    }
}

// Parses the part of a target after `/registers/NAME/` if it requests energy. Returns `None` for
// any other target.
fn energy_in(name: &[u8], text: &[u8]) -> Option<RunRoute>
    ensures { targets.IsEnergyIn name.now text.now result }
{
    if text == b"months".as_slice() {
        return Some(months_asked(name));
    }
    match after(b"days/", text) {
        Some(text) => days_in(name, text),
        None => None,
    }
}

fn rows_in(name: &[u8], text: &[u8]) -> Option<RunRoute>
    ensures { targets.IsRowsIn name.now text.now result }
{
    if text == b"meters".as_slice() {
        return Some(RunRoute::Meters {
            register: Name::new(name),
        });
    }
    energy_in(name, text)
}

fn register_in(text: &[u8]) -> Option<RunRoute>
    ensures { targets.IsRegisterIn text.now result }
{
    match slash_in(text) {
        Some(at) => rows_in(&text[..at], &text[at + 1..]),
        None => None,
    }
}

/// Parses a request target for the energy or the meters of an accounting register (a named energy
/// counter).
pub(crate) fn register_target(target: &[u8]) -> Option<RunRoute>
    ensures { targets.IsRegisterTarget target.now result }
{
    match after(b"/registers/", target) {
        Some(text) => register_in(text),
        None => None,
    }
}
