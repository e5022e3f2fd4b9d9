//! Checks that no line occurs twice in a seal, which has digests of earlier records.
ghost use Rattle.std.specs.Prelude.{◌≡◌, bytes_eq, map};
ghost use Rattle.std.specs.List.{list_all, list_any};
ghost use Rattle.table_seals.specs.Reading as once;
ghost use Rattle.table_seals.specs.Sealed.{line_bytes, sealed_month_of, sealed_of};
ghost use Rattle.table_seals.specs.Sealed.{sealed_tables_of};
ghost use Rattle.table_seals.specs.Setup.{is_among};

use crate::seals::{MeterSeal, MonthSeal, Seal};
use table_audit::VoidRow;

/// Returns whether the list is empty or its first number is greater than `number`.
fn is_below_first(number: u64, others: &[u64]) -> bool
    ensures { result ≡ once.is_below_first number others.now }
{
    match others.first() {
        Some(first) => number < *first,
        None => true,
    }
}

/// Returns whether each number is greater than the one before it.
fn are_rising(numbers: &[u64]) -> bool
    ensures { result ≡ once.are_rising numbers.now }
{
    let mut rest = numbers;
    while let Some((number, others)) = rest.split_first() {
        if !is_below_first(*number, others) {
            return false;
        }
        rest = others;
    }
    true
}

/// Returns whether the list is empty or its first void (cancellation of an entry) is of a later
/// entry than the one at index `place`.
fn is_before_first(place: u64, others: &[VoidRow]) -> bool
    ensures { result ≡ once.is_below_first place (map (λ void. void.place) others.now) }
{
    match others.first() {
        Some(first) => place < first.place,
        None => true,
    }
}

/// Returns whether each void (cancellation) is of a later entry than the one before it.
fn are_voids_rising(voids: &[VoidRow]) -> bool
    ensures { result ≡ once.are_rising (map (λ void. void.place) voids.now) }
{
    let mut rest = voids;
    while let Some((void, others)) = rest.split_first() {
        if !is_before_first(void.place, others) {
            return false;
        }
        rest = others;
    }
    true
}

fn is_line(other: &Vec<u8>, line: &[u8]) -> bool
    ensures { result ≡ bytes_eq (line_bytes other.now) line.now }
{
    other.as_slice() == line
}

fn has_line(lines: &[Vec<u8>], line: &[u8]) -> bool
    ensures { result ≡ list_any (λ other. bytes_eq (line_bytes other) line.now) lines.now }
{
    lines.iter().any(|other| is_line(other, line))
}

/// Returns whether a line is among the given lines.
pub(crate) fn is_line_among(lines: &[Vec<u8>], line: &[u8]) -> bool
    ensures { result ≡ is_among (map line_bytes lines.now) line.now }
{
    has_line(lines, line)
}

/// Returns whether no line occurs twice.
fn are_lines_apart(lines: &[Vec<u8>]) -> bool
    ensures { result ≡ once.are_apart (map line_bytes lines.now) }
{
    let mut rest = lines;
    while let Some((line, others)) = rest.split_first() {
        if is_line_among(others, line.as_slice()) {
            return false;
        }
        rest = others;
    }
    true
}

fn is_of_month(other: &MonthSeal, month: &[u8]) -> bool
    ensures { result ≡ bytes_eq (sealed_month_of other.now).month month.now }
{
    other.month.as_slice() == month
}

fn has_month(months: &[MonthSeal], month: &[u8]) -> bool
    ensures { result
        ≡ list_any (λ other. bytes_eq (sealed_month_of other).month month.now) months.now }
{
    months.iter().any(|other| is_of_month(other, month))
}

fn is_month_among(months: &[MonthSeal], month: &[u8]) -> bool
    ensures { result
        ≡ is_among (map (λ other. other.month) (map sealed_month_of months.now)) month.now }
{
    has_month(months, month)
}

/// Returns whether no month occurs twice.
fn are_months_apart(months: &[MonthSeal]) -> bool
    ensures { result
        ≡ once.are_apart (map (λ month. month.month) (map sealed_month_of months.now)) }
{
    let mut rest = months;
    while let Some((month, others)) = rest.split_first() {
        if is_month_among(others, month.month.as_slice()) {
            return false;
        }
        rest = others;
    }
    true
}

fn is_of_meter(other: &MeterSeal, meter: &[u8]) -> bool
    ensures { result ≡ bytes_eq (sealed_of other.now).meter meter.now }
{
    other.meter.as_bytes() == meter
}

fn has_meter(seals: &[MeterSeal], meter: &[u8]) -> bool
    ensures { result ≡ list_any (λ other. bytes_eq (sealed_of other).meter meter.now) seals.now }
{
    seals.iter().any(|other| is_of_meter(other, meter))
}

fn is_meter_among(seals: &[MeterSeal], meter: &[u8]) -> bool
    ensures { result ≡ is_among (map (λ other. other.meter) (map sealed_of seals.now)) meter.now }
{
    has_meter(seals, meter)
}

/// Returns whether no meter occurs twice.
fn are_meters_apart(seals: &[MeterSeal]) -> bool
    ensures { result ≡ once.are_apart (map (λ seal. seal.meter) (map sealed_of seals.now)) }
{
    let mut rest = seals;
    while let Some((seal, others)) = rest.split_first() {
        if is_meter_among(others, seal.meter.as_bytes()) {
            return false;
        }
        rest = others;
    }
    true
}

/// Returns whether a meter's seal has no void (cancellation of an entry) and no month twice.
fn has_each_once(seal: &MeterSeal) -> bool
    ensures { result ≡ once.has_each_once (sealed_of seal.now) }
{
    are_voids_rising(seal.voids.as_slice()) && are_months_apart(seal.months.as_slice())
}

fn all_have_each_once(seals: &[MeterSeal]) -> bool
    ensures { result ≡ list_all (λ seal. once.has_each_once (sealed_of seal)) seals.now }
{
    seals.iter().all(|seal| has_each_once(seal))
}

/// Returns whether no meter's seal has a void (cancellation of an entry) or a month twice.
fn have_each_once(seals: &[MeterSeal]) -> bool
    ensures { result ≡ list_all once.has_each_once (map sealed_of seals.now) }
{
    all_have_each_once(seals)
}

/// Returns whether no line occurs twice in the text of a seal (digests of earlier records).
pub(crate) fn has_each_line_once(seal: &Seal) -> bool
    ensures { result ≡ once.has_each_line_once (sealed_tables_of seal.now) }
{
    are_lines_apart(seal.setup.as_slice())
        && are_meters_apart(seal.meters.as_slice())
        && have_each_once(seal.meters.as_slice())
        && are_rising(seal.polls.pending.as_slice())
}
