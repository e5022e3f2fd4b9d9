//! Checks whether successive database files continue each other: each meter must begin in the next
//! file with its last entry in the earlier file.
ghost use Rattle.std.specs.Prelude.{◌≡◌, ◌++◌, ◌∷◌, [], Some, None, OnOk, flat_map};
ghost use Rattle.std.specs.List.{find};
ghost use Rattle.std.specs.Option.{option_copied};
ghost use Rattle.table_seals.specs.Joins as joins;
ghost use Rattle.table_seals.specs.JoinTexts.{lines_of, texts_of};

use crate::filed::{FiledMeter, FiledOffice};
use crate::join_faults::JoinFault;
use crate::join_lines::{fault_line, missing_line, overlap_line, zone_line};
use energy_core::{Last, MAX_TOTAL};
use std::alloc::{AllocError, Global};

/// Returns whether the meter has the name `name`.
fn is_meter(name: &str, meter: &FiledMeter<'_>) -> bool
    ensures { result ≡ joins.is_meter name.now meter.now }
{
    meter.meter.as_str() == name
}

/// Returns whether one of the meters in the list `meters` has the name `name`.
fn has_meter(name: &str, meters: &[FiledMeter<'_>]) -> bool
    ensures { result ≡ joins.has_meter name.now meters.now }
{
    meters.iter().any(|meter| is_meter(name, meter))
}

/// Returns the first of the meters with the name `name`, or None.
fn meter_in<'m, 'a>(name: &str, meters: &'m [FiledMeter<'a>]) -> Option<&'m FiledMeter<'a>>
    ensures { option_copied result ≡ find (joins.is_meter name.now) meters.now }
{
    meters.iter().find(|meter| is_meter(name, *meter))
}

/// Returns whether two counter states have the same raw value, timestamp and scale factor.
fn is_same(last: &Last, other: &Last) -> bool
    ensures { result ≡ joins.is_same last.now other.now }
{
    last.at == other.at && last.raw == other.raw && last.sf == other.sf
}

/// Returns the energy that remains of the limit `most`, in mWh, after a meter's total energy is
/// subtracted. A meter of another name than `name` leaves the limit unchanged. Returns None if the
/// total exceeds the limit.
fn left_after(most: u64, name: &str, meter: &FiledMeter<'_>) -> Option<u64>
    ensures { result ≡ joins.left_after most name.now meter.now }
{
    let total = meter.standing.total;
    if !is_meter(name, meter) {
        return Some(most);
    }
    if total <= most {
        Some(most - total)
    } else {
        None
    }
}

/// Returns whether all meters with the name `name` together have at most the energy `most`, in mWh.
fn stay_within(most: u64, name: &str, meters: &[FiledMeter<'_>]) -> bool
    ensures { result ≡ joins.stay_within most name.now meters.now }
{
    let mut left = most;
    for meter in meters {
        match left_after(left, name, meter) {
            Some(rest) => left = rest,
            None => return false,
        }
    }
    true
}

/// Returns whether a meter's total energy in the next file and all earlier files is within the
/// limit of one meter.
fn is_within(known: &[FiledMeter<'_>], new: &FiledMeter<'_>) -> bool
    ensures { result ≡ joins.is_within known.now new.now }
{
    match left_after(MAX_TOTAL, &new.meter, new) {
        Some(rest) => stay_within(rest, &new.meter, known),
        None => false,
    }
}

/// Returns the first reason why the meter `new` does not continue the meter `old` of the earlier
/// file. Returns None if `new` continues `old`.
fn fault_between(within: bool, old: &FiledMeter<'_>, new: &FiledMeter<'_>) -> Option<JoinFault>
    ensures { result ≡ joins.fault_between within old.now new.now }
{
    if old.standing.is_ended {
        return Some(JoinFault::Closed);
    }
    if new.register.as_str() != old.register.as_str() {
        return Some(JoinFault::Register);
    }
    if new.installed.range != old.installed.range {
        return Some(JoinFault::Range);
    }
    if new.installed.ceiling != old.installed.ceiling {
        return Some(JoinFault::Ceiling);
    }
    if !is_same(&new.installed.opening, &old.standing.last) {
        return Some(JoinFault::Opening);
    }
    if !within {
        return Some(JoinFault::Energy);
    }
    None
}

/// Returns whether a new meter overlaps an earlier meter that is assigned to the same accounting
/// register (a named energy counter). Meters overlap if the new meter's opening (first entry) is
/// earlier than the last entry of the earlier meter.
fn is_beyond(new: &FiledMeter<'_>, old: &FiledMeter<'_>) -> bool
    ensures { result ≡ joins.is_beyond new.now old.now }
{
    old.register.as_str() == new.register.as_str()
        && new.installed.opening.at < old.standing.last.at
}

/// Returns the first meter of the earlier files that is assigned to a new meter's accounting
/// register (a named energy counter) and overlaps the new meter. The last entry of the returned
/// meter is later than the new meter's opening (first entry).
fn overlapped<'m, 'a>(
    new: &FiledMeter<'_>,
    known: &'m [FiledMeter<'a>],
) -> Option<&'m FiledMeter<'a>>
    ensures { option_copied result ≡ find (joins.is_beyond new.now) known.now }
{
    known.iter().find(|old| is_beyond(new, *old))
}

/// Appends a printed line to the list of differences between successive database files.
fn keep(lines: &mut Vec<Vec<u8>>, line: Vec<u8>) -> Result<(), AllocError>
    ensures { OnOk result (texts_of lines.new.items
        ≡ texts_of lines.old.items ++ line.items ∷ []) }
{
    lines.push(line)?;
    Ok(())
}

/// Appends a line for a meter of the next file if it does not continue the earlier meter of the
/// same name.
fn print_one_fault(
    alloc: Global,
    lines: &mut Vec<Vec<u8>>,
    known: &[FiledMeter<'_>],
    old: &FiledMeter<'_>,
    new: &FiledMeter<'_>,
) -> Result<(), AllocError>
    ensures { OnOk result (texts_of lines.new.items
        ≡ texts_of lines.old.items ++ lines_of (joins.joins_by known.now new.now (Some old.now))) }
{
    match fault_between(is_within(known, new), old, new) {
        None => Ok(()),
        Some(fault) => {
            let line = fault_line(alloc, fault, old, new)?;
            keep(lines, line)
        }
    }
}

/// Appends a line for a new meter that begins before the last entry of another meter. Both meters
/// are assigned to the same accounting register (a named energy counter).
fn append_overlap(
    alloc: Global,
    lines: &mut Vec<Vec<u8>>,
    known: &[FiledMeter<'_>],
    new: &FiledMeter<'_>,
) -> Result<(), AllocError>
    ensures { OnOk result (texts_of lines.new.items
        ≡ texts_of lines.old.items ++ lines_of (joins.joins_by known.now new.now None)) }
{
    match overlapped(new, known) {
        None => Ok(()),
        Some(old) => {
            let line = overlap_line(alloc, old, new)?;
            keep(lines, line)
        }
    }
}

/// Appends a line if a meter of the next file does not continue the earlier meter of the same name.
/// For a new meter, appends a line if it overlaps another meter with the same accounting register
/// (a named energy counter).
fn append_meter_lines(
    alloc: Global,
    lines: &mut Vec<Vec<u8>>,
    known: &[FiledMeter<'_>],
    new: &FiledMeter<'_>,
) -> Result<(), AllocError>
    ensures { OnOk result (texts_of lines.new.items
        ≡ texts_of lines.old.items ++ lines_of (joins.joins_of known.now new.now)) }
{
    match meter_in(&new.meter, known) {
        None => {
            append_overlap(alloc, lines, known, new)?;
            Ok(())
        }
        Some(old) => {
            print_one_fault(alloc, lines, known, old, new)?;
            Ok(())
        }
    }
}

/// Appends a line for each meter of the next file that does not continue the meter of the same name
/// in the earlier files, or that overlaps another meter.
fn append_meters(
    alloc: Global,
    lines: &mut Vec<Vec<u8>>,
    known: &[FiledMeter<'_>],
    next: &[FiledMeter<'_>],
) -> Result<(), AllocError>
    ensures { OnOk result (texts_of lines.new.items ≡ texts_of lines.old.items
        ++ flat_map (λ new. lines_of (joins.joins_of known.now new)) next.now) }
{
    for new in next {
        append_meter_lines(alloc, lines, known, new)?;
    }
    Ok(())
}

/// Returns whether a meter is open in the earlier file, but missing in the next file.
fn is_missing(next: &[FiledMeter<'_>], old: &FiledMeter<'_>) -> bool
    ensures { result ≡ joins.is_missing next.now old.now }
{
    !old.standing.is_ended && !has_meter(&old.meter, next)
}

/// Appends a line for a meter if it is open in the earlier file, but missing in the next file.
fn append_missing(
    alloc: Global,
    lines: &mut Vec<Vec<u8>>,
    next: &FiledOffice<'_>,
    old: &FiledMeter<'_>,
) -> Result<(), AllocError>
    ensures { OnOk result (texts_of lines.new.items ≡ texts_of lines.old.items
        ++ lines_of (joins.missing_of (joins.known_of next.now) old.now)) }
{
    if !is_missing(&next.meters, old) {
        return Ok(());
    }
    let line = missing_line(alloc, old, next.file)?;
    keep(lines, line)
}

/// Appends a line for each meter that is open in the earlier file, but missing in the next file.
fn append_each_missing(
    alloc: Global,
    lines: &mut Vec<Vec<u8>>,
    next: &FiledOffice<'_>,
    latest: &[FiledMeter<'_>],
) -> Result<(), AllocError>
    ensures { OnOk result (texts_of lines.new.items ≡ texts_of lines.old.items
        ++ flat_map (λ old. lines_of (joins.missing_of (joins.known_of next.now) old))
        latest.now) }
{
    for old in latest {
        append_missing(alloc, lines, next, old)?;
    }
    Ok(())
}

/// Appends a line if the time zone of the next file differs from that of the earlier file.
fn append_zone(
    alloc: Global,
    lines: &mut Vec<Vec<u8>>,
    known: &FiledOffice<'_>,
    next: &FiledOffice<'_>,
) -> Result<(), AllocError>
    ensures { OnOk result (texts_of lines.new.items ≡ texts_of lines.old.items
        ++ lines_of (joins.zone_of (joins.known_of known.now) (joins.known_of next.now))) }
{
    if next.zone.as_str() == known.zone.as_str() {
        return Ok(());
    }
    let line = zone_line(alloc, known, next)?;
    keep(lines, line)
}

/// Appends a line for each difference by which the next file does not continue the meters and the
/// time zone of the earlier files.
pub(crate) fn append_join_lines(
    alloc: Global,
    lines: &mut Vec<Vec<u8>>,
    known: &FiledOffice<'_>,
    next: &FiledOffice<'_>,
) -> Result<(), AllocError>
    ensures { OnOk result (texts_of lines.new.items ≡ texts_of lines.old.items
        ++ lines_of (joins.joins_between (joins.known_of known.now) (joins.known_of next.now))) }
{
    let meters = known.meters.as_slice();
    let latest = known.latest.min(meters.len());
    append_zone(alloc, lines, known, next)?;
    append_meters(alloc, lines, meters, &next.meters)?;
    append_each_missing(alloc, lines, next, &meters[..latest])?;
    Ok(())
}
