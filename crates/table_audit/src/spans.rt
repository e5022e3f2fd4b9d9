//! Finds meters that overlap at a register: one was opened before an earlier one was closed.
ghost use Rattle.std.specs.Prelude.{◌≡◌, ◌≤◌, ◌++◌, length, OnOk};
ghost use Rattle.table_audit.specs.Named.{IsReported};
ghost use Rattle.table_audit.specs.Spans as spanning;

use crate::differences::{Difference, MOST};
use crate::findings::Findings;
use crate::names::name;
use crate::reading::installation;
use crate::rows::MeterRows;
use office_events::Name;
use sqlite::Row;
use std::alloc::{AllocError, Global};
use store_tables::{InstallationRow, LATEST_MOMENT, whole};

/// The time during which a meter is installed at its register. Timestamps are in seconds since
/// 1970-01-01 UTC.
#[derive(Clone, Copy)]
pub struct MeterSpan {
    pub register: Name,
    pub meter: Name,
    /// The timestamp of the meter's opening, its first entry.
    pub opened: u64,
    /// The timestamp of the meter's closing, its last entry. None if the meter is open.
    pub closed: Option<u64>,
}

/// Reads the timestamp of a meter's opening from the result rows of the meter's entries.
fn opened(entries: &[Row]) -> Option<u64>
    ensures { result ≡ spanning.opened_in entries.now }
{
    match entries {
        [] => None,
        [row, ..] => whole(row, 2, 0, LATEST_MOMENT).ok(),
    }
}

/// Returns the timestamp of a meter's closing, or None if the meter is open.
fn closed(row: &InstallationRow) -> Option<u64>
    ensures { result ≡ spanning.closed_in row.now }
{
    if row.is_ended {
        Some(row.last.moment)
    } else {
        None
    }
}

/// Reads the time during which a meter is installed at its register. Returns None if a value of the
/// meter's rows that gives this time can't be parsed.
pub(crate) fn span(row: &Row, rows: &MeterRows) -> Option<MeterSpan>
    ensures { result ≡ spanning.span_of row.now rows.now }
{
    let Some(meter) = name(row, 1) else {
        return None;
    };
    let Some(register) = name(row, 2) else {
        return None;
    };
    let Some(opened) = opened(&rows.entries) else {
        return None;
    };
    let Ok(installed) = installation(row) else {
        return None;
    };
    let closed = closed(&installed);
    Some(MeterSpan {
        register,
        meter,
        opened,
        closed,
    })
}

fn is_closed_by(closed: Option<u64>, opened: u64) -> bool
    ensures { result ≡ spanning.is_closed_by closed opened }
{
    match closed {
        None => false,
        Some(closed) => closed <= opened,
    }
}

/// Returns whether two meters are at different registers, or the earlier meter was closed when the
/// later meter was opened.
fn follows(earlier: &MeterSpan, later: &MeterSpan) -> bool
    ensures { result ≡ spanning.follows earlier.now later.now }
{
    !earlier.register.is(&later.register) || is_closed_by(earlier.closed, later.opened)
}

/// Returns the first of several later meters that overlaps an earlier meter.
fn first_overlap(earlier: &MeterSpan, spans: &[MeterSpan]) -> Option<MeterSpan>
    ensures { result ≡ spanning.first_overlap earlier.now spans.now }
{
    for later in spans {
        if !follows(earlier, later) {
            return Some(*later);
        }
    }
    None
}

/// Appends a discrepancy if an earlier meter overlaps one of several later meters.
fn append_overlap(
    earlier: &MeterSpan,
    spans: &[MeterSpan],
    found: &mut Vec<Difference>,
) -> Result<(), AllocError>
    ensures { OnOk result (found.new.items ≡ found.old.items
        ++ spanning.overlap_with earlier.now (spanning.first_overlap earlier.now spans.now)) }
{
    if let Some(later) = first_overlap(earlier, spans) {
        let register = earlier.register;
        let earlier = earlier.meter;
        let later = later.meter;
        found.push(Difference::Overlap {
            register,
            earlier,
            later,
        })?;
    }
    Ok(())
}

fn append_each(spans: &[MeterSpan], found: &mut Vec<Difference>) -> Result<(), AllocError>
    ensures { OnOk result (found.new.items ≡ found.old.items ++ spanning.overlaps spans.now) }
{
    for (index, span) in spans.iter().enumerate() {
        append_overlap(span, &spans[index + 1..], found)?;
    }
    Ok(())
}

/// Reports each meter that overlaps a later meter of its register. The meters are in the order of
/// their installation.
pub(crate) fn append_overlaps(
    alloc: Global,
    spans: &[MeterSpan],
    findings: &mut Findings,
) -> Result<(), AllocError>
    requires few { length findings.old.first.items ≤ MOST }
    ensures reported { OnOk result
        (IsReported (spanning.overlaps spans.now) findings.old findings.new) }
    ensures few { OnOk result (length findings.new.first.items ≤ MOST) }
{
    let mut found = Vec::new(alloc);
    append_each(spans, &mut found)?;
    findings.append_all(found.as_slice())
}
