//! Formats the energy of the open meters as metrics, in Prometheus's text format.
ghost use Rattle.std.specs.Prelude.{◌≡◌, ℕ, ◌%◌, ◌++◌, negsuc, false, OnOk};
ghost use Rattle.std.specs.Fmt.{digit_glyph};
ghost use Rattle.sun_points.specs.Decimal.{low_digits, magnitude_text};
ghost use Rattle.run_http.specs.Texts.EnergyLines as energy;

use crate::status::{append_bytes, write_number};
use crate::texts::families::{MetricKind, write_family, write_next_family};
use office_core::SiteRow;
use office_events::{Installation, Name};
use std::alloc::AllocError;

// Appends a byte of a Prometheus label's value, escaped if necessary.
fn write_label_byte(text: &mut Vec<u8>, byte: u8) -> Result<(), AllocError>
    ensures { OnOk result (text.new.items ≡ text.old.items ++ energy.label_byte byte) }
{
    match byte {
        b'\\' => append_bytes(text, b"\\\\"),
        b'"' => append_bytes(text, b"\\\""),
        b'\n' => append_bytes(text, b"\\n"),
        _ => append_bytes(text, &[byte]),
    }
}

// Appends to a text the bytes `before` and the value of a Prometheus label.
fn write_label(text: &mut Vec<u8>, before: &[u8], value: &Name) -> Result<(), AllocError>
    ensures { OnOk result (text.new.items
        ≡ energy.with_label text.old.items before.now value.now) }
{
    append_bytes(text, before)?;
    for &byte in value.as_bytes() {
        write_label_byte(text, byte)?;
    }
    Ok(())
}

// Appends to a text the bytes `before` and the three labels of a meter's metric: meter, register
// and device.
fn write_labels(
    text: &mut Vec<u8>,
    before: &[u8],
    row: &SiteRow,
    meter: &Installation,
) -> Result<(), AllocError>
    ensures { OnOk result (text.new.items
        ≡ energy.with_labels text.old.items before.now row.now meter.now) }
{
    write_label(text, before, &meter.opening.meter)?;
    write_label(text, b"\",register=\"", &row.register.name)?;
    write_label(text, b"\",device=\"", &row.register.device)
}

fn last_digit(number: u64) -> u8
    ensures { result ≡ digit_glyph false (number % 10) }
{
    b'0' + (number % 10) as u8
}

// Returns the last three digits of a number.
fn last_digits(number: u64) -> [u8; 3]
    ensures { result ≡ low_digits 10 3 number }
{
    [
        last_digit(number / 100),
        last_digit(number / 10),
        last_digit(number),
    ]
}

// Appends to a text the bytes `before`, and a number divided by 1,000 with three decimals.
fn write_thousandth(text: &mut Vec<u8>, before: &[u8], number: u64) -> Result<(), AllocError>
    ensures { OnOk result (text.new.items
        ≡ text.old.items ++ before.now ++ magnitude_text number (negsuc 2)) }
{
    write_number(text, before, number / 1000)?;
    append_bytes(text, b".")?;
    append_bytes(text, &last_digits(number))
}

fn write_energy(text: &mut Vec<u8>, row: &SiteRow, meter: &Installation) -> Result<(), AllocError>
    ensures { OnOk result (text.new.items
        ≡ energy.with_energy text.old.items row.now meter.now) }
{
    write_labels(
        text,
        b"\nsunreg_energy_watthours_total{meter=\"",
        row,
        meter,
    )?;
    write_thousandth(text, b"\"} ", meter.total)
}

fn write_entry(text: &mut Vec<u8>, row: &SiteRow, meter: &Installation) -> Result<(), AllocError>
    ensures { OnOk result (text.new.items ≡ energy.with_entry text.old.items row.now meter.now) }
{
    write_labels(
        text,
        b"\nsunreg_last_entry_timestamp_seconds{meter=\"",
        row,
        meter,
    )?;
    write_number(text, b"\"} ", meter.last.at)
}

// Appends the energy metric of the latest meter of an accounting register (a named energy counter),
// if the meter is open.
fn write_energy_of(text: &mut Vec<u8>, row: &SiteRow) -> Result<(), AllocError>
    ensures { OnOk result (text.new.items
        ≡ energy.with_energy_of text.old.items row.now row.now.meter) }
{
    match &row.meter {
        Some(meter) if !meter.ended => write_energy(text, row, meter),
        _ => Ok(()),
    }
}

// Appends the metric with the time of the last entry of an accounting register's latest meter, if
// the meter is open.
fn write_entry_of(text: &mut Vec<u8>, row: &SiteRow) -> Result<(), AllocError>
    ensures { OnOk result (text.new.items
        ≡ energy.with_entry_of text.old.items row.now row.now.meter) }
{
    match &row.meter {
        Some(meter) if !meter.ended => write_entry(text, row, meter),
        _ => Ok(()),
    }
}

fn write_energies(text: &mut Vec<u8>, rows: &[SiteRow]) -> Result<(), AllocError>
    ensures { OnOk result (text.new.items ≡ energy.with_energies text.old.items rows.now) }
{
    for row in rows {
        write_energy_of(text, row)?;
    }
    Ok(())
}

fn write_entries(text: &mut Vec<u8>, rows: &[SiteRow]) -> Result<(), AllocError>
    ensures { OnOk result (text.new.items ≡ energy.with_entries text.old.items rows.now) }
{
    for row in rows {
        write_entry_of(text, row)?;
    }
    Ok(())
}

/// Appends the energy metrics of the open meters, and the time of each meter's last entry. If
/// memory runs out, only a part of the text was appended.
pub(crate) fn write_meters(text: &mut Vec<u8>, rows: &[SiteRow]) -> Result<(), AllocError>
    ensures { OnOk result (text.new.items ≡ energy.with_meters text.old.items rows.now) }
{
    write_family(
        text,
        b"sunreg_energy_watthours_total",
        b"Energy of a meter that is open.",
        MetricKind::Counter,
    )?;
    write_energies(text, rows)?;
    write_next_family(
        text,
        b"sunreg_last_entry_timestamp_seconds",
        b"Moment of the last entry of a meter.",
        MetricKind::Gauge,
    )?;
    write_entries(text, rows)?;
    append_bytes(text, b"\n")
}
