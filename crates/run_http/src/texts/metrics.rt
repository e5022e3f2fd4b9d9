//! Formats the counts, the devices and the open meters as `/metrics`, in Prometheus's text format.
ghost use Rattle.std.specs.Prelude.{◌≡◌, OnOk};
ghost use Rattle.run_http.specs.Texts.MetricsText as metrics;

use crate::status::{Counts, DeviceState, append_bytes, append_name, write_number};
use crate::texts::energy_lines::write_meters;
use crate::texts::families::{MetricKind, write_family, write_next_family};
use office_core::SiteRow;
use std::alloc::AllocError;

fn write_outcomes(text: &mut Vec<u8>, counts: &Counts) -> Result<(), AllocError>
    ensures { OnOk result (text.new.items ≡ metrics.with_outcomes text.old.items counts.now) }
{
    write_family(
        text,
        b"sunreg_polls_total",
        b"Polls that ended, by outcome.",
        MetricKind::Counter,
    )?;
    write_number(
        text,
        b"\nsunreg_polls_total{outcome=\"answered\"} ",
        counts.answered,
    )?;
    write_number(
        text,
        b"\nsunreg_polls_total{outcome=\"exception\"} ",
        counts.exceptions,
    )?;
    write_number(
        text,
        b"\nsunreg_polls_total{outcome=\"silent\"} ",
        counts.silent,
    )?;
    write_number(
        text,
        b"\nsunreg_polls_total{outcome=\"malformed\"} ",
        counts.malformed,
    )?;
    write_number(
        text,
        b"\nsunreg_polls_total{outcome=\"lost\"} ",
        counts.lost,
    )
}

fn write_readings(text: &mut Vec<u8>, counts: &Counts) -> Result<(), AllocError>
    ensures { OnOk result (text.new.items ≡ metrics.with_readings text.old.items counts.now) }
{
    write_next_family(
        text,
        b"sunreg_readings_total",
        b"Readings that were accepted.",
        MetricKind::Counter,
    )?;
    write_number(text, b"\nsunreg_readings_total ", counts.readings)?;
    write_next_family(
        text,
        b"sunreg_refusals_total",
        b"Events of devices that the office refused.",
        MetricKind::Counter,
    )?;
    write_number(text, b"\nsunreg_refusals_total ", counts.refusals)
}

fn write_causes(text: &mut Vec<u8>, held: &[u64; 8]) -> Result<(), AllocError>
    ensures { OnOk result (text.new.items ≡ metrics.with_causes text.old.items held.now) }
{
    write_next_family(
        text,
        b"sunreg_held_readings_total",
        b"Readings that were held, by cause.",
        MetricKind::Counter,
    )?;
    write_number(
        text,
        b"\nsunreg_held_readings_total{cause=\"not_accumulated\"} ",
        held[0],
    )?;
    write_number(
        text,
        b"\nsunreg_held_readings_total{cause=\"scale_changed\"} ",
        held[1],
    )?;
    write_number(
        text,
        b"\nsunreg_held_readings_total{cause=\"not_later\"} ",
        held[2],
    )?;
    write_number(
        text,
        b"\nsunreg_held_readings_total{cause=\"span_too_long\"} ",
        held[3],
    )?;
    write_number(
        text,
        b"\nsunreg_held_readings_total{cause=\"gap_too_long\"} ",
        held[4],
    )?;
    write_number(
        text,
        b"\nsunreg_held_readings_total{cause=\"too_fast\"} ",
        held[5],
    )?;
    write_number(
        text,
        b"\nsunreg_held_readings_total{cause=\"total_full\"} ",
        held[6],
    )?;
    write_number(
        text,
        b"\nsunreg_held_readings_total{cause=\"not_below_range\"} ",
        held[7],
    )
}

fn write_state(text: &mut Vec<u8>, connected: bool) -> Result<(), AllocError>
    ensures { OnOk result (text.new.items ≡ metrics.with_state text.old.items connected) }
{
    if connected {
        append_bytes(text, b"\"} 1")
    } else {
        append_bytes(text, b"\"} 0")
    }
}

fn write_states(text: &mut Vec<u8>, devices: &[DeviceState]) -> Result<(), AllocError>
    ensures { OnOk result (text.new.items ≡ metrics.with_states text.old.items devices.now) }
{
    for device in devices {
        append_name(text, b"\nsunreg_device_connected{device=\"", device)?;
        write_state(text, device.connected)?;
    }
    Ok(())
}

fn write_moment(text: &mut Vec<u8>, device: &DeviceState) -> Result<(), AllocError>
    ensures { OnOk result (text.new.items
        ≡ metrics.with_moment text.old.items device.now device.now.latest) }
{
    match device.latest {
        Some(moment) => {
            append_name(
                text,
                b"\nsunreg_last_reading_timestamp_seconds{device=\"",
                device,
            )?;
            write_number(text, b"\"} ", moment)
        }
        None => Ok(()),
    }
}

fn write_moments(text: &mut Vec<u8>, devices: &[DeviceState]) -> Result<(), AllocError>
    ensures { OnOk result (text.new.items ≡ metrics.with_moments text.old.items devices.now) }
{
    for device in devices {
        write_moment(text, device)?;
    }
    Ok(())
}

fn write_devices(text: &mut Vec<u8>, devices: &[DeviceState]) -> Result<(), AllocError>
    ensures { OnOk result (text.new.items ≡ metrics.with_devices text.old.items devices.now) }
{
    write_next_family(
        text,
        b"sunreg_device_connected",
        b"Whether a round of a device goes on.",
        MetricKind::Gauge,
    )?;
    write_states(text, devices)?;
    write_next_family(
        text,
        b"sunreg_last_reading_timestamp_seconds",
        b"When the latest reading of a device was accepted.",
        MetricKind::Gauge,
    )?;
    write_moments(text, devices)?;
    append_bytes(text, b"\n")
}

/// Appends all metrics. The energy of meters is in Wh with three decimals, since the store has it
/// in mWh. If memory runs out, only a part of the text was appended.
pub fn write_metrics(
    text: &mut Vec<u8>,
    counts: &Counts,
    devices: &[DeviceState],
    rows: &[SiteRow],
) -> Result<(), AllocError>
    ensures { OnOk result (text.new.items
        ≡ metrics.with_metrics text.old.items counts.now devices.now rows.now) }
{
    write_outcomes(text, counts)?;
    write_readings(text, counts)?;
    write_causes(text, &counts.held)?;
    write_devices(text, devices)?;
    write_meters(text, rows)
}
