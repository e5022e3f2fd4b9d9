//! Formats the counts and the device states as the JSON of `/status`.
ghost use Rattle.std.specs.Prelude.{◌≡◌, OnOk};
ghost use Rattle.run_http.specs.Status.Status.StatusText as json;

use crate::status::advice::DeviceLack;
use crate::status::status::counts::Counts;
use crate::status::status::lacking::write_lacks;
use crate::status::status::pieces::{append_bytes, write_number, write_word};
use office_events::Name;
use std::alloc::AllocError;

/// The state of a device: whether it is connected, and the timestamp of its latest accepted reading
/// in seconds since 1970-01-01 UTC.
#[derive(Clone, Copy, PartialEq, Eq)]
pub struct DeviceState {
    pub name: Option<Name>,
    pub connected: bool,
    pub latest: Option<u64>,
}

/// Appends to a text the bytes `before` and the device's name. If the device's name is not valid,
/// appends only `before`.
pub fn append_name(
    text: &mut Vec<u8>,
    before: &[u8],
    device: &DeviceState,
) -> Result<(), AllocError>
    ensures { OnOk result (text.new.items ≡ json.with_name text.old.items before.now device.now) }
{
    match &device.name {
        Some(name) => write_word(text, before, name.as_bytes()),
        None => append_bytes(text, before),
    }
}

fn write_latest(text: &mut Vec<u8>, device: &DeviceState) -> Result<(), AllocError>
    ensures { OnOk result (text.new.items ≡ json.with_latest text.old.items device.now.latest) }
{
    match device.latest {
        Some(moment) => write_number(text, b",\"last_reading\":", moment),
        None => append_bytes(text, b",\"last_reading\":null"),
    }
}

fn write_device(text: &mut Vec<u8>, before: &[u8], device: &DeviceState) -> Result<(), AllocError>
    ensures { OnOk result (text.new.items ≡ json.with_device before.now text.old.items device.now) }
{
    append_name(text, before, device)?;
    if device.connected {
        append_bytes(text, b"\",\"connected\":true")?;
    } else {
        append_bytes(text, b"\",\"connected\":false")?;
    }
    write_latest(text, device)?;
    append_bytes(text, b"}")
}

// Appends device states as JSON, each with a comma before it.
fn write_more_devices(text: &mut Vec<u8>, devices: &[DeviceState]) -> Result<(), AllocError>
    ensures { OnOk result (text.new.items ≡ json.with_more_devices text.old.items devices.now) }
{
    for device in devices {
        write_device(text, b",{\"name\":\"", device)?;
    }
    Ok(())
}

fn write_devices(text: &mut Vec<u8>, devices: &[DeviceState]) -> Result<(), AllocError>
    ensures { OnOk result (text.new.items ≡ json.with_devices text.old.items devices.now) }
{
    match devices {
        [] => Ok(()),
        [first, more @ ..] => {
            write_device(text, b"{\"name\":\"", first)?;
            write_more_devices(text, more)
        }
    }
}

fn write_polls(text: &mut Vec<u8>, counts: &Counts) -> Result<(), AllocError>
    ensures { OnOk result (text.new.items ≡ json.with_polls text.old.items counts.now) }
{
    write_number(text, b"],\"polls\":{\"answered\":", counts.answered)?;
    write_number(text, b",\"exception\":", counts.exceptions)?;
    write_number(text, b",\"silent\":", counts.silent)?;
    write_number(text, b",\"malformed\":", counts.malformed)?;
    write_number(text, b",\"lost\":", counts.lost)?;
    write_number(text, b"},\"readings\":", counts.readings)
}

fn write_held(text: &mut Vec<u8>, held: &[u64; 8]) -> Result<(), AllocError>
    ensures { OnOk result (text.new.items ≡ json.with_held text.old.items held.now) }
{
    write_number(text, b",\"held\":{\"not_accumulated\":", held[0])?;
    write_number(text, b",\"scale_changed\":", held[1])?;
    write_number(text, b",\"not_later\":", held[2])?;
    write_number(text, b",\"span_too_long\":", held[3])?;
    write_number(text, b",\"gap_too_long\":", held[4])?;
    write_number(text, b",\"too_fast\":", held[5])?;
    write_number(text, b",\"total_full\":", held[6])?;
    write_number(text, b",\"not_below_range\":", held[7])
}

/// Appends the JSON of `/status`. If memory runs out, only a part of the JSON was appended.
pub fn write_status(
    text: &mut Vec<u8>,
    counts: &Counts,
    devices: &[DeviceState],
    lacks: &[DeviceLack],
) -> Result<(), AllocError>
    ensures { OnOk result (text.new.items
        ≡ json.with_status text.old.items counts.now devices.now lacks.now) }
{
    append_bytes(text, b"{\"devices\":[")?;
    write_devices(text, devices)?;
    write_polls(text, counts)?;
    write_held(text, &counts.held)?;
    write_number(text, b"},\"refusals\":", counts.refusals)?;
    write_lacks(text, lacks)?;
    append_bytes(text, b"}\n")
}
