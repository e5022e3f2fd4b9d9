//! Parses a list of devices in an option's value.
ghost use Rattle.std.specs.Prelude.{◌≡◌, ◌<◌, ◌≤◌, IfOk, MatchResult, is_ok, length, option_map};
ghost use Rattle.std.specs.List.{slice_split};
ghost use Rattle.command_words.specs.Values.Devices.{CutsAtEquals, CutsAtLastColon, device_in, devices_in};
ghost use Rattle.command_words.specs.Values.Devices.{has_name, have_distinct_names, is_comma, name_in};
ghost use Rattle.command_words.specs.Values.Devices.{Reads, place_of, texts};
ghost use Rattle.command_words.specs.Values.Given.{each_of};

use crate::values::list_fault::{DeviceFault, ListFault};
use crate::values::numbers::number_up_to;
use std::alloc::{AllocError, Global};

/// The maximum number of devices in the list of a command-line option such as `--devices`.
pub const MOST_DEVICES: usize = 64;

/// The highest TCP port number.
pub const MOST_PORT: u32 = 65_535;

/// A device `NAME=HOST:PORT` of a list. The texts are as the user wrote them.
#[derive(Clone, Copy, Debug, Drop)]
pub struct Device<'a> {
    pub name: &'a str,
    pub host: &'a str,
    pub port: u16,
}

// Splits a part `NAME=HOST:PORT` of a device list at its first `=`.
fn around_equals<'a>(part: &'a str) -> Option<(&'a str, &'a str)>
    ensures { CutsAtEquals part.now result }
{
    part.split_once('=')
}

// Splits an address `HOST:PORT` at its last `:`.
fn around_colon<'a>(address: &'a str) -> Option<(&'a str, &'a str)>
    ensures { CutsAtLastColon address.now result }
{
    address.rsplit_once(':')
}

// Parses a part `NAME=HOST:PORT` of a device list.
fn device_in<'a>(part: &'a str) -> Option<Device<'a>>
    ensures { option_map place_of result ≡ device_in part.now }
{
    let (name, address) = around_equals(part)?;
    let (host, port) = around_colon(address)?;
    if name.is_empty() || host.is_empty() {
        return None;
    }
    let port = number_up_to(MOST_PORT, port)?;
    Some(Device {
        name,
        host,
        port: port as u16,
    })
}

// Splits a device list at its commas.
fn parts_of<'a>(alloc: Global, text: &'a str) -> Result<Vec<&'a str>, AllocError>
    ensures { IfOk result (λ parts. texts parts.items ≡ slice_split is_comma text.now) }
{
    text.split(',').collect(alloc)
}

// Returns the device name in a part `NAME=HOST:PORT` of a device list, even if the part is
// otherwise invalid.
fn name_of<'a>(part: &'a str) -> &'a str
    ensures { result.now ≡ name_in part.now }
{
    match around_equals(part) {
        Some((name, _)) => name,
        None => part,
    }
}

// Returns whether one of the parts of a device list has the device name `name`.
fn has_name(parts: &[&str], name: &str) -> bool
    ensures { result ≡ has_name parts.now name.now }
{
    parts.iter().any(|part| name == name_of(part))
}

// Checks that all device names in a device list are different. If a name occurs twice, the error
// contains a part of the list with this name.
fn distinct<'a>(parts: &[&'a str]) -> Result<(), ListFault<'a>>
    ensures { is_ok result ≡ have_distinct_names parts.now }
{
    for (index, part) in parts.iter().enumerate() {
        if has_name(&parts[index + 1..], name_of(part)) {
            let fault = DeviceFault::Repeated;
            return Err(ListFault::Part { part, fault });
        }
    }
    Ok(())
}

// Parses each part of a device list.
fn each_device<'a>(alloc: Global, parts: &[&'a str]) -> Result<Vec<Device<'a>>, ListFault<'a>>
    ensures { Reads (each_of device_in (texts parts.now)) result }
{
    let mut devices = Vec::new(alloc);
    for part in parts {
        let Some(device) = device_in(part) else {
            let fault = DeviceFault::Malformed;
            return Err(ListFault::Part { part, fault });
        };
        devices.push(device)?;
    }
    Ok(devices)
}

// Checks that a device list has at most 64 parts. If there are more, the error contains the 65th
// part.
fn few<'a>(parts: &[&'a str]) -> Result<(), ListFault<'a>>
    ensures { MatchResult result (λ _. length parts.now ≤ 64) (λ _. 64 < length parts.now) }
{
    match parts.get(MOST_DEVICES) {
        None => Ok(()),
        Some(part) => {
            let fault = DeviceFault::TooMany;
            Err(ListFault::Part { part, fault })
        }
    }
}

/// Parses a comma-separated list of 1 to 64 devices `NAME=HOST:PORT` with different names. NAME
/// ends at the first `=`, and HOST at the last `:`. Neither may be empty.
///
/// If a device list has several faults, the error is the first of these: more than 64 parts, a
/// repeated name, an invalid part.
pub fn devices_in<'a>(alloc: Global, text: &'a str) -> Result<Vec<Device<'a>>, ListFault<'a>>
    ensures { Reads (devices_in text.now) result }
{
    let parts = parts_of(alloc, text)?;
    few(&parts)?;
    distinct(&parts)?;
    each_device(alloc, &parts)
}
