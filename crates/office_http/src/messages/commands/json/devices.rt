//! Reads the JSON bodies that add devices and accounting registers (named energy counters).
ghost use Rattle.serde_json.specs.View.{view};
ghost use Rattle.office_http.specs.Messages.Commands.Json.Members.{Reads};
ghost use Rattle.office_http.specs.Messages.Commands.Json.Tables.{device_members, fault_of, register_fault, scale_fault};
ghost use Rattle.office_http.specs.Messages.Commands.Json.Commands.{IsDevice, IsRegister, IsScale};

use crate::messages::commands::json::body::{Body, BodyFault};
use crate::messages::commands::json::members::{has_member, natural, text, whole};

/// The values in the JSON body that adds a device.
#[derive(Clone, Copy)]
pub struct DeviceBody<'b> {
    pub name: &'b str,
    pub unit: u64,
    pub timeout: u64,
    pub window: u64,
}

/// The source of the scale exponent of an accounting register (a named energy counter).
#[derive(Clone, Copy, PartialEq, Eq)]
pub enum Scale {
    /// The scale exponent is the fixed number in the JSON member `fixed`.
    Fixed(i64),
    /// The scale exponent is read from the device, at the Modbus address in the member `scale_at`.
    At(u64),
}

/// The values in the JSON body that adds an accounting register (a named energy counter).
#[derive(Clone, Copy)]
pub struct RegisterBody<'b> {
    pub name: &'b str,
    pub device: &'b str,
    pub function: u64,
    pub address: u64,
    pub scale: Scale,
}

/// Reads the JSON body that adds a device.
pub fn device_in(body: &Body) -> Result<DeviceBody<'_>, BodyFault>
    ensures { Reads (fault_of device_members (view body.now)) (IsDevice (view body.now)) result }
{
    let name = text(body, "name")?;
    let unit = whole(body, "unit")?;
    let timeout = whole(body, "timeout")?;
    let window = whole(body, "window")?;
    Ok(DeviceBody {
        name,
        unit: natural(unit)?,
        timeout: natural(timeout)?,
        window: natural(window)?,
    })
}

// Reads the scale of an accounting register (energy counter). Exactly one of the members `fixed`
// and `scale_at` must exist.
fn scale_in(body: &Body) -> Result<Scale, BodyFault>
    ensures { Reads (scale_fault (view body.now)) (IsScale (view body.now)) result }
{
    let is_fixed = has_member(body, "fixed");
    if is_fixed == has_member(body, "scale_at") {
        return Err(BodyFault::Malformed);
    }
    if is_fixed {
        return Ok(Scale::Fixed(whole(body, "fixed")?));
    }
    let address = whole(body, "scale_at")?;
    Ok(Scale::At(natural(address)?))
}

/// Reads the JSON body that adds an accounting register (a named energy counter).
pub fn register_in(body: &Body) -> Result<RegisterBody<'_>, BodyFault>
    ensures { Reads (register_fault (view body.now)) (IsRegister (view body.now)) result }
{
    let name = text(body, "name")?;
    let device = text(body, "device")?;
    let function = whole(body, "function")?;
    let address = whole(body, "address")?;
    match scale_in(body) {
        Err(BodyFault::Malformed) => Err(BodyFault::Malformed),
        scale => Ok(RegisterBody {
            name,
            device,
            function: natural(function)?,
            address: natural(address)?,
            scale: scale?,
        }),
    }
}
