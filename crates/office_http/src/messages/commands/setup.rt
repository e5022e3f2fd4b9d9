//! Parses the commands that add devices and accounting registers (named energy counters), from JSON
//! bodies.
ghost use Rattle.std.specs.Prelude.{◌≡◌};
ghost use Rattle.serde_json.specs.View.{view};
ghost use Rattle.office_http.specs.Messages.Commands.Json.Tables.{device_members, fault_of, register_fault};
ghost use Rattle.office_http.specs.Messages.Commands.Commands.{add_device, add_register, unless_fault};

use crate::messages::commands::json::{Body, BodyFault, device_in, register_in};
use crate::messages::commands::values::{given_scale, name};
use office_events::{AddDevice, AddRegister, Command};

// Parses the command that adds a device.
pub(crate) fn add_device(body: &Body) -> Result<Command, BodyFault>
    ensures { result ≡ unless_fault (fault_of device_members (view body.now))
        (add_device (view body.now)) }
{
    let device = device_in(body)?;
    Ok(Command::AddDevice(AddDevice {
        name: name(device.name),
        unit: device.unit,
        timeout: device.timeout,
        window: device.window,
    }))
}

// Parses the command that adds an accounting register, a named energy counter of a device.
pub(crate) fn add_register(body: &Body) -> Result<Command, BodyFault>
    ensures { result ≡ unless_fault (register_fault (view body.now))
        (add_register (view body.now)) }
{
    let register = register_in(body)?;
    Ok(Command::AddRegister(AddRegister {
        name: name(register.name),
        device: name(register.device),
        function: register.function,
        address: register.address,
        scale: given_scale(register.scale),
    }))
}
