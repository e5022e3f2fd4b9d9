//! Builds the records of commands that add devices, point lists (the Modbus registers to read) and
//! accounting registers (named energy counters).
ghost use Rattle.std.specs.Prelude.{◌≡◌, false, IfOk, Option};
ghost use Rattle.office_events.specs.declared.commands.Command.TheVariants as command;
ghost use Rattle.office_books.specs.Sessions as sessions;
ghost use Rattle.office_books.specs.History as history;
ghost use Rattle.office_books.specs.Refusals.{asks_bad_field, asks_bad_scale};
ghost use Rattle.office_core.specs.Commands.Adding as adding;

use mb_wire::ReadFunction;
use office_events::{
    AddDevice, AddRegister, Device, DeviceList, Fact, GivenScale, Name, PlannedList, PutList,
    Register, ScaleSource, Timeout, Window,
};
use std::alloc::AllocError;

/// Returns the device that a command adds, or `None` if its name is invalid.
pub fn device_by(add: &AddDevice) -> Option<Device>
    requires { asks_bad_field 0 (command.AddDevice add.now) ≡ false }
    ensures { result ≡ sessions.device_by add.now }
{
    Some(Device {
        name: add.name?,
        unit: add.unit as u8,
        timeout: Timeout::new(add.timeout)?,
        window: Window::new(add.window)?,
    })
}

/// Returns the record of the point list (the Modbus registers to read) that a command sets, or
/// `None` if the device's name is invalid.
pub fn list_by(put: &PutList) -> Result<Option<Fact>, AllocError>
    ensures { IfOk result (λ added. added ≡ adding.list_by put.now) }
{
    let Some(device) = put.device else {
        return Ok(None);
    };
    let list = put.list.clone()?;
    Ok(Some(Fact::List(DeviceList { device, list })))
}

fn function_by(function: u64) -> ReadFunction
    ensures { result ≡ history.function_by function }
{
    if function == 3 {
        ReadFunction::HoldingRegisters
    } else {
        ReadFunction::InputRegisters
    }
}

/// Returns the record of the accounting register (a named energy counter) that a command adds, or
/// `None` if a name is invalid.
pub fn register_by(add: &AddRegister) -> Option<Fact>
    requires field { asks_bad_field 0 (command.AddRegister add.now) ≡ false }
    requires scale { asks_bad_scale (command.AddRegister add.now) ≡ false }
    ensures { result ≡ adding.register_by add.now }
{
    let scale = match add.scale {
        GivenScale::Fixed(sf) => ScaleSource::Fixed(sf as i16),
        GivenScale::Register(address) => ScaleSource::Register(address as u16),
    };
    Some(Fact::Register(Register {
        name: add.name?,
        device: add.device?,
        function: function_by(add.function),
        address: add.address as u16,
        scale,
    }))
}
