//! Parses the body of a request into a command.
ghost use Rattle.std.specs.Prelude.{◌≡◌};
ghost use Rattle.serde_json.specs.View.{view};
ghost use Rattle.office_http.specs.Messages.Commands.Commands.{command_of};
ghost use Rattle.office_http.specs.Messages.Commands.Few.{HasFewRows};
ghost use Rattle.office_http.specs.Messages.Commands.Given.{Gives, IsBody, IsListBody};

use crate::messages::Route;
use crate::messages::commands::fault::CommandFault;
use crate::messages::commands::json::{Body, BodyFault, body_of};
use crate::messages::commands::registers::{
    close, exchange, install, manual, rescale, reset, void,
};
use crate::messages::commands::setup::{add_device, add_register};
use office_events::{Command, Name, PlannedList, PutList};
use point_list::{ListFault, PointList, read_list};
use std::alloc::Global;

fn command_of(route: Route, name: Option<Name>, body: &Body) -> Result<Command, BodyFault>
    ensures { result ≡ command_of route name (view body.now) }
{
    match route {
        Route::Devices => add_device(body),
        Route::Registers => add_register(body),
        Route::Install => install(name, body),
        Route::Exchange => exchange(name, body),
        Route::Reset => reset(name, body),
        Route::Rescale => rescale(name, body),
        Route::Manual => manual(name, body),
        Route::Close => close(name, body),
        Route::Void => void(name, body),
        Route::List | Route::Days | Route::Meter | Route::Intervals | Route::Poll => {
            Err(BodyFault::Malformed)
        }
    }
}

fn json_command(
    alloc: Global,
    route: Route,
    name: Option<Name>,
    bytes: &[u8],
) -> Result<Command, CommandFault>
    ensures given { IsBody route name bytes.now result }
    ensures few { HasFewRows result }
{
    match body_of(alloc, bytes) {
        Ok(body) => match command_of(route, name, &body) {
            Ok(command) => Ok(command),
            Err(fault) => Err(CommandFault::from(fault)),
        },
        Err(fault) => Err(CommandFault::from(fault)),
    }
}

// Parses a point list (CSV rows with the registers to poll) into the command that stores the list.
// The command includes the reading plan, which is the Modbus reads that cover the list.
fn put_list(alloc: Global, device: Option<Name>, bytes: &[u8]) -> Result<Command, CommandFault>
    ensures given { IsListBody device bytes.now result }
    ensures few { HasFewRows result }
{
    match read_list(alloc, bytes) {
        Ok(points) => match PlannedList::new(alloc, points) {
            Ok(list) => Ok(Command::PutList(PutList { device, list })),
            Err(_) => Err(CommandFault::Memory),
        },
        Err(ListFault::Faults(rows)) => Err(CommandFault::Faulty(rows)),
        Err(ListFault::Memory) => Err(CommandFault::Memory),
    }
}

/// Parses the body of a request into a command.
///
/// `name` is the route's parameter, if it is a valid name. The body for [`Route::List`] is CSV; the
/// body for any other command is one JSON object. Unknown members are ignored. For the route of a
/// query the result is `Malformed`.
pub fn command_in(
    alloc: Global,
    route: Route,
    name: Option<Name>,
    bytes: &[u8],
) -> Result<Command, CommandFault>
    ensures given { Gives route name bytes.now result }
    ensures few { HasFewRows result }
{
    match route {
        Route::List => put_list(alloc, name, bytes),
        Route::Devices
        | Route::Registers
        | Route::Install
        | Route::Exchange
        | Route::Reset
        | Route::Rescale
        | Route::Manual
        | Route::Close
        | Route::Void
        | Route::Days
        | Route::Meter
        | Route::Intervals
        | Route::Poll => json_command(alloc, route, name, bytes),
    }
}
