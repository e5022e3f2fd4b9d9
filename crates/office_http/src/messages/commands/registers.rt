//! Parses the commands for the meter of an accounting register (a named energy counter), from JSON
//! bodies.
ghost use Rattle.std.specs.Prelude.{◌≡◌};
ghost use Rattle.serde_json.specs.View.{view};
ghost use Rattle.office_http.specs.declared.messages.routing.routes.Route.TheVariants as route;
ghost use Rattle.office_http.specs.Messages.Commands.Commands.{command_of};

use crate::messages::commands::json::{
    Body, BodyFault, close_in, exchange_in, install_in, manual_in, rescale_in, reset_in, void_in,
};
use crate::messages::commands::values::{name, or_full_range};
use office_events::{Close, Command, Exchange, Install, Manual, Name, Rescale, Reset, VoidEntry};

// Parses the command that installs a meter and assigns it to an accounting register (a named energy
// counter).
pub(crate) fn install(register: Option<Name>, body: &Body) -> Result<Command, BodyFault>
    ensures { result ≡ command_of route.Install register (view body.now) }
{
    let given = install_in(body)?;
    Ok(Command::Install(Install {
        register,
        meter: name(given.meter),
        raw: given.raw,
        sf: given.sf,
        ceiling: given.ceiling,
        range: or_full_range(given.range),
    }))
}

// Parses the command that closes a meter and assigns another meter to the same accounting register
// (energy counter).
pub(crate) fn exchange(register: Option<Name>, body: &Body) -> Result<Command, BodyFault>
    ensures { result ≡ command_of route.Exchange register (view body.now) }
{
    let given = exchange_in(body)?;
    Ok(Command::Exchange(Exchange {
        register,
        last: given.last,
        rolls: given.rolls,
        meter: name(given.install.meter),
        raw: given.install.raw,
        sf: given.install.sf,
        ceiling: given.install.ceiling,
        range: or_full_range(given.install.range),
    }))
}

// Parses the command that records a reset of a meter's counter.
pub(crate) fn reset(register: Option<Name>, body: &Body) -> Result<Command, BodyFault>
    ensures { result ≡ command_of route.Reset register (view body.now) }
{
    let given = reset_in(body)?;
    Ok(Command::Reset(Reset {
        register,
        before: given.before,
        after: given.after,
    }))
}

// Parses the command that records a meter's change to another counter value and scale.
pub(crate) fn rescale(register: Option<Name>, body: &Body) -> Result<Command, BodyFault>
    ensures { result ≡ command_of route.Rescale register (view body.now) }
{
    let given = rescale_in(body)?;
    Ok(Command::Rescale(Rescale {
        register,
        before: given.before,
        after: given.after,
        sf: given.sf,
    }))
}

// Parses the command that enters a meter reading by hand.
pub(crate) fn manual(register: Option<Name>, body: &Body) -> Result<Command, BodyFault>
    ensures { result ≡ command_of route.Manual register (view body.now) }
{
    let given = manual_in(body)?;
    Ok(Command::Manual(Manual {
        register,
        raw: given.raw,
        rolls: given.rolls,
        at: given.at,
    }))
}

// Parses the command that closes a meter with its last reading.
pub(crate) fn close(register: Option<Name>, body: &Body) -> Result<Command, BodyFault>
    ensures { result ≡ command_of route.Close register (view body.now) }
{
    let given = close_in(body)?;
    Ok(Command::Close(Close {
        register,
        raw: given.raw,
        rolls: given.rolls,
    }))
}

// Parses the command that voids (cancels) an entry of a meter: the entry was false and no longer
// counts.
pub(crate) fn void(meter: Option<Name>, body: &Body) -> Result<Command, BodyFault>
    ensures { result ≡ command_of route.Void meter (view body.now) }
{
    let given = void_in(body)?;
    Ok(Command::Void(VoidEntry {
        meter,
        place: given.place,
    }))
}
