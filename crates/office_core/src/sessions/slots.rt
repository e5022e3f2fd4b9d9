//! The slot of a device: the device, and while it is connected, its session (the state of the
//! connection).
ghost use Rattle.std.specs.Prelude.{◌≡◌, true};
ghost use Rattle.office_core.specs.Sessions.Idle.{is_idle};

use office_events::Device;
use poll_core::Session;

/// A device, with its session (the state of the connection) while the device is connected.
#[derive(Drop)]
pub struct Slot {
    pub device: Device,
    pub session: Option<Session>,
    ghost idle: { is_idle session ≡ true },
}
