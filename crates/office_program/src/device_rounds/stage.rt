//! The stages of a device's polling round, from its connection to its end.
use poll_core::Closing;

/// The stage of a polling round, which determines the event that the round generates next.
#[derive(Clone, Copy, PartialEq, Eq)]
pub enum Stage {
    /// The device is not connected. Its polling round generates no event.
    Off,
    /// The device is connected. Its polling round generates the event `Connected` next.
    Joining,
    /// Modbus reads of the device's plan remain. The polling round generates the command that
    /// starts these reads.
    Starting,
    /// The polling round waits for responses of the device, and generates no event.
    Waiting,
    /// The device is disconnected, or its polling round has ended. The round generates the event
    /// `Gone` next.
    Leaving(Closing),
}

impl Stage {
    ghost use Rattle.std.specs.Prelude.{◌≡◌};
    ghost use Rattle.office_program.specs.DeviceRounds.Stages as stages;

    /// Returns true if a polling round at this stage generates an event for the event engine.
    pub fn has_request(self) -> bool
        ensures { result ≡ stages.has_request self }
    {
        match self {
            Stage::Off => false,
            Stage::Joining => true,
            Stage::Starting => true,
            Stage::Waiting => false,
            Stage::Leaving(_) => true,
        }
    }

    /// Returns the stage of a polling round after the connection to its device has ended with the
    /// cause `closing`. If the round was already ending, its earlier cause is kept.
    pub fn left(self, closing: Closing) -> Stage
        ensures { result ≡ stages.left closing self }
    {
        match self {
            Stage::Off => Stage::Off,
            Stage::Joining => Stage::Off,
            Stage::Starting => Stage::Leaving(closing),
            Stage::Waiting => Stage::Leaving(closing),
            Stage::Leaving(before) => Stage::Leaving(before),
        }
    }
}
