//! Events that the program processes: input of devices, timer events and commands.
use crate::commands::Command;
use crate::names::Name;
use poll_core::Closing;
use std::marker::Model;

/// A byte string: bytes received from a device, or the text of a request with an idempotency key.
#[derive(Clone, Drop)]
pub struct Piece {
    bytes: Vec<u8>,
}

impl Model for Piece {
    ghost use Rattle.std.specs.Prelude.{ℕ, List};

    ghost Value = { List ℕ };

    ghost view = { λ p. p.bytes.items };
}

impl Piece {
    ghost use Rattle.std.specs.Prelude.{◌≡◌};

    /// Creates a byte string that owns the given bytes.
    pub fn new(bytes: Vec<u8>) -> Piece
        ensures { result ≡ bytes.items }
    {
        Piece { bytes }
    }

    /// Returns the bytes of the byte string as a slice.
    pub fn as_slice(&self) -> &[u8]
        ensures { result.now ≡ self.now }
    {
        &self.bytes
    }
}

/// A command with an idempotency key: the caller's name and a number that the caller chose. The
/// program executes the command once, and stores its answer with the request's bytes.
#[derive(Drop)]
pub struct Asked {
    pub caller: Option<Name>,
    /// The number in the idempotency key, 0 to 9,223,372,036,854,775,807.
    pub number: u64,
    pub request: Piece,
    pub command: Command,
}

/// An event that the program processes. A device name is `None` if the given text is not a valid
/// name.
#[derive(Drop)]
pub enum Event {
    /// A connection to the device was opened.
    Connected(Option<Name>),
    /// Bytes arrived from the device.
    Bytes(Option<Name>, Piece),
    /// A timer event: no input arrived before the time of this event.
    Tick,
    /// The connection to the device ended.
    Gone(Option<Name>, Closing),
    /// A command without an idempotency key.
    Command(Command),
    /// A command with an idempotency key.
    Asked(Asked),
}
