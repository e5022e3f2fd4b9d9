//! A buffer for the request frames that the program sends to a device.
use std::marker::Model;

/// A buffer of at most 260 bytes for request frames, which are sent to a device. The frames of 16
/// reads need 192 bytes.
#[derive(Drop)]
pub struct Outgoing {
    bytes: [u8; 260],
    len: usize,
}

impl Model for Outgoing {
    ghost use Rattle.std.specs.Prelude.{◌≡◌, ℕ, ◌≤◌, List, length, take};

    ghost Value = { List ℕ };

    ghost view = { λ o. take o.len o.bytes };

    ghost invariant = { λ o. (o.len ≤ 260) × (length o.bytes ≡ 260) };
}

impl Outgoing {
    ghost use Rattle.std.specs.Prelude.{◌≡◌, ◌≤◌, ◌+◌, ◌++◌, [], length, take};

    /// Creates an empty buffer for request frames.
    pub fn none() -> Outgoing
        ensures { result ≡ [] }
    {
        Outgoing {
            bytes: [0; 260],
            len: 0,
        }
    }

    /// Appends the bytes of a Modbus request frame to the buffer of the frames that are to be sent.
    /// The buffer has room for 260 bytes.
    pub(crate) fn add(&mut self, frame: &[u8])
        requires { length self.old + length frame.now ≤ 260 }
        ensures { self.new ≡ self.old ++ frame.now }
    {
        let end = self.len + frame.len();
        self.bytes[self.len..end].copy_from_slice(frame);
        self.len = end;
    }

    /// Returns the bytes of all Modbus request frames that the output buffer has collected.
    pub fn as_slice(&self) -> &[u8]
        ensures { result.now ≡ self.now }
    {
        &self.bytes[..self.len]
    }
}
