//! The events of the devices that an office (the event engine) polls, as input of the function
//! `turn` (which processes one device event).
use office_events::Piece;
use poll_core::Closing;

/// An event of the device in a slot (a table index), or a timer event. An event for an empty slot
/// has no effect.
#[derive(Drop)]
pub enum DeviceEvent {
    /// The device in the slot (table index) has connected.
    Connected(usize),
    /// Bytes arrived from the device in the slot (table index).
    Received(usize, Piece),
    /// The connection to the device in the slot (table index) has ended, or the program closes this
    /// connection.
    Closed(usize, Closing),
    /// A timer event: a second has passed.
    Tick,
}
