//! Defines the slot of a device, which has the state of the connection (the session) while the
//! device is connected. Finds slots by device name.

mod places;
mod slots;

pub use places::{has_device, is_connected, is_named, place_of};
pub use slots::Slot;
