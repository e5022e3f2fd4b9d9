//! Finds the slot (the state of a connection) of a device by the device's name, and checks whether
//! the slot has a Modbus session.
ghost use Rattle.std.specs.Prelude.{◌≡◌, ◌<◌, length, IfSome, List, slice_get, is_some};
ghost use Rattle.std.specs.Option.{option_and_then};
ghost use Rattle.office_books.specs.Facts as facts;
ghost use Rattle.office_books.specs.Sessions as sessions;
ghost use Rattle.office_core.specs.Sessions.Keeping.{IsOfKept, KeepsSlots};
ghost use Rattle.office_core.specs.Sessions.Places.{has_slot, place_in};

use crate::sessions::slots::Slot;
use office_events::{Device, Name};

/// Returns true if the device has the given name. Returns false if the given name is invalid.
pub fn is_named(given: &Option<Name>, device: &Device) -> bool
    ensures { result ≡ facts.is_named given.now device.now.name }
{
    match given {
        None => false,
        Some(name) => name.as_bytes() == device.name.as_bytes(),
    }
}

/// Returns the index of the first slot (a device with its connection) whose device has the given
/// name.
fn position_of(slots: &[Slot], given: &Option<Name>) -> Option<usize>
    ensures { result ≡ place_in slots.now given.now }
{
    slots.iter().position(|slot| is_named(given, &slot.device))
}

/// Returns the index of the slot (a device with its connection) whose device has the given name, or
/// `None` if no device has the name.
pub fn place_of(slots: &[Slot], given: &Option<Name>) -> Option<usize>
    ensures inside { IfSome result (λ i. i < length slots.now) }
    ensures there { is_some result ≡ has_slot slots.now given.now }
    ensures found { (kept : List sessions.Slot) → KeepsSlots slots.now kept
        → sessions.slot_of kept given.now ≡ option_and_then (slice_get kept) result }
{
    position_of(slots, given)
}

/// Returns true if the device of a slot (a device with its connection) has the given name.
pub fn has_device(slots: &[Slot], given: &Option<Name>) -> bool
    ensures { IsOfKept slots.now result (λ stood. is_some (sessions.slot_of stood given.now)) }
{
    place_of(slots, given).is_some()
}

/// Returns true if a device with the name is connected.
pub fn is_connected(slots: &[Slot], given: &Option<Name>) -> bool
    ensures { IsOfKept slots.now result (λ stood. is_some (sessions.present_of stood given.now)) }
{
    match place_of(slots, given) {
        None => false,
        Some(place) => slots[place].session.is_some(),
    }
}
