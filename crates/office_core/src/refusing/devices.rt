//! Finds the reason to refuse a new device or a device's point list (the Modbus registers to read).
ghost use Rattle.std.specs.Prelude.{◌≡◌, List, nat_le, length};
ghost use Rattle.office_events.specs.declared.commands.Command.TheVariants as command;
ghost use Rattle.office_events.specs.declared.facts.Fact.{Fact};
ghost use Rattle.office_books.specs.Refusals.{device_limit};
ghost use Rattle.office_core.specs.Sessions.Keeping.{IsOfKept};
ghost use Rattle.office_core.specs.Refusing.Reasons.{IsWhyAmong, Befits};

use crate::refusing::arrivals::Arrival;
use crate::refusing::limits::is_bad_device;
use crate::{Slot, has_device};
use office_events::{AddDevice, MAX_DEVICES, PutList, Refusal};

/// Returns true if the program already has the maximum number of devices.
fn are_all(slots: &[Slot]) -> bool
    ensures { IsOfKept slots.now result (λ stood. nat_le device_limit (length stood)) }
{
    MAX_DEVICES <= slots.len()
}

/// Returns the first reason to refuse a new device, or `None` if no reason applies.
pub fn add_device(slots: &[Slot], arrival: &Arrival, device: &AddDevice) -> Option<Refusal>
    ensures found { (known : List Fact)
        → IsWhyAmong slots.now arrival.now (command.AddDevice device.now) known result }
    ensures befits { Befits arrival.now (command.AddDevice device.now) result }
{
    if has_device(slots, &device.name) {
        return Some(Refusal::Exists);
    }
    if arrival.is_back {
        return Some(Refusal::ClockBack);
    }
    if arrival.is_beyond || is_bad_device(arrival.moment, device) || are_all(slots) {
        return Some(Refusal::Limit);
    }
    None
}

/// Returns the first reason to refuse a point list (the Modbus registers to read), or `None` if no
/// reason applies.
pub fn put_list(slots: &[Slot], arrival: &Arrival, put: &PutList) -> Option<Refusal>
    ensures found { (known : List Fact)
        → IsWhyAmong slots.now arrival.now (command.PutList put.now) known result }
    ensures befits { Befits arrival.now (command.PutList put.now) result }
{
    if !has_device(slots, &put.device) {
        return Some(Refusal::NotFound);
    }
    if arrival.is_back {
        return Some(Refusal::ClockBack);
    }
    if arrival.is_beyond {
        return Some(Refusal::Limit);
    }
    None
}
