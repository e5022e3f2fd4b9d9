//! Applies a device event to the slots, which are the devices with their connections.
ghost use Rattle.std.specs.Prelude.{◌≡◌, ℕ, ◌≤◌, [], List, map, Some, OnOk, is_some};
ghost use Rattle.office_books.specs.Facts.{moment_limit};
ghost use Rattle.office_books.specs.Sessions as sessions;
ghost use Rattle.office_books.specs.Sessions.{slot_after};
ghost use Rattle.office_books.specs.History.{settled_by};
ghost use Rattle.office_core.specs.Sessions.Keeping.{KeepsSlot, KeepsSlots};
ghost use Rattle.office_books.specs.Ledgers.{Consults};
ghost use Rattle.office_core.specs.Settling.Drafts.{IsIdle};
ghost use Rattle.office_core.specs.Settling.Settling.{AddsOfSlot, AddsOfSlots, IsSettling, SettleNothing, MayReach, MayReachAll};
ghost use Rattle.office_core.specs.Settling.Settling.{happening_on};

use crate::sessions::{Slot, is_named};
use crate::settling::drafts::PendingWrite;
use crate::settling::sessions::settle_session;
use office_books::{Books, BooksFault};
use office_events::{Device, Event};
use poll_core::Session;

/// Returns true if the event reports a new connection of this device.
fn connects(event: &Event, device: &Device) -> bool
    ensures { result ≡ sessions.connects event.now device.now }
{
    match event {
        Event::Connected(given) => is_named(given, device),
        _ => false,
    }
}

/// Returns true if the event concerns the Modbus session of this device.
fn reaches(event: &Event, device: &Device) -> bool
    ensures { (at : ℕ) → result ≡ is_some (happening_on at event.now device.now) }
{
    match event {
        Event::Bytes(given, _) => is_named(given, device),
        Event::Tick => true,
        Event::Gone(given, _) => is_named(given, device),
        Event::Connected(_) => false,
        Event::Command(_) => false,
        Event::Asked(_) => false,
    }
}

/// Returns a slot (a device with its connection) for a newly connected device, with a new Modbus
/// session.
fn connected(device: &Device) -> Slot
    ensures { KeepsSlot result (record { device = device.now; ended = []; present = Some [] }) }
{
    Slot {
        device: *device,
        session: Some(Session::new(device.timeout.seconds(), device.window.polls())),
    }
}

/// Applies an event to the slot (connection) of a device, if the event concerns this device. If the
/// call fails, the slot has no Modbus session afterwards.
fn settle_slot<B: Books>(
    slot: &mut Slot,
    books: &mut B,
    draft: &mut PendingWrite,
    moment: u64,
    event: &Event,
) -> Result<(), BooksFault>
    requires settling { IsSettling event.now }
    requires limit { moment ≤ moment_limit }
    ensures keeps { (number : ℕ) (stood : sessions.Slot) → MayReach moment slot.old stood
        → OnOk result (KeepsSlot slot.new (slot_after number moment [] event.now stood)) }
    ensures adds { AddsOfSlot (B.ledger books.old) (B.ledger books.new) moment event.now slot.old
        draft.old draft.new result }
    ensures quiet { (number : ℕ) (stood : sessions.Slot) → MayReach moment slot.old stood
        → settled_by number moment event.now stood ≡ []
        → IsIdle result books.old books.new draft.old draft.new }
    ensures reads { Consults (B.ledger books.old) (B.ledger books.new) result }
{
    if connects(event, &slot.device) {
        *slot = connected(&slot.device);
        return Ok(());
    }
    // A Modbus session is large, so the sessions of devices that the event does not concern are not
    // moved in memory.
    if !reaches(event, &slot.device) {
        return Ok(());
    }
    let Some(mut session) = slot.session.take() else {
        return Ok(());
    };
    if settle_session(&mut session, &slot.device, books, draft, moment, event)? {
        slot.session = Some(session);
    }
    Ok(())
}

/// Applies an event to the slot (connection) of each device that the event concerns, in the order
/// of the slots.
pub fn settle_slots<B: Books>(
    slots: &mut [Slot],
    books: &mut B,
    draft: &mut PendingWrite,
    moment: u64,
    event: &Event,
) -> Result<(), BooksFault>
    requires settling { IsSettling event.now }
    requires limit { moment ≤ moment_limit }
    ensures keeps { (number : ℕ) (stood : List sessions.Slot) → MayReachAll moment slots.old stood
        → OnOk result (KeepsSlots slots.new (map (slot_after number moment [] event.now) stood)) }
    ensures adds { AddsOfSlots (B.ledger books.old) (B.ledger books.new) moment event.now slots.old
        draft.old draft.new result }
    ensures quiet { (number : ℕ) (stood : List sessions.Slot) → MayReachAll moment slots.old stood
        → SettleNothing number moment event.now stood
        → IsIdle result books.old books.new draft.old draft.new }
    ensures reads { Consults (B.ledger books.old) (B.ledger books.new) result }
{
    for i in 0..slots.len() {
        settle_slot(&mut slots[i], books, draft, moment, event)?;
    }
    Ok(())
}
