//! Short forms of stored records, with which tests list the content of a store in few lines.
use crate::offices::name_of;
use energy_core::{Cause, Entry};
use mb_wire::{ReadFunction, ReadSpan};
use meter_journal::EntryKind;
use office_events::{
    BookedEntry, Device, EndedPoll, Fact, HeldReading, Opening, Poll, Register, ScaleSource,
    Timeout, VoidedEntry, Window,
};
use poll_core::Outcome;
use std::alloc::Global;
use std::process::Abort;

/// A record for the store of a test, in a short form that the test converts to the record.
#[derive(Clone, Copy)]
pub(crate) enum Booked {
    /// A record of a device, given the device's name.
    Device(&'static [u8]),
    /// An accounting register (a named counter), by its name, its device's name, and the Modbus
    /// function, the Modbus address and the scale of its counter.
    Register(&'static [u8], &'static [u8], ReadFunction, u16, ScaleSource),
    /// The installation of the named meter at the accounting register `main` (a named counter) at
    /// this time. The meter's counter starts at 0, and one count is 1 Wh.
    Opening(&'static [u8], u64),
    /// A record of a meter's entry, by the meter's name, the kind of entry, its time, and the
    /// count.
    Entry(&'static [u8], EntryKind, u64, u32),
    /// A void (cancellation) of a meter's entry, by the meter's name, the sequence number of the
    /// entry, and the time of the void.
    Void(&'static [u8], u64, u64),
    /// A record of the start of a poll of the device `inv`. The poll has this number.
    Poll(u64),
    /// A record that the poll with this number timed out.
    Ended(u64),
    /// A record of a rejected reading, by the meter's name, the poll's number, the time, the count
    /// and the cause of the rejection.
    Hold(&'static [u8], u64, u64, u32, Cause),
}

fn device(rt: &impl Abort, name: &[u8]) -> Device {
    Device {
        name: name_of(rt, name),
        unit: 1,
        timeout: Timeout::new(5).expect(rt, "a timeout"),
        window: Window::new(2).expect(rt, "a window"),
    }
}

fn poll(rt: &impl Abort, number: u64) -> Poll {
    Poll {
        number,
        device: name_of(rt, b"inv"),
        unit: 1,
        at: 1000,
        id: 7,
        span: ReadSpan::new(3, 40094, 2).expect(rt, "a span"),
    }
}

fn fact(rt: &impl Abort, booked: &Booked) -> Fact {
    match *booked {
        Booked::Device(name) => Fact::Device(device(rt, name)),
        Booked::Register(name, device, function, address, scale) => Fact::Register(Register {
            name: name_of(rt, name),
            device: name_of(rt, device),
            function,
            address,
            scale,
        }),
        Booked::Opening(meter, at) => Fact::Opening(Opening {
            meter: name_of(rt, meter),
            register: name_of(rt, b"main"),
            ceiling: 100_000,
            range: 65_536,
            at,
            raw: 0,
            sf: 0,
        }),
        Booked::Entry(meter, kind, at, raw) => Fact::Entry(BookedEntry {
            meter: name_of(rt, meter),
            kind,
            entry: Entry::Step { at, raw, rolls: 0 },
        }),
        Booked::Void(meter, place, at) => Fact::Void(VoidedEntry {
            meter: name_of(rt, meter),
            place,
            at,
        }),
        Booked::Poll(number) => Fact::Poll(poll(rt, number)),
        Booked::Ended(poll) => Fact::Outcome(EndedPoll {
            poll,
            at: 1010,
            outcome: Outcome::Silent,
        }),
        Booked::Hold(meter, poll, at, raw, cause) => Fact::Hold(HeldReading {
            meter: name_of(rt, meter),
            poll,
            at,
            raw,
            sf: 0,
            cause,
        }),
    }
}

/// Returns the store's records that a list of `Booked` values (short descriptions of records in
/// tests) describes, in the order of the list.
pub(crate) fn facts(rt: &impl Abort, alloc: Global, history: &[Booked]) -> Vec<Fact> {
    let mut facts = Vec::new(alloc);
    for booked in history {
        facts.push(fact(rt, booked)).expect(rt, "memory");
    }
    facts
}
