//! Test steps that write records to a store, or look up results in the store and compare them with
//! the expected results.
use crate::facts::{Booked, facts};
use crate::offices::{name_of, planned};
use energy_core::Cause;
use mb_wire::ReadSpan;
use office_books::{Books, BooksFault, RowSink, Span, with_whole_energy};
use office_events::{
    DeviceList, EntryContext, Fact, HeldReading, Installation, Name, Poll, Register,
};
use std::alloc::Global;
use std::process::Abort;

/// A test step over a store. The step writes records, or compares a lookup with its expected
/// result. All steps use the device `inv`.
#[derive(Clone, Copy)]
pub(crate) enum Step {
    Books(&'static [Booked]),
    /// The device gets the point list with this text.
    Lists(&'static [u8]),
    /// The plan of the device's point list has this number of Modbus reads.
    Reads(usize),
    /// A step of a test: asserts that the device has this number of accounting registers (named
    /// counters).
    Registers(usize),
    /// A Modbus read of the device, by function, address and count, covers these accounting
    /// registers (named counters).
    Read(u8, u16, u16, &'static [&'static str]),
    /// The meter that was installed last at the accounting register `main` (a named counter) has
    /// this name and this energy in mWh. The last value is true if the meter is closed.
    Installed(&'static [u8], u64, bool),
    /// The meter with this name has this energy in mWh. The last value is true if the meter is
    /// closed.
    Meter(&'static [u8], u64, bool),
    /// A step of a test: asserts that the store has this number of installed meters.
    Meters(usize),
    /// The meter has an entry with this sequence number, and before this entry the meter has this
    /// energy in mWh. The last value is true if the entry is voided (cancelled).
    Entry(&'static [u8], u64, u64, bool),
    /// A step of a test: asserts that `entry_near` finds the meter's entry with this sequence
    /// number. The meter has this count before the entry. The last number is the meter's total
    /// energy, in mWh.
    EntryNear(&'static [u8], u64, u32, u64),
    NoEntry(&'static [u8], u64),
    /// The rejected readings of a meter in a time span have these times and causes.
    Held(&'static [u8], Span, &'static [(u64, Cause)]),
    /// The store has this number of started polls.
    Started(u64),
    /// A step of a test: asserts that the store has the poll with this number. The last value is
    /// true if the poll is pending (without an outcome).
    Waits(u64, bool),
    /// The pending polls have these numbers.
    Pending(&'static [u64]),
    /// The latest timestamp of all records in the store.
    Latest(u64),
}

/// A visitor of rows that collects the times and causes of rejected readings.
#[derive(Drop)]
struct HeldRows {
    rows: Vec<(u64, Cause)>,
    is_whole: bool,
}

impl RowSink<HeldReading> for HeldRows {
    ghost takes = { λ _ _ _. Unit {0} };

    fn put(&mut self, row: HeldReading) {
        self.is_whole = self.rows.push((row.at, row.cause)).is_ok() && self.is_whole;
    }
}

fn list(rt: &impl Abort, alloc: Global, text: &[u8]) -> Vec<Fact> {
    let device = name_of(rt, b"inv");
    let list = planned(rt, alloc, text);
    let mut facts = Vec::new(alloc);
    facts
        .push(Fact::List(DeviceList { device, list }))
        .expect(rt, "memory");
    facts
}

fn has_reads<B: Books>(books: &mut B, device: &Name, count: usize) -> Result<bool, BooksFault> {
    match books.list(device)? {
        Some(list) => Ok(list.reads().len() == count),
        None => Ok(count == 0),
    }
}

fn has_registers<B: Books>(books: &mut B, device: &Name, count: usize) -> Result<bool, BooksFault> {
    let registers = books.registers(device)?;
    Ok(registers.len() == count && books.register_count(device)? == count)
}

fn are_named(registers: &[Register], names: &[&str]) -> bool {
    for (register, name) in registers.iter().zip(names) {
        if register.name.as_bytes() != name.as_bytes() {
            return false;
        }
    }
    registers.len() == names.len()
}

fn are_numbered(polls: &[Poll], numbers: &[u64]) -> bool {
    for (poll, number) in polls.iter().zip(numbers) {
        if poll.number != *number {
            return false;
        }
    }
    polls.len() == numbers.len()
}

fn are_held(held: &[(u64, Cause)], wanted: &[(u64, Cause)]) -> bool {
    for (row, (at, cause)) in held.iter().zip(wanted) {
        if row.0 != *at || row.1 != *cause {
            return false;
        }
    }
    held.len() == wanted.len()
}

fn is_meter(found: &Option<Installation>, meter: &[u8], total: u64, ended: bool) -> bool {
    match found {
        Some(row) => {
            row.opening.meter.as_bytes() == meter && row.total == total && row.ended == ended
        }
        None => false,
    }
}

fn is_entry(found: &Option<EntryContext>, total: u64, is_voided: bool) -> bool {
    match found {
        Some(place) => place.before.total == total && place.row.stands != is_voided,
        None => false,
    }
}

// Returns true if the lookup of a meter's entry together with its neighbors (`entry_near`) finds
// the given entry and the meter's total energy.
fn is_near<B: Books>(
    books: &mut B,
    meter: &Name,
    place: u64,
    raw: u32,
    total: u64,
) -> Result<bool, BooksFault> {
    let Some(near) = books.entry_near(meter, place)? else {
        return Ok(false);
    };
    let Some(entry) = books.entry(meter, place)? else {
        return Ok(false);
    };
    let Some(whole) = books.meter(meter)? else {
        return Ok(false);
    };
    Ok(
        near == with_whole_energy(&entry, &whole)
            && near.before.last.raw == raw
            && near.before.total == total,
    )
}

fn has_held<B: Books>(
    alloc: Global,
    books: &mut B,
    meter: &Name,
    span: Span,
    wanted: &[(u64, Cause)],
) -> Result<bool, BooksFault> {
    let mut held = HeldRows {
        rows: Vec::new(alloc),
        is_whole: true,
    };
    books.holds(meter, span, &mut held)?;
    Ok(held.is_whole && are_held(&held.rows, wanted))
}

fn is_waiting<B: Books>(books: &mut B, number: u64, waits: bool) -> Result<bool, BooksFault> {
    match books.poll(number)? {
        Some(row) => Ok(row.poll.number == number && row.ended.is_none() == waits),
        None => Ok(false),
    }
}

// Executes a test step about the device. Writes the step's records, or compares a lookup with its
// expected result.
fn try_device<B: Books>(
    rt: &impl Abort,
    alloc: Global,
    books: &mut B,
    step: Step,
) -> Result<bool, BooksFault> {
    let device = name_of(rt, b"inv");
    match step {
        Step::Books(history) => {
            books.book(facts(rt, alloc, history))?;
            Ok(true)
        }
        Step::Lists(text) => {
            books.book(list(rt, alloc, text))?;
            Ok(true)
        }
        Step::Reads(count) => has_reads(books, &device, count),
        Step::Registers(count) => has_registers(books, &device, count),
        Step::Read(function, address, count, names) => {
            let span = ReadSpan::new(function, address, count).expect(rt, "a span");
            let read = books.registers_read(&device, span)?;
            Ok(are_named(&read, names))
        }
        Step::Pending(numbers) => {
            let pending = books.pending()?;
            Ok(are_numbered(&pending, numbers))
        }
        Step::Started(count) => Ok(books.poll_count()? == count),
        Step::Waits(number, waits) => is_waiting(books, number, waits),
        Step::Latest(at) => Ok(books.latest()? == at),
        _ => Ok(false),
    }
}

/// Executes a test step. Writes the step's records, or compares a lookup with its expected result.
pub(crate) fn try_step<B: Books>(
    rt: &impl Abort,
    alloc: Global,
    books: &mut B,
    step: Step,
) -> Result<bool, BooksFault> {
    match step {
        Step::Installed(meter, total, ended) => {
            let found = books.installation(&name_of(rt, b"main"))?;
            Ok(is_meter(&found, meter, total, ended))
        }
        Step::Meter(meter, total, ended) => {
            let found = books.meter(&name_of(rt, meter))?;
            Ok(is_meter(&found, meter, total, ended))
        }
        Step::Meters(count) => Ok(books.installation_count()? == count),
        Step::Entry(meter, place, total, is_voided) => {
            let found = books.entry(&name_of(rt, meter), place)?;
            Ok(is_entry(&found, total, is_voided))
        }
        Step::NoEntry(meter, place) => {
            let meter = name_of(rt, meter);
            Ok(books.entry(&meter, place)?.is_none() && books.entry_near(&meter, place)?.is_none())
        }
        Step::EntryNear(meter, place, raw, total) => {
            is_near(books, &name_of(rt, meter), place, raw, total)
        }
        Step::Held(meter, span, wanted) => {
            has_held(alloc, books, &name_of(rt, meter), span, wanted)
        }
        _ => try_device(rt, alloc, books, step),
    }
}
