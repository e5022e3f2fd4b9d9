//! Answers queries from the store.
ghost use Rattle.std.specs.Prelude.{◌≡◌, ◌<◌, ◌^◌, length, find, reverse, IfErr};
ghost use Rattle.std.specs.Option.{option_and_then};
ghost use Rattle.office_books.specs.Facts.{device_of, register_of, same};
ghost use Rattle.office_books.specs.Meters.{meter_of, installation_at};
ghost use Rattle.office_books.specs.Readings.{poll_row_of};
ghost use Rattle.office_books.specs.Ledgers.{Finds, OnlyReads};
ghost use Rattle.office_books.specs.Repeats.{repeat_of};
ghost use Rattle.office_books.specs.Rows.{TakesAll};
ghost use Rattle.office_core.specs.Asking.{ListsDays, Asks, DaysIn, FoundIn, RowsIn, TakesRows};
ghost use Rattle.office_core.specs.Asking.{answered, intervals_of};
ghost use Rattle.office_core.specs.DayRange.{DaysWithinIn, ListsDaysWithin};
ghost use Rattle.office_core.specs.Failing.{IsNotForWantOfDay};
ghost use Rattle.office_core.specs.Parts.{ListsIn, entries_within, holds_named, intervals_within};
ghost use Rattle.office_core.specs.Parts.{meters_named};

use crate::day_range::{keep_within, span_around};
use crate::day_sink::DaySink;
use interval_core::{DayRange, DayTotal, Share, accounts_are_one};
use office_books::{Books, BooksFault, MeterEntry, Repeat, RowSink, Span, registers_are_in_turn};
use office_events::{Device, HeldReading, Installation, Name, PollRow, Refusal, Register};
use std::alloc::Global;

/// Returns the answer for the result of a lookup in the store: the row, `NotFound`, or the refusal
/// that reports the store's failure.
fn found<T: Drop>(answer: Result<Option<T>, BooksFault>) -> Result<T, Refusal>
    ensures { result ≡ answered answer }
{
    match answer {
        Ok(Some(row)) => Ok(row),
        Ok(None) => Err(Refusal::NotFound),
        Err(fault) => Err(Refusal::from(fault)),
    }
}

/// Returns the last device with the given name in a list, or `None` if no device has the name.
#[tactic(auto, using(office_books::proofs::Lists::find_more))]
fn last_named(devices: &[Device], name: &Name) -> Option<Device>
    ensures { result ≡ find (λ device. same device.name name.now) (reverse devices.now) }
{
    let mut last = None;
    for device in devices {
        if device.name.is(name) {
            last = Some(*device);
        }
    }
    last
}

/// Returns the device with the given name, or `None` if no device has the name. The function
/// searches all devices, at most 64.
fn device_in<B: Books>(books: &mut B, name: &Name) -> Result<Option<Device>, BooksFault>
    ensures found { Finds (B.ledger books.old) (B.ledger books.new) result
        (λ known row. row ≡ device_of known name.now) }
    ensures reads { OnlyReads (B.ledger books.old) (B.ledger books.new) result }
{
    match books.devices() {
        Ok(devices) => Ok(last_named(&devices, name)),
        Err(fault) => Err(fault),
    }
}

/// Returns the device with the given name, or the refusal `NotFound`.
pub fn device<B: Books>(books: &mut B, name: &Option<Name>) -> Result<Device, Refusal>
    ensures found { FoundIn (B.ledger books.old) (B.ledger books.new) result
        (λ known. option_and_then (device_of known) name.now) }
    ensures asks { Asks (B.ledger books.old) (B.ledger books.new) result }
    ensures no_day { IfErr result IsNotForWantOfDay }
{
    let Some(name) = name else {
        return Err(Refusal::NotFound);
    };
    found(device_in(books, name))
}

/// Returns the accounting register (a named energy counter) with the given name, or the refusal
/// `NotFound`.
pub fn register<B: Books>(books: &mut B, name: &Option<Name>) -> Result<Register, Refusal>
    ensures found { FoundIn (B.ledger books.old) (B.ledger books.new) result
        (λ known. option_and_then (register_of known) name.now) }
    ensures asks { Asks (B.ledger books.old) (B.ledger books.new) result }
    ensures no_day { IfErr result IsNotForWantOfDay }
{
    let Some(name) = name else {
        return Err(Refusal::NotFound);
    };
    found(books.register(name))
}

/// Returns a meter with its opening (first entry), the state of its counter and its total energy,
/// or the refusal `NotFound`.
pub fn meter<B: Books>(books: &mut B, name: &Option<Name>) -> Result<Installation, Refusal>
    ensures found { FoundIn (B.ledger books.old) (B.ledger books.new) result
        (λ known. option_and_then (meter_of known) name.now) }
    ensures asks { Asks (B.ledger books.old) (B.ledger books.new) result }
    ensures no_day { IfErr result IsNotForWantOfDay }
{
    let Some(name) = name else {
        return Err(Refusal::NotFound);
    };
    found(books.meter(name))
}

/// Returns the latest meter at an accounting register (a named energy counter) with the state of
/// its counter and its total energy, or the refusal `NotFound`.
pub fn installation<B: Books>(
    books: &mut B,
    register: &Option<Name>,
) -> Result<Installation, Refusal>
    ensures found { FoundIn (B.ledger books.old) (B.ledger books.new) result
        (λ known. option_and_then (installation_at known) register.now) }
    ensures asks { Asks (B.ledger books.old) (B.ledger books.new) result }
    ensures no_day { IfErr result IsNotForWantOfDay }
{
    let Some(name) = register else {
        return Err(Refusal::NotFound);
    };
    found(books.installation(name))
}

/// Compares a request with the stored request that has the same idempotency key. Returns the
/// refusal `NotFound` if the store has no request with this idempotency key.
pub fn repeat<B: Books>(
    books: &mut B,
    caller: &Option<Name>,
    number: u64,
    request: &[u8],
) -> Result<Repeat, Refusal>
    ensures found { FoundIn (B.ledger books.old) (B.ledger books.new) result
        (λ known. option_and_then (λ name. repeat_of known name number request.now) caller.now) }
    ensures asks { Asks (B.ledger books.old) (B.ledger books.new) result }
    ensures no_day { IfErr result IsNotForWantOfDay }
{
    let Some(name) = caller else {
        return Err(Refusal::NotFound);
    };
    found(books.repeat(name, number, request))
}

/// Returns the poll with the given number, and its outcome if the poll has ended.
pub fn poll<B: Books>(books: &mut B, number: u64) -> Result<PollRow, Refusal>
    ensures found { FoundIn (B.ledger books.old) (B.ledger books.new) result
        (λ known. poll_row_of known number) }
    ensures asks { Asks (B.ledger books.old) (B.ledger books.new) result }
    ensures no_day { IfErr result IsNotForWantOfDay }
{
    found(books.poll(number))
}

/// Passes the energy of a meter to the sink (a visitor of rows), in mWh: one row for each quarter
/// hour, in order.
pub fn intervals<B: Books, K: RowSink<Share>>(
    books: &mut B,
    meter: &Option<Name>,
    sink: &mut K,
) -> Result<(), Refusal>
    ensures rows { RowsIn K.takes (B.ledger books.old) (B.ledger books.new) sink.old sink.new result
        (λ known. intervals_of known meter.now) }
    ensures puts { TakesRows K.takes sink.old sink.new }
    ensures asks { Asks (B.ledger books.old) (B.ledger books.new) result }
    ensures no_day { IfErr result IsNotForWantOfDay }
{
    intervals_of_span(books, meter, Span::All, sink)
}

/// Passes the energy of a meter in a time span to the sink (a visitor of rows), in mWh: one row for
/// each quarter hour, in order.
pub fn intervals_of_span<B: Books, K: RowSink<Share>>(
    books: &mut B,
    meter: &Option<Name>,
    span: Span,
    sink: &mut K,
) -> Result<(), Refusal>
    ensures rows { RowsIn K.takes (B.ledger books.old) (B.ledger books.new) sink.old sink.new result
        (λ known. intervals_within known meter.now span) }
    ensures puts { TakesRows K.takes sink.old sink.new }
    ensures asks { Asks (B.ledger books.old) (B.ledger books.new) result }
    ensures no_day { IfErr result IsNotForWantOfDay }
{
    let Some(name) = meter else {
        return Err(Refusal::NotFound);
    };
    found(books.meter(name))?;
    books.intervals(name, span, sink)?;
    Ok(())
}

/// Passes the rejected readings of a meter in a time span to the sink (a visitor of rows), in the
/// order in which they were recorded.
pub fn holds<B: Books, K: RowSink<HeldReading>>(
    books: &mut B,
    meter: &Option<Name>,
    span: Span,
    sink: &mut K,
) -> Result<(), Refusal>
    ensures rows { RowsIn K.takes (B.ledger books.old) (B.ledger books.new) sink.old sink.new result
        (λ known. holds_named known meter.now span) }
    ensures puts { TakesRows K.takes sink.old sink.new }
    ensures asks { Asks (B.ledger books.old) (B.ledger books.new) result }
    ensures no_day { IfErr result IsNotForWantOfDay }
{
    let Some(named) = meter else {
        return Err(Refusal::NotFound);
    };
    found(books.meter(named))?;
    books.holds(named, span, sink)?;
    Ok(())
}

/// Returns all meters that were installed at an accounting register, in order of installation,
/// closed meters included. Each has the state of its counter and its total energy.
pub fn meters<B: Books>(
    books: &mut B,
    register: &Option<Name>,
) -> Result<Vec<Installation>, Refusal>
    ensures listed { ListsIn (B.ledger books.old) (B.ledger books.new) result
        (λ known. meters_named known register.now) }
    ensures asks { Asks (B.ledger books.old) (B.ledger books.new) result }
    ensures no_day { IfErr result IsNotForWantOfDay }
{
    let Some(register) = register else {
        return Err(Refusal::NotFound);
    };
    found(books.register(register))?;
    Ok(books.meters(register)?)
}

/// Returns at most `most` entries (readings, resets and so on) of a meter from sequence number
/// `from` on, in order, voided (cancelled) entries included. The opening, which installs the meter,
/// has number 1.
pub fn entries<B: Books>(
    books: &mut B,
    meter: &Option<Name>,
    from: u64,
    most: u32,
) -> Result<Vec<MeterEntry>, Refusal>
    ensures listed { ListsIn (B.ledger books.old) (B.ledger books.new) result
        (λ known. entries_within known meter.now from most) }
    ensures asks { Asks (B.ledger books.old) (B.ledger books.new) result }
    ensures no_day { IfErr result IsNotForWantOfDay }
{
    let Some(meter) = meter else {
        return Err(Refusal::NotFound);
    };
    found(books.meter(meter))?;
    Ok(books.entries(meter, from, most)?)
}

/// Passes the given days, each with its energy, to the sink (a visitor of days), in order.
fn hand_on<K: RowSink<DayTotal>>(days: &[DayTotal], sink: &mut K)
    ensures took { TakesAll K.takes sink.old days.now sink.new }
    ensures few { length days.now < 2 ^ 64 }
{
    for day in days {
        sink.put(*day);
    }
}

/// Returns the energy of a recorded accounting register (a named energy counter) in a time span by
/// civil day, in order.
fn days_of<B: Books>(
    alloc: Global,
    books: &mut B,
    register: &Name,
    span: Span,
) -> Result<Vec<DayTotal>, Refusal>
    ensures days { ListsDays (B.ledger books.old) (B.ledger books.new) register.now span result }
    ensures asks { Asks (B.ledger books.old) (B.ledger books.new) result }
{
    registers_are_in_turn();
    let mut days = DaySink::new(alloc, books.zone());
    books.register_intervals(register, span, &mut days)?;
    days.into_days()
}

/// Passes the energy of an accounting register (a named energy counter) to the sink (a visitor of
/// rows), in mWh: one row for each civil day in the store's time zone.
pub fn days<B: Books, K: RowSink<DayTotal>>(
    alloc: Global,
    books: &mut B,
    register: &Option<Name>,
    sink: &mut K,
) -> Result<(), Refusal>
    ensures days { DaysIn K.takes (B.ledger books.old) (B.ledger books.new) sink.old sink.new result
        register.now }
    ensures puts { TakesRows K.takes sink.old sink.new }
    ensures asks { Asks (B.ledger books.old) (B.ledger books.new) result }
{
    let Some(name) = register else {
        return Err(Refusal::NotFound);
    };
    found(books.register(name))?;
    let days = days_of(alloc, books, name, Span::All)?;
    hand_on(&days, sink);
    Ok(())
}

/// Returns the energy of a recorded accounting register (a named energy counter) on each civil day
/// in the range, in order.
fn days_in<B: Books>(
    alloc: Global,
    books: &mut B,
    register: &Name,
    range: &DayRange,
) -> Result<Vec<DayTotal>, Refusal>
    ensures days { ListsDaysWithin (B.ledger books.old) (B.ledger books.new) register.now
        range.now result }
    ensures asks { Asks (B.ledger books.old) (B.ledger books.new) result }
{
    accounts_are_one();
    let mut days = days_of(alloc, books, register, span_around(*range))?;
    keep_within(&mut days, range);
    Ok(days)
}

/// Passes the energy of an accounting register (a named energy counter) on the days of a range to
/// the sink (a visitor of rows), in mWh: one row for each civil day.
pub fn days_within<B: Books, K: RowSink<DayTotal>>(
    alloc: Global,
    books: &mut B,
    register: &Option<Name>,
    range: DayRange,
    sink: &mut K,
) -> Result<(), Refusal>
    ensures days { DaysWithinIn K.takes (B.ledger books.old) (B.ledger books.new) sink.old sink.new
        result register.now range }
    ensures puts { TakesRows K.takes sink.old sink.new }
    ensures asks { Asks (B.ledger books.old) (B.ledger books.new) result }
{
    let Some(named) = register else {
        return Err(Refusal::NotFound);
    };
    found(books.register(named))?;
    let asked = days_in(alloc, books, named, &range)?;
    hand_on(&asked, sink);
    Ok(())
}
