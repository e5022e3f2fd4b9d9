//! Finds what is missing in the store for a polled device: the device, its point list (the
//! registers to poll), an accounting register (a named energy counter), or an open meter.
//!
//! The program records the energy of a polled device only if the store has four things. These are
//! the device, its point list, an accounting register (a named energy counter) in the list, and an
//! open meter.
ghost use Rattle.std.specs.Prelude.{◌≡◌};
ghost use Rattle.std.specs.Option.{option_map};
ghost use Rattle.office_books.specs.Ledgers.{Finds, OnlyReads};
ghost use Rattle.run_http.specs.Status.Advice.Lacks as specs;
ghost use Rattle.run_http.specs.Status.Advice.Lacks.{Adds, LooksUp};

use office_books::{Books, BooksFault, is_read_by};
use office_events::{Device, Installation, Name, PlannedList, Register};
use read_plan::PlannedRead;
use std::alloc::AllocError;

/// Something that is missing in the store for a device. Without it, the program records no energy
/// of the device, or of one accounting register (a named energy counter) (`NotInList`, `NoMeter`).
#[derive(Clone, Copy)]
pub enum Lack {
    /// The store has no device with the name on the command line.
    NoDevice,
    /// The device has no point list (the registers to poll) in the store.
    NoList,
    /// The device has no accounting register (a named energy counter) in the store.
    NoRegister,
    /// No read of the device's point list covers both the counter and the scale of this accounting
    /// register (a named energy counter).
    NotInList(Register),
    /// This accounting register (a named energy counter) has no open meter.
    NoMeter(Register),
}

/// A device named on the command line, and one thing that is missing for the device in the store.
#[derive(Clone, Copy)]
pub struct DeviceLack {
    pub device: Option<Name>,
    pub lack: Lack,
}

// Returns whether one of the planned reads covers the counter and the scale of the accounting
// register (a named energy counter).
fn is_read(reads: &[PlannedRead], register: &Register) -> bool
    ensures { result ≡ specs.is_read reads.now register.now }
{
    reads.iter().any(|read| is_read_by(read.span, register))
}

// Returns whether a Modbus read of the device's point list covers the accounting register (a named
// energy counter). Returns true without a point list, because the program then reports `NoList`.
fn is_in_list(list: &Option<PlannedList>, register: &Register) -> bool
    ensures { result ≡ specs.is_in_list list.now register.now }
{
    match list {
        Some(list) => is_read(list.reads(), register),
        None => true,
    }
}

fn is_open(row: &Option<Installation>) -> bool
    ensures { result ≡ specs.is_open row.now }
{
    match row {
        None => false,
        Some(row) => !row.ended,
    }
}

fn has_meter<B: Books>(books: &mut B, register: &Register) -> Result<bool, BooksFault>
    ensures found { Finds (B.ledger books.old) (B.ledger books.new) result
        (λ known b. b ≡ specs.has_meter known register.now) }
    ensures looks { LooksUp (B.ledger books.old) (B.ledger books.new) }
{
    Ok(is_open(&books.installation(&register.name)?))
}

fn has_name(devices: &[Device], name: &Name) -> bool
    ensures { result ≡ specs.has_name name.now devices.now }
{
    devices.iter().any(|device| device.name.is(name))
}

fn has_device<B: Books>(books: &mut B, name: &Name) -> Result<bool, BooksFault>
    ensures found { Finds (B.ledger books.old) (B.ledger books.new) result
        (λ known b. b ≡ specs.has_device known name.now) }
    ensures looks { LooksUp (B.ledger books.old) (B.ledger books.new) }
{
    Ok(has_name(&books.devices()?, name))
}

// Adds the device and the missing thing `lack` to the list of missing things if `is_lacking` is
// true.
fn add(
    lacks: &mut Vec<DeviceLack>,
    device: &Name,
    lack: Lack,
    is_lacking: bool,
) -> Result<(), AllocError>
    ensures { specs.AddsOne device.now lack is_lacking lacks.old.items lacks.new.items result }
{
    if is_lacking {
        lacks.push(DeviceLack {
            device: Some(*device),
            lack,
        })?;
    }
    Ok(())
}

fn add_of_register<B: Books>(
    lacks: &mut Vec<DeviceLack>,
    books: &mut B,
    device: &Name,
    list: &Option<PlannedList>,
    register: &Register,
) -> Result<(), BooksFault>
    ensures adds { Adds (B.ledger books.old) (B.ledger books.new)
        (λ known. specs.lacks_of_register known device.now list.now register.now)
        lacks.old.items lacks.new.items result }
    ensures looks { LooksUp (B.ledger books.old) (B.ledger books.new) }
{
    let is_in_list = is_in_list(list, register);
    let has_meter = has_meter(books, register)?;
    add(lacks, device, Lack::NotInList(*register), !is_in_list)?;
    add(lacks, device, Lack::NoMeter(*register), !has_meter)?;
    Ok(())
}

fn add_of_registers<B: Books>(
    lacks: &mut Vec<DeviceLack>,
    books: &mut B,
    device: &Name,
    list: &Option<PlannedList>,
    registers: &[Register],
) -> Result<(), BooksFault>
    ensures adds { Adds (B.ledger books.old) (B.ledger books.new)
        (λ known. specs.lacks_of_registers known device.now list.now registers.now)
        lacks.old.items lacks.new.items result }
    ensures looks { LooksUp (B.ledger books.old) (B.ledger books.new) }
{
    for register in registers {
        add_of_register(lacks, books, device, list, register)?;
    }
    Ok(())
}

// Adds to the list of missing things each thing that is missing in the store for a device (such as
// an open meter). The store must have the device.
fn add_of_device<B: Books>(
    lacks: &mut Vec<DeviceLack>,
    books: &mut B,
    device: &Name,
) -> Result<(), BooksFault>
    ensures adds { Adds (B.ledger books.old) (B.ledger books.new)
        (λ known. specs.lacks_of_device known device.now) lacks.old.items lacks.new.items result }
    ensures looks { LooksUp (B.ledger books.old) (B.ledger books.new) }
{
    let list = books.list(device)?;
    let registers = books.registers(device)?;
    add(lacks, device, Lack::NoList, list.is_none())?;
    add(lacks, device, Lack::NoRegister, registers.is_empty())?;
    add_of_registers(lacks, books, device, &list, &registers)
}

// Adds to the list `lacks` each thing that the store lacks for polling the device `name` or for
// recording its energy (such as an open meter). If the store has no device with that name, adds
// `NoDevice`.
fn add_of_name<B: Books>(
    lacks: &mut Vec<DeviceLack>,
    books: &mut B,
    name: &Name,
) -> Result<(), BooksFault>
    ensures adds { Adds (B.ledger books.old) (B.ledger books.new)
        (λ known. specs.lacks_of_name known name.now) lacks.old.items lacks.new.items result }
    ensures looks { LooksUp (B.ledger books.old) (B.ledger books.new) }
{
    if has_device(books, name)? {
        return add_of_device(lacks, books, name);
    }
    add(lacks, name, Lack::NoDevice, true)?;
    Ok(())
}

/// Adds to a list each thing that is missing for a device in the records of the store. Nothing is
/// missing if all conditions of the list below hold.
///
/// - The store has the device.
/// - The device has a point list and an accounting register (a named energy counter).
/// - Each accounting register (a named energy counter) of the device lies in a Modbus read of the
///   point list and has an open meter.
///
/// The argument `device` is `None` if the device's name is not valid. If the store fails or memory
/// runs out, not everything that the device lacks is added to `lacks`.
pub fn add_lacks<B: Books>(
    lacks: &mut Vec<DeviceLack>,
    books: &mut B,
    device: &Option<Name>,
) -> Result<(), BooksFault>
    ensures adds { Adds (B.ledger books.old) (B.ledger books.new)
        (λ known. specs.lacks_of known device.now) lacks.old.items lacks.new.items result }
    ensures looks { LooksUp (B.ledger books.old) (B.ledger books.new) }
{
    match device {
        Some(name) => add_of_name(lacks, books, name),
        None => {
            lacks.push(DeviceLack {
                device: None,
                lack: Lack::NoDevice,
            })?;
            Ok(())
        }
    }
}
