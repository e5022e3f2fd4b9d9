//! Commands that set up a new office (a new database file) with the devices, accounting registers
//! (named counters) and open meters of an old one.
ghost use Rattle.std.specs.Prelude.{◌≡◌, ◌++◌, ◌∷◌, [], map, OnOk};
ghost use Rattle.office_books.specs.Ledgers.{Consults, Finds};
ghost use Rattle.carried_books.specs.Carrying.Adding.{Adds};
ghost use Rattle.carried_books.specs.Carrying.Commands as commands;

use office_books::{Books, BooksFault};
use office_events::{
    AddDevice, AddRegister, Command, Device, GivenScale, Install, Name, Opening, PlannedList,
    PutList, Register, ScaleSource,
};
use std::alloc::{AllocError, Global};

/// A command with the timestamp at which the office (event engine) of a new database file executes
/// the command, in seconds since 1970-01-01 UTC.
#[derive(Drop)]
pub struct TimedCommand {
    pub at: u64,
    pub command: Command,
}

// Returns the command that adds a device to the new database file.

fn add_device(at: u64, device: &Device) -> TimedCommand
    ensures { result ≡ commands.add_device at device.now }
{
    TimedCommand {
        at,
        command: Command::AddDevice(AddDevice {
            name: Some(device.name),
            unit: device.unit as u64,
            timeout: device.timeout.seconds(),
            window: device.window.polls() as u64,
        }),
    }
}

fn put_list(at: u64, device: &Name, list: PlannedList) -> TimedCommand
    ensures { result ≡ commands.put_list at device.now list }
{
    TimedCommand {
        at,
        command: Command::PutList(PutList {
            device: Some(*device),
            list,
        }),
    }
}

fn scale_given(scale: ScaleSource) -> GivenScale
    ensures { result ≡ commands.scale_given scale }
{
    match scale {
        ScaleSource::Fixed(sf) => GivenScale::Fixed(sf as i64),
        ScaleSource::Register(address) => GivenScale::Register(address as u64),
    }
}

fn add_register(at: u64, register: &Register) -> TimedCommand
    ensures { result ≡ commands.add_register at register.now }
{
    TimedCommand {
        at,
        command: Command::AddRegister(AddRegister {
            name: Some(register.name),
            device: Some(register.device),
            function: register.function.code() as u64,
            address: register.address as u64,
            scale: scale_given(register.scale),
        }),
    }
}

fn install(opening: &Opening) -> TimedCommand
    ensures { result ≡ commands.install opening.now }
{
    TimedCommand {
        at: opening.at,
        command: Command::Install(Install {
            register: Some(opening.register),
            meter: Some(opening.meter),
            raw: opening.raw as u64,
            sf: opening.sf as i64,
            ceiling: opening.ceiling,
            range: opening.range,
        }),
    }
}

// Extends a list of commands with the command that stores a device's point list, if the device has
// one.
fn add_list<B: Books>(
    added: &mut Vec<TimedCommand>,
    books: &mut B,
    at: u64,
    device: &Device,
) -> Result<(), BooksFault>
    ensures adds { Adds (B.ledger books.old) (B.ledger books.new)
        (λ known. commands.write_lists at known device.now) added.old.items added.new.items result }
    ensures reads { Consults (B.ledger books.old) (B.ledger books.new) result }
{
    if let Some(list) = books.list(&device.name)? {
        added.push(put_list(at, &device.name, list))?;
    }
    Ok(())
}

// Extends a list of commands with one command for each element of `registers`. The command creates
// an accounting register (a named counter).
fn add_each(
    added: &mut Vec<TimedCommand>,
    at: u64,
    registers: &[Register],
) -> Result<(), AllocError>
    ensures { OnOk result
        (added.new.items ≡ added.old.items ++ map (commands.add_register at) registers.now) }
{
    for register in registers {
        added.push(add_register(at, register))?;
    }
    Ok(())
}

// Extends a list of commands with the commands that create the accounting registers (named
// counters) of a device.
fn add_registers<B: Books>(
    added: &mut Vec<TimedCommand>,
    books: &mut B,
    at: u64,
    device: &Device,
) -> Result<(), BooksFault>
    ensures adds { Adds (B.ledger books.old) (B.ledger books.new)
        (λ known. commands.add_registers at known device.now) added.old.items added.new.items
        result }
    ensures reads { Consults (B.ledger books.old) (B.ledger books.new) result }
{
    let registers = books.registers(&device.name)?;
    add_each(added, at, &registers)?;
    Ok(())
}

// Extends a list of commands with those that create a device, its point list and its accounting
// registers (named counters).
fn set_up_device<B: Books>(
    added: &mut Vec<TimedCommand>,
    books: &mut B,
    at: u64,
    device: &Device,
) -> Result<(), BooksFault>
    ensures adds { Adds (B.ledger books.old) (B.ledger books.new)
        (λ known. commands.set_up_device at known device.now) added.old.items added.new.items
        result }
    ensures reads { Consults (B.ledger books.old) (B.ledger books.new) result }
{
    added.push(add_device(at, device))?;
    add_list(added, books, at, device)?;
    add_registers(added, books, at, device)
}

// Extends a list of commands with those that create each device in `devices`, its point list and
// its accounting registers (named counters).
fn set_up_devices<B: Books>(
    added: &mut Vec<TimedCommand>,
    books: &mut B,
    at: u64,
    devices: &[Device],
) -> Result<(), BooksFault>
    ensures adds { Adds (B.ledger books.old) (B.ledger books.new)
        (λ known. commands.set_up_devices at known devices.now) added.old.items added.new.items
        result }
    ensures reads { Consults (B.ledger books.old) (B.ledger books.new) result }
{
    for device in devices {
        set_up_device(added, books, at, device)?;
    }
    Ok(())
}

// Extends a list of commands with one command for each opening in `openings`. The command installs
// a meter, with this opening as its first entry.
fn add_installs(added: &mut Vec<TimedCommand>, openings: &[Opening]) -> Result<(), AllocError>
    ensures { OnOk result
        (added.new.items ≡ added.old.items ++ map commands.install openings.now) }
{
    for opening in openings {
        added.push(install(opening))?;
    }
    Ok(())
}

// Returns the timestamp at which devices are set up in the new database file: that of the first
// meter's opening (first entry), or the latest recorded timestamp if no meter is installed.
fn first_moment<B: Books>(books: &mut B, openings: &[Opening]) -> Result<u64, BooksFault>
    ensures found { Finds (B.ledger books.old) (B.ledger books.new) result
        (λ known at. at ≡ commands.first_moment known openings.now) }
    ensures reads { Consults (B.ledger books.old) (B.ledger books.new) result }
{
    match openings {
        [] => books.latest(),
        [opening, ..] => Ok(opening.at),
    }
}

/// Returns the commands that set up the devices in `devices`, with the point lists and accounting
/// registers (named counters) that the old database file has for them. The last commands install a
/// meter for each opening (first entry) in `openings`.
pub fn commands_for<B: Books>(
    alloc: Global,
    books: &mut B,
    devices: &[Device],
    openings: &[Opening],
) -> Result<Vec<TimedCommand>, BooksFault>
    ensures found { Finds (B.ledger books.old) (B.ledger books.new) result
        (λ known v. v.items ≡ commands.commands_for known devices.now openings.now) }
    ensures reads { Consults (B.ledger books.old) (B.ledger books.new) result }
{
    let at = first_moment(books, openings)?;
    let mut added = Vec::new(alloc);
    set_up_devices(&mut added, books, at, devices)?;
    add_installs(&mut added, openings)?;
    Ok(added)
}
