//! Executes accepted commands: writes their records, starts their polls, and adds a slot (a device
//! with its connection) for each new device.
ghost use Rattle.std.specs.Prelude.{◌≡◌, ◌≤◌, ◌+◌, ◌++◌, [], true, false, List, Some, OnOk, OnErr, vec_len, vec_capacity};
ghost use Rattle.std.specs.Option.{option_to_list};
ghost use Rattle.office_events.specs.declared.commands.Command.TheVariants as commands;
ghost use Rattle.office_books.specs.Sessions as sessions;
ghost use Rattle.office_books.specs.Sessions.{command_in, started_on, new_slot, slots_added};
ghost use Rattle.office_books.specs.Refusals.{is_start};
ghost use Rattle.office_core.specs.Sessions.Keeping.{KeepsSlots};
ghost use Rattle.office_core.specs.Sessions.Places.{AsksOnSlot, StartsOnSlot, has_slot};
ghost use Rattle.office_core.specs.Sessions.Ranges.{IsCommandInRange, AsksInRange};
ghost use Rattle.office_books.specs.Lawfulness.{PutsPlanned};
ghost use Rattle.office_books.specs.Ledgers.{LedgerAfterCalls};
ghost use Rattle.office_core.specs.Commands.Effects.{AsksCommand, CarriesEvent, CarriesOut};

use crate::commands::records::record;
use crate::commands::registers::device_by;
use crate::commands::replies::reply_of;
use crate::commands::starts::start;
use crate::sessions::{Slot, place_of};
use crate::starting::Outgoing;
use office_books::{Books, BooksFault, facts_are_lawful};
use office_events::{AddDevice, Answer, Command, Device, Event, Fact, Name};
use poll_core::{LAST_MOMENT, each_once, one_event_more};
use std::alloc::Global;

/// The answer to an executed command, and the bytes to send to the command's device.
#[derive(Drop)]
pub struct Done {
    pub answer: Answer,
    pub outgoing: Outgoing,
}

/// Proves that a point list (the Modbus registers to read) in a command has a plan: the reads that
/// cover the list.
pub fn puts_planned(command: &Command)
    ensures { PutsPlanned (Some command.now) }
{
    match command {
        Command::PutList(put) => {
            let _planned = put.list.points();
        }
        Command::AddDevice(_) => {}
        Command::AddRegister(_) => {}
        Command::Install(_) => {}
        Command::Exchange(_) => {}
        Command::Reset(_) => {}
        Command::Rescale(_) => {}
        Command::Manual(_) => {}
        Command::Close(_) => {}
        Command::Void(_) => {}
        Command::StartPoll(_) => {}
        Command::StartRound(_) => {}
    }
}

/// Appends the slot (the device with its connection) of a new device if the command succeeded and
/// adds a device. The list of slots must have room.
fn add_slot(slots: &mut Vec<Slot>, device: Option<Device>, done: &Result<Done, BooksFault>)
    requires room { vec_len slots.old + 1 ≤ vec_capacity slots.old }
    ensures added { (kept : List sessions.Slot) → KeepsSlots slots.old.items kept
        → OnOk done.now (KeepsSlots slots.new.items (kept ++ new_slot device)) }
    ensures unchanged { OnErr done.now (slots.new.items ≡ slots.old.items) }
{
    if done.is_err() {
        return;
    }
    if let Some(device) = device {
        slots.push_reserved(Slot {
            device,
            session: None,
        });
    }
}

/// Adds a device. Memory for its slot (the device with its connection) is reserved before the
/// device is recorded.
fn add_device<B: Books>(
    alloc: Global,
    slots: &mut Vec<Slot>,
    books: &mut B,
    moment: u64,
    add: &AddDevice,
    command: &Command,
    reply: Option<Fact>,
) -> Result<Done, BooksFault>
    requires range { IsCommandInRange moment command.now }
    requires adds { command.now ≡ commands.AddDevice add.now }
    ensures carried { CarriesOut (B.ledger books.old) (B.ledger books.new) slots.old.items
        slots.new.items moment command.now (option_to_list reply) result }
    ensures unchanged { OnErr result (slots.new.items ≡ slots.old.items) }
    ensures goes { LedgerAfterCalls (B.ledger books.old) (B.ledger books.new) result }
{
    facts_are_lawful();
    puts_planned(command);
    let device = device_by(add);
    slots.reserve(1)?;
    let done = record(alloc, books, moment, command, reply);
    add_slot(slots, device, &done);
    done
}

/// Executes a command that changes no device's connection: its records are written, and no frames
/// are sent.
fn note<B: Books>(
    alloc: Global,
    slots: &[Slot],
    books: &mut B,
    moment: u64,
    command: &Command,
    reply: Option<Fact>,
) -> Result<Done, BooksFault>
    requires range { IsCommandInRange moment command.now }
    requires no_start { is_start command.now ≡ false }
    requires no_slot { slots_added (Some command.now) ≡ [] }
    ensures carried { CarriesOut (B.ledger books.old) (B.ledger books.new) slots.now slots.now
        moment command.now (option_to_list reply) result }
    ensures goes { LedgerAfterCalls (B.ledger books.old) (B.ledger books.new) result }
{
    facts_are_lawful();
    puts_planned(command);
    record(alloc, books, moment, command, reply)
}

/// Executes a command that starts polls on the Modbus session of the command's device.
fn start_at<B: Books>(
    alloc: Global,
    slots: &mut [Slot],
    books: &mut B,
    moment: u64,
    command: &Command,
    device: &Option<Name>,
    reply: Option<Fact>,
) -> Result<Done, BooksFault>
    requires start { is_start command.now ≡ true }
    requires device { device.now ≡ started_on command.now }
    requires there { has_slot slots.old device.now ≡ true }
    requires limit { moment ≤ LAST_MOMENT }
    ensures carried { CarriesOut (B.ledger books.old) (B.ledger books.new) slots.old slots.new
        moment command.now (option_to_list reply) result }
    ensures unchanged { OnErr result (slots.new ≡ slots.old) }
    ensures goes { LedgerAfterCalls (B.ledger books.old) (B.ledger books.new) result }
{
    facts_are_lawful();
    each_once();
    one_event_more();
    puts_planned(command);
    let Some(place) = place_of(slots, device) else {
        unreachable!()
    };
    start(alloc, &mut slots[place], books, moment, command, reply)
}

/// Executes a command that the office (the event engine) accepted: adds its records to the store,
/// and starts the Modbus reads that it requests.
fn obey<B: Books>(
    alloc: Global,
    slots: &mut Vec<Slot>,
    books: &mut B,
    moment: u64,
    command: &Command,
    reply: Option<Fact>,
) -> Result<Done, BooksFault>
    requires range { IsCommandInRange moment command.now }
    requires limit { moment ≤ LAST_MOMENT }
    requires there { StartsOnSlot slots.old.items command.now }
    ensures carried { CarriesOut (B.ledger books.old) (B.ledger books.new) slots.old.items
        slots.new.items moment command.now (option_to_list reply) result }
    ensures unchanged { OnErr result (slots.new.items ≡ slots.old.items) }
    ensures goes { LedgerAfterCalls (B.ledger books.old) (B.ledger books.new) result }
{
    match command {
        Command::AddDevice(add) => add_device(alloc, slots, books, moment, add, command, reply),
        Command::PutList(_) => note(alloc, slots, books, moment, command, reply),
        Command::AddRegister(_) => note(alloc, slots, books, moment, command, reply),
        Command::Install(_) => note(alloc, slots, books, moment, command, reply),
        Command::Exchange(_) => note(alloc, slots, books, moment, command, reply),
        Command::Reset(_) => note(alloc, slots, books, moment, command, reply),
        Command::Rescale(_) => note(alloc, slots, books, moment, command, reply),
        Command::Manual(_) => note(alloc, slots, books, moment, command, reply),
        Command::Close(_) => note(alloc, slots, books, moment, command, reply),
        Command::Void(_) => note(alloc, slots, books, moment, command, reply),
        Command::StartPoll(start) => {
            start_at(alloc, slots, books, moment, command, &start.device, reply)
        }
        Command::StartRound(round) => {
            start_at(alloc, slots, books, moment, command, &round.device, reply)
        }
    }
}

/// Executes an event that the office (the event engine) accepted and that requests a command.
///
/// The command's records and the stored answer to the request are written together. The command's
/// polls are started, and a new device gets a slot for its connection. After an error, the
/// connections and the records are unchanged.
pub fn carry_out<B: Books>(
    alloc: Global,
    slots: &mut Vec<Slot>,
    books: &mut B,
    moment: u64,
    event: &Event,
) -> Result<Done, BooksFault>
    requires asks { AsksCommand event.now }
    requires range { AsksInRange moment (command_in event.now) }
    requires limit { moment ≤ LAST_MOMENT }
    requires there { AsksOnSlot slots.old.items (command_in event.now) }
    ensures carried { CarriesEvent (B.ledger books.old) (B.ledger books.new) slots.old.items
        slots.new.items moment event.now result }
    ensures unchanged { OnErr result (slots.new.items ≡ slots.old.items) }
    ensures goes { LedgerAfterCalls (B.ledger books.old) (B.ledger books.new) result }
{
    let reply = reply_of(moment, event)?;
    match event {
        Event::Command(command) => obey(alloc, slots, books, moment, command, reply),
        Event::Asked(asked) => obey(alloc, slots, books, moment, &asked.command, reply),
        Event::Connected(_) => unreachable!(),
        Event::Bytes(_, _) => unreachable!(),
        Event::Tick => unreachable!(),
        Event::Gone(_, _) => unreachable!(),
    }
}
