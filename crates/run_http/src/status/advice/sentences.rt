//! Messages for operators: what is missing in the store or wrong, and what to do about it.
ghost use Rattle.std.specs.Prelude.{◌≡◌, ◌≤◌, ◌-◌, ◌^◌, OnOk};
ghost use Rattle.run_http.specs.Status.Advice.Sentences as sentences;

use crate::status::advice::lacks::{DeviceLack, Lack};
use crate::status::status::{append_bytes, write_number, write_word};
use energy_core::Cause;
use office_events::{Command, Event, Name, Refusal, Register, ScaleSource};
use printed_numbers::{Kind, Meaning, meaning_of};
use std::alloc::AllocError;

// Appends the device's name to a message for operators, or `-` if the message concerns no single
// device.
fn write_subject(text: &mut Vec<u8>, device: &Option<Name>) -> Result<(), AllocError>
    ensures { OnOk result (text.new.items ≡ sentences.with_subject device.now text.old.items) }
{
    match device {
        Some(name) => write_word(text, b"sunreg: ", name.as_bytes()),
        None => append_bytes(text, b"sunreg: -"),
    }
}

// Returns the first Modbus address that a reading of the accounting register (a named energy
// counter) needs.
fn first_needed(register: &Register) -> u64
    ensures { result ≡ sentences.first_needed register.now }
{
    let counter = u64::from(register.address);
    match register.scale {
        ScaleSource::Fixed(_) => counter,
        ScaleSource::Register(address) => counter.min(u64::from(address)),
    }
}

// Returns the last Modbus address that a reading of the accounting register (a named energy
// counter) needs.
fn last_needed(register: &Register) -> u64
    ensures { result ≡ sentences.last_needed register.now }
{
    let counter = u64::from(register.address) + 1;
    match register.scale {
        ScaleSource::Fixed(_) => counter,
        ScaleSource::Register(address) => counter.max(u64::from(address)),
    }
}

// Appends to a message for operators the name of the device whose point list does not cover an
// accounting register (a named energy counter).
fn write_list_of(text: &mut Vec<u8>, device: &Option<Name>) -> Result<(), AllocError>
    ensures { OnOk result (text.new.items ≡ sentences.with_list_of device.now text.old.items) }
{
    match device {
        Some(name) => write_word(text, b": missing from the point list of ", name.as_bytes()),
        None => write_word(text, b": missing from the point list of ", b"-"),
    }
}

// Appends the message for operators that no read of the point list covers an accounting register (a
// named energy counter), with the Modbus addresses to add.
fn write_unread(
    text: &mut Vec<u8>,
    device: &Option<Name>,
    register: &Register,
) -> Result<(), AllocError>
    ensures { OnOk result (text.new.items
        ≡ sentences.with_unread device.now register.now text.old.items) }
{
    write_word(text, b"sunreg: register ", register.name.as_bytes())?;
    write_list_of(text, device)?;
    write_number(
        text,
        b"; add function ",
        u64::from(register.function.code()),
    )?;
    write_number(text, b", registers ", first_needed(register))?;
    write_number(text, b" to ", last_needed(register))?;
    append_bytes(text, b" to it\n")
}

fn write_unmetered(text: &mut Vec<u8>, register: &Register) -> Result<(), AllocError>
    ensures { OnOk result (text.new.items ≡ sentences.with_unmetered register.now text.old.items) }
{
    write_word(text, b"sunreg: register ", register.name.as_bytes())?;
    write_word(
        text,
        b": no open meter; install one with POST /registers/",
        register.name.as_bytes(),
    )?;
    append_bytes(text, b"/install\n")
}

fn write_unlisted(text: &mut Vec<u8>, device: &Option<Name>) -> Result<(), AllocError>
    ensures { OnOk result (text.new.items ≡ sentences.with_unlisted device.now text.old.items) }
{
    write_subject(text, device)?;
    match device {
        Some(name) => write_word(
            text,
            b": no point list; create one with sunreg scan --list, then POST /devices/",
            name.as_bytes(),
        )?,
        None => append_bytes(
            text,
            b": no point list; create one with sunreg scan --list, then POST /devices/-",
        )?,
    }
    append_bytes(text, b"/list\n")
}

/// Appends a message for operators that says what is missing in the store for a device and what to
/// do. If memory runs out, only a part of the message was appended.
pub fn write_lack(text: &mut Vec<u8>, lack: &DeviceLack) -> Result<(), AllocError>
    ensures { OnOk result (text.new.items ≡ sentences.with_lack lack.now text.old.items) }
{
    let device = &lack.device;
    match &lack.lack {
        Lack::NoDevice => {
            write_subject(text, device)?;
            append_bytes(
                text,
                b": the office has no device with this name; add it with POST /devices\n",
            )
        }
        Lack::NoList => write_unlisted(text, device),
        Lack::NoRegister => {
            write_subject(text, device)?;
            append_bytes(
                text,
                b": no register, so its energy is not recorded; add one with POST /registers\n",
            )
        }
        Lack::NotInList(register) => write_unread(text, device, register),
        Lack::NoMeter(register) => write_unmetered(text, register),
    }
}

// Appends to a message the text `before`, the meaning of an error number, and what the operator can
// do.
fn append_meaning(text: &mut Vec<u8>, before: &[u8], meaning: &Meaning) -> Result<(), AllocError>
    ensures { OnOk result (text.new.items
        ≡ sentences.with_meaning before.now meaning.now text.old.items) }
{
    write_word(text, before, meaning.means.as_bytes())?;
    write_word(text, b"; ", meaning.remedy.as_bytes())?;
    append_bytes(text, b"\n")
}

// Returns what is missing for the device, if that is why the program refused the device's event.
// Returns `None` if a message for operators should explain the refusal's number instead.
fn lack_by(event: &Event, why: Refusal) -> Option<Lack>
    ensures { result ≡ sentences.lack_by event.now why }
{
    match (why, event) {
        (Refusal::NotFound, Event::Connected(_)) => Some(Lack::NoDevice),
        (Refusal::NotFound, Event::Command(Command::StartRound(_))) => Some(Lack::NoList),
        _ => None,
    }
}

/// Appends a message for operators that explains why the program refused a device's event, and what
/// to do. If memory runs out, only a part of the message was appended.
pub fn append_refusal(
    text: &mut Vec<u8>,
    device: &Option<Name>,
    event: &Event,
    why: Refusal,
) -> Result<(), AllocError>
    ensures { sentences.PutsRefusal device.now event.now why text.old.items text.new.items result }
{
    if let Some(lack) = lack_by(event, why) {
        return write_lack(
            text,
            &DeviceLack {
                device: *device,
                lack,
            },
        );
    }
    match meaning_of(Kind::Refused, u32::from(why.number())) {
        Some(meaning) => {
            write_subject(text, device)?;
            append_meaning(text, b": ", meaning)
        }
        None => Ok(()),
    }
}

/// Appends a message for operators that explains why the program rejected a meter's reading, and
/// what to do. If memory runs out, only a part of the message was appended.
pub fn write_held(text: &mut Vec<u8>, meter: &Name, cause: Cause) -> Result<(), AllocError>
    ensures { sentences.PutsHeld meter.now cause text.old.items text.new.items result }
{
    match meaning_of(Kind::Held, u32::from(cause.number())) {
        Some(meaning) => {
            write_word(text, b"sunreg: ", meter.as_bytes())?;
            append_meaning(text, b": reading rejected: ", meaning)
        }
        None => Ok(()),
    }
}
