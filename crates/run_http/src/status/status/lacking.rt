//! Formats what is missing in the store for devices, as JSON of `/status`.
ghost use Rattle.std.specs.Prelude.{◌≡◌, OnOk};
ghost use Rattle.run_http.specs.Status.Status.LackingText as json;

use crate::status::advice::{DeviceLack, Lack};
use crate::status::status::pieces::{append_bytes, write_word};
use office_events::Register;
use std::alloc::AllocError;

fn write_device(text: &mut Vec<u8>, before: &[u8], lack: &DeviceLack) -> Result<(), AllocError>
    ensures { OnOk result (text.new.items ≡ json.with_device before.now text.old.items lack.now) }
{
    match &lack.device {
        Some(name) => write_word(text, before, name.as_bytes()),
        None => append_bytes(text, before),
    }
}

fn write_register(text: &mut Vec<u8>, before: &[u8], register: &Register) -> Result<(), AllocError>
    ensures { OnOk result (text.new.items
        ≡ json.with_register before.now text.old.items register.now) }
{
    write_word(text, before, register.name.as_bytes())?;
    append_bytes(text, b"\"}")
}

fn write_what(text: &mut Vec<u8>, lack: &Lack) -> Result<(), AllocError>
    ensures { OnOk result (text.new.items ≡ json.with_what text.old.items lack.now) }
{
    match lack {
        Lack::NoDevice => append_bytes(text, b"\",\"lack\":\"no_device\"}"),
        Lack::NoList => append_bytes(text, b"\",\"lack\":\"no_list\"}"),
        Lack::NoRegister => append_bytes(text, b"\",\"lack\":\"no_register\"}"),
        Lack::NotInList(register) => {
            write_register(
                text,
                b"\",\"lack\":\"not_in_list\",\"register\":\"",
                register,
            )
        }
        Lack::NoMeter(register) => {
            write_register(text, b"\",\"lack\":\"no_meter\",\"register\":\"", register)
        }
    }
}

fn write_lack(text: &mut Vec<u8>, before: &[u8], lack: &DeviceLack) -> Result<(), AllocError>
    ensures { OnOk result (text.new.items ≡ json.with_lack before.now text.old.items lack.now) }
{
    write_device(text, before, lack)?;
    write_what(text, &lack.lack)
}

// Appends devices and what is missing for them (such as a point list) as JSON, each with a comma
// before it.
fn write_more_lacks(text: &mut Vec<u8>, lacks: &[DeviceLack]) -> Result<(), AllocError>
    ensures { OnOk result (text.new.items ≡ json.with_more_lacks text.old.items lacks.now) }
{
    for lack in lacks {
        write_lack(text, b",{\"device\":\"", lack)?;
    }
    Ok(())
}

// Appends devices and what is missing for them (such as a point list) as JSON, with commas between
// them.
fn write_each(text: &mut Vec<u8>, lacks: &[DeviceLack]) -> Result<(), AllocError>
    ensures { OnOk result (text.new.items ≡ json.with_each text.old.items lacks.now) }
{
    match lacks {
        [] => Ok(()),
        [first, more @ ..] => {
            write_lack(text, b"{\"device\":\"", first)?;
            write_more_lacks(text, more)
        }
    }
}

/// Appends the JSON member `lacks` of `/status`: what is missing in the store for devices, such as
/// a point list.
pub(crate) fn write_lacks(text: &mut Vec<u8>, lacks: &[DeviceLack]) -> Result<(), AllocError>
    ensures { OnOk result (text.new.items ≡ json.with_lacks text.old.items lacks.now) }
{
    append_bytes(text, b",\"lacks\":[")?;
    write_each(text, lacks)?;
    append_bytes(text, b"]")
}
