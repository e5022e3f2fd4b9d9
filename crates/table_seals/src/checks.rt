//! The result of checking a file's tables against a seal (digests of earlier records), and the
//! printed lines of this result.
ghost use Rattle.std.specs.Prelude.{◌≡◌, ◌++◌, ◌↔◌, OnOk, IsTrue, flat_map};
ghost use Rattle.table_seals.specs.Checking.{IsAsSealed};
ghost use Rattle.table_seals.specs.Texts as say;

use crate::texts::{append_bytes, write_number, write_word};
use std::alloc::AllocError;
use table_audit::write_count;

/// The result of checking a file against its seal, which has digests of earlier records.
#[derive(Drop)]
pub struct Checked {
    /// The names of the meters that don't match the seal.
    pub differing: Vec<String>,
    /// The sealed lines of the time zone, the devices and the registers that the file no longer
    /// has.
    pub setup: Vec<Vec<u8>>,
    /// The number of sealed meters.
    pub meters: u64,
    /// Whether the polls differ from the seal.
    pub polls_differ: bool,
    /// The printed lines about voids (cancellations of entries) that were recorded after the
    /// sealing.
    pub notes: Vec<u8>,
}

impl Checked {
    /// Returns whether all meters, the time zone, the devices, the registers and the polls match
    /// the seal (digests of earlier records).
    pub fn is_fine(&self) -> bool
        ensures { IsTrue result ↔ IsAsSealed self.now }
    {
        self.differing.is_empty() && self.setup.is_empty() && !self.polls_differ
    }
}

fn write_difference(text: &mut Vec<u8>, meter: &String) -> Result<(), AllocError>
    ensures { OnOk result (text.new.items ≡ text.old.items ++ say.difference_line meter.now) }
{
    write_word(text, b"meter ", meter.as_bytes())?;
    append_bytes(text, b" differs from the seal\n")
}

fn write_differences(text: &mut Vec<u8>, meters: &[String]) -> Result<(), AllocError>
    ensures { OnOk result
        (text.new.items ≡ text.old.items ++ flat_map say.difference_line meters.now) }
{
    for meter in meters {
        write_difference(text, meter)?;
    }
    Ok(())
}

fn write_gone_line(text: &mut Vec<u8>, line: &Vec<u8>) -> Result<(), AllocError>
    ensures { OnOk result (text.new.items ≡ text.old.items ++ say.setup_difference line.now) }
{
    write_word(text, b"not in the file: ", line.as_slice())?;
    append_bytes(text, b"\n")
}

fn write_gone(text: &mut Vec<u8>, lines: &[Vec<u8>]) -> Result<(), AllocError>
    ensures { OnOk result
        (text.new.items ≡ text.old.items ++ flat_map say.setup_difference lines.now) }
{
    for line in lines {
        write_gone_line(text, line)?;
    }
    Ok(())
}

fn write_polls(text: &mut Vec<u8>, differ: bool) -> Result<(), AllocError>
    ensures { OnOk result (text.new.items ≡ text.old.items ++ say.polls_difference differ) }
{
    if differ {
        return append_bytes(text, b"polls differ from the seal\n");
    }
    Ok(())
}

fn add_rest(text: &mut Vec<u8>, setup: u64, polls_differ: bool) -> Result<(), AllocError>
    ensures { OnOk result
        (text.new.items ≡ text.old.items ++ say.rest_line setup polls_differ) }
{
    if setup != 0 {
        return append_bytes(text, b"zone, devices or registers differ\n");
    }
    if polls_differ {
        return append_bytes(text, b"polls differ\n");
    }
    append_bytes(text, b"sealed: fine\n")
}

fn write_differing(text: &mut Vec<u8>, differing: u64, meters: u64) -> Result<(), AllocError>
    ensures { OnOk result (text.new.items ≡ text.old.items ++ say.differing_line differing meters) }
{
    write_number(text, b"", differing)?;
    write_count(text, b" of ", meters, b"meter", b"meters")?;
    if differing == 1 {
        return append_bytes(text, b" differs\n");
    }
    append_bytes(text, b" differ\n")
}

fn write_total(
    text: &mut Vec<u8>,
    differing: u64,
    meters: u64,
    setup: u64,
    polls_differ: bool,
) -> Result<(), AllocError>
    ensures { OnOk result
        (text.new.items ≡ text.old.items ++ say.total_line differing meters setup polls_differ) }
{
    if differing == 0 {
        return add_rest(text, setup, polls_differ);
    }
    write_differing(text, differing, meters)
}

/// Appends the printed result of checking a file against its seal (digests of earlier records): the
/// differences, the verdict, and the lines about later voids (cancellations of entries). If memory
/// runs out, the text is incomplete.
pub fn append_checked(text: &mut Vec<u8>, checked: &Checked) -> Result<(), AllocError>
    ensures { OnOk result (text.new.items ≡ text.old.items ++ say.checked_text checked.now) }
{
    write_differences(text, checked.differing.as_slice())?;
    write_gone(text, checked.setup.as_slice())?;
    write_polls(text, checked.polls_differ)?;
    write_total(
        text,
        checked.differing.len() as u64,
        checked.meters,
        checked.setup.len() as u64,
        checked.polls_differ,
    )?;
    append_bytes(text, checked.notes.as_slice())
}
