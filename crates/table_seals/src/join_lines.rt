//! Writes the printed lines of the check that each database file continues the meters of the files
//! before it.
ghost use Rattle.std.specs.Prelude.{◌≡◌, ◌++◌, OnOk, IfOk, flat_map, decimal};
ghost use Rattle.table_seals.specs.Joins as joins;
ghost use Rattle.table_seals.specs.JoinTexts as say;

use crate::filed::{FiledMeter, FiledOffice};
use crate::join_faults::JoinFault;
use crate::texts::{append_bytes, write_number, write_scale, write_word};
use energy_core::Last;
use std::alloc::{AllocError, Global};
use table_audit::{MOST, write_count, write_moment};

// The following functions append parts of a printed line about the difference between two database
// files. If memory runs out, the text is incomplete.

fn write_counter(text: &mut Vec<u8>, last: &Last) -> Result<(), AllocError>
    ensures { OnOk result (text.new.items ≡ text.old.items ++ say.stand last.now) }
{
    write_moment(text, b"", last.at)?;
    write_number(text, b" ", u64::from(last.raw))?;
    write_scale(text, b" ", last.sf)
}

/// Appends a part of a printed line: a value in a file and the different value in the earlier file.
fn add_words(
    text: &mut Vec<u8>,
    what: &[u8],
    has: &[u8],
    had: &[u8],
    old: &FiledMeter<'_>,
    new: &FiledMeter<'_>,
) -> Result<(), AllocError>
    ensures { OnOk result (text.new.items ≡ text.old.items
        ++ say.both_say what.now has.now had.now old.now new.now) }
{
    write_word(text, what, has)?;
    write_word(text, b" in ", new.file.as_bytes())?;
    write_word(text, b", and ", had)?;
    write_word(text, b" in ", old.file.as_bytes())
}

fn append_numbers(
    text: &mut Vec<u8>,
    what: &[u8],
    has: u64,
    had: u64,
    old: &FiledMeter<'_>,
    new: &FiledMeter<'_>,
) -> Result<(), AllocError>
    ensures { OnOk result (text.new.items ≡ text.old.items
        ++ say.both_say what.now (decimal has) (decimal had) old.now new.now) }
{
    write_number(text, what, has)?;
    write_word(text, b" in ", new.file.as_bytes())?;
    write_number(text, b", and ", had)?;
    write_word(text, b" in ", old.file.as_bytes())
}

fn write_files(
    text: &mut Vec<u8>,
    before: &[u8],
    between: &[u8],
    old: &FiledMeter<'_>,
    new: &FiledMeter<'_>,
) -> Result<(), AllocError>
    ensures { OnOk result (text.new.items ≡ text.old.items
        ++ say.both_files before.now between.now old.now new.now) }
{
    write_word(text, before, new.file.as_bytes())?;
    write_word(text, between, old.file.as_bytes())
}

fn write_file(
    text: &mut Vec<u8>,
    before: &[u8],
    after: &[u8],
    new: &FiledMeter<'_>,
) -> Result<(), AllocError>
    ensures { OnOk result
        (text.new.items ≡ text.old.items ++ say.one_file before.now after.now new.now) }
{
    write_word(text, before, new.file.as_bytes())?;
    append_bytes(text, after)
}

fn write_opening(
    text: &mut Vec<u8>,
    old: &FiledMeter<'_>,
    new: &FiledMeter<'_>,
) -> Result<(), AllocError>
    ensures { OnOk result
        (text.new.items ≡ text.old.items ++ say.fault_text JoinFault.Opening old.now new.now) }
{
    write_word(text, b"begins in ", new.file.as_bytes())?;
    append_bytes(text, b" at ")?;
    write_counter(text, &new.installed.opening)?;
    write_word(text, b", stands in ", old.file.as_bytes())?;
    append_bytes(text, b" at ")?;
    write_counter(text, &old.standing.last)
}

fn append_fault(
    text: &mut Vec<u8>,
    fault: JoinFault,
    old: &FiledMeter<'_>,
    new: &FiledMeter<'_>,
) -> Result<(), AllocError>
    ensures { OnOk result
        (text.new.items ≡ text.old.items ++ say.fault_text fault old.now new.now) }
{
    match fault {
        JoinFault::Closed => write_files(text, b"is in ", b", and was closed in ", old, new),
        JoinFault::Register => add_words(
            text,
            b"register is ",
            new.register.as_bytes(),
            old.register.as_bytes(),
            old,
            new,
        ),
        JoinFault::Range => append_numbers(
            text,
            b"range is ",
            new.installed.range,
            old.installed.range,
            old,
            new,
        ),
        JoinFault::Ceiling => append_numbers(
            text,
            b"ceiling is ",
            new.installed.ceiling,
            old.installed.ceiling,
            old,
            new,
        ),
        JoinFault::Opening => write_opening(text, old, new),
        JoinFault::Energy => write_file(
            text,
            b"has more energy in all files up to ",
            b" than a meter may have",
            new,
        ),
    }
}

fn append_meter(text: &mut Vec<u8>, meter: &FiledMeter<'_>) -> Result<(), AllocError>
    ensures { OnOk result (text.new.items ≡ text.old.items ++ say.meter_said meter.now) }
{
    write_word(text, b"meter ", meter.meter.as_bytes())?;
    append_bytes(text, b" ")
}

// The following functions return complete printed lines about differences between files.

/// Returns the line that states why a meter of an earlier file does not continue in the next file.
pub(crate) fn fault_line(
    alloc: Global,
    fault: JoinFault,
    old: &FiledMeter<'_>,
    new: &FiledMeter<'_>,
) -> Result<Vec<u8>, AllocError>
    ensures { IfOk result (λ line. line.items
        ≡ say.join_line (joins.Differs fault old.now new.now)) }
{
    let mut line = Vec::new(alloc);
    append_meter(&mut line, new)?;
    append_fault(&mut line, fault, old, new)?;
    append_bytes(&mut line, b"\n")?;
    Ok(line)
}

/// Returns the line for a new meter that begins before the last entry of another meter. Both meters
/// are assigned to the same accounting register (a named energy counter).
pub(crate) fn overlap_line(
    alloc: Global,
    old: &FiledMeter<'_>,
    new: &FiledMeter<'_>,
) -> Result<Vec<u8>, AllocError>
    ensures { IfOk result (λ line. line.items ≡ say.join_line (joins.Overlaps old.now new.now)) }
{
    let mut line = Vec::new(alloc);
    append_meter(&mut line, new)?;
    write_word(&mut line, b"begins in ", new.file.as_bytes())?;
    append_bytes(&mut line, b" at ")?;
    write_counter(&mut line, &new.installed.opening)?;
    write_word(&mut line, b", meter ", old.meter.as_bytes())?;
    write_word(
        &mut line,
        b" stands at its register in ",
        old.file.as_bytes(),
    )?;
    append_bytes(&mut line, b" at ")?;
    write_counter(&mut line, &old.standing.last)?;
    append_bytes(&mut line, b"\n")?;
    Ok(line)
}

/// Returns the line for a meter that is open in the earlier file, but missing in the next file.
pub(crate) fn missing_line(
    alloc: Global,
    old: &FiledMeter<'_>,
    file: &str,
) -> Result<Vec<u8>, AllocError>
    ensures { IfOk result (λ line. line.items ≡ say.join_line (joins.Missing old.now file.now)) }
{
    let mut line = Vec::new(alloc);
    append_meter(&mut line, old)?;
    write_word(&mut line, b"is not in ", file.as_bytes())?;
    write_word(&mut line, b", and is open in ", old.file.as_bytes())?;
    append_bytes(&mut line, b"\n")?;
    Ok(line)
}

/// Returns the line that reports that two database files have different time zones. The line names
/// both zones and both files.
pub(crate) fn zone_line(
    alloc: Global,
    old: &FiledOffice<'_>,
    new: &FiledOffice<'_>,
) -> Result<Vec<u8>, AllocError>
    ensures { IfOk result (λ line. line.items
        ≡ say.join_line (joins.OtherZone (joins.known_of old.now) (joins.known_of new.now))) }
{
    let mut line = Vec::new(alloc);
    write_word(&mut line, b"zone is ", new.zone.as_bytes())?;
    write_word(&mut line, b" in ", new.file.as_bytes())?;
    write_word(&mut line, b", and ", old.zone.as_bytes())?;
    write_word(&mut line, b" in ", old.file.as_bytes())?;
    append_bytes(&mut line, b"\n")?;
    Ok(line)
}

// The following functions write the complete printed text of the check that each file continues the
// meters of the files before it.

fn write_lines(text: &mut Vec<u8>, lines: &[Vec<u8>]) -> Result<(), AllocError>
    ensures { OnOk result (text.new.items ≡ text.old.items
        ++ flat_map say.text_in lines.now) }
{
    for line in lines {
        append_bytes(text, line.as_slice())?;
    }
    Ok(())
}

fn write_more(text: &mut Vec<u8>, more: u64) -> Result<(), AllocError>
    ensures { OnOk result (text.new.items ≡ text.old.items ++ say.more_lines more) }
{
    if more == 0 {
        return Ok(());
    }
    write_number(text, b"and ", more)?;
    append_bytes(text, b" more\n")
}

fn put_differences(text: &mut Vec<u8>, all: u64) -> Result<(), AllocError>
    ensures { OnOk result (text.new.items ≡ text.old.items ++ say.differences_line all) }
{
    write_count(text, b"", all, b"difference", b"differences")?;
    append_bytes(text, b" between files\n")
}

fn put_all(text: &mut Vec<u8>, all: u64) -> Result<(), AllocError>
    ensures { OnOk result (text.new.items ≡ text.old.items ++ say.all_lines all) }
{
    if all == 0 {
        return append_bytes(text, b"joined: fine\n");
    }
    put_differences(text, all)
}

/// Appends the printed text of the check that each file continues the meters of the files before
/// it: the first `MOST` lines, the number of omitted lines, and the total number of lines. If
/// memory runs out, the text is incomplete.
pub fn append_joins(text: &mut Vec<u8>, lines: &[Vec<u8>]) -> Result<(), AllocError>
    ensures { OnOk result (text.new.items ≡ text.old.items ++ say.joined_text lines.now) }
{
    let shown = MOST.min(lines.len());
    write_lines(text, &lines[..shown])?;
    write_more(text, (lines.len() - shown) as u64)?;
    put_all(text, lines.len() as u64)?;
    Ok(())
}
