//! Writes the printed lines of an audit.
ghost use Rattle.std.specs.Prelude.{◌≡◌, OnOk, codes};
ghost use Rattle.table_audit.specs.Texts as say;

use crate::differences::{Difference, NamedTable, PollFault, Table};
use crate::findings::{Counts, Finding, Findings};
use crate::values::{
    append_bytes, write_count, write_energy, write_moment, write_number, write_scale, write_word,
};
use energy_core::Last;
use meter_journal::audit::{IntervalFault, RowFault};
use office_events::Name;
use std::alloc::AllocError;

// Functions that append parts of a line that an audit prints to a text. If memory runs out, the
// text is incomplete.

pub(crate) fn table_name(table: Table) -> &'static [u8]
    ensures { result.now ≡ say.table_name table }
{
    match table {
        Table::Installations => b"installations",
        Table::Ranges => b"ranges",
        Table::Entries => b"entries",
        Table::Voids => b"voids",
        Table::Intervals => b"intervals",
    }
}

/// Appends the reason for which the rules for entries reject a meter entry, given the earlier
/// entries.
pub(crate) fn write_cause(text: &mut Vec<u8>, cause: RowFault) -> Result<(), AllocError>
    ensures { OnOk result (text.new.items ≡ say.with_cause text.old.items cause) }
{
    match cause {
        RowFault::Place { wanted } => write_number(text, b"the next place is ", wanted),
        RowFault::OpenedAgain => append_bytes(text, b"the meter was opened before"),
        RowFault::AfterClosing => append_bytes(text, b"the meter was closed before"),
        RowFault::CannotBeVoided => append_bytes(text, b"a void names it, and it is no reading"),
        RowFault::Unused => append_bytes(text, b"a column that its kind has no use for is not 0"),
        RowFault::Scale { wanted } => write_scale(text, b"the scale factor there is ", wanted),
        RowFault::Held(why) => {
            let number = u64::from(why.number());
            write_number(text, b"it would be held, cause ", number)
        }
        RowFault::Rolls { wanted } => {
            write_number(text, b"the rollovers there are ", u64::from(wanted))
        }
        RowFault::Refused(why) => {
            let number = u64::from(why.number());
            write_number(text, b"it would be refused, fault ", number)
        }
    }
}

/// Appends the prefix `before`, then the stored energy and the energy that follows from the meter's
/// entries, both in mWh.
fn write_energies(
    text: &mut Vec<u8>,
    before: &[u8],
    has: u64,
    wanted: u64,
) -> Result<(), AllocError>
    ensures { OnOk result
        (text.new.items ≡ say.with_energies text.old.items before.now has wanted) }
{
    write_energy(text, before, has)?;
    write_energy(text, b", entries give ", wanted)
}

fn append_interval(text: &mut Vec<u8>, fault: IntervalFault) -> Result<(), AllocError>
    ensures { OnOk result (text.new.items ≡ say.with_interval text.old.items fault) }
{
    match fault {
        IntervalFault::Missing { start, wanted } => {
            write_moment(text, b"interval ", start)?;
            write_energy(text, b" has no row, entries give ", wanted)
        }
        IntervalFault::Unwanted { start, has } => {
            write_moment(text, b"interval ", start)?;
            write_energy(text, b" has ", has)?;
            append_bytes(text, b", entries give none")
        }
        IntervalFault::Differs { start, has, wanted } => {
            write_moment(text, b"interval ", start)?;
            write_energies(text, b" has ", has, wanted)
        }
    }
}

/// Appends to a text the prefix `before`, then a counter's timestamp, raw value and scale factor.
fn write_counter(text: &mut Vec<u8>, before: &[u8], last: Last) -> Result<(), AllocError>
    ensures { OnOk result (text.new.items ≡ say.with_stand text.old.items before.now last) }
{
    write_moment(text, before, last.at)?;
    write_number(text, b" ", u64::from(last.raw))?;
    write_scale(text, b" ", last.sf)
}

fn write_latest(text: &mut Vec<u8>, has: Last, wanted: Last) -> Result<(), AllocError>
    ensures { OnOk result (text.new.items ≡ say.with_stand
        (say.with_stand text.old.items (codes "last has ") has) (codes ", entries give ") wanted) }
{
    write_counter(text, b"last has ", has)?;
    write_counter(text, b", entries give ", wanted)
}

/// Appends that the void record of the entry at index `place` is earlier than the entry.
fn write_early_void(
    text: &mut Vec<u8>,
    place: u64,
    moment: u64,
    entered: u64,
) -> Result<(), AllocError>
    ensures { OnOk result (text.new.items ≡ say.with_early_void text.old.items place moment entered) }
{
    write_number(text, b"void ", place)?;
    write_moment(text, b" at ", moment)?;
    write_moment(text, b" is before its entry at ", entered)
}

fn write_ended(text: &mut Vec<u8>, wanted: bool) -> Result<(), AllocError>
    ensures { OnOk result (text.new.items ≡ say.with_ended text.old.items wanted) }
{
    if wanted {
        append_bytes(text, b"is not ended, entries end it")
    } else {
        append_bytes(text, b"is ended, entries don't end it")
    }
}

fn append_poll(text: &mut Vec<u8>, poll: u64, fault: PollFault) -> Result<(), AllocError>
    ensures { OnOk result (text.new.items ≡ say.with_poll text.old.items poll fault) }
{
    write_number(text, b"poll ", poll)?;
    match fault {
        PollFault::OutOfRange => append_bytes(text, b" has a value that none may have"),
        PollFault::EndOutOfRange => append_bytes(text, b" outcome has a value that none may have"),
        PollFault::OutOfOrder => append_bytes(text, b" is out of order"),
        PollFault::EndedBefore => append_bytes(text, b" outcome comes before the poll"),
        PollFault::StartedBefore => append_bytes(text, b" starts before an earlier poll"),
    }
}

fn write_missing(text: &mut Vec<u8>, first: u64, last: u64) -> Result<(), AllocError>
    ensures { OnOk result (text.new.items ≡ say.with_missing text.old.items first last) }
{
    if first == last {
        write_number(text, b"poll ", first)?;
        return append_bytes(text, b" is missing");
    }
    write_number(text, b"polls ", first)?;
    write_number(text, b" to ", last)?;
    append_bytes(text, b" are missing")
}

pub(crate) fn named_table(table: NamedTable) -> &'static [u8]
    ensures { result.now ≡ say.named_table table }
{
    match table {
        NamedTable::Installations => b"installations",
        NamedTable::Devices => b"devices",
        NamedTable::Points => b"points",
        NamedTable::Registers => b"registers",
    }
}

fn unnamed_text(table: NamedTable) -> &'static [u8]
    ensures { result.now ≡ say.unnamed_text table }
{
    match table {
        NamedTable::Installations => b" of installations names no meter",
        NamedTable::Devices => b" of devices names no device",
        NamedTable::Points => b" of points names no point",
        NamedTable::Registers => b" of registers names no register",
    }
}

fn write_overlap(
    text: &mut Vec<u8>,
    register: &Name,
    earlier: &Name,
    later: &Name,
) -> Result<(), AllocError>
    ensures { OnOk result (text.new.items
        ≡ say.with_overlap text.old.items register.now earlier.now later.now) }
{
    write_word(text, b"register ", register.as_bytes())?;
    write_word(text, b": meters ", earlier.as_bytes())?;
    write_word(text, b" and ", later.as_bytes())?;
    append_bytes(text, b" overlap")
}

fn write_difference(text: &mut Vec<u8>, difference: Difference) -> Result<(), AllocError>
    ensures { OnOk result (text.new.items ≡ say.with_difference text.old.items difference) }
{
    match difference {
        Difference::OutOfRange(table) => {
            write_word(text, b"has a row in ", table_name(table))?;
            append_bytes(text, b" with a value that none may have")
        }
        Difference::Unnamed { table, row } => {
            write_number(text, b"row ", row)?;
            append_bytes(text, unnamed_text(table))
        }
        Difference::Unreadable { table, row } => {
            append_bytes(text, named_table(table))?;
            write_number(text, b" row ", row)?;
            append_bytes(text, b" has a value out of its range")
        }
        Difference::Installation { has, wanted } => {
            write_number(text, b"place has ", has)?;
            write_number(text, b", the next is ", wanted)
        }
        Difference::NotOpened => append_bytes(text, b"is opened by no lawful entry"),
        Difference::Entry { place, fault } => {
            write_number(text, b"entry ", place)?;
            append_bytes(text, b" can't come there: ")?;
            write_cause(text, fault)
        }
        Difference::Void { place } => {
            write_number(text, b"void of entry ", place)?;
            append_bytes(text, b" names none, or one that another names")
        }
        Difference::EarlyVoid {
            place,
            moment,
            entered,
        } => write_early_void(text, place, moment, entered),
        Difference::Interval(fault) => append_interval(text, fault),
        Difference::Last { has, wanted } => write_latest(text, has, wanted),
        Difference::Total { has, wanted } => write_energies(text, b"total has ", has, wanted),
        Difference::Ended { wanted } => write_ended(text, wanted),
        Difference::NoPolls { first, last } => write_missing(text, first, last),
        Difference::Poll { poll, fault } => append_poll(text, poll, fault),
        Difference::Overlap {
            register,
            earlier,
            later,
        } => write_overlap(text, &register, &earlier, &later),
    }
}

fn append_meter(text: &mut Vec<u8>, meter: &Option<String>) -> Result<(), AllocError>
    ensures { OnOk result (text.new.items ≡ say.with_meter text.old.items meter.now) }
{
    match meter {
        None => Ok(()),
        Some(name) => {
            write_word(text, b"meter ", name.as_bytes())?;
            append_bytes(text, b" ")
        }
    }
}

fn write_line(text: &mut Vec<u8>, finding: &Finding) -> Result<(), AllocError>
    ensures { OnOk result (text.new.items ≡ say.with_line text.old.items finding.now) }
{
    append_meter(text, &finding.meter)?;
    write_difference(text, finding.difference)?;
    append_bytes(text, b"\n")
}

fn write_lines(text: &mut Vec<u8>, findings: &[Finding]) -> Result<(), AllocError>
    ensures { OnOk result (text.new.items ≡ say.with_lines text.old.items findings.now) }
{
    for finding in findings {
        write_line(text, finding)?;
    }
    Ok(())
}

fn write_more(text: &mut Vec<u8>, more: u64) -> Result<(), AllocError>
    ensures { OnOk result (text.new.items ≡ say.with_more text.old.items more) }
{
    if more == 0 {
        return Ok(());
    }
    write_number(text, b"and ", more)?;
    append_bytes(text, b" more\n")
}

fn write_counts(text: &mut Vec<u8>, counts: &Counts) -> Result<(), AllocError>
    ensures { OnOk result (text.new.items ≡ say.with_counts text.old.items counts.now) }
{
    write_count(text, b"fine: ", counts.meters, b"meter", b"meters")?;
    write_count(text, b", ", counts.entries, b"entry", b"entries")?;
    write_count(text, b", ", counts.intervals, b"interval", b"intervals")?;
    write_count(text, b", ", counts.polls, b"poll", b"polls")?;
    append_bytes(text, b"\n")
}

fn write_total(text: &mut Vec<u8>, all: u64) -> Result<(), AllocError>
    ensures { OnOk result (text.new.items ≡ say.with_total text.old.items all) }
{
    write_count(text, b"", all, b"difference", b"differences")?;
    append_bytes(text, b"\n")
}

fn append_end(text: &mut Vec<u8>, found: &Findings) -> Result<(), AllocError>
    ensures { OnOk result (text.new.items ≡ say.with_end text.old.items found.now) }
{
    if found.first.len() == 0 {
        return write_counts(text, &found.counts);
    }
    let all = (found.first.len() as u64).saturating_add(found.more);
    write_total(text, all)
}

/// Appends the printed text of an audit: one line for each stored discrepancy, the number of
/// further discrepancies, and a last line. If memory runs out, the text is incomplete.
pub fn write_findings(text: &mut Vec<u8>, found: &Findings) -> Result<(), AllocError>
    ensures { OnOk result (text.new.items ≡ say.with_findings text.old.items found.now) }
{
    write_lines(text, found.first.as_slice())?;
    write_more(text, found.more)?;
    append_end(text, found)
}
