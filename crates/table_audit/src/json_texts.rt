//! Writes the findings of an audit as JSON, one object a line.
ghost use Rattle.std.specs.Prelude.{◌≡◌, ◌++◌, OnOk, codes};
ghost use Rattle.table_audit.specs.JsonTexts as json;

use crate::differences::{Difference, PollFault};
use crate::findings::{Counts, Finding, Findings};
use crate::texts::{named_table, table_name, write_cause};
use crate::values::{append_bytes, write_number, write_scale, write_word};
use energy_core::Last;
use meter_journal::audit::IntervalFault;
use office_events::Name;
use std::alloc::AllocError;

// Functions that return a word of a JSON object.

fn kind_word(difference: &Difference) -> &'static [u8]
    ensures { result.now ≡ json.kind_word difference.now }
{
    match difference {
        Difference::OutOfRange(_) => b"range",
        Difference::Unnamed { .. } => b"unnamed",
        Difference::Unreadable { .. } => b"unreadable",
        Difference::Installation { .. } => b"place",
        Difference::NotOpened => b"opening",
        Difference::Entry { .. } => b"entry",
        Difference::Void { .. } => b"void",
        Difference::EarlyVoid { .. } => b"void_early",
        Difference::Interval(_) => b"interval",
        Difference::Last { .. } => b"last",
        Difference::Total { .. } => b"total",
        Difference::Ended { .. } => b"ended",
        Difference::NoPolls { .. } => b"polls_missing",
        Difference::Poll { .. } => b"poll",
        Difference::Overlap { .. } => b"overlap",
    }
}

fn poll_word(fault: PollFault) -> &'static [u8]
    ensures { result.now ≡ json.poll_word fault }
{
    match fault {
        PollFault::OutOfRange => b"value",
        PollFault::EndOutOfRange => b"outcome_value",
        PollFault::OutOfOrder => b"order",
        PollFault::EndedBefore => b"outcome_before",
        PollFault::StartedBefore => b"start_before",
    }
}

fn ended_members(wanted: bool) -> &'static [u8]
    ensures { result.now ≡ json.ended_members wanted }
{
    if wanted {
        b",\"has\":false,\"expected\":true"
    } else {
        b",\"has\":true,\"expected\":false"
    }
}

// Functions that append parts of a JSON object to a text. If memory runs out, the text is
// incomplete.

fn write_quoted(text: &mut Vec<u8>, before: &[u8], word: &[u8]) -> Result<(), AllocError>
    ensures { OnOk result (text.new.items ≡ json.with_quoted text.old.items before.now word.now) }
{
    append_bytes(text, before)?;
    write_word(text, b"\"", word)?;
    append_bytes(text, b"\"")
}

fn write_has(text: &mut Vec<u8>, mwh: u64) -> Result<(), AllocError>
    ensures { OnOk result (text.new.items ≡ json.with_has text.old.items mwh) }
{
    write_number(text, b",\"has\":\"", mwh)?;
    append_bytes(text, b"\"")
}

fn write_expected(text: &mut Vec<u8>, mwh: u64) -> Result<(), AllocError>
    ensures { OnOk result (text.new.items ≡ json.with_expected text.old.items mwh) }
{
    write_number(text, b",\"expected\":\"", mwh)?;
    append_bytes(text, b"\"")
}

fn write_interval(text: &mut Vec<u8>, fault: IntervalFault) -> Result<(), AllocError>
    ensures { OnOk result (text.new.items ≡ json.with_interval text.old.items fault) }
{
    match fault {
        IntervalFault::Missing { start, wanted } => {
            write_number(text, b",\"start\":", start)?;
            append_bytes(text, b",\"has\":null")?;
            write_expected(text, wanted)
        }
        IntervalFault::Unwanted { start, has } => {
            write_number(text, b",\"start\":", start)?;
            write_has(text, has)?;
            append_bytes(text, b",\"expected\":null")
        }
        IntervalFault::Differs { start, has, wanted } => {
            write_number(text, b",\"start\":", start)?;
            write_has(text, has)?;
            write_expected(text, wanted)
        }
    }
}

fn write_counter(text: &mut Vec<u8>, before: &[u8], last: Last) -> Result<(), AllocError>
    ensures { OnOk result (text.new.items ≡ json.with_stand text.old.items before.now last) }
{
    append_bytes(text, before)?;
    write_number(text, b"{\"at\":", last.at)?;
    write_number(text, b",\"raw\":", u64::from(last.raw))?;
    write_scale(text, b",\"scale\":", last.sf)?;
    append_bytes(text, b"}")
}

fn write_overlap(
    text: &mut Vec<u8>,
    register: &Name,
    earlier: &Name,
    later: &Name,
) -> Result<(), AllocError>
    ensures { OnOk result (text.new.items ≡ json.with_quoted
        (json.with_quoted (json.with_quoted text.old.items (codes ",\"register\":") register.now)
        (codes ",\"earlier\":") earlier.now) (codes ",\"later\":") later.now) }
{
    write_quoted(text, b",\"register\":", register.as_bytes())?;
    write_quoted(text, b",\"earlier\":", earlier.as_bytes())?;
    write_quoted(text, b",\"later\":", later.as_bytes())
}

fn write_members(text: &mut Vec<u8>, difference: Difference) -> Result<(), AllocError>
    ensures { OnOk result (text.new.items ≡ json.with_members text.old.items difference) }
{
    match difference {
        Difference::OutOfRange(table) => write_quoted(text, b",\"table\":", table_name(table)),
        Difference::Unnamed { table, row } | Difference::Unreadable { table, row } => {
            write_quoted(text, b",\"table\":", named_table(table))?;
            write_number(text, b",\"row\":", row)
        }
        Difference::Installation { has, wanted } => {
            write_number(text, b",\"has\":", has)?;
            write_number(text, b",\"expected\":", wanted)
        }
        Difference::NotOpened => Ok(()),
        Difference::Entry { place, fault } => {
            write_number(text, b",\"index\":", place)?;
            append_bytes(text, b",\"reason\":\"")?;
            write_cause(text, fault)?;
            append_bytes(text, b"\"")
        }
        Difference::Void { place } => write_number(text, b",\"index\":", place),
        Difference::EarlyVoid {
            place,
            moment,
            entered,
        } => {
            write_number(text, b",\"index\":", place)?;
            write_number(text, b",\"at\":", moment)?;
            write_number(text, b",\"entered\":", entered)
        }
        Difference::Interval(fault) => write_interval(text, fault),
        Difference::Last { has, wanted } => {
            write_counter(text, b",\"has\":", has)?;
            write_counter(text, b",\"expected\":", wanted)
        }
        Difference::Total { has, wanted } => {
            write_has(text, has)?;
            write_expected(text, wanted)
        }
        Difference::Ended { wanted } => append_bytes(text, ended_members(wanted)),
        Difference::NoPolls { first, last } => {
            write_number(text, b",\"first\":", first)?;
            write_number(text, b",\"last\":", last)
        }
        Difference::Poll { poll, fault } => {
            write_number(text, b",\"poll\":", poll)?;
            write_quoted(text, b",\"fault\":", poll_word(fault))
        }
        Difference::Overlap {
            register,
            earlier,
            later,
        } => write_overlap(text, &register, &earlier, &later),
    }
}

fn write_meter(text: &mut Vec<u8>, meter: &Option<String>) -> Result<(), AllocError>
    ensures { OnOk result (text.new.items ≡ json.with_meter text.old.items meter.now) }
{
    match meter {
        None => Ok(()),
        Some(name) => write_quoted(text, b",\"meter\":", name.as_bytes()),
    }
}

fn write_object(text: &mut Vec<u8>, finding: &Finding) -> Result<(), AllocError>
    ensures { OnOk result (text.new.items ≡ json.with_object text.old.items finding.now) }
{
    write_quoted(text, b"{\"kind\":", kind_word(&finding.difference))?;
    write_meter(text, &finding.meter)?;
    write_members(text, finding.difference)?;
    append_bytes(text, b"}\n")
}

fn write_objects(text: &mut Vec<u8>, findings: &[Finding]) -> Result<(), AllocError>
    ensures { OnOk result (text.new.items ≡ json.with_objects text.old.items findings.now) }
{
    for finding in findings {
        write_object(text, finding)?;
    }
    Ok(())
}

fn write_counts(text: &mut Vec<u8>, counts: &Counts) -> Result<(), AllocError>
    ensures { OnOk result (text.new.items ≡ json.with_counts text.old.items counts.now) }
{
    write_number(text, b"{\"fine\":true,\"meters\":", counts.meters)?;
    write_number(text, b",\"entries\":", counts.entries)?;
    write_number(text, b",\"intervals\":", counts.intervals)?;
    write_number(text, b",\"polls\":", counts.polls)?;
    append_bytes(text, b"}\n")
}

fn write_total(text: &mut Vec<u8>, all: u64) -> Result<(), AllocError>
    ensures { OnOk result (text.new.items ≡ json.with_total text.old.items all) }
{
    write_number(text, b"{\"fine\":false,\"differences\":", all)?;
    append_bytes(text, b"}\n")
}

fn write_verdict(text: &mut Vec<u8>, found: &Findings) -> Result<(), AllocError>
    ensures { OnOk result (text.new.items ≡ json.with_verdict text.old.items found.now) }
{
    if found.first.len() == 0 {
        return write_counts(text, &found.counts);
    }
    let all = (found.first.len() as u64).saturating_add(found.more);
    write_total(text, all)
}

/// Appends the JSON text of an audit: an object on a line of its own for each stored discrepancy,
/// and a last object with the verdict. If memory runs out, the text is incomplete.
pub fn write_json(text: &mut Vec<u8>, found: &Findings) -> Result<(), AllocError>
    ensures { OnOk result (text.new.items ≡ json.with_json text.old.items found.now) }
{
    write_objects(text, found.first.as_slice())?;
    write_verdict(text, found)
}
