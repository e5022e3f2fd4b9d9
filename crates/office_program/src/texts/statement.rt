//! Prints the statements of the meters of an accounting register (a named energy counter) on a
//! range of days. A statement is a report on one meter, to check a bill.
ghost use Rattle.std.specs.Prelude.{◌∷◌, []};
ghost use Rattle.office_core.specs.Asking.{OnlyAsks};
ghost use Rattle.office_program.specs.Texts.Reports.{Asks};
ghost use Rattle.office_program.specs.Texts.Statements as statements;
ghost use Rattle.office_core.specs.Several.{KeepsUnlessRefused};
ghost use Rattle.office_program.specs.Texts.Statements.{AnswersOf, PrintsStatement, States};

use crate::texts::end_texts::{ended, print_refusal};
use command_io::ExitStatus;
use energy_report::{
    EnergyWithin, EntryTally, MeterStatement, RejectedCounts, RejectedWithin, StatementForm,
    was_installed, write_statement,
};
use interval_core::{DayRange, Zone};
use office_books::{Books, Span};
use office_core::{Office, span_around};
use office_events::{Installation, Name, Refusal};
use std::alloc::Global;
use std::io::Write;

// The largest number of meter entries that one query returns. `MOST_PIECES` is the largest number
// of such queries for which each entry's index fits in 64 bits.
const PIECE: u32 = 65536;

const MOST_PIECES: u64 = 281_474_976_710_655;

// Returns the tally of a meter's entries in a range of days: the first and last entry, and the
// corrections. Each query returns a chunk of the entries.
fn tally<B: Books>(
    office: &mut Office<B>,
    zone: &Zone,
    range: &DayRange,
    meter: &Option<Name>,
) -> Result<EntryTally, Refusal>
    ensures reports { AnswersOf B.ledger office.old office.new result
        (λ facts. statements.tally_in zone.now range.now facts meter.now) }
    ensures asks { OnlyAsks B.ledger office.old office.new result }
{
    let mut tally = EntryTally::new();
    for turn in 0..MOST_PIECES {
        match office.entries(meter, turn * 65536 + 1, PIECE) {
            Err(why) => return Err(why),
            Ok(piece) => {
                tally.take_all(zone, range, &piece);
                if piece.len() < 65536 {
                    return Ok(tally);
                }
            }
        }
    }
    Err(Refusal::Memory)
}

// Returns the energy of a meter in a range of days, in mWh. The function queries only quarter hours
// on or near these days.
fn energy<B: Books>(
    office: &mut Office<B>,
    zone: &Zone,
    range: &DayRange,
    meter: &Option<Name>,
) -> Result<u128, Refusal>
    ensures reports { AnswersOf B.ledger office.old office.new result
        (λ facts. statements.energy_in zone.now range.now facts meter.now) }
    ensures asks { OnlyAsks B.ledger office.old office.new result }
{
    let mut energy = EnergyWithin::new(*zone, *range);
    match office.intervals_within(meter, span_around(*range), &mut energy) {
        Ok(()) => Ok(energy.mwh()),
        Err(why) => Err(why),
    }
}

// Returns the counts of a meter's rejected readings in a range of days.
fn held<B: Books>(
    office: &mut Office<B>,
    zone: &Zone,
    range: &DayRange,
    meter: &Option<Name>,
) -> Result<RejectedCounts, Refusal>
    ensures reports { AnswersOf B.ledger office.old office.new result
        (λ facts. statements.held_in zone.now range.now facts meter.now) }
    ensures asks { OnlyAsks B.ledger office.old office.new result }
{
    let mut held = RejectedWithin::new(*zone, *range);
    match office.holds(meter, Span::All, &mut held) {
        Ok(()) => Ok(held.counts()),
        Err(why) => Err(why),
    }
}

// Returns the statement of a meter on a range of days: the numbers against which its bill is
// checked.
fn meter_statement<B: Books>(
    office: &mut Office<B>,
    zone: &Zone,
    range: &DayRange,
    meter: &Name,
) -> Result<MeterStatement, Refusal>
    ensures reports { AnswersOf B.ledger office.old office.new result
        (λ facts. statements.statement_in zone.now range.now facts meter.now) }
    ensures asks { OnlyAsks B.ledger office.old office.new result }
{
    let name = Some(*meter);
    match tally(office, zone, range, &name) {
        Err(why) => Err(why),
        Ok(entries) => match energy(office, zone, range, &name) {
            Err(why) => Err(why),
            Ok(mwh) => match held(office, zone, range, &name) {
                Err(why) => Err(why),
                Ok(held) => Ok(MeterStatement {
                    meter: *meter,
                    entries,
                    mwh,
                    held,
                }),
            },
        },
    }
}

// If the meter was in place on a day of the range, appends the meter's statement (a report to check
// a bill) to a list.
fn add_statement<B: Books>(
    rows: &mut Vec<MeterStatement>,
    office: &mut Office<B>,
    zone: &Zone,
    range: &DayRange,
    row: &Installation,
) -> Result<(), Refusal>
    ensures states { States B.ledger zone.now range.now (row.now ∷ []) office.old office.new
        rows.old.items rows.new.items result }
    ensures asks { KeepsUnlessRefused B.ledger office.old office.new result }
{
    if !was_installed(zone, range, row) {
        return Ok(());
    }
    match meter_statement(office, zone, range, &row.opening.meter) {
        Err(why) => Err(why),
        Ok(statement) => match rows.push(statement) {
            Ok(()) => Ok(()),
            Err(_) => Err(Refusal::Memory),
        },
    }
}

// Appends the statement (a report to check a bill) of each listed meter that was in place on at
// least one day of the range.
fn add_statements<B: Books>(
    rows: &mut Vec<MeterStatement>,
    office: &mut Office<B>,
    zone: &Zone,
    range: &DayRange,
    listed: &[Installation],
) -> Result<(), Refusal>
    ensures states { States B.ledger zone.now range.now listed.now office.old office.new
        rows.old.items rows.new.items result }
    ensures asks { KeepsUnlessRefused B.ledger office.old office.new result }
{
    for row in listed {
        match add_statement(rows, office, zone, range, row) {
            Ok(()) => {}
            Err(why) => return Err(why),
        }
    }
    Ok(())
}

// Returns the statements (reports to check a bill) of the accounting register's meters that were in
// place on at least one day of the range.
fn statements<B: Books>(
    alloc: Global,
    office: &mut Office<B>,
    zone: &Zone,
    range: &DayRange,
    register: &Option<Name>,
) -> Result<Vec<MeterStatement>, Refusal>
    ensures reports { AnswersOf B.ledger office.old office.new (statements.items_of result)
        (λ facts. statements.statements_in zone.now range.now facts register.now) }
    ensures asks { OnlyAsks B.ledger office.old office.new result }
{
    match office.meters(register) {
        Err(why) => Err(why),
        Ok(listed) => {
            let mut rows = Vec::new(alloc);
            match add_statements(&mut rows, office, zone, range, &listed) {
                Ok(()) => Ok(rows),
                Err(why) => Err(why),
            }
        }
    }
}

/// Prints the statements (reports to check a bill) of the accounting register's meters that were in
/// place on at least one day of the range. The meters come in the order of installation.
///
/// The statement of a meter has its counter at its first and last entry in the range, and its
/// energy in the range. The statement also has the meter's corrections and the number of its
/// rejected readings. If the office (the event engine) refuses a query, only `refused N` is
/// printed. If `register` is `None`, the query is treated as one for an unknown register.
pub fn report_statement<B: Books, W: Write>(
    alloc: Global,
    office: &mut Office<B>,
    zone: &Zone,
    register: &Option<Name>,
    form: &StatementForm,
    output: &mut W,
) -> ExitStatus
    ensures prints { PrintsStatement B.Books W.Write zone.now register.now form.now
        office.old office.new output.old output.new result }
    ensures asks { Asks B.ledger office.old office.new }
{
    match statements(alloc, office, zone, &form.range, register) {
        Ok(rows) => {
            let written = write_statement(form, &rows, output);
            ended(written, ExitStatus::Fine)
        }
        Err(why) => print_refusal(why, output),
    }
}
