//! Creates the statements (billing reports) of the meters of an accounting register (a named
//! counter) over several database files.
ghost use Rattle.std.specs.Prelude.{◌≡◌, ◌∷◌, ◌++◌, [], List, map, find, not, IfErr, IfOk, OnOk};
ghost use Rattle.std.specs.Option.{option_map};
ghost use Rattle.office_events.specs.declared.facts.Fact.{Fact};
ghost use Rattle.office_books.specs.Entries.{installations_of};
ghost use Rattle.office_books.specs.Ledgers.{Consults};
ghost use Rattle.carried_books.specs.Joining.Meters as meters;
ghost use Rattle.carried_books.specs.Joining.Meters.{AddOrAreApart, AddsNext, AddsOrIsApart};
ghost use Rattle.carried_books.specs.Joining.Statements.{AddsListed, DoesNotGoOn, HasStated};
ghost use Rattle.carried_books.specs.Joining.Statements.{PrintsRows, StatesJoined, ReportsAll};
ghost use Rattle.carried_books.specs.Joining.Statements.{rows_of_those, stands_of};

use crate::joining::files::{Unjoined, is_recorded};
use crate::joining::keeping::Keeping;
use crate::joining::kept_meters::{KeptMeter, part_in_file, with_part};
use crate::joining::meters::{Apart, both, goes_on, is_before};
use command_io::ExitStatus;
use energy_report::{EntryTally, MeterStatement, StatementForm, was_installed, write_statement};
use interval_core::{DayRange, Zone};
use office_books::{Books, BooksFault};
use office_events::{Installation, Name};
use std::alloc::{AllocError, Global};
use std::io::Write;

/// The statements (billing reports) of the meters of an accounting register (a named counter), over
/// several database files.
///
/// `is_recorded` says whether any of the files contains the accounting register (a named counter).
/// `meters` has the statement (billing report) of each of the register's meters for a range of days
/// in the time zone `zone`, over all files together.
#[derive(Drop)]
pub struct JoinedStatement {
    pub is_recorded: bool,
    pub meters: Vec<KeptMeter>,
    pub zone: Zone,
}

// Returns the first of the earlier meters in `known` that was not closed before the meter `row`
// began, or that has the name of `row`. Returns `None` if `known` has no such meter.
fn not_before(known: &[KeptMeter], row: &Installation) -> Option<Installation>
    ensures { result ≡ option_map stands_of
        (find (λ one. not (meters.is_before one.stands row.now)) known.now) }
{
    for one in known {
        if !is_before(&one.stands, row) {
            return Some(one.stands);
        }
    }
    None
}

// Appends the meter `row` to the earlier meters in `known`. If a meter in `known` was not closed
// before `row` began, or has the name of `row`, returns both meters instead.
fn add_next<B: Books>(
    known: &mut Vec<KeptMeter>,
    books: &mut B,
    zone: &Zone,
    range: &DayRange,
    row: &Installation,
) -> Result<Option<Apart>, BooksFault>
    ensures joins { IfOk result (AddsNext (map stands_of known.old.items) row.now
        (map stands_of known.new.items)) }
    ensures reports { (facts : List Fact) → (B.ledger books.old).holds facts
        → (B.ledger books.new).is_clean
        → IfOk result (ReportsAll zone.now range.now facts (row.now ∷ []) known.old.items
        known.new.items) }
    ensures reads { Consults (B.ledger books.old) (B.ledger books.new) result }
{
    match not_before(known.as_slice(), row) {
        Some(stands) => Ok(Some(Apart {
            stands,
            begins: *row,
        })),
        None => {
            let none = EntryTally::new();
            let reported = part_in_file(books, none, zone, range, &row.opening.meter, false)?;
            known.push(KeptMeter {
                stands: *row,
                reported,
            })?;
            Ok(None)
        }
    }
}

// Adds the meter `row` to the earlier meters in `known`, if `row` continues the last of them or
// begins after all were closed. On an error, the last meter may be missing from `known`.
fn add_row<B: Books>(
    known: &mut Vec<KeptMeter>,
    books: &mut B,
    zone: &Zone,
    range: &DayRange,
    row: &Installation,
) -> Result<Option<Apart>, BooksFault>
    ensures joins { IfOk result (AddsOrIsApart (map stands_of known.old.items) row.now
        (map stands_of known.new.items)) }
    ensures reports { (facts : List Fact) → (B.ledger books.old).holds facts
        → (B.ledger books.new).is_clean
        → IfOk result (ReportsAll zone.now range.now facts (row.now ∷ []) known.old.items
        known.new.items) }
    ensures reads { Consults (B.ledger books.old) (B.ledger books.new) result }
{
    let Some(last) = known.pop() else {
        return add_next(known, books, zone, range, row);
    };
    if goes_on(&last.stands, row) {
        let entries = last.reported.entries;
        let part = part_in_file(books, entries, zone, range, &row.opening.meter, true)?;
        known.push(with_part(&last, row, &part))?;
        return Ok(None);
    }
    known.push(last)?;
    add_next(known, books, zone, range, row)
}

// Adds the meters of a database file to those of earlier files, in the order of installation. If a
// meter conflicts with an earlier one, returns both. A meter must continue an earlier meter, or
// begin after the earlier ones were closed.
fn add_listed<B: Books>(
    known: &mut Vec<KeptMeter>,
    books: &mut B,
    zone: &Zone,
    range: &DayRange,
    listed: &[Installation],
) -> Result<Option<Apart>, BooksFault>
    ensures joins { IfOk result (AddOrAreApart (map stands_of known.old.items) listed.now
        (map stands_of known.new.items)) }
    ensures reports { (facts : List Fact) → (B.ledger books.old).holds facts
        → (B.ledger books.new).is_clean
        → IfOk result (ReportsAll zone.now range.now facts listed.now known.old.items
        known.new.items) }
    ensures reads { Consults (B.ledger books.old) (B.ledger books.new) result }
{
    for row in listed {
        let apart = add_row(known, books, zone, range, row)?;
        if apart.is_some() {
            return Ok(apart);
        }
    }
    Ok(None)
}

// Adds the meters that a database file assigns to an accounting register (a named counter) to those
// of the earlier files.
fn add_meters<B: Books>(
    known: &mut Vec<KeptMeter>,
    books: &mut B,
    zone: &Zone,
    range: &DayRange,
    register: &Name,
) -> Result<Option<Apart>, BooksFault>
    ensures adds { (facts : List Fact) → (B.ledger books.old).holds facts
        → (B.ledger books.new).is_clean
        → IfOk result (AddsListed zone.now range.now facts (installations_of facts register.now)
        known.old.items known.new.items) }
    ensures reads { Consults (B.ledger books.old) (B.ledger books.new) result }
{
    let listed = books.meters(register)?;
    add_listed(known, books, zone, range, &listed)
}

/// Collects the statements (billing reports) of the meters of an accounting register (a named
/// counter) over several database files.
impl Keeping for JoinedStatement {
    ghost keeps = { HasStated };

    ghost parts = { λ range. DoesNotGoOn };

    fn none(alloc: Global, zone: Zone, _range: DayRange) -> JoinedStatement {
        JoinedStatement {
            is_recorded: false,
            meters: Vec::new(alloc),
            zone,
        }
    }

    fn add<B: Books>(
        &mut self,
        books: &mut B,
        register: &Name,
        range: DayRange,
    ) -> Result<Option<Unjoined>, BooksFault> {
        let is_recorded = is_recorded(books, register)?;
        if both(self.is_recorded, !is_recorded) {
            return Ok(Some(Unjoined::NotRecorded));
        }
        self.is_recorded = is_recorded;
        let zone = self.zone;
        match add_meters(&mut self.meters, books, &zone, &range, register)? {
            Some(apart) => Ok(Some(Unjoined::Apart(apart))),
            None => Ok(None),
        }
    }
}

// Adds the statement (billing report) of a meter to a list, if the meter was installed in the range
// of days.
fn add_part_statement(
    rows: &mut Vec<MeterStatement>,
    zone: &Zone,
    range: &DayRange,
    one: &KeptMeter,
) -> Result<(), AllocError>
    ensures { OnOk result (rows.new.items ≡ rows.old.items
        ++ rows_of_those zone.now range.now (one.now ∷ [])) }
{
    if !was_installed(zone, range, &one.stands) {
        return Ok(());
    }
    rows.push(one.reported)?;
    Ok(())
}

// Returns the statements (billing reports) of the meters that were installed in the range of days.
fn rows_of(
    alloc: Global,
    zone: &Zone,
    range: &DayRange,
    known: &[KeptMeter],
) -> Result<Vec<MeterStatement>, AllocError>
    ensures { IfOk result (λ rows. rows.items ≡ rows_of_those zone.now range.now known.now) }
{
    let mut rows = Vec::new(alloc);
    for one in known {
        add_part_statement(&mut rows, zone, range, one)?;
    }
    Ok(rows)
}

fn print_rows<W: Write>(form: &StatementForm, rows: &[MeterStatement], output: &mut W) -> ExitStatus
    ensures { PrintsRows W.contents form.now rows.now result output.old output.new }
{
    match write_statement(form, rows, output) {
        Ok(()) => ExitStatus::Fine,
        Err(_) => ExitStatus::Failed,
    }
}

/// Prints the statements (billing reports) of the meters of a register (a named counter) over
/// several database files, on the days of a range.
///
/// The statements (reports) are on the meters that were installed in the range, in the order of
/// installation, with their data from all files. The range must be that for which the data were
/// collected. On `Err`, memory ran out, and nothing is printed.
pub fn state_joined<W: Write>(
    alloc: Global,
    joined: &JoinedStatement,
    form: &StatementForm,
    output: &mut W,
) -> Result<ExitStatus, AllocError>
    ensures states { IfOk result
        (StatesJoined W.Write joined.now form.now output.old output.new) }
    ensures nothing { IfErr result (λ fault. output.new ≡ output.old) }
{
    let rows = rows_of(alloc, &joined.zone, &form.range, &joined.meters)?;
    Ok(print_rows(form, &rows, output))
}
