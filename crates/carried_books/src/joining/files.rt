//! Joins the data of several database files on an accounting register (a named counter), the oldest
//! file first. Files join if together they have one history of the register's meters.
ghost use Rattle.std.specs.Prelude.{◌≡◌, ℕ, List, [], IfOk};
ghost use Rattle.office_events.specs.declared.facts.Fact.{Fact};
ghost use Rattle.office_books.specs.Intervals.{rows_of_register};
ghost use Rattle.office_books.specs.Entries.{installations_of};
ghost use Rattle.office_books.specs.Ledgers.{Consults, Finds};
ghost use Rattle.office_books.specs.Spans.{rows_within};
ghost use Rattle.office_books.specs.declared.spans.Span.{Span as Asked};
ghost use Rattle.carried_books.specs.Joining.Files as files;
ghost use Rattle.carried_books.specs.Joining.Files.{AddDays, AddsRows, AllJoin, HasJoined, Joins};
ghost use Rattle.carried_books.specs.Joining.Meters.{AddOrAreApart};

use crate::joining::days::JoinedDays;
use crate::joining::meters::{Apart, add_meters, both};
use interval_core::{DayFault, Zone};
use office_books::{Books, BooksFault, Span};
use office_events::{Installation, Name};
use std::alloc::Global;

/// The reason why a database file cannot be joined to the earlier database files, as one history of
/// the meters of a register (a named counter).
#[derive(Clone, Copy)]
pub enum Unjoined {
    /// The database file does not record the accounting register (a named counter), though an
    /// earlier file does.
    NotRecorded,
    /// A meter of the accounting register (a named counter) in the database file conflicts with an
    /// earlier meter: they overlap in time or have one name. `Apart` has both meters.
    Apart(Apart),
    /// An energy interval of the database file starts before an interval that was added earlier, or
    /// after the largest supported timestamp.
    OutOfTurn,
}

/// An accounting register (a named counter) over several database files: whether it is recorded,
/// its meters, and its energy by day.
#[derive(Drop)]
pub struct JoinedFiles {
    pub is_recorded: bool,
    pub meters: Vec<Installation>,
    pub days: JoinedDays,
}

/// Creates the data of an accounting register (a named counter) over several database files, to
/// which no file was added yet. The function allocates no memory.
pub fn no_files(alloc: Global, zone: Zone) -> JoinedFiles
    ensures { (span : Asked) (register : List ℕ) → HasJoined zone span register [] result }
{
    JoinedFiles {
        is_recorded: false,
        meters: Vec::new(alloc),
        days: JoinedDays::new(alloc, zone),
    }
}

/// Returns whether a database file has an accounting register (a named counter) with this name.
pub(crate) fn is_recorded<B: Books>(books: &mut B, register: &Name) -> Result<bool, BooksFault>
    ensures found { Finds (B.ledger books.old) (B.ledger books.new) result
        (λ known is. is ≡ files.is_recorded register.now known) }
    ensures reads { Consults (B.ledger books.old) (B.ledger books.new) result }
{
    match books.register(register) {
        Ok(row) => Ok(row.is_some()),
        Err(fault) => Err(fault),
    }
}

/// Adds a database file's meters of an accounting register (a named counter) to `meters`. If a
/// meter conflicts with an earlier one, returns both. A meter must continue an earlier meter, or
/// begin after the earlier ones were closed.
pub(crate) fn join_meters<B: Books>(
    meters: &mut Vec<Installation>,
    books: &mut B,
    register: &Name,
) -> Result<Option<Apart>, BooksFault>
    ensures adds { (known : List Fact) → (B.ledger books.old).holds known
        → (B.ledger books.new).is_clean
        → IfOk result (AddOrAreApart meters.old.items (installations_of known register.now)
        meters.new.items) }
    ensures reads { Consults (B.ledger books.old) (B.ledger books.new) result }
{
    match books.meters(register) {
        Ok(listed) => match add_meters(meters, &listed) {
            Ok(apart) => Ok(apart),
            Err(_) => Err(BooksFault::Memory),
        },
        Err(fault) => Err(fault),
    }
}

// Adds the energy intervals (energies of quarter hours) of an accounting register (a named counter)
// in a span of time. Returns the reason if an interval is out of order: it starts before an
// interval added earlier, or after the largest supported timestamp.
fn join_days<B: Books>(
    days: &mut JoinedDays,
    books: &mut B,
    register: &Name,
    span: Span,
) -> Result<Option<Unjoined>, BooksFault>
    ensures adds { (known : List Fact) → (B.ledger books.old).holds known
        → (B.ledger books.new).is_clean
        → IfOk result (AddDays (rows_within span (rows_of_register known register.now))
        days.old days.new) }
    ensures reads { Consults (B.ledger books.old) (B.ledger books.new) result }
{
    match books.register_intervals(register, span, days) {
        Err(fault) => Err(fault),
        Ok(()) => match days.fault() {
            None => Ok(None),
            Some(DayFault::Zone) => Ok(Some(Unjoined::OutOfTurn)),
            Some(DayFault::Memory) => Err(BooksFault::Memory),
        },
    }
}

// Adds the meters and the energy intervals of an accounting register (a named counter) in a
// database file to those of the earlier files. Returns the reason if the file does not continue the
// meter history of the earlier files.
fn add_rows<B: Books>(
    joined: &mut JoinedFiles,
    books: &mut B,
    register: &Name,
    span: Span,
) -> Result<Option<Unjoined>, BooksFault>
    ensures adds { (known : List Fact) → (B.ledger books.old).holds known
        → (B.ledger books.new).is_clean
        → IfOk result (AddsRows span register.now known joined.old joined.new) }
    ensures reads { Consults (B.ledger books.old) (B.ledger books.new) result }
{
    match join_meters(&mut joined.meters, books, register) {
        Err(fault) => Err(fault),
        Ok(apart) => match apart {
            Some(apart) => Ok(Some(Unjoined::Apart(apart))),
            None => join_days(&mut joined.days, books, register, span),
        },
    }
}

// Adds the data of an accounting register (a named counter) in the next database file. Returns the
// reason if the file does not continue the meter history of the earlier files.
fn add_file<B: Books>(
    joined: &mut JoinedFiles,
    books: &mut B,
    register: &Name,
    span: Span,
) -> Result<Option<Unjoined>, BooksFault>
    ensures joins { (known : List Fact) → (B.ledger books.old).holds known
        → (B.ledger books.new).is_clean
        → IfOk result (Joins span register.now known joined.old joined.new) }
    ensures reads { Consults (B.ledger books.old) (B.ledger books.new) result }
{
    match is_recorded(books, register) {
        Err(fault) => Err(fault),
        Ok(is_recorded) => {
            if both(joined.is_recorded, !is_recorded) {
                return Ok(Some(Unjoined::NotRecorded));
            }
            joined.is_recorded = is_recorded;
            add_rows(joined, books, register, span)
        }
    }
}

/// Adds the data of an accounting register (a named counter) in the next database file: the meters,
/// and the quarter-hour energies in a span of time.
///
/// Returns the reason if the next database file does not continue the meter history of the earlier
/// files. The call only queries the next file, and changes nothing in it.
pub fn add_books<B: Books>(
    joined: &mut JoinedFiles,
    books: &mut B,
    register: &Name,
    span: Span,
) -> Result<Option<Unjoined>, BooksFault>
    ensures joins { (known : List Fact) → (B.ledger books.old).holds known
        → (B.ledger books.new).is_clean
        → IfOk result (Joins span register.now known joined.old joined.new) }
    ensures all { (known : List Fact) → (B.ledger books.old).holds known
        → (B.ledger books.new).is_clean
        → IfOk result (AllJoin span register.now known joined.old joined.new) }
    ensures reads { Consults (B.ledger books.old) (B.ledger books.new) result }
{
    add_file(joined, books, register, span)
}
