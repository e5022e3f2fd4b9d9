//! Finds the open meters in an old database file, and the openings (first entries) with which these
//! meters continue in a new file.
ghost use Rattle.std.specs.Prelude.{◌≡◌, ◌≤◌, ◌∷◌, [], IfOk};
ghost use Rattle.std.specs.List.{AllPairs};
ghost use Rattle.std.specs.List.Sorted.{IsPermutation};
ghost use Rattle.office_events.specs.declared.facts.Opening.{Opening as Opened};
ghost use Rattle.office_books.specs.Ledgers.{Consults, Finds};
ghost use Rattle.carried_books.specs.Carrying.Adding.{Adds};
ghost use Rattle.carried_books.specs.Carrying.Openings as openings;
ghost use Rattle.carried_books.specs.Carrying.Openings.{AreOpened};

use crate::carrying::standings::last_until;
use energy_core::Last;
use office_books::{Books, BooksFault};
use office_events::{Device, Installation, Name, Opening, Register};
use std::alloc::{AllocError, Global};

/// The openings (first entries) of all open meters in a new database file, or the name of a meter
/// that has no valid (not voided) entry to continue from.
#[derive(Drop)]
pub enum Openings {
    All(Vec<Opening>),
    /// The meter with this name has no valid (not voided) entry up to the requested timestamp.
    NotYet(Name),
}

// Adds the not yet closed meter of an accounting register (a named counter) to a list of meters, if
// the register has such a meter.
fn add_open<B: Books>(
    rows: &mut Vec<Installation>,
    books: &mut B,
    register: &Register,
) -> Result<(), BooksFault>
    ensures adds { Adds (B.ledger books.old) (B.ledger books.new)
        (λ known. openings.open_at_register known register.now) rows.old.items rows.new.items
        result }
    ensures reads { Consults (B.ledger books.old) (B.ledger books.new) result }
{
    if let Some(row) = books.installation(&register.name)? {
        if !row.ended {
            rows.push(row)?;
        }
    }
    Ok(())
}

// For each accounting register (a named counter) in `registers`, adds the register's not yet closed
// meter, if there is one, to a list of meters.
fn add_registers<B: Books>(
    rows: &mut Vec<Installation>,
    books: &mut B,
    registers: &[Register],
) -> Result<(), BooksFault>
    ensures adds { Adds (B.ledger books.old) (B.ledger books.new)
        (λ known. openings.open_at_registers known registers.now) rows.old.items rows.new.items
        result }
    ensures reads { Consults (B.ledger books.old) (B.ledger books.new) result }
{
    for register in registers {
        add_open(rows, books, register)?;
    }
    Ok(())
}

// Adds the not yet closed meters of a device's accounting registers (named counters) to a list of
// meters.
fn add_device<B: Books>(
    rows: &mut Vec<Installation>,
    books: &mut B,
    device: &Device,
) -> Result<(), BooksFault>
    ensures adds { Adds (B.ledger books.old) (B.ledger books.new)
        (λ known. openings.open_at_device known device.now) rows.old.items rows.new.items result }
    ensures reads { Consults (B.ledger books.old) (B.ledger books.new) result }
{
    let registers = books.registers(&device.name)?;
    add_registers(rows, books, &registers)
}

// Adds the not yet closed meters of the accounting registers (named counters) of each device in
// `devices` to a list of meters.
fn add_devices<B: Books>(
    rows: &mut Vec<Installation>,
    books: &mut B,
    devices: &[Device],
) -> Result<(), BooksFault>
    ensures adds { Adds (B.ledger books.old) (B.ledger books.new)
        (λ known. openings.open_at_devices known devices.now) rows.old.items rows.new.items
        result }
    ensures reads { Consults (B.ledger books.old) (B.ledger books.new) result }
{
    for device in devices {
        add_device(rows, books, device)?;
    }
    Ok(())
}

/// Returns the not yet closed meters of the accounting registers (named counters) of the devices in
/// `devices`, in the order of the devices.
pub fn open_meters<B: Books>(
    alloc: Global,
    books: &mut B,
    devices: &[Device],
) -> Result<Vec<Installation>, BooksFault>
    ensures found { Finds (B.ledger books.old) (B.ledger books.new) result
        (λ known rows. rows.items ≡ openings.open_at_devices known devices.now) }
    ensures reads { Consults (B.ledger books.old) (B.ledger books.new) result }
{
    let mut rows = Vec::new(alloc);
    add_devices(&mut rows, books, devices)?;
    Ok(rows)
}

// Returns the opening (first entry) of a meter in a new database file: the `opening` in the old
// file, with the counter in the state `last`.
fn opened_at(opening: &Opening, last: Last) -> Opening
    ensures { result ≡ openings.opened_at opening.now last }
{
    Opening {
        at: last.at,
        raw: last.raw,
        sf: last.sf,
        ..*opening
    }
}

/// Returns the openings (first entries) of the meters in `rows` in a new database file, each from
/// the last valid (not voided) entry up to `until`. If a meter has no such entry, returns the
/// meter's name.
pub fn openings_of<B: Books>(
    alloc: Global,
    books: &mut B,
    rows: &[Installation],
    until: Option<u64>,
) -> Result<Openings, BooksFault>
    ensures found { Finds (B.ledger books.old) (B.ledger books.new) result
        (λ known found. AreOpened known until rows.now found) }
    ensures reads { Consults (B.ledger books.old) (B.ledger books.new) result }
{
    let mut opened = Vec::new(alloc);
    for row in rows {
        match last_until(books, &row.opening.meter, until)? {
            Some(last) => opened.push(opened_at(&row.opening, last))?,
            None => return Ok(Openings::NotYet(row.opening.meter)),
        }
    }
    Ok(Openings::All(opened))
}

/// Returns the openings (first entries of meters) in `opened` in the order of their timestamps. A
/// new file's office (event engine) refuses a command whose timestamp is before that of an earlier
/// command.
pub fn in_order(opened: Vec<Opening>) -> Result<Vec<Opening>, AllocError>
    ensures same { IfOk result (λ v. IsPermutation opened.items v.items) }
    ensures ordered { IfOk result (λ v. AllPairs (λ (a b : Opened). a.at ≤ b.at) v.items) }
{
    let mut sorted = opened;
    sorted.sort_by_key(|opening| opening.at)?;
    Ok(sorted)
}
