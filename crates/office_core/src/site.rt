//! Queries the store for all accounting registers (named energy counters) with their meters.
ghost use Rattle.std.specs.Prelude.{◌≡◌, ◌∷◌, [], IfErr};
ghost use Rattle.office_books.specs.Ledgers.{Consults, Finds};
ghost use Rattle.office_core.specs.Asking.{Asks};
ghost use Rattle.office_core.specs.Failing.{IsNotForWantOfDay};
ghost use Rattle.office_core.specs.Site.{AddsRows, SiteIn};
ghost use Rattle.office_core.specs.Site.{row_at, rows_at, rows_of, rows_of_all, site_of};

use office_books::{Books, BooksFault};
use office_events::{Device, Installation, Refusal, Register};
use std::alloc::Global;

/// An accounting register (a named energy counter), with the latest meter that was installed at it,
/// open or closed, if any.
#[derive(Clone, Copy)]
pub struct SiteRow {
    pub register: Register,
    pub meter: Option<Installation>,
}

/// Appends an accounting register (a named energy counter) with its latest meter to `rows`.
fn add_register<B: Books>(
    rows: &mut Vec<SiteRow>,
    books: &mut B,
    register: &Register,
) -> Result<(), BooksFault>
    ensures adds { AddsRows (B.ledger books.old) (B.ledger books.new)
        (λ known. row_at known register.now ∷ []) rows.old.items rows.new.items result }
    ensures reads { Consults (B.ledger books.old) (B.ledger books.new) result }
{
    let meter = books.installation(&register.name)?;
    rows.push(SiteRow {
        register: *register,
        meter,
    })?;
    Ok(())
}

/// Appends the given accounting registers (named energy counters) with their latest meters to
/// `rows`, in order.
fn add_registers<B: Books>(
    rows: &mut Vec<SiteRow>,
    books: &mut B,
    registers: &[Register],
) -> Result<(), BooksFault>
    ensures adds { AddsRows (B.ledger books.old) (B.ledger books.new)
        (λ known. rows_at known registers.now) rows.old.items rows.new.items result }
    ensures reads { Consults (B.ledger books.old) (B.ledger books.new) result }
{
    for register in registers {
        add_register(rows, books, register)?;
    }
    Ok(())
}

/// Appends a device's accounting registers (named energy counters) with their latest meters to
/// `rows`.
fn add_device<B: Books>(
    rows: &mut Vec<SiteRow>,
    books: &mut B,
    device: &Device,
) -> Result<(), BooksFault>
    ensures adds { AddsRows (B.ledger books.old) (B.ledger books.new)
        (λ known. rows_of known device.now) rows.old.items rows.new.items result }
    ensures reads { Consults (B.ledger books.old) (B.ledger books.new) result }
{
    let registers = books.registers(&device.name)?;
    add_registers(rows, books, &registers)
}

/// Appends the given devices' accounting registers (named energy counters) with their latest meters
/// to `rows`, in order.
fn add_devices<B: Books>(
    rows: &mut Vec<SiteRow>,
    books: &mut B,
    devices: &[Device],
) -> Result<(), BooksFault>
    ensures adds { AddsRows (B.ledger books.old) (B.ledger books.new)
        (λ known. rows_of_all known devices.now) rows.old.items rows.new.items result }
    ensures reads { Consults (B.ledger books.old) (B.ledger books.new) result }
{
    for device in devices {
        add_device(rows, books, device)?;
    }
    Ok(())
}

/// Returns all accounting registers (named energy counters) in the store, each with its latest
/// meter.
fn rows_in<B: Books>(alloc: Global, books: &mut B) -> Result<Vec<SiteRow>, BooksFault>
    ensures found { Finds (B.ledger books.old) (B.ledger books.new) result
        (λ known rows. rows.items ≡ site_of known) }
    ensures reads { Consults (B.ledger books.old) (B.ledger books.new) result }
{
    let devices = books.devices()?;
    let mut rows = Vec::new(alloc);
    add_devices(&mut rows, books, &devices)?;
    Ok(rows)
}

/// Returns all accounting registers (named energy counters) with their latest meters. The devices,
/// and the registers of each device, are in the order in which they were added.
pub fn rows<B: Books>(alloc: Global, books: &mut B) -> Result<Vec<SiteRow>, Refusal>
    ensures found { SiteIn (B.ledger books.old) (B.ledger books.new) result }
    ensures asks { Asks (B.ledger books.old) (B.ledger books.new) result }
    ensures no_day { IfErr result IsNotForWantOfDay }
{
    match rows_in(alloc, books) {
        Ok(rows) => Ok(rows),
        Err(fault) => Err(Refusal::from(fault)),
    }
}
