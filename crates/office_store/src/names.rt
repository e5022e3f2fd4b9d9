//! Conversions between names (of meters, devices and registers) and texts of the tables.
ghost use Rattle.std.specs.Prelude.{◌≡◌, IfOk, IfErr, IsUtf8};
ghost use Rattle.office_events.specs.Names.{named};
ghost use Rattle.store_tables.specs.declared.faults.RowFault.TheVariants.{Damaged};
ghost use Rattle.store_tables.specs.Columns.{or_damaged};

use office_events::Name;
use std::str;
use store_tables::RowFault;

/// Returns a name as text for SQL. Reports a name that is not UTF-8 as `Damaged`.
pub fn text(name: &Name) -> Result<&str, RowFault>
    ensures text { IfOk result (λ text. text.now ≡ name.now) }
    ensures fault { IfErr result (λ e. (e ≡ Damaged) × (¬ IsUtf8 name.now)) }
{
    match str::from_utf8(name.as_bytes()) {
        Ok(text) => Ok(text),
        Err(_) => Err(RowFault::Damaged),
    }
}

/// Parses a text of the tables as a name. Reports an invalid name as `Damaged`.
pub fn name(text: &str) -> Result<Name, RowFault>
    ensures { result ≡ or_damaged (named text.now) }
{
    match Name::new(text.as_bytes()) {
        Some(name) => Ok(name),
        None => Err(RowFault::Damaged),
    }
}
