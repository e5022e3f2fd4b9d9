//! Readers of single columns of a result row, which check the type and the range of a column.
ghost use Rattle.std.specs.Prelude.{◌≡◌, ◌≤◌, string_bytes, IsUtf8, IfOk, IfErr, IfSome};
ghost use Rattle.sqlite.specs.declared.types.Value.TheVariants.{Text};
ghost use Rattle.sqlite.specs.Order.{column};
ghost use Rattle.store_tables.specs.Failing.{IsRowFault};
ghost use Rattle.store_tables.specs.Columns.{whole_in, first_in, within, function_in, or_damaged};

use crate::faults::RowFault;
use energy_core::{MAX_SCALE, MIN_SCALE};
use mb_wire::ReadFunction;
use sqlite::types::ValueRef;
use sqlite::{Error, ErrorCode, Row};

/// Reads the column at index `at` as an integer from `low` to `high`. Reports any other value as
/// `Damaged`.
pub fn whole(row: &Row, at: usize, low: u64, high: u64) -> Result<u64, RowFault>
    ensures read { result ≡ or_damaged (whole_in low high (column row.now at)) }
    ensures bounds { IfOk result (λ n. (low ≤ n) × (n ≤ high)) }
{
    match row.get_ref(at) {
        Ok(ValueRef::Int(n)) => {
            if n < 0 {
                return Err(RowFault::Damaged);
            }
            let n = n as u64;
            if low <= n && n <= high {
                Ok(n)
            } else {
                Err(RowFault::Damaged)
            }
        }
        _ => Err(RowFault::Damaged),
    }
}

/// Reads the first column of a result's first row as an integer from `low` to `high`. Returns None
/// if the result has no rows.
pub fn first_whole(rows: &[Row], low: u64, high: u64) -> Result<Option<u64>, RowFault>
    ensures read { result ≡ first_in low high rows.now }
    ensures bounds { IfOk result (λ found. IfSome found (λ n. (low ≤ n) × (n ≤ high))) }
{
    match rows.first() {
        None => Ok(None),
        Some(row) => Ok(Some(whole(row, 0, low, high)?)),
    }
}

/// Reads the column at index `at` as a SunSpec scale factor from -3 to 3, the range that the store
/// accepts.
pub fn scale(row: &Row, at: usize) -> Result<i16, RowFault>
    ensures { result ≡ or_damaged (within 3 (column row.now at)) }
{
    match row.get_ref(at) {
        Ok(ValueRef::Int(n)) => {
            if i64::from(MIN_SCALE) <= n && n <= i64::from(MAX_SCALE) {
                Ok(n as i16)
            } else {
                Err(RowFault::Damaged)
            }
        }
        _ => Err(RowFault::Damaged),
    }
}

/// Reads the column at index `at` as the Modbus function code of a read: 3 or 4.
pub fn function(row: &Row, at: usize) -> Result<ReadFunction, RowFault>
    ensures { result ≡ or_damaged (function_in (column row.now at)) }
{
    match whole(row, at, 3, 4)? {
        3 => Ok(ReadFunction::HoldingRegisters),
        4 => Ok(ReadFunction::InputRegisters),
        _ => Err(RowFault::Damaged),
    }
}

/// Reads the column at index `at` as a text. Reports a column of another type, or a text that is
/// not UTF-8, as `Damaged`.
pub fn text(row: &Row, at: usize) -> Result<String, RowFault>
    ensures read { IfOk result (λ s. column row.now at ≡ Text (string_bytes s)) }
    ensures fault { (t : _) → column row.now at ≡ Text t → IfErr result (IsRowFault (IsUtf8 t)) }
{
    match row.get::<String>(at) {
        Ok(text) => Ok(text),
        Err(Error::SqliteFailure(ErrorCode::OutOfMemory)) => {
            Err(RowFault::Sql(Error::SqliteFailure(ErrorCode::OutOfMemory)))
        }
        Err(_) => Err(RowFault::Damaged),
    }
}
