//! Readers of the rows of `holds`, the table of rejected readings.
ghost use Rattle.std.specs.Prelude.{◌≡◌};
ghost use Rattle.sqlite.specs.Order.{column};
ghost use Rattle.store_tables.specs.Columns.{or_damaged};
ghost use Rattle.office_store.specs.Holds.{cause_of, sixteen_in, reading_in};

use crate::streams::RowReader;
use energy_core::Cause;
use office_events::{HeldReading, Name};
use sqlite::Row;
use sqlite::types::ValueRef;
use store_tables::{GREATEST_PLACE, LATEST_MOMENT, RowFault, whole};

/// Returns the cause of a rejected reading that a numeric code in the table `holds` encodes, or
/// None for any other number.
fn cause(number: u64) -> Option<Cause>
    ensures { result ≡ cause_of number }
{
    match number {
        1 => Some(Cause::NotAccumulated),
        2 => Some(Cause::ScaleChanged),
        3 => Some(Cause::NotLater),
        4 => Some(Cause::SpanTooLong),
        5 => Some(Cause::GapTooLong),
        6 => Some(Cause::TooFast),
        7 => Some(Cause::TotalFull),
        8 => Some(Cause::NotBelowRange),
        _ => None,
    }
}

/// Reads the column at index `at` as a signed 16-bit integer, because a rejected reading can have
/// any scale factor.
fn sixteen(row: &Row, at: usize) -> Result<i16, RowFault>
    ensures { result ≡ or_damaged (sixteen_in (column row.now at)) }
{
    match row.get_ref(at) {
        Ok(ValueRef::Int(n)) => {
            if -32_768 <= n && n <= 32_767 {
                Ok(n as i16)
            } else {
                Err(RowFault::Damaged)
            }
        }
        _ => Err(RowFault::Damaged),
    }
}

/// Reads a rejected reading of `meter` from a row of `holds`.
fn read_reading(row: &Row, meter: &Name) -> Result<HeldReading, RowFault>
    ensures { result ≡ reading_in meter.now row.now }
{
    let poll = whole(row, 0, 1, GREATEST_PLACE)?;
    let at = whole(row, 1, 0, LATEST_MOMENT)?;
    let raw = whole(row, 2, 0, 4_294_967_295)?;
    let sf = sixteen(row, 3)?;
    let number = whole(row, 4, 1, 8)?;
    match cause(number) {
        Some(cause) => Ok(HeldReading {
            meter: *meter,
            poll,
            at,
            raw: raw as u32,
            sf,
            cause,
        }),
        None => Err(RowFault::Damaged),
    }
}

/// A reader of result rows of `holds` for the rejected readings of one meter. The rows don't have
/// the meter's name.
#[derive(Drop)]
pub(crate) struct ReadingsOf {
    pub(crate) meter: Name,
}

impl RowReader<HeldReading> for ReadingsOf {
    ghost use Rattle.office_store.specs.Holds.{reading_in, IsSoundReading};

    ghost reads = { λ reader row. reading_in reader.meter row };

    ghost is_row = { IsSoundReading };

    fn read(&self, row: &Row) -> Result<HeldReading, RowFault> {
        read_reading(row, &self.meter)
    }
}
