//! Streams the energy of meters by quarter hours to a `RowSink`, which receives the rows one by
//! one.
ghost use Rattle.std.specs.Prelude.{◌≡◌, ◌+◌, false, min, IsUtf8};
ghost use Rattle.office_books.specs.Spans.{rows_within};
ghost use Rattle.office_books.specs.Intervals.{rows_of_meter, rows_of_register};
ghost use Rattle.store_tables.specs.Limits.{latest_moment};
ghost use Rattle.office_store.specs.Intervals.Rows.{IsSoundShare};
ghost use Rattle.office_store.specs.Metering.Looking.{HandsOn};
ghost use Rattle.office_store.specs.Metering.Sound.{HasReadableIntervals};

use crate::{interval_rows as tables, text};
use interval_core::Share;
use office_books::{RowSink, Span, meters_are_kept, registers_are_in_turn};
use office_events::Name;
use sqlite::{Alter, Connection};
use store_tables::{LATEST_MOMENT, RowFault, check_open};

/// Limits a bound of a time span to at most one second after the latest timestamp that the store
/// allows.
pub(super) fn bound(moment: u64) -> u64
    ensures { result ≡ min moment (latest_moment + 1) }
{
    moment.min(LATEST_MOMENT + 1)
}

/// Passes the energy of a meter in each quarter hour that starts in the time span `span` to `sink`,
/// in the order of time. Reads no other row.
pub fn intervals<S: Alter, K: RowSink<Share>>(
    conn: &mut Connection<S>,
    meter: &Name,
    span: Span,
    sink: &mut K,
) -> Result<(), RowFault>
    requires { conn.old.in_transaction ≡ false }
    ensures { HandsOn S.Store conn.old conn.new K.takes sink.old sink.new result
        IsSoundShare (λ facts. rows_within span (rows_of_meter facts meter.now))
        (λ facts. IsUtf8 meter.now × HasReadableIntervals facts) }
{
    meters_are_kept();
    registers_are_in_turn();
    let meter = text(meter)?;
    check_open(conn)?;
    match span {
        Span::All => tables::meter_intervals(conn, meter, sink),
        Span::Between { from, till } => {
            tables::meter_intervals_between(conn, meter, bound(from), bound(till), sink)
        }
    }
}

/// Passes the energy of an accounting register (a named energy counter) in each quarter hour that
/// starts in `span` to `sink`. The register's meters follow one another in the order of
/// installation.
pub fn register_intervals<S: Alter, K: RowSink<Share>>(
    conn: &mut Connection<S>,
    register: &Name,
    span: Span,
    sink: &mut K,
) -> Result<(), RowFault>
    requires { conn.old.in_transaction ≡ false }
    ensures { HandsOn S.Store conn.old conn.new K.takes sink.old sink.new result
        IsSoundShare (λ facts. rows_within span (rows_of_register facts register.now))
        (λ facts. IsUtf8 register.now × HasReadableIntervals facts) }
{
    meters_are_kept();
    registers_are_in_turn();
    let register = text(register)?;
    check_open(conn)?;
    match span {
        Span::All => tables::register_intervals(conn, register, sink),
        Span::Between { from, till } => {
            tables::register_intervals_between(conn, register, bound(from), bound(till), sink)
        }
    }
}
