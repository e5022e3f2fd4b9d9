//! Streams of the rows of `intervals`, the table of energy by quarter hour.
ghost use Rattle.std.specs.Prelude.{◌<◌, ◌^◌};
ghost use Rattle.office_store.specs.Handing.{HandsOn};
ghost use Rattle.office_store.specs.Intervals.Handing.{HaveIntervals, AreSharesOfMeter, AreSoundIntervals};
ghost use Rattle.office_store.specs.Intervals.Handing.{AreSharesOfMeterBetween, AreSharesAtBetween};
ghost use Rattle.office_store.specs.Intervals.Handing.{HaveLying, AreSharesAt, AreSoundLying};
ghost use Rattle.office_store.specs.Intervals.Rows.{IsSoundShare};

use crate::interval_rows::columns::Shares;
use crate::streams::hand_on;
use interval_core::Share;
use office_books::RowSink;
use sqlite::{Alter, Connection, params};
use store_tables::{RowFault, number};

/// Streams the energy of a meter by quarter hours to `sink`, ordered by the starts of the quarter
/// hours.
pub fn meter_intervals<S: Alter, K: RowSink<Share>>(
    conn: &mut Connection<S>,
    meter: &str,
    sink: &mut K,
) -> Result<(), RowFault>
    ensures { HandsOn S.Store conn.old conn.new K.takes sink.old sink.new result
        IsSoundShare HaveIntervals (AreSharesOfMeter meter.now) AreSoundIntervals }
{
    hand_on(
        conn,
        "SELECT start, mwh FROM intervals WHERE meter = ?1 ORDER BY start",
        params![meter],
        &Shares,
        sink,
    )
}

/// Streams the energy of an accounting register (a named energy counter) by quarter hours to
/// `sink`. The meters follow one another in the order of installation.
pub fn register_intervals<S: Alter, K: RowSink<Share>>(
    conn: &mut Connection<S>,
    register: &str,
    sink: &mut K,
) -> Result<(), RowFault>
    ensures { HandsOn S.Store conn.old conn.new K.takes sink.old sink.new result
        IsSoundShare HaveLying (AreSharesAt register.now) AreSoundLying }
{
    hand_on(
        conn,
        "SELECT intervals.start, intervals.mwh FROM installations JOIN intervals ON intervals.meter = installations.meter WHERE installations.register = ?1 ORDER BY installations.place, intervals.start",
        params![register],
        &Shares,
        sink,
    )
}

/// Passes the energy of a meter to `sink`, by the quarter hours whose starts are at least `from`
/// and less than `till`, in order. No other row is passed to `sink`.
pub fn meter_intervals_between<S: Alter, K: RowSink<Share>>(
    conn: &mut Connection<S>,
    meter: &str,
    from: u64,
    till: u64,
    sink: &mut K,
) -> Result<(), RowFault>
    requires from { from < 2 ^ 63 }
    requires till { till < 2 ^ 63 }
    ensures { HandsOn S.Store conn.old conn.new K.takes sink.old sink.new result
        IsSoundShare HaveIntervals (AreSharesOfMeterBetween meter.now from till) AreSoundIntervals }
{
    let from = number(from);
    let till = number(till);
    hand_on(
        conn,
        "SELECT start, mwh FROM intervals WHERE meter = ?1 AND start >= ?2 AND start < ?3 ORDER BY start",
        params![meter, &from, &till],
        &Shares,
        sink,
    )
}

/// Passes the energy of an accounting register (a named energy counter) to `sink`. Includes the
/// quarter hours whose starts are at least `from` and less than `till`. The meters follow each
/// other in the order of installation.
pub fn register_intervals_between<S: Alter, K: RowSink<Share>>(
    conn: &mut Connection<S>,
    register: &str,
    from: u64,
    till: u64,
    sink: &mut K,
) -> Result<(), RowFault>
    requires from { from < 2 ^ 63 }
    requires till { till < 2 ^ 63 }
    ensures { HandsOn S.Store conn.old conn.new K.takes sink.old sink.new result
        IsSoundShare HaveLying (AreSharesAtBetween register.now from till) AreSoundLying }
{
    let from = number(from);
    let till = number(till);
    hand_on(
        conn,
        "SELECT intervals.start, intervals.mwh FROM installations JOIN intervals ON intervals.meter = installations.meter WHERE installations.register = ?1 AND intervals.start >= ?2 AND intervals.start < ?3 ORDER BY installations.place, intervals.start",
        params![register, &from, &till],
        &Shares,
        sink,
    )
}
