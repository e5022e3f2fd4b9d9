//! Streams the rows of `holds`, the table of rejected readings, to the caller.
ghost use Rattle.std.specs.Prelude.{◌≡◌, ◌<◌, ◌^◌};
ghost use Rattle.office_store.specs.Handing.{HandsOn};
ghost use Rattle.office_store.specs.Holds.{HaveHolds, AreReadingsOf, AreReadingsBetween, AreSoundHolds};
ghost use Rattle.office_store.specs.Holds.{IsSoundReading};

use crate::rejected_rows::columns::ReadingsOf;
use crate::streams::hand_on;
use office_books::RowSink;
use office_events::{HeldReading, Name};
use sqlite::{Alter, Connection, params};
use store_tables::{RowFault, number};

/// Streams the rejected readings of a meter to `sink`, in the order in which they were recorded.
pub fn meter_holds<S: Alter, K: RowSink<HeldReading>>(
    conn: &mut Connection<S>,
    meter: &Name,
    text: &str,
    sink: &mut K,
) -> Result<(), RowFault>
    requires { text.now ≡ meter.now }
    ensures { HandsOn S.Store conn.old conn.new K.takes sink.old sink.new result
        IsSoundReading HaveHolds (AreReadingsOf meter.now) AreSoundHolds }
{
    hand_on(
        conn,
        "SELECT poll, moment, raw, sf, cause FROM holds WHERE meter = ?1 ORDER BY place",
        params![text],
        &ReadingsOf { meter: *meter },
        sink,
    )
}

/// Streams the rejected readings of a meter whose timestamps are at least `from` and less than
/// `till` to `sink`. No other reading is passed to `sink`.
pub fn meter_holds_between<S: Alter, K: RowSink<HeldReading>>(
    conn: &mut Connection<S>,
    meter: &Name,
    text: &str,
    from: u64,
    till: u64,
    sink: &mut K,
) -> Result<(), RowFault>
    requires text { text.now ≡ meter.now }
    requires from { from < 2 ^ 63 }
    requires till { till < 2 ^ 63 }
    ensures { HandsOn S.Store conn.old conn.new K.takes sink.old sink.new result
        IsSoundReading HaveHolds (AreReadingsBetween meter.now from till) AreSoundHolds }
{
    let from = number(from);
    let till = number(till);
    hand_on(
        conn,
        "SELECT poll, moment, raw, sf, cause FROM holds WHERE meter = ?1 AND moment >= ?2 AND moment < ?3 ORDER BY place",
        params![text, &from, &till],
        &ReadingsOf { meter: *meter },
        sink,
    )
}
