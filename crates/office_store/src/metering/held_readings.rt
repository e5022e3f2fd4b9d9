//! Streams rejected readings to a `RowSink`, a visitor that receives them one by one.
ghost use Rattle.std.specs.Prelude.{◌≡◌, false, IsUtf8};
ghost use Rattle.office_books.specs.Holds.{holds_of, holds_within};
ghost use Rattle.office_store.specs.Holds.{IsSoundReading};
ghost use Rattle.office_store.specs.Metering.Looking.{HandsOn};
ghost use Rattle.office_store.specs.Metering.Sound.{HasReadableHolds};

use crate::metering::streams::bound;
use crate::{rejected_rows as tables, text};
use office_books::{RowSink, Span};
use office_events::{HeldReading, Name};
use sqlite::{Alter, Connection};
use store_tables::{RowFault, check_open};

/// Passes the rejected readings of a meter with timestamps in `span` to `sink` one by one, in the
/// order in which they were recorded. Keeps no row in memory.
pub fn holds<S: Alter, K: RowSink<HeldReading>>(
    conn: &mut Connection<S>,
    meter: &Name,
    span: Span,
    sink: &mut K,
) -> Result<(), RowFault>
    requires { conn.old.in_transaction ≡ false }
    ensures { HandsOn S.Store conn.old conn.new K.takes sink.old sink.new result
        IsSoundReading (λ facts. holds_within span (holds_of facts meter.now))
        (λ facts. IsUtf8 meter.now × HasReadableHolds facts) }
{
    let named = text(meter)?;
    check_open(conn)?;
    match span {
        Span::All => tables::meter_holds(conn, meter, named, sink),
        Span::Between { from, till } => {
            tables::meter_holds_between(conn, meter, named, bound(from), bound(till), sink)
        }
    }
}
