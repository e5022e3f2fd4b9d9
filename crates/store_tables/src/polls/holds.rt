//! SQL statements on the table `holds`, which stores the rejected readings.
ghost use Rattle.sqlite.specs.Held.{state};
ghost use Rattle.store_tables.specs.Content.{Edits, with_row};
ghost use Rattle.store_tables.specs.Steps.{Steps, IsSameBorrow};
ghost use Rattle.store_tables.specs.Answer.{LastFirst, every};
ghost use Rattle.store_tables.specs.Asking.{AsksInside, ReportsRows, ShowsFirst};
ghost use Rattle.store_tables.specs.Polls.Rows.{hold_columns, hold_place, hold_place_shown, IsSoundHold};
ghost use Rattle.store_tables.specs.Polls.Trees.{holds};

use crate::polls::rows::RejectedRow;
use crate::{number, signed};
use sqlite::{Alter, Error, Row, Transaction, params};

/// Inserts a rejected reading of a meter into `holds`.
pub fn insert_rejected<S: Alter>(
    tx: &mut Transaction<'_, S>,
    meter: &str,
    hold: RejectedRow,
) -> Result<usize, Error>
    requires sound { IsSoundHold hold }
    ensures same_reference { IsSameBorrow tx.old.conn tx.new.conn }
    ensures does { Steps (state S.Store tx.old.conn.now) (state S.Store tx.new.conn.now) result
        (Edits holds hold_columns (with_row (record { meter = meter.now; row = hold }))) }
{
    let place = number(hold.place);
    let poll = number(hold.poll);
    let moment = number(hold.moment);
    let sf = signed(&hold.sf);
    tx.execute(
        "INSERT INTO holds (place, meter, poll, moment, raw, sf, cause) VALUES (?1, ?2, ?3, ?4, ?5, ?6, ?7)",
        params![
            &place,
            meter,
            &poll,
            &moment,
            hold.raw,
            &sf,
            u32::from(hold.cause.number())
        ],
    )
}

/// Queries the index of the last rejected reading inside a transaction, to number the next one. The
/// result has one column.
pub fn last_hold_rows<S: Alter>(tx: &mut Transaction<'_, S>) -> Result<Vec<Row>, Error>
    ensures same_reference { IsSameBorrow tx.old.conn tx.new.conn }
    ensures asks { AsksInside S.Store tx.old.conn.now tx.new.conn.now result }
    ensures shows { ReportsRows S.Store tx.old.conn.now tx.new.conn.now holds hold_columns result
        (ShowsFirst every (LastFirst hold_place) hold_place_shown) }
{
    tx.query_all("SELECT place FROM holds ORDER BY place DESC LIMIT 1", &[])
}
