//! Streams the rows of a query to the caller's sink. Memory does not grow with the number of rows.
ghost use Rattle.sqlite.specs.Given.{IsPlain};
ghost use Rattle.sqlite.specs.Listing.{understood};
ghost use Rattle.sqlite.specs.Values.{bound};
ghost use Rattle.store_tables.specs.Schema.{books_schema};
ghost use Rattle.store_tables.specs.Asking.{Asks};
ghost use Rattle.office_store.specs.Handing.{TookSome, HandsOnPlain};

use office_books::RowSink;
use sqlite::types::ValueRef;
use sqlite::{Alter, Connection, Error, Row};
use store_tables::RowFault;

/// A reader that converts the result rows of one query to values, which the function `hand_on`
/// streams to the caller.
pub(crate) trait RowReader<T> {
    ghost use Rattle.std.specs.Prelude.{◌≡◌, Result, IfOk, IfErr};
    ghost use Rattle.sqlite.specs.Order as order;
    ghost use Rattle.store_tables.specs.declared.faults.RowFault as faults;
    ghost use Rattle.store_tables.specs.declared.faults.RowFault.TheVariants.{Damaged};

    /// The value or the error that a reader of a query's result rows returns for a row.
    ghost reads: { Self → order.Row → Result T faults.RowFault };

    /// A property of every value that `read` returns for a result row of the query.
    ghost is_row: { T → Type 0 };

    /// Reads the value of a result row of a query.
    fn read(&self, row: &Row) -> Result<T, RowFault>
        ensures read { result ≡ reads self.now row.now }
        ensures sound { IfOk result is_row }
        ensures damage { IfErr result (λ e. e ≡ Damaged) };
}

/// Passes the rows of a query to `sink` one by one. Ends with `InvalidQuery` after 2^64 - 1 rows,
/// the greatest number that the function can count.
pub(crate) fn hand_on<S: Alter, T, R: RowReader<T>, K: RowSink<T>>(
    conn: &mut Connection<S>,
    sql: &str,
    params: &[ValueRef<'_>],
    reader: &R,
    sink: &mut K,
) -> Result<(), RowFault>
    ensures asks { IsPlain (understood books_schema sql.now) → Asks S.Store conn.old conn.new }
    ensures some { TookSome R.is_row K.takes sink.old sink.new }
    ensures reads { HandsOnPlain S.Store sql.now (bound params.now) (R.reads reader.now)
        conn.old conn.new K.takes sink.old sink.new result }
{
    let mut rows = conn.query(sql, params)?;
    'rows: for _taken in 0..u64::MAX {
        rows.advance()?;
        let Some(row) = rows.get() else {
            return Ok(());
        };
        let next = reader.read(row)?;
        sink.put(next);
    }
    Err(RowFault::Sql(Error::InvalidQuery))
}
