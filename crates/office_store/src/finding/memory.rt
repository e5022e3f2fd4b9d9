//! The out-of-memory error of a query, and a function that appends to a vector and returns this
//! error if the vector can't grow.
ghost use Rattle.std.specs.Prelude.{◌≡◌, [], ◌∷◌, ◌++◌, IfErr, OnOk};
ghost use Rattle.sqlite.specs.declared.error.ErrorCode.TheVariants.{OutOfMemory};
ghost use Rattle.sqlite.specs.declared.error.Error.TheVariants.{SqliteFailure};
ghost use Rattle.store_tables.specs.declared.faults.RowFault.TheVariants.{Sql};

use sqlite::{Error, ErrorCode};
use store_tables::RowFault;

/// Returns the error of a query that ran out of memory.
pub(crate) fn want_of_memory() -> RowFault
    ensures { result ≡ Sql (SqliteFailure OutOfMemory) }
{
    RowFault::Sql(Error::SqliteFailure(ErrorCode::OutOfMemory))
}

/// Appends an item to a vector. Returns the out-of-memory error if the vector can't grow.
pub(crate) fn push_item<T: Drop>(items: &mut Vec<T>, item: T) -> Result<(), RowFault>
    ensures put { OnOk result (items.new.items ≡ items.old.items ++ item ∷ []) }
    ensures fault { IfErr result (λ e. e ≡ Sql (SqliteFailure OutOfMemory)) }
{
    match items.push(item) {
        Ok(()) => Ok(()),
        Err(_) => Err(want_of_memory()),
    }
}
