//! The error type of queries on the tables of the store.
use sqlite::Error;
use std::fmt;
use std::fmt::{Display, Formatter};

/// The reason why a query on the tables of the store failed.
#[derive(Clone, Copy, Debug, PartialEq, Eq)]
pub enum RowFault {
    /// SQLite refused the SQL statement, or SQLite failed.
    Sql(Error),
    /// A row has a value outside the range of its column.
    Damaged,
}

impl From<Error> for RowFault {
    ghost use Rattle.std.specs.Prelude.{◌≡◌};
    ghost use Rattle.store_tables.specs.declared.faults.RowFault.TheVariants.{Sql};

    ghost from_gives = { λ e fault. fault ≡ Sql e };

    fn from(error: Error) -> RowFault {
        RowFault::Sql(error)
    }
}

impl Display for RowFault {
    fn fmt<W: fmt::Write>(&self, f: &mut Formatter<W>) -> fmt::Result {
        match self {
            RowFault::Sql(error) => write!(f, "the database refused or failed: {error}"),
            RowFault::Damaged => write!(
                f,
                "the database is damaged: a row has a value that none may have"
            ),
        }
    }
}

impl std::error::Error for RowFault {}
