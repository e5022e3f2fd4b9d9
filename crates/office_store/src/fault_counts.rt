//! Converts faults of table queries to faults of the store's interface, and counts failures of the
//! database.
ghost use Rattle.std.specs.Prelude.{◌≡◌};
ghost use Rattle.office_books.specs.Faults.{faults_after};
ghost use Rattle.office_store.specs.Answers.{answer_of, fault_of};

use office_books::{BooksFault, Failures, StoreFault};
use sqlite::{Error, ErrorCode};
use store_tables::RowFault;

/// Converts a fault of a table query to the fault that the store's interface reports.
fn fault_of(fault: RowFault) -> BooksFault
    ensures { result ≡ fault_of fault }
{
    match fault {
        RowFault::Damaged => BooksFault::Store(StoreFault::Damaged),
        RowFault::Sql(Error::SqliteFailure(ErrorCode::OutOfMemory)) => BooksFault::Memory,
        RowFault::Sql(_) => BooksFault::Store(StoreFault::Refused),
    }
}

/// Converts the result of a table query to a result of the store's interface, and counts a failure
/// of the database.
pub(crate) fn answered<T: Drop>(
    failures: &mut Failures,
    found: Result<T, RowFault>,
) -> Result<T, BooksFault>
    ensures answer { result ≡ answer_of found }
    ensures noted { failures.new ≡ faults_after result failures.old }
{
    match found {
        Ok(answer) => Ok(answer),
        Err(fault) => failures.noted(Err(fault_of(fault))),
    }
}
