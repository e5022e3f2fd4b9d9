//! The store of metering records in a SQLite database, with its connection, its time zone, and its
//! count of failures.
ghost use Rattle.std.specs.Prelude.{◌≡◌, false};

use interval_core::Zone;
use office_books::Failures;
use sqlite::{Alter, Connection};
use std::alloc::Global;
use store_tables::OpenFault;

/// The store of metering records in a SQLite database. No transaction is open between calls.
#[derive(Drop)]
pub struct SqlBooks<S: Alter> {
    pub(crate) connection: Connection<S>,
    pub(crate) zone: Zone,
    pub(crate) failures: Failures,
    pub(crate) alloc: Global,
    ghost idle: { connection.in_transaction ≡ false },
}

/// The connection to a database that could not be opened as a store, and the reason.
#[derive(Drop)]
pub struct Unopened<S: Alter> {
    pub connection: Connection<S>,
    pub fault: OpenFault,
}

impl<S: Alter> SqlBooks<S> {
    /// Ends the use of the store, and returns its connection. The database keeps the tables.
    pub fn into_connection(self) -> Connection<S>
        ensures { result ≡ self.connection }
    {
        self.connection
    }
}
