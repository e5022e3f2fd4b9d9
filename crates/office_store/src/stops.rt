//! Closes a store's database connection, and states theorems about the database files after a
//! crash.

mod connection_end;
mod laws;

pub use connection_end::close_connection;
pub use laws::{opened_files_are_found, stops_leave_facts};
