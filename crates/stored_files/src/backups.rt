//! Makes backups: database files that have all metering records, and need no write-ahead log.

mod faults;
mod whole;

pub use faults::CopyFault;
pub use whole::{recovered_file, whole_file, whole_files};
