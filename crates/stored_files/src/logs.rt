//! Checks the write-ahead log beside a database file for lost commits, before SQLite opens the file
//! and the log.
mod check;
mod emptied;
mod format;
mod mend;

pub use check::LogFault;
pub(crate) use check::check_log;
pub(crate) use emptied::{check_emptied, is_shut};
pub(crate) use format::{FRAME_HEADER_LEN, HEADER_LEN, is_header};
pub(crate) use mend::mended_header;
