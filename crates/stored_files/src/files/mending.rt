//! Repairs the header of a write-ahead log, in a copy of a database file and its log.
use crate::files::beside::{page_size_in, read_front, read_log};
use crate::files::faults::FileFault;
use crate::files::paths::log_of;
use crate::logs::{FRAME_HEADER_LEN, HEADER_LEN, is_header, mended_header};
use std::fs::OpenOptions;
use std::io::{self, Write};

/// The result of repairing the header of a write-ahead log.
#[derive(Clone, Copy)]
pub enum LogHeader {
    /// The header of the write-ahead log was not damaged, or there is nothing to repair.
    Sound,
    /// One byte of the write-ahead log's header was damaged, and was repaired.
    Mended,
    /// No change of one byte repairs the header of the write-ahead log, so the log can't be read.
    Lost,
}

// Returns the header of a write-ahead log, or None if the log is too short for a frame.
fn header_of(log: &[u8]) -> Option<[u8; 32]> {
    if log.len() < HEADER_LEN + FRAME_HEADER_LEN {
        return None;
    }
    let mut head = [0u8; 32];
    for at in 0..HEADER_LEN {
        head[at] = log[at];
    }
    Some(head)
}

// Overwrites the header of the write-ahead log at a path, and waits until it is on the disk.
fn write_header(rt: &HostRuntime, path: &str, header: &[u8; 32]) -> io::Result<()> {
    let mut log = OpenOptions::new().write(true).open(rt, path)?;
    log.write_all(header)?;
    log.sync_all()
}

/// Repairs the header of the write-ahead log beside the file at a path, if one byte of the header
/// is damaged. Use this function only on copies of database files, because it overwrites the
/// header.
pub fn mend_beside(rt: &HostRuntime, path: &str) -> Result<LogHeader, FileFault> {
    let Ok(log_path) = log_of(rt, path) else {
        return Err(FileFault::Memory);
    };
    let log = read_log(rt, log_path.as_str())?;
    let db = read_front(rt, path)?;
    let (Some(found), Some(size)) = (header_of(&log), page_size_in(&db)) else {
        return Ok(LogHeader::Sound);
    };
    if is_header(&found, size.bytes()) {
        return Ok(LogHeader::Sound);
    }
    match mended_header(&found, size) {
        Some(header) => match write_header(rt, log_path.as_str(), &header) {
            Ok(()) => Ok(LogHeader::Mended),
            Err(_) => Err(FileFault::Unreadable),
        },
        None => Ok(LogHeader::Lost),
    }
}
