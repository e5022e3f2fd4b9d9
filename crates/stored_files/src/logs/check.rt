//! Checks whether a write-ahead log has lost commits after they were on the disk.
ghost use Rattle.std.specs.Prelude.{◌≡◌, ◌⊎◌, ◌+◌, ◌*◌, ◌<◌, ◌≤◌, ◌↔◌, ℕ, length, Err, IsNone, IfSome, IfOk, IfErr, OnOk, IsTrue};
ghost use Rattle.sqlite_disk.specs.Memory.{memory_bytes, memory_is_usable};
ghost use Rattle.sqlite_wal.specs.Format.{count_page, page_number};
ghost use Rattle.sqlite_wal.specs.PageSize.{bytes_of};
ghost use Rattle.sqlite_wal.specs.Recovery.{AreFramesOf, frame, frame_at};
ghost use Rattle.stored_files.specs.Logs.Damage.{IsCutOff, IsOpen, IsSound};
ghost use Rattle.stored_files.specs.Logs.Faults.{IsCause, IsUnread, fault_of};

use crate::logs::format::{
    FRAME_HEADER_LEN, HEADER_LEN, begins, frame_in, frame_offset, get_be32, header_in, is_header,
};
use sqlite_disk::{Disk, Memory};
use sqlite_wal::{Error, PageSize, probe_frames};
use std::alloc::Global;
use std::fmt::{self, Display, Formatter};
use std::io;

/// The offset of the first salt byte in a write-ahead log's header.
const SALT: usize = 16;

/// The offset of the first salt byte in the header of a frame of a write-ahead log.
const GATE: usize = 8;

/// The page number that marks a count frame, an extra frame of a commit. With the count frame,
/// recovery detects that bytes of the commit's frames were lost and now read as zeros.
const COUNT_PAGE: u32 = 0xff00_0000;

/// A reason why a write-ahead log is rejected.
#[derive(Clone, Copy, Debug, PartialEq, Eq)]
pub enum LogFault {
    /// The header of the write-ahead log is damaged, or its page size differs from that of the
    /// database file.
    Header,
    /// The count frame of a commit (an extra frame that shows lost bytes) reports a loss, although
    /// further commits were written later.
    Count,
    /// SQLite's recovery would end at byte offset `at` of the write-ahead log, and would lose a
    /// complete transaction that begins there.
    Commits { at: u64 },
    Memory,
}

// Writes how a write-ahead log is damaged, for a message that begins with the log's name.
impl Display for LogFault {
    fn fmt<W: fmt::Write>(&self, f: &mut Formatter<W>) -> fmt::Result {
        match self {
            LogFault::Header => write!(f, "has a damaged header"),
            LogFault::Count => write!(f, "is damaged"),
            LogFault::Commits { at } => write!(f, "is damaged at byte {at}"),
            LogFault::Memory => write!(f, "can't be checked: out of memory"),
        }
    }
}

// Returns whether the first transaction that SQLite's recovery would lose was complete when the
// transaction at frame `i` began. `taken` is the number of frames that recovery replays.
fn was_complete(log: &[u8], page_size: usize, taken: usize, i: usize) -> bool
    requires behind { taken < i }
    requires size { page_size ≤ 65536 }
    requires within { frame_at page_size (i + 1) ≤ length log.now }
    ensures { IsTrue result
        ↔ (IsOpen page_size log.now taken ⊎ (page_number (frame page_size log.now i) ≡ count_page)) }
{
    let gate = frame_offset(page_size, taken) + GATE;
    log[gate] == log[SALT] || get_be32(frame_in(log, page_size, i), 0) == COUNT_PAGE
}

fn is_cut_off(log: &[u8], page_size: usize, taken: usize, i: usize) -> bool
    requires behind { taken < i }
    requires size { page_size ≤ 65536 }
    requires within { frame_at page_size (i + 1) ≤ length log.now }
    ensures { IsTrue result ↔ IsCutOff page_size log.now taken i }
{
    begins(log, page_size, i) && was_complete(log, page_size, taken, i)
}

// Returns the index of the first frame that proves a loss: the frame begins a transaction, but
// recovery would lose an earlier complete transaction. `taken` is the number of frames that
// recovery replays.
fn find_cut_off(log: &[u8], page_size: usize, taken: usize) -> Option<usize>
    requires room { 32 ≤ length log.now }
    requires size { page_size ≤ 65536 }
    requires few { taken ≤ length log.now }
    ensures found { IfSome result (IsCutOff page_size log.now taken) }
    ensures none { IsNone result → (i : ℕ) → ¬ IsCutOff page_size log.now taken i }
{
    let frames = (log.len() - HEADER_LEN) / (FRAME_HEADER_LEN + page_size);
    for i in taken + 1..frames {
        if is_cut_off(log, page_size, taken, i) {
            return Some(i);
        }
    }
    None
}

// Creates a file in memory with the given bytes.
fn file_of(alloc: Global, bytes: &[u8]) -> io::Result<Memory>
    ensures usable { IfOk result (λ file. IsTrue (memory_is_usable file)) }
    ensures bytes { IfOk result (λ file. memory_bytes file ≡ bytes.now) }
{
    let mut file = Memory::new(alloc);
    file.write_at(0, bytes)?;
    Ok(file)
}

// Maps an SQLite error of reading a write-ahead log's frames to a `LogFault`.
fn fault_of(error: Error) -> LogFault
    ensures { result ≡ fault_of error }
{
    match error {
        Error::Corrupt => LogFault::Count,
        _ => LogFault::Memory,
    }
}

/// Returns the page number of each frame of a write-ahead log that SQLite's recovery would replay.
pub(crate) fn taken_frames(alloc: Global, log: &[u8], size: PageSize) -> Result<Vec<u32>, LogFault>
    ensures taken { IfOk result (λ pages. AreFramesOf (bytes_of size) log.now pages.items) }
    ensures cause { IfErr result (IsUnread (bytes_of size) log.now) }
{
    let Ok(mut file) = file_of(alloc, log) else {
        return Err(LogFault::Memory);
    };
    match probe_frames(alloc, &mut file, size) {
        Ok(pages) => Ok(pages),
        Err(error) => Err(fault_of(error)),
    }
}

/// Checks that SQLite's recovery would replay all complete transactions of a write-ahead log. A
/// damaged transaction looks as if a crash had left it incomplete. Only a later transaction shows
/// that the damaged one was complete.
pub(crate) fn check_log(alloc: Global, log: &[u8], size: PageSize) -> Result<(), LogFault>
    ensures sound { OnOk result (IsSound (bytes_of size) log.now) }
    ensures cause { IfErr result (IsCause (bytes_of size) log.now) }
{
    if log.len() < HEADER_LEN + FRAME_HEADER_LEN {
        return Ok(());
    }
    if !is_header(header_in(log), size.bytes()) {
        return Err(LogFault::Header);
    }
    let taken = match taken_frames(alloc, log, size) {
        Ok(pages) => pages.len(),
        Err(fault) => return Err(fault),
    };
    match find_cut_off(log, size.bytes(), taken) {
        Some(_) => Err(LogFault::Commits {
            at: frame_offset(size.bytes(), taken) as u64,
        }),
        None => Ok(()),
    }
}
