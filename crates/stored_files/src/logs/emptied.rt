//! Checks write-ahead logs that a checkpoint began to empty. Once the database file has all pages
//! of its log, the checkpoint changes the first byte of the log. SQLite then ignores the log.
ghost use Rattle.std.specs.Prelude.{◌≡◌, ◌⊎◌, ◌+◌, ◌-◌, ◌*◌, ◌<◌, ◌≤◌, ◌↔◌, length, IfOk, IfErr, OnOk, IsTrue};
ghost use Rattle.sqlite_wal.specs.PageSize.{bytes_of};
ghost use Rattle.sqlite_wal.specs.Recovery.{AreFramesOf, file_page, page_after};
ghost use Rattle.stored_files.specs.Logs.Damage.{HasRoom, IsEmptied, IsShut, KeepsAll, KeepsPages, opened};

use crate::logs::check::{LogFault, taken_frames};
use crate::logs::format::{commit_size_in, content_in, header_in, is_header};
use sqlite_wal::PageSize;
use std::alloc::{AllocError, Global};

/// The first byte of a write-ahead log that is in use.
const OPEN: u8 = 0x37;

/// Returns whether the first byte of a write-ahead log was changed, as a checkpoint does when it
/// empties the log. Returns false for a log that is too short for a frame.
pub(crate) fn is_shut(log: &[u8]) -> bool
    ensures { IsTrue result ↔ (HasRoom log.now × IsShut log.now) }
{
    log.len() >= 56 && log[0] != OPEN
}

// Returns page `number` of a database file. The first page has number 1.
fn page_in(db: &[u8], page_size: usize, number: usize) -> &[u8]
    requires first { 0 < number }
    requires size { page_size ≤ 65536 }
    requires within { number * page_size ≤ length db.now }
    ensures { result.now ≡ file_page page_size db.now number }
{
    let at = (number - 1) * page_size;
    &db[at..at + page_size]
}

// Returns whether replaying the write-ahead log's frames would leave page `number` of the database
// file unchanged. `pages` has the page number of each replayed frame.
fn has_page(log: &[u8], db: &[u8], page_size: usize, pages: &[u32], number: usize) -> bool
    requires first { 0 < number }
    requires size { page_size ≤ 65536 }
    requires room { 32 ≤ length log.now }
    requires taken { AreFramesOf page_size log.now pages.now }
    requires within { number * page_size ≤ length db.now }
    ensures { IsTrue result ↔ (page_after page_size log.now db.now number (length pages.now)
        ≡ file_page page_size db.now number) }
{
    let mut page = page_in(db, page_size, number);
    for i in 0..pages.len() {
        if pages[i] as usize == number {
            page = content_in(log, page_size, i);
        }
    }
    page == page_in(db, page_size, number)
}

/// Returns whether replaying the write-ahead log's frames would leave the database file unchanged.
fn has_all_pages(log: &[u8], db: &[u8], page_size: usize, pages: &[u32]) -> bool
    requires some { 0 < page_size }
    requires size { page_size ≤ 65536 }
    requires room { 32 ≤ length log.now }
    requires taken { AreFramesOf page_size log.now pages.now }
    ensures { IsTrue result ↔ KeepsPages page_size log.now db.now (length pages.now) }
{
    if pages.is_empty() {
        return true;
    }
    let count = commit_size_in(log, page_size, pages.len() - 1);
    if count != db.len() / page_size {
        return false;
    }
    for number in 0..count {
        if !has_page(log, db, page_size, pages, number + 1) {
            return false;
        }
    }
    true
}

// Returns a copy of a write-ahead log in which the first byte is that of a log in use. A checkpoint
// has changed this byte in the log.
fn opened_log(alloc: Global, log: &[u8]) -> Result<Vec<u8>, AllocError>
    requires { 0 < length log.now }
    ensures { IfOk result (λ it. it.items ≡ opened log.now) }
{
    let mut bytes = log.to_vec(alloc)?;
    bytes[0] = OPEN;
    Ok(bytes)
}

// Checks that the database file already has all committed pages of a write-ahead log.
fn check_kept(alloc: Global, log: &[u8], db: &[u8], size: PageSize) -> Result<(), LogFault>
    requires { HasRoom log.now }
    ensures kept { OnOk result (KeepsAll (bytes_of size) log.now db.now) }
    ensures cause { IfErr result (λ fault. (fault ≡ LogFault.Memory)
        ⊎ (¬ KeepsAll (bytes_of size) log.now db.now)) }
{
    if !is_header(header_in(log), size.bytes()) {
        return Err(LogFault::Header);
    }
    let pages = match taken_frames(alloc, log, size) {
        Ok(pages) => pages,
        Err(fault) => return Err(fault),
    };
    if has_all_pages(log, db, size.bytes(), &pages) {
        Ok(())
    } else {
        Err(LogFault::Header)
    }
}

/// Checks that SQLite loses nothing when it ignores a write-ahead log because of the log's changed
/// first byte.
pub(crate) fn check_emptied(
    alloc: Global,
    log: &[u8],
    db: &[u8],
    size: PageSize,
) -> Result<(), LogFault>
    requires { HasRoom log.now }
    ensures emptied { OnOk result (IsEmptied (bytes_of size) log.now db.now) }
    ensures cause { IfErr result (λ fault. (fault ≡ LogFault.Memory)
        ⊎ (¬ IsEmptied (bytes_of size) log.now db.now)) }
{
    match opened_log(alloc, log) {
        Ok(opened) => check_kept(alloc, &opened, db, size),
        Err(_) => Err(LogFault::Memory),
    }
}
