//! Parses the bytes of a write-ahead log (SQLite's file format, section 4).
ghost use Rattle.std.specs.Prelude.{◌≡◌, ◌≢◌, ◌+◌, ◌*◌, ◌-◌, ◌^◌, ◌<◌, ◌≤◌, ◌↔◌, length, IsTrue};
ghost use Rattle.sqlite_wal.specs.Format.{be32, commit_size, content, stored_sum, IsSigned, IsHeader, IsFrame};
ghost use Rattle.sqlite_wal.specs.Recovery.{frame, frame_at, header};
ghost use Rattle.stored_files.specs.Logs.Damage.{Begins};

use sqlite_wal::checksum_of;

/// The length of a write-ahead log's header, in bytes.
pub(crate) const HEADER_LEN: usize = 32;

/// The length of the header of a frame in a write-ahead log, in bytes.
pub(crate) const FRAME_HEADER_LEN: usize = 24;

/// The version number of the write-ahead log format.
const VERSION: u32 = 3007000;

/// Reads a four-byte big-endian number at offset `at`.
pub(crate) fn get_be32(bytes: &[u8], at: usize) -> u32
    requires { at + 4 ≤ length bytes.now }
    ensures { result ≡ be32 bytes.now at }
{
    bytes[at] as u32 * 0x100_0000
        + bytes[at + 1] as u32 * 0x1_0000
        + bytes[at + 2] as u32 * 0x100
        + bytes[at + 3] as u32
}

fn get_sum(bytes: &[u8], at: usize) -> (u32, u32)
    requires { at + 8 ≤ length bytes.now }
    ensures { result ≡ stored_sum bytes.now at }
{
    (get_be32(bytes, at), get_be32(bytes, at + 4))
}

/// Returns whether the header of a write-ahead log has the magic number and a valid checksum.
pub(crate) fn is_signed(head: &[u8]) -> bool
    requires { length head.now ≡ 32 }
    ensures { IsTrue result ↔ IsSigned head.now }
{
    if head[0] != 0x37 || head[1] != 0x7f || head[2] != 0x06 {
        return false;
    }
    if head[3] != 0x82 && head[3] != 0x83 {
        return false;
    }
    checksum_of(head[3] == 0x83, (0, 0), &head[..24]) == get_sum(head, 24)
}

/// Returns whether the bytes are the header of a write-ahead log with the page size `page_size`.
pub(crate) fn is_header(head: &[u8], page_size: usize) -> bool
    requires { length head.now ≡ 32 }
    ensures { IsTrue result ↔ IsHeader page_size head.now }
{
    is_signed(head) && get_be32(head, 4) == VERSION && get_be32(head, 8) as usize == page_size
}

/// Returns the header of a write-ahead log: its first 32 bytes.
pub(crate) fn header_in(log: &[u8]) -> &[u8]
    requires { 32 ≤ length log.now }
    ensures header { result.now ≡ header log.now }
    ensures len { length result.now ≡ 32 }
{
    &log[..HEADER_LEN]
}

/// Returns the byte offset of frame `i` in a write-ahead log. Frames are numbered from 0.
pub(crate) fn frame_offset(page_size: usize, i: usize) -> usize
    requires size { page_size ≤ 65536 }
    requires fits { frame_at page_size i < 2 ^ 64 }
    ensures { result ≡ frame_at page_size i }
{
    HEADER_LEN + i * (FRAME_HEADER_LEN + page_size)
}

/// Returns whether SQLite accepts a frame of a write-ahead log. SQLite accepts a frame with the
/// salts of the log's header `head`, a page number, and a checksum that continues the previous
/// frame's checksum `before`.
fn is_frame(head: &[u8], before: (u32, u32), frame: &[u8]) -> bool
    requires head { length head.now ≡ 32 }
    requires frame { 24 ≤ length frame.now }
    ensures { IsTrue result ↔ IsFrame head.now before frame.now }
{
    if frame[8..16] != head[16..24] || get_be32(frame, 0) == 0 {
        return false;
    }
    let big = head[3] == 0x83;
    let front = checksum_of(big, before, &frame[..8]);
    checksum_of(big, front, &frame[24..]) == get_sum(frame, 16)
}

/// Returns frame `i` of a write-ahead log, including the frame's header. Frames are numbered from
/// 0.
pub(crate) fn frame_in(log: &[u8], page_size: usize, i: usize) -> &[u8]
    requires size { page_size ≤ 65536 }
    requires within { frame_at page_size (i + 1) ≤ length log.now }
    ensures frame { result.now ≡ frame page_size log.now i }
    ensures len { length result.now ≡ 24 + page_size }
{
    let at = frame_offset(page_size, i);
    &log[at..at + FRAME_HEADER_LEN + page_size]
}

/// Returns whether frame `i` of a write-ahead log begins a transaction: SQLite accepts the frame,
/// and the frame before it is the last frame of a transaction.
pub(crate) fn begins(log: &[u8], page_size: usize, i: usize) -> bool
    requires first { 0 < i }
    requires size { page_size ≤ 65536 }
    requires within { frame_at page_size (i + 1) ≤ length log.now }
    ensures { IsTrue result ↔ Begins page_size log.now i }
{
    let before = frame_in(log, page_size, i - 1);
    if get_be32(before, 4) == 0 {
        return false;
    }
    let now = frame_in(log, page_size, i);
    is_frame(header_in(log), get_sum(before, 16), now)
}

/// Returns the page content in frame `i` of a write-ahead log.
pub(crate) fn content_in(log: &[u8], page_size: usize, i: usize) -> &[u8]
    requires size { page_size ≤ 65536 }
    requires within { frame_at page_size (i + 1) ≤ length log.now }
    ensures { result.now ≡ content (frame page_size log.now i) }
{
    &frame_in(log, page_size, i)[FRAME_HEADER_LEN..]
}

/// Returns the number of pages of the database after the commit that frame `i` of a write-ahead log
/// ends, or 0 if the frame ends no commit.
pub(crate) fn commit_size_in(log: &[u8], page_size: usize, i: usize) -> usize
    requires size { page_size ≤ 65536 }
    requires within { frame_at page_size (i + 1) ≤ length log.now }
    ensures { result ≡ commit_size (frame page_size log.now i) }
{
    get_be32(frame_in(log, page_size, i), 4) as usize
}
