//! Repairs a damaged header of a write-ahead log by finding a valid header that differs from it in
//! one byte.
ghost use Rattle.std.specs.Prelude.{◌≡◌, ◌≢◌, ◌+◌, ◌*◌, ◌<◌, ◌≤◌, ℕ, length, slice_set, IsNone, IfSome};
ghost use Rattle.sqlite_wal.specs.Format.{IsHeader};
ghost use Rattle.sqlite_wal.specs.PageSize.{bytes_of};
ghost use Rattle.stored_files.specs.Logs.Damage.{IsMended};

use crate::logs::format::{HEADER_LEN, is_header};
use sqlite_wal::PageSize;

// Returns a copy of the header of a write-ahead log with the byte `byte` at offset `at`.
fn with_byte(head: &[u8; 32], at: usize, byte: u8) -> [u8; 32]
    requires { at < 32 }
    ensures { result ≡ slice_set head.now at byte }
{
    let mut other = *head;
    other[at] = byte;
    other
}

// Returns a valid log header that differs from `head` in at most the byte at offset `at`, or None
// if no such header exists.
fn mended_at(head: &[u8; 32], at: usize, page_size: usize) -> Option<[u8; 32]>
    requires { at < 32 }
    ensures found { IfSome result (IsMended page_size head.now) }
    ensures none { IsNone result → (byte : ℕ) → byte < 256 → ¬ IsHeader page_size (slice_set head.now at byte) }
{
    for byte in 0..256u16 {
        let other = with_byte(head, at, byte as u8);
        if is_header(&other, page_size) {
            return Some(other);
        }
    }
    None
}

/// Returns a valid log header that differs from `head` in at most one byte, or None if no such
/// header exists.
pub(crate) fn mended_header(head: &[u8; 32], size: PageSize) -> Option<[u8; 32]>
    ensures found { IfSome result (IsMended (bytes_of size) head.now) }
    ensures none { IsNone result → (at byte : ℕ) → at < 32 → byte < 256
        → ¬ IsHeader (bytes_of size) (slice_set head.now at byte) }
{
    for at in 0..HEADER_LEN {
        if let Some(found) = mended_at(head, at, size.bytes()) {
            return Some(found);
        }
    }
    None
}
