//! Detects that the path of the store's open file leads to no file, another file or a shorter file.
ghost use Rattle.std.specs.Prelude.{◌≡◌};
ghost use Rattle.run_schedule.specs.FileMarks as marks;
ghost use Rattle.run_schedule.specs.FileMarks.{IsStill};

/// The identity and size of a file, as the operating system reports them. The number of hard links
/// is left out, because another link does not change the file.
#[derive(Clone, Copy)]
pub struct FileMark {
    pub device: u64,
    pub inode: u64,
    /// The size, in bytes, of the file that the device number and the inode number identify.
    pub size: u64,
}

/// How the file that a path leads to now differs from the open file.
#[derive(Clone, Copy)]
pub enum FileLoss {
    /// The path leads to no file.
    Missing,
    /// The path leads to another file, by device or inode number.
    Replaced,
    /// The path leads to the open file, which is shorter than its last known size.
    Shortened,
}

fn is_same_file(known: FileMark, found: FileMark) -> bool
    ensures { result ≡ marks.is_same_file known found }
{
    known.device == found.device && known.inode == found.inode
}

/// Compares the file at a path with the open file. `known` is the last known mark (device, inode,
/// size) of the open file, `found` the mark of the file at the path.
///
/// A longer file is no loss, because the store's file only grows. The compared device, inode and
/// size do not show bytes that another program overwrote in place.
pub fn file_loss(known: FileMark, found: Option<FileMark>) -> Option<FileLoss>
    ensures loss { result ≡ marks.file_loss known found }
    ensures still { result ≡ None → IsStill known found }
{
    match found {
        None => Some(FileLoss::Missing),
        Some(found) => {
            if !is_same_file(known, found) {
                return Some(FileLoss::Replaced);
            }
            if found.size < known.size {
                return Some(FileLoss::Shortened);
            }
            None
        }
    }
}
