//! Watches the store's open files, to detect when a file was removed, replaced or cut short.
//! Records that are written to such a file would be lost.
use crate::http::RunSystem;
use run_schedule::{FileLoss, FileMark, file_loss};
use std::alloc::{AllocError, Global};
use std::fs;
use std::io::{self, ErrorKind};
use std::os::unix::fs::MetadataExt;
use std::rt::Files;
use std::time::Duration;

/// An open file of the store: its path, and its device, inode and size at the last check.
#[derive(Drop)]
struct WatchedFile {
    path: String,
    mark: FileMark,
}

/// The open files of the store, which a run checks for removal, replacement and truncation.
#[derive(Drop)]
pub(crate) struct FileWatch {
    files: Vec<WatchedFile>,
}

/// A lost file: its index in the list of watched files, and whether it was removed, replaced or cut
/// short.
#[derive(Clone, Copy)]
pub(crate) struct LostFile {
    pub(crate) index: usize,
    pub(crate) loss: FileLoss,
}

// Returns the device, inode and size of the file at a path; `None` if no file exists there. Fails
// if the system cannot check the path.
fn mark_at<R: Files>(rt: &R, path: &str) -> io::Result<Option<FileMark>> {
    match fs::metadata(rt, path) {
        Ok(found) => Ok(Some(FileMark {
            device: found.dev(),
            inode: found.ino(),
            size: found.len(),
        })),
        Err(error) => match error.kind() {
            ErrorKind::NotFound | ErrorKind::NotADirectory => Ok(None),
            ErrorKind::StaleNetworkFileHandle => Ok(None),
            _ => Err(error),
        },
    }
}

// Returns the device, inode and size of the file at a path, which the store has open. If the path
// has no file or cannot be checked, the result matches no file. Any file that a later check finds
// at the path then counts as a replacement.
fn first_mark<R: Files>(rt: &R, path: &str) -> FileMark {
    match mark_at(rt, path) {
        Ok(Some(mark)) => mark,
        Ok(None) | Err(_) => FileMark {
            device: 0,
            inode: 0,
            size: 0,
        },
    }
}

impl WatchedFile {
    fn open<R: Files>(rt: &R, alloc: Global, path: &str) -> Result<WatchedFile, AllocError> {
        Ok(WatchedFile {
            path: String::from_str(alloc, path)?,
            mark: first_mark(rt, path),
        })
    }

    // Returns how the file at the path was lost: removed, replaced or cut short. Returns `None` if
    // the file was not lost, or if the system cannot check the path.
    fn loss<R: Files>(&self, rt: &R) -> Option<FileLoss> {
        match mark_at(rt, self.path.as_str()) {
            Ok(found) => file_loss(self.mark, found),
            Err(_) => None,
        }
    }

    // Returns how the file at the path was lost: removed, replaced or cut short. If the file is not
    // lost, records its present size. A smaller size at a later check counts as cut short.
    fn look<R: Files>(&mut self, rt: &R) -> Option<FileLoss> {
        let found = match mark_at(rt, self.path.as_str()) {
            Ok(found) => found,
            Err(_) => return None,
        };
        let loss = file_loss(self.mark, found);
        if let (None, Some(mark)) = (loss, found) {
            self.mark = mark;
        }
        loss
    }
}

impl FileWatch {
    /// Begins to watch the store's open files, whose paths are `paths`. A later check then finds a
    /// file that was removed, replaced or cut short.
    pub(crate) fn open<R: Files>(
        rt: &R,
        alloc: Global,
        paths: &[&str],
    ) -> Result<FileWatch, AllocError> {
        let mut files = Vec::new(alloc);
        for path in paths {
            files.push(WatchedFile::open(rt, alloc, *path)?)?;
        }
        Ok(FileWatch { files })
    }

    /// Checks each open file of the store, and returns the first lost file (removed, replaced or
    /// cut short), if any.
    pub(crate) fn look<R: Files>(&mut self, rt: &R) -> Option<LostFile> {
        for index in 0..self.files.len() {
            if index < self.files.len() {
                if let Some(loss) = self.files[index].look(rt) {
                    return Some(LostFile { index, loss });
                }
            }
        }
        None
    }

    /// Returns the path of the file with this index in the list of the store's open files. Returns
    /// an empty path if the list has no such index.
    pub(crate) fn path(&self, index: usize) -> &str {
        match self.files.get(index) {
            Some(file) => file.path.as_str(),
            None => "",
        }
    }

    /// Returns whether an open file of the store was removed, replaced or cut short.
    pub(crate) fn is_lost<R: Files>(&self, rt: &R) -> bool {
        self.files.iter().any(|file| file.loss(rt).is_some())
    }
}

/// What the HTTP server can ask of the system: the time of its clocks, and whether the store's
/// files existed at the last check.
#[derive(Drop)]
pub(crate) struct Watching<'r, R: std::rt::Clock> {
    rt: &'r R,
    are_there: bool,
}

impl<'r, R: std::rt::Clock> Watching<'r, R> {
    pub(crate) fn new(rt: &'r R, are_there: bool) -> Watching<'r, R> {
        Watching { rt, are_there }
    }
}

impl<R: std::rt::Clock> std::rt::Clock for Watching<'_, R> {
    fn monotonic(&self) -> io::Result<Duration> {
        self.rt.monotonic()
    }

    fn since_1970(&self) -> io::Result<Duration> {
        self.rt.since_1970()
    }
}

impl<R: std::rt::Clock> RunSystem for Watching<'_, R> {
    fn are_files_there(&self) -> bool {
        self.are_there
    }
}
