//! Executes the lines of standard input, which are commands such as the entry of a meter reading,
//! on a database file.
use crate::counters::shown_at;
use crate::offices::{OWN_HOST, over_office};
use crate::surroundings::Surroundings;
use command_io::{Buffered, read_input};
use file_commands::{Escaped, OfficeFiles, Opening};
use office_events::{Device, Register};
use office_program::{MOST_FILE, NamedFiles, Shown};
use std::alloc::{AllocError, Global};
use std::fmt::Display;
use std::fs::{self, File};
use std::io::{self, ErrorKind, Read, Write};
use std::str::from_utf8;
use stored_files::{Ending, Failure, Named, ending_of};
use stored_office::{Task, ending_of_done};

// Reports why a file or a counter that a line of standard input names cannot be read.
fn say_unread<D: Display>(rt: &HostRuntime, name: &str, why: &D) {
    let mut errors = Escaped::new(rt.stderr());
    let _said = write!(errors, "sunreg: {}: {why}\n", Named(name));
}

// Reads a regular file, up to slightly more than the maximum length of an input file. Rejects other
// kinds of files, because opening a pipe would block the command.
fn read_within(rt: &HostRuntime, alloc: Global, name: &str) -> io::Result<Vec<u8>> {
    if !fs::metadata(rt, name)?.is_file() {
        return Err(io::Error::from(ErrorKind::InvalidInput));
    }
    let mut file = File::open(rt, name)?;
    let mut whole = Vec::new(alloc);
    let mut piece = [0u8; 4096];
    for _call in 0..MOST_FILE + 1 {
        let count = file.read(&mut piece)?;
        if count == 0 || whole.len() > MOST_FILE {
            return Ok(whole);
        }
        if whole.extend_from_slice(&piece[..count]).is_err() {
            return Err(io::Error::from(ErrorKind::OutOfMemory));
        }
    }
    Ok(whole)
}

impl NamedFiles for Surroundings<'_> {
    fn read(&self, alloc: Global, name: &[u8]) -> Result<Option<Vec<u8>>, AllocError> {
        let Ok(name) = from_utf8(name) else {
            say_unread(self.rt, "a list", &"its file name is not text");
            return Ok(None);
        };
        match read_within(self.rt, alloc, name) {
            Ok(bytes) => {
                if bytes.len() <= MOST_FILE {
                    return Ok(Some(bytes));
                }
                say_unread(self.rt, name, &"larger than 65536 bytes");
                Ok(None)
            }
            Err(error) => match error.kind() {
                ErrorKind::OutOfMemory => Err(AllocError),
                ErrorKind::NotFound => {
                    say_unread(self.rt, name, &"file not found");
                    Ok(None)
                }
                ErrorKind::InvalidInput => {
                    say_unread(self.rt, name, &"not a regular file");
                    Ok(None)
                }
                _ => {
                    say_unread(self.rt, name, &"can't read it: check its permissions");
                    Ok(None)
                }
            },
        }
    }

    fn shown(&self, device: &Device, register: &Register) -> Option<Shown> {
        match shown_at(self.rt, self.places, device, register) {
            Ok(shown) => Some(shown),
            Err(why) => {
                let name = from_utf8(register.name.as_bytes()).unwrap_or("a register");
                say_unread(self.rt, name, &why);
                None
            }
        }
    }
}

/// Executes the commands in the lines of standard input on the database file at `path`. If
/// `only_read` is true, executes them on a temporary copy of the file, so that the output is the
/// same and nothing is recorded. The idempotency keys of the lines contain `caller`.
pub(crate) fn enter<'a, D: OfficeFiles + NamedFiles>(
    rt: &HostRuntime,
    files: &D,
    path: &'a str,
    caller: &str,
    only_read: bool,
) -> Ending<'a> {
    let mut input = rt.stdin();
    let mut output = Buffered::new(io::writer(rt));
    let read = read_input(rt.alloc(), &mut input, &mut output);
    let flushed = output.flush();
    match (read, flushed) {
        (_, Err(_)) => Ending::Failed(Failure::Streams),
        (Err(status), Ok(())) => ending_of(status),
        (Ok(text), Ok(())) => {
            let text = text.as_slice();
            let files = files.opened(if only_read {
                Opening::Copied
            } else {
                Opening::InPlace
            });
            let done = over_office(rt, &files, path, Task::Enter { caller, text });
            ending_of_done(done, OWN_HOST, 0)
        }
    }
}
