//! The files and devices that a command can access.
use command_words::{CommandLine, Device};
use file_commands::{Files, OfficeFiles, Opening};
use sqlite::{Connection, FileFrom, FileStore, Unknown};
use stored_files::{Databases, FileFault};

/// The files that a command can open, and the addresses of the devices whose counters it can read.
/// Input lines can also name files, which are read from the operating system.
#[derive(Clone, Copy)]
pub(crate) struct Surroundings<'r> {
    pub(crate) rt: &'r HostRuntime,
    pub(crate) places: &'r [Device<'r>],
    files: Files<'r>,
}

impl<'r> Surroundings<'r> {
    /// Returns the files and devices that a command can access: the devices that its arguments
    /// list, and the files of the operating system.
    pub(crate) fn new(rt: &'r HostRuntime, line: &'r CommandLine<'r>) -> Surroundings<'r> {
        let places = match line {
            CommandLine::Enter { devices, .. } => devices.as_slice(),
            _ => &[],
        };
        let files = Files::new(rt);
        Surroundings { rt, places, files }
    }
}

impl OfficeFiles for Surroundings<'_> {
    fn opened(&self, opening: Opening) -> Self {
        let files = self.files.opened(opening);
        Surroundings { files, ..*self }
    }
}

impl Databases for Surroundings<'_> {
    type Store = FileStore<FileFrom<Unknown>>;

    ghost opens = { λ files path connection. Unit {0} };

    fn make(&self, path: &str) -> Result<Connection<FileStore<FileFrom<Unknown>>>, FileFault> {
        self.files.make(path)
    }

    fn open(&self, path: &str) -> Result<Connection<FileStore<FileFrom<Unknown>>>, FileFault> {
        self.files.open(path)
    }
}
