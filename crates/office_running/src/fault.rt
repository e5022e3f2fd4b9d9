//! The reasons why a run of `sunreg run` ends early.
use command_io::ExitStatus;
use std::alloc::AllocError;
use std::error::Error;
use std::fmt;
use std::fmt::{Display, Formatter};

/// The reason why a run of `sunreg run` ended early.
#[derive(Clone, Copy, Debug, PartialEq, Eq)]
pub enum RunFault {
    /// The program could not start on its store. It printed the reason, and the command ends with
    /// this exit status.
    Unopened(ExitStatus),
    /// The HTTP port cannot be opened.
    Port,
    /// The system could not create or operate the queue that reports which sockets are ready.
    Sockets,
    /// Writing to standard output failed.
    Output,
    /// A file of the store was removed, replaced or cut short. Or the store failed or memory ran
    /// out while the program processed an event of a device.
    Stopped,
    /// Memory ran out.
    Memory,
}

impl From<AllocError> for RunFault {
    fn from(_error: AllocError) -> RunFault {
        RunFault::Memory
    }
}

impl Display for RunFault {
    fn fmt<W: fmt::Write>(&self, f: &mut Formatter<W>) -> fmt::Result {
        match self {
            RunFault::Unopened(_) => write!(f, "the office was not opened"),
            RunFault::Port => write!(
                f,
                "can't listen on the port: in use, or not an address of this machine"
            ),
            RunFault::Sockets => write!(f, "waiting for sockets failed"),
            RunFault::Output => write!(f, "can't write standard output"),
            RunFault::Stopped => write!(
                f,
                "the office stopped because its file failed or memory ran out: check the disk, then restart"
            ),
            RunFault::Memory => write!(f, "out of memory"),
        }
    }
}

impl Error for RunFault {}
