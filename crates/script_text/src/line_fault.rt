//! The faults that parsing or executing a script line can have.
ghost use Rattle.std.specs.Prelude.{◌≡◌};
ghost use Rattle.script_text.specs.LineFaults.{line_fault_number};

use std::error::Error;
use std::fmt;
use std::fmt::{Display, Formatter};

/// The reason why a script line was not parsed or executed.
#[derive(Clone, Copy, Debug)]
pub enum LineFault {
    /// The line is malformed: the line is no command, event or query.
    Bad,
    Memory,
}

impl LineFault {
    /// Returns the numeric code of a script line's fault: 1 for a malformed line, 2 for out of
    /// memory.
    pub fn number(self) -> u8
        ensures { result ≡ line_fault_number self }
    {
        match self {
            LineFault::Bad => 1,
            LineFault::Memory => 2,
        }
    }
}

impl Display for LineFault {
    fn fmt<W: fmt::Write>(&self, f: &mut Formatter<W>) -> fmt::Result {
        f.write_str(match self {
            LineFault::Bad => "the line has none of the forms of a script's lines",
            LineFault::Memory => "memory ran out",
        })
    }
}

impl Error for LineFault {}
