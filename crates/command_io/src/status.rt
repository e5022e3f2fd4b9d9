//! The exit statuses of the program's commands.
ghost use Rattle.std.specs.Prelude.{◌≡◌};
ghost use Rattle.command_io.specs.Statuses.{status_number};

/// The way in which a command ended.
#[derive(Clone, Copy, Debug, PartialEq, Eq)]
pub enum ExitStatus {
    /// The command did all that was requested.
    Fine,
    /// The input of the command is malformed, or was refused.
    Refused,
    /// A file, a stream or a socket failed, or memory ran out.
    Failed,
}

impl ExitStatus {
    /// Returns the exit status of the process.
    pub fn number(self) -> u8
        ensures { result ≡ status_number self }
    {
        match self {
            ExitStatus::Fine => 0,
            ExitStatus::Refused => 1,
            ExitStatus::Failed => 3,
        }
    }
}
