//! The progress of entering an input (a text of request lines): the latest timestamp, and whether
//! any line was refused.
ghost use Rattle.std.specs.Prelude.{◌≡◌, ◌||◌, false, true};
ghost use Rattle.office_program.specs.Entering.Entered.{status_of};

use command_io::ExitStatus;

/// The progress of entering an input (a text of request lines): the latest timestamp of its lines,
/// and whether any line was refused.
#[derive(Clone, Copy)]
pub(crate) struct Progress {
    /// The timestamp of the latest input line that needed a timestamp, in seconds since 1970-01-01
    /// UTC.
    ///
    /// An input line needs a timestamp if it made a request. It also needs one if it made no
    /// request because its entry needs a confirmation, a query failed or a counter can't be read
    /// from its device.
    pub(crate) latest: u64,
    /// True if any line of the input (a text of request lines) was refused or made no request.
    pub(crate) refused: bool,
}

impl Progress {
    /// Creates the progress before the first input line. No input line has a timestamp before
    /// `moment`.
    pub(crate) fn from(moment: u64) -> Progress
        ensures { result ≡ record { latest = moment; refused = false } }
    {
        Progress {
            latest: moment,
            refused: false,
        }
    }

    /// Returns the progress (latest timestamp, any refusal) of the input after a line that made a
    /// request at timestamp `at`.
    pub(crate) fn asked(self, at: u64, refused: bool) -> Progress
        ensures { result ≡ record { latest = at; refused = self.refused || refused } }
    {
        Progress {
            latest: at,
            refused: self.refused || refused,
        }
    }

    /// Returns the progress (latest timestamp, any refusal) of the input after a line with
    /// timestamp `at` that made no request.
    pub(crate) fn unasked(at: u64) -> Progress
        ensures { result ≡ record { latest = at; refused = true } }
    {
        Progress::from(at).faulty()
    }

    /// Returns the progress (latest timestamp, any refusal) of the input after a line whose point
    /// list has faulty rows.
    pub(crate) fn faulty(self) -> Progress
        ensures { result ≡ record { latest = self.latest; refused = true } }
    {
        Progress {
            latest: self.latest,
            refused: true,
        }
    }

    /// Returns the exit status of the command that enters an input without a bad line: `Refused` if
    /// a line was refused or made no request, otherwise `Fine`.
    pub(crate) fn status(self) -> ExitStatus
        ensures { result ≡ status_of self }
    {
        if self.refused {
            ExitStatus::Refused
        } else {
            ExitStatus::Fine
        }
    }
}
