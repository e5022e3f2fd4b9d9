//! The last text that a command prints, and the command's exit status.
ghost use Rattle.std.specs.Prelude.{◌≡◌, is_ok, if◌then◌else◌};
ghost use Rattle.office_program.specs.Texts.EndTexts.{IsReported};
ghost use Rattle.script_text.specs.AnswerText.{refused_line};

use command_io::ExitStatus;
use office_events::Refusal;
use script_text::write_refusal;
use std::io::{self, Write};

// Returns the exit status of a command after its last write: `Failed` if the write failed,
// otherwise `meant`, the status for a successful write.
pub(crate) fn ended(written: io::Result<()>, meant: ExitStatus) -> ExitStatus
    ensures { result ≡ if is_ok written then meant else ExitStatus.Failed }
{
    match written {
        Ok(()) => meant,
        Err(_) => ExitStatus::Failed,
    }
}

/// Prints `refused N` for a refusal, and returns the exit status with which the command of `sunreg`
/// ends.
pub(crate) fn print_refusal<W: Write>(why: Refusal, output: &mut W) -> ExitStatus
    ensures { IsReported (refused_line why) ExitStatus.Refused result
        (W.contents output.old) (W.contents output.new) }
{
    let written = write_refusal(why, output);
    ended(written, ExitStatus::Refused)
}
