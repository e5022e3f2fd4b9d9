//! Prints the last text of a command, and chooses the exit status.
ghost use Rattle.command_io.specs.Printing.{EndsAs};

use crate::printer::Printer;
use crate::status::ExitStatus;

/// Prints a text and returns the intended exit status `meant`, or `Failed` if printing fails. If
/// `meant` is `Failed`, prints nothing.
pub fn print_end<P: Printer>(text: &[u8], meant: ExitStatus, output: &mut P) -> ExitStatus
    ensures { EndsAs P.Printer text.now meant result output.old output.new }
{
    match meant {
        ExitStatus::Fine => match output.print(text) {
            Ok(()) => ExitStatus::Fine,
            Err(_) => ExitStatus::Failed,
        },
        ExitStatus::Refused => match output.print(text) {
            Ok(()) => ExitStatus::Refused,
            Err(_) => ExitStatus::Failed,
        },
        ExitStatus::Failed => ExitStatus::Failed,
    }
}
