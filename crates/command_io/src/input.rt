//! Reads the complete input of a command, up to a maximum length.
ghost use Rattle.std.specs.Prelude.{◌≡◌, ◌≢◌, ◌≤◌, ◌↔◌, ◌⊎◌, Err, false, true, IfOk, IfErr, length};
ghost use Rattle.command_io.specs.Input.{AreWholeOf, BlamesLengthRightly, LeavesUnread};
ghost use Rattle.command_io.specs.Input.{ReportsTooLong, most_bytes};

use crate::calls::Calls;
use crate::printer::Printer;
use crate::status::ExitStatus;
use std::alloc::Global;
use std::error::Error;
use std::fmt;
use std::fmt::{Display, Formatter};
use std::io::Read;

/// The greatest length of a command's input, in bytes.
pub const MOST_BYTES: usize = 4_194_304;

/// The size of the buffer for one call of `read` on a command's input, in bytes.
const PIECE: usize = 4096;

/// Why the input of a command was not read completely.
#[derive(Clone, Copy, Debug, PartialEq, Eq)]
pub enum ReadFault {
    /// The input of a command is longer than the maximum length of an input, `MOST_BYTES` (4 MiB).
    TooLong,
    /// A call of `read` failed, or was interrupted.
    Failed,
    Memory,
}

impl Display for ReadFault {
    fn fmt<W: fmt::Write>(&self, f: &mut Formatter<W>) -> fmt::Result {
        match self {
            ReadFault::TooLong => write!(f, "the input has more than {MOST_BYTES} bytes"),
            ReadFault::Failed => write!(f, "reading the input failed or was interrupted"),
            ReadFault::Memory => write!(f, "out of memory"),
        }
    }
}

impl Error for ReadFault {}

/// Reads an input to its end, with at most `MOST_BYTES` + 1 calls of `read`. Makes no call after a
/// failed one.
pub fn read_whole<R: Read>(alloc: Global, input: &mut R) -> Result<Vec<u8>, ReadFault>
    ensures whole { IfOk result (AreWholeOf (R.remaining input.old)) }
    ensures fits { IfOk result (λ bytes. length bytes.items ≤ most_bytes) }
    ensures long { IfErr result (BlamesLengthRightly (R.remaining input.old)) }
{
    let mut calls = Calls::new(input);
    read_by(alloc, &mut calls)
}

// Reads an input to its end with a bounded number of `read` calls, and stops at the first failed
// call.
fn read_by<R: Read>(alloc: Global, calls: &mut Calls<'_, R>) -> Result<Vec<u8>, ReadFault>
    requires none { calls.old.made ≡ 0 }
    requires works { calls.old.failed ≡ false }
    ensures few { calls.new.made ≤ 4194305 }
    ensures failed { (calls.new.failed ≡ true) ↔ (result ≡ Err ReadFault.Failed) }
    ensures whole { IfOk result (AreWholeOf (R.remaining calls.old.input.now)) }
    ensures fits { IfOk result (λ bytes. length bytes.items ≤ most_bytes) }
    ensures long { IfErr result (BlamesLengthRightly (R.remaining calls.old.input.now)) }
{
    let mut whole = Vec::new(alloc);
    let mut piece = [0u8; PIECE];
    for _call in 0..MOST_BYTES + 1 {
        let Ok(count) = calls.read(&mut piece) else {
            return Err(ReadFault::Failed);
        };
        if count == 0 {
            return Ok(whole);
        }
        if whole.extend_from_slice(&piece[..count]).is_err() {
            return Err(ReadFault::Memory);
        }
        if whole.len() > MOST_BYTES {
            return Err(ReadFault::TooLong);
        }
    }
    Err(ReadFault::TooLong)
}

/// Reads the complete input of a command. Prints `too long` if the input is too long. An error is
/// the exit status of the command, `Refused` or `Failed`.
pub fn read_input<R: Read, P: Printer>(
    alloc: Global,
    input: &mut R,
    output: &mut P,
) -> Result<Vec<u8>, ExitStatus>
    ensures whole { IfOk result (AreWholeOf (R.remaining input.old)) }
    ensures fits { IfOk result (λ text. length text.items ≤ most_bytes) }
    ensures silent { IfOk result (λ text. output.new ≡ output.old) }
    ensures ends { IfErr result (λ status. status ≢ ExitStatus.Fine) }
    ensures unread { IfErr result (LeavesUnread (R.remaining input.old)
        (P.contents output.old) (P.contents output.new)) }
    ensures failed { IfErr result (λ status. status ≡ ExitStatus.Failed
        → P.has_failed output.new ⊎ (output.new ≡ output.old)) }
{
    match read_whole(alloc, input) {
        Ok(text) => Ok(text),
        Err(ReadFault::TooLong) => Err(print_too_long(output)),
        Err(ReadFault::Failed | ReadFault::Memory) => Err(ExitStatus::Failed),
    }
}

// Prints the line `too long`, and returns the exit status for an input that is too long.
fn print_too_long<P: Printer>(output: &mut P) -> ExitStatus
    ensures reported { ReportsTooLong result (P.contents output.old) (P.contents output.new) }
    ensures failed { result ≡ ExitStatus.Failed → P.has_failed output.new }
{
    match output.print(b"too long\n") {
        Ok(()) => ExitStatus::Refused,
        Err(_) => ExitStatus::Failed,
    }
}
