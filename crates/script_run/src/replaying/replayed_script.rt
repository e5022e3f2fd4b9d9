//! Runs a script (a text of commands, events and queries) from a reader to a writer over a store in
//! memory.
ghost use Rattle.std.specs.Prelude.{IfSome};
ghost use Rattle.script_run.specs.Replaying.TextRun.{Replays};

use crate::replaying::text_run::run_input;
use command_io::{Buffered, ExitStatus};
use interval_core::Zone;
use std::alloc::Global;
use std::io::{Read, Write};

/// The exit status of a script's run, and the writer with the run's output.
#[derive(Drop)]
pub struct Replayed<W> {
    pub status: ExitStatus,
    pub output: W,
}

/// Runs a script (a text of commands, events and queries) with a store in memory, and prints the
/// output of each line. Timestamps begin at 0, and days are civil days in `zone`.
///
/// A script continues after a refusal, which prints `refused N`. A malformed line prints `bad line
/// N` and ends the script. An input of more than 4,194,304 bytes prints only `too long`.
///
/// The complete input of a script is read before its first line is executed. Output is written in
/// chunks of about 8 KiB, and at the end of the script.
pub fn replay<R: Read, W: Write>(alloc: Global, zone: Zone, input: &mut R, output: W) -> Replayed<W>
    ensures { IfSome (R.remaining input.old)
        (λ all. Replays zone all result.status (W.contents output) (W.contents result.output)) }
{
    let mut buffered = Buffered::new(output);
    let ended = run_input(alloc, zone, input, &mut buffered);
    let status = match buffered.flush() {
        Ok(()) => ended,
        Err(_) => ExitStatus::Failed,
    };
    Replayed {
        status,
        output: buffered.into_output(),
    }
}
