//! Prints the read plan of a point list in CSV.
ghost use Rattle.std.specs.Prelude.{IfSome};
ghost use Rattle.command_io.specs.Printing.{PrintsAs, PrintsFor, PrintsOn};
ghost use Rattle.sunspec_text.specs.Lists.ListText.{ListPrints, TextPrints};

use crate::lists::plan_printout::plan_lines;
use command_io::{ExitStatus, Printer, print_end, read_input};
use point_list::{ListFault, read_list};
use script_text::write_faults;
use std::alloc::Global;
use std::io::{Read, Write};

/// Reads a point list in CSV, and prints its plan, the Modbus reads that cover the points.
///
/// Prints `read K FUNCTION AREA ADDRESS COUNT` for each read, with K from 1, then `point NAME K
/// OFFSET` for each point. AREA is the area number of the points (no read has points of two areas).
/// A faulty list prints only `row R fault N` for each faulty row; the header is row 1. An input of
/// more than `MOST_BYTES` bytes prints only `too long`.
pub fn plan_text<R: Read, P: Printer>(alloc: Global, input: &mut R, output: &mut P) -> ExitStatus
    ensures { IfSome (R.remaining input.old)
        (PrintsFor P.Printer ListPrints result output.old output.new) }
{
    match read_input(alloc, input, output) {
        Ok(text) => print_said(alloc, &text, output),
        Err(status) => status,
    }
}

// Builds the complete output for a point list in CSV in memory, and then prints this output.
fn print_said<P: Printer>(alloc: Global, text: &[u8], output: &mut P) -> ExitStatus
    ensures { PrintsOn P.Printer (TextPrints text.now) result output.old output.new }
{
    let mut lines = Vec::new(alloc);
    let meant = print_text(alloc, text, &mut lines);
    print_end(&lines, meant, output)
}

// Writes the read plan of a point list in CSV, or one line for each faulty row.
fn print_text<W: Write>(alloc: Global, text: &[u8], output: &mut W) -> ExitStatus
    ensures { PrintsAs (TextPrints text.now) result
        (W.contents output.old) (W.contents output.new) }
{
    match read_list(alloc, text) {
        Ok(list) => plan_lines(alloc, &list, output),
        Err(ListFault::Faults(faults)) => match write_faults(faults.rows(), output) {
            Ok(()) => ExitStatus::Refused,
            Err(_) => ExitStatus::Failed,
        },
        Err(ListFault::Memory) => ExitStatus::Failed,
    }
}
