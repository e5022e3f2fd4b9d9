//! Prints the chain of SunSpec models in a device's Modbus registers.
ghost use Rattle.std.specs.Prelude.{IfSome, OnOk, flat_map, map};
ghost use Rattle.std.specs.Io.KnownBytes.{Appends};
ghost use Rattle.sun_chain.specs.Chain.{words_of};
ghost use Rattle.sun_chain.specs.Image.{word_in};
ghost use Rattle.sun_chain.specs.Points.{seen};
ghost use Rattle.sunspec_text.specs.Chains.ChainText.{ChainPrints, FaultPrints, LinesPrint, WordsPrint, fault_line};
ghost use Rattle.sunspec_text.specs.Chains.ChainText.{lines_of, model_line, model_lines, point_line};
ghost use Rattle.sunspec_text.specs.Chains.ImageLines.{nothing_read, words_reported};
ghost use Rattle.command_io.specs.Lines.{speaking_lines};
ghost use Rattle.command_io.specs.Printing.{PrintsAs, PrintsFor, PrintsOn};

use crate::chains::image_lines::{LoadFault, load};
use command_io::{ExitStatus, Printer, print_end, read_input};
use script_text::write_bad_line;
use std::alloc::Global;
use std::io::{self, Read, Write};
use sun_chain::{Chain, ChainFault, Image, Model, NamedPoint, walk};

/// Reads lines `ADDRESS HEX`, where HEX are the Modbus registers from ADDRESS on, and prints the
/// chain of SunSpec models in these registers.
///
/// Prints `base B`, for each model `model ADDRESS ID L` and its points `point NAME VALUE`, then
/// `end ADDRESS`. A fault prints only `fault N`. A malformed line, or a line that extends past
/// address 65535, prints only `bad line N`. An input of more than `MOST_BYTES` bytes prints `too
/// long`.
pub fn chain_text<R: Read, P: Printer>(alloc: Global, input: &mut R, output: &mut P) -> ExitStatus
    ensures { IfSome (R.remaining input.old)
        (PrintsFor P.Printer ChainPrints result output.old output.new) }
{
    match read_input(alloc, input, output) {
        Ok(text) => print_said(alloc, &text, output),
        Err(status) => status,
    }
}

// Builds the complete output for lines `ADDRESS HEX` in memory, and then prints this output.
fn print_said<P: Printer>(alloc: Global, text: &[u8], output: &mut P) -> ExitStatus
    ensures { PrintsOn P.Printer (LinesPrint (words_reported nothing_read (speaking_lines text.now)))
        result output.old output.new }
{
    let mut lines = Vec::new(alloc);
    let meant = print_lines(alloc, text, &mut lines);
    print_end(&lines, meant, output)
}

// Writes the chain of SunSpec models in the Modbus registers that lines `ADDRESS HEX` describe, or
// a fault.
fn print_lines<W: Write>(alloc: Global, text: &[u8], output: &mut W) -> ExitStatus
    ensures { PrintsAs (LinesPrint (words_reported nothing_read (speaking_lines text.now))) result
        (W.contents output.old) (W.contents output.new) }
{
    match load(alloc, text) {
        Ok(image) => print_image(alloc, &image, output),
        Err(LoadFault::BadLine(number)) => match write_bad_line(number, output) {
            Ok(()) => ExitStatus::Refused,
            Err(_) => ExitStatus::Failed,
        },
        Err(LoadFault::Memory) => ExitStatus::Failed,
    }
}

/// Writes the chain of SunSpec models in an image of Modbus registers. If the image has no complete
/// chain, writes the fault's line.
pub(crate) fn print_image<W: Write>(alloc: Global, image: &Image, output: &mut W) -> ExitStatus
    ensures { PrintsAs (WordsPrint (word_in image.now)) result
        (W.contents output.old) (W.contents output.new) }
{
    match walk(alloc, image) {
        Ok(chain) => match print_chain(&chain, output) {
            Ok(()) => ExitStatus::Fine,
            Err(_) => ExitStatus::Failed,
        },
        Err(fault) => print_lack(fault, output),
    }
}

/// Writes the line `fault N` for a chain fault, which explains why a device has no complete chain
/// of SunSpec models.
pub(crate) fn print_lack<W: Write>(fault: ChainFault, output: &mut W) -> ExitStatus
    ensures { PrintsAs (FaultPrints fault) result
        (W.contents output.old) (W.contents output.new) }
{
    if fault == ChainFault::Memory {
        return ExitStatus::Failed;
    }
    match print_fault(fault, output) {
        Ok(()) => ExitStatus::Refused,
        Err(_) => ExitStatus::Failed,
    }
}

fn print_fault<W: Write>(fault: ChainFault, output: &mut W) -> io::Result<()>
    ensures { OnOk result (Appends (W.contents output.old) (W.contents output.new)
        (fault_line fault)) }
{
    let number = fault.number();
    match fault {
        ChainFault::Unreadable(address) => write!(output, "fault {number} {address}\n"),
        _ => write!(output, "fault {number}\n"),
    }
}

fn print_chain<W: Write>(chain: &Chain<'_>, output: &mut W) -> io::Result<()>
    ensures { OnOk result (Appends (W.contents output.old) (W.contents output.new)
        (lines_of chain.now)) }
{
    let base = chain.base();
    write!(output, "base {base}\n")?;
    print_models(chain, chain.models(), output)?;
    let end = chain.end();
    write!(output, "end {end}\n")
}

fn print_models<W: Write>(chain: &Chain<'_>, models: &[Model], output: &mut W) -> io::Result<()>
    ensures { OnOk result (Appends (W.contents output.old) (W.contents output.new)
        (flat_map (model_lines (words_of chain.now)) models.now)) }
{
    for model in models {
        print_model(chain, model, output)?;
    }
    Ok(())
}

// Writes the line of a SunSpec model, and then one line for each of its points.
fn print_model<W: Write>(chain: &Chain<'_>, model: &Model, output: &mut W) -> io::Result<()>
    ensures { OnOk result (Appends (W.contents output.old) (W.contents output.new)
        (model_lines (words_of chain.now) model.now)) }
{
    print_model_line(model, output)?;
    let points = chain.points(model)?;
    print_points(&points, output)
}

fn print_model_line<W: Write>(model: &Model, output: &mut W) -> io::Result<()>
    ensures { OnOk result (Appends (W.contents output.old) (W.contents output.new)
        (model_line model.now)) }
{
    let Model {
        address,
        id,
        length,
    } = *model;
    write!(output, "model {address} {id} {length}\n")
}

fn print_points<W: Write>(points: &[NamedPoint<'_>], output: &mut W) -> io::Result<()>
    ensures { OnOk result (Appends (W.contents output.old) (W.contents output.new)
        (flat_map point_line (map seen points.now))) }
{
    for point in points {
        print_point(point, output)?;
    }
    Ok(())
}

fn print_point<W: Write>(point: &NamedPoint<'_>, output: &mut W) -> io::Result<()>
    ensures { OnOk result (Appends (W.contents output.old) (W.contents output.new)
        (point_line (seen point.now))) }
{
    output.write_all(b"point ")?;
    output.write_all(point.name().as_bytes())?;
    output.write_all(b" ")?;
    point.write_value(output)?;
    output.write_all(b"\n")
}
