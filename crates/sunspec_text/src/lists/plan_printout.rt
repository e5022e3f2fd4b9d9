//! Prints the read plan of a point list that was already parsed.
ghost use Rattle.std.specs.Prelude.{◌≡◌, ◌+◌, ◌<◌, ◌^◌, OnOk, length, map};
ghost use Rattle.std.specs.Io.KnownBytes.{Appends};
ghost use Rattle.command_io.specs.Printing.{PrintsAs, PrintsOn};
ghost use Rattle.read_plan.specs.Items.{items_of};
ghost use Rattle.sunspec_text.specs.Lists.PlanText.{LinesPrint, PointsPrint, PrintsPlan, Writes, point_line, read_head};
ghost use Rattle.sunspec_text.specs.Lists.PlanText.{read_line, read_lines, registers_text, span_line};

use command_io::{ExitStatus, Printer, print_end};
use point_list::{ListedPoint, PointList};
use read_plan::{Place, Plan, PlannedRead, plan};
use std::alloc::Global;
use std::io::{self, Write};

/// Prints the read plan of a point list: `read K FUNCTION AREA ADDRESS COUNT` for each read, with K
/// from 1. AREA is the area number of the read's points (no read has points of two areas). Then
/// prints `point NAME K OFFSET` for each point, in the list's order.
pub fn print_plan<P: Printer>(alloc: Global, list: &PointList, output: &mut P) -> ExitStatus
    ensures { PrintsOn P.Printer (PrintsPlan list.now) result output.old output.new }
{
    let mut lines = Vec::new(alloc);
    let meant = plan_lines(alloc, list, &mut lines);
    print_end(&lines, meant, output)
}

/// Computes the read plan of a point list, and writes its lines.
pub(crate) fn plan_lines<W: Write>(alloc: Global, list: &PointList, output: &mut W) -> ExitStatus
    ensures { PrintsAs (PrintsPlan list.now) result
        (W.contents output.old) (W.contents output.new) }
{
    let Ok(plan) = plan(alloc, list) else {
        return ExitStatus::Failed;
    };
    match print_lines(list, &plan, output) {
        Ok(()) => ExitStatus::Fine,
        Err(_) => ExitStatus::Failed,
    }
}

// Writes one line for each read of a point list's plan (the Modbus reads that cover its points),
// and then one line for each point of the list.
fn print_lines<W: Write>(list: &PointList, plan: &Plan, output: &mut W) -> io::Result<()>
    requires items { plan.now.items ≡ items_of list.now }
    requires starts { plan.now.starts ≡ map (λ point. point.address) list.now }
    requires each { length plan.now.items ≡ length list.now }
    ensures { OnOk result (Writes (LinesPrint list.now plan.now.reads)
        (W.contents output.old) (W.contents output.new)) }
{
    print_reads(plan.reads(), output)?;
    print_points(list.points(), plan, output)?;
    Ok(())
}

fn print_reads<W: Write>(reads: &[PlannedRead], output: &mut W) -> io::Result<()>
    ensures { OnOk result (Appends (W.contents output.old) (W.contents output.new)
        (read_lines 1 reads.now)) }
{
    for (index, read) in reads.iter().enumerate() {
        print_read(index + 1, read, output)?;
    }
    Ok(())
}

fn print_read<W: Write>(number: usize, read: &PlannedRead, output: &mut W) -> io::Result<()>
    ensures { OnOk result (Appends (W.contents output.old) (W.contents output.new)
        (read_line number read.now)) }
{
    let function = read.span.function.code();
    print_span(number, function, read, output)
}

fn print_span<W: Write>(
    number: usize,
    function: u8,
    read: &PlannedRead,
    output: &mut W,
) -> io::Result<()>
    ensures { OnOk result (Appends (W.contents output.old) (W.contents output.new)
        (span_line number function read.now)) }
{
    print_head(number, function, output)?;
    print_registers(read, output)
}

fn print_head<W: Write>(number: usize, function: u8, output: &mut W) -> io::Result<()>
    ensures { OnOk result (Appends (W.contents output.old) (W.contents output.new)
        (read_head number function)) }
{
    write!(output, "read {number} {function} ")
}

fn print_registers<W: Write>(read: &PlannedRead, output: &mut W) -> io::Result<()>
    ensures { OnOk result (Appends (W.contents output.old) (W.contents output.new)
        (registers_text read.now)) }
{
    let area = read.area;
    let address = read.span.address;
    let count = read.span.count;
    write!(output, "{area} {address} {count}\n")
}

fn print_points<W: Write>(points: &[ListedPoint], plan: &Plan, output: &mut W) -> io::Result<()>
    requires items { plan.now.items ≡ items_of points.now }
    requires starts { plan.now.starts ≡ map (λ point. point.address) points.now }
    requires few { length plan.now.reads < 2 ^ 64 }
    requires each { length plan.now.items ≡ length points.now }
    ensures { OnOk result (Writes (PointsPrint points.now points.now plan.now.reads)
        (W.contents output.old) (W.contents output.new)) }
{
    for (index, point) in points.iter().enumerate() {
        print_point(point, plan.place(index), output)?;
    }
    Ok(())
}

fn print_point<W: Write>(point: &ListedPoint, place: Place, output: &mut W) -> io::Result<()>
    requires { place.read + 1 < 2 ^ 64 }
    ensures { OnOk result (Appends (W.contents output.old) (W.contents output.new)
        (point_line (record { point = point.now; read = place.read; offset = place.offset }))) }
{
    output.write_all(b"point ")?;
    output.write_all(point.name.as_bytes())?;
    let read = place.read + 1;
    let offset = place.offset;
    write!(output, " {read} {offset}\n")
}
