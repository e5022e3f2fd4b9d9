//! Scans a live SunSpec device, and prints its chain of models, its point list, or its setup lines
//! (which add the device to `sunreg`).
ghost use Rattle.std.specs.Prelude.{◌≡◌, ◌≤◌, ◌+◌, ◌*◌, [], Err, IfOk, OnErr};
ghost use Rattle.command_io.specs.Printing.{PrintsAs, PrintsOn};
ghost use Rattle.sun_chain.specs.Scanning.Lines.{Garbles, OnlyInquires, has_failed, is_gone};
ghost use Rattle.mb_wire.specs.Links.{risen};
ghost use Rattle.sun_chain.specs.Chain.{models_of, words_of};
ghost use Rattle.sun_chain.specs.Image.{word_in};
ghost use Rattle.sunspec_text.specs.Scans.ScanText.{FormPrints, LinesPrint, ListPrints, RowsPrint, ScanPrints};
ghost use Rattle.sunspec_text.specs.Scans.ScanText.{SetupPrints};

use crate::chains::{print_image, print_lack};
use crate::scans::setup_lines::{Site, setup_text};
use command_io::{ExitStatus, Printer, print_end};
use mb_wire::Link;
use point_list::{FaultyRows, ListFault, PointList, from_chain, write_list};
use script_text::write_faults;
use std::alloc::Global;
use std::io::Write;
use sun_chain::scans::{MOST_READS, MOST_TAKES, ScanFault, ScanObserver, scan_over};
use sun_chain::{Chain, Image, walk};

/// The form in which the SunSpec models that a scan of a device found are printed.
#[derive(Clone, Copy)]
pub enum ScanForm<'a> {
    /// The chain of SunSpec models, in the line format that the function `chain_text` prints.
    Chain,
    /// The list of the points in the SunSpec chain, in CSV.
    List,
    /// The script lines that set up the device and its energy counters.
    Setup(Site<'a>),
}

/// Scans the device with a unit identifier over a new connection, and prints the device's chain of
/// SunSpec models in the requested form.
///
/// Prints only `fault N` if the device has no complete chain of SunSpec models, and only `row R
/// fault N` if the device's point list would have too many points. If the connection fails, ends or
/// carries no Modbus, returns the fault and prints nothing.
pub fn scan_text<L: Link, V: ScanObserver, P: Printer>(
    alloc: Global,
    link: &mut L,
    unit: u8,
    form: ScanForm<'_>,
    observer: &mut V,
    output: &mut P,
) -> Result<ExitStatus, ScanFault>
    ensures printed { IfOk result (ScanPrints P.Printer unit form.entry
        (L.remaining link.old) (L.given link.old) (L.remaining link.new) (L.given link.new)
        output.old output.new) }
    ensures unprinted { OnErr result (output.new ≡ output.old) }
    ensures asks { OnlyInquires unit result (L.given link.old) (L.given link.new) }
    ensures garbled { result ≡ Err ScanFault.Garbled
        → Garbles (L.remaining link.old) (L.remaining link.new) [] }
    ensures failures { L.failed link.new ≡ risen (has_failed result) (L.failed link.old) }
    ensures ends { L.ended link.new ≡ risen (is_gone result) (L.ended link.old) }
    ensures takes { L.taken link.new ≤ L.taken link.old + 2 * MOST_TAKES * MOST_READS }
{
    match scan_over(alloc, link, unit, observer) {
        Ok(image) => Ok(print_scanned(alloc, &image, form, output)),
        Err(fault) => Err(fault),
    }
}

// Builds the complete output for an image of Modbus registers in memory, and then prints it: a
// SunSpec chain, a point list, or setup lines (which add a device to `sunreg`).
fn print_scanned<P: Printer>(
    alloc: Global,
    image: &Image,
    form: ScanForm<'_>,
    output: &mut P,
) -> ExitStatus
    ensures { PrintsOn P.Printer (FormPrints form.entry (word_in image.now)) result
        output.old output.new }
{
    let mut lines = Vec::new(alloc);
    let meant = print_form(alloc, image, form, &mut lines);
    print_end(&lines, meant, output)
}

// Writes the output for an image of Modbus registers: a SunSpec chain, a point list, or setup lines
// (which add a device to `sunreg`).
fn print_form<W: Write>(
    alloc: Global,
    image: &Image,
    form: ScanForm<'_>,
    output: &mut W,
) -> ExitStatus
    ensures { PrintsAs (FormPrints form.entry (word_in image.now)) result
        (W.contents output.old) (W.contents output.new) }
{
    match form {
        ScanForm::Chain => print_image(alloc, image, output),
        ScanForm::List => print_listed(alloc, image, output),
        ScanForm::Setup(site) => print_setup(alloc, image, site, output),
    }
}

// Writes the point list of the SunSpec chain in an image of Modbus registers.
fn print_listed<W: Write>(alloc: Global, image: &Image, output: &mut W) -> ExitStatus
    ensures { PrintsAs (ListPrints (word_in image.now)) result
        (W.contents output.old) (W.contents output.new) }
{
    match walk(alloc, image) {
        Ok(chain) => match from_chain(alloc, &chain) {
            Ok(list) => match write_list(alloc, &list, output) {
                Ok(()) => ExitStatus::Fine,
                Err(_) => ExitStatus::Failed,
            },
            Err(ListFault::Faults(faults)) => print_faults(&faults, output),
            Err(ListFault::Memory) => ExitStatus::Failed,
        },
        Err(fault) => print_lack(fault, output),
    }
}

// Writes the script lines that add a device with these Modbus registers to `sunreg`.
fn print_setup<W: Write>(alloc: Global, image: &Image, site: Site<'_>, output: &mut W) -> ExitStatus
    ensures { PrintsAs (SetupPrints (word_in image.now)) result
        (W.contents output.old) (W.contents output.new) }
{
    match walk(alloc, image) {
        Ok(chain) => match from_chain(alloc, &chain) {
            Ok(list) => print_lines(alloc, &chain, &list, site, output),
            Err(ListFault::Faults(faults)) => print_faults(&faults, output),
            Err(ListFault::Memory) => ExitStatus::Failed,
        },
        Err(fault) => print_lack(fault, output),
    }
}

// Writes the line `row R fault N` for each faulty row of a point list.
fn print_faults<W: Write>(faults: &FaultyRows, output: &mut W) -> ExitStatus
    ensures { PrintsAs (RowsPrint faults.now) result
        (W.contents output.old) (W.contents output.new) }
{
    match write_faults(faults.rows(), output) {
        Ok(()) => ExitStatus::Refused,
        Err(_) => ExitStatus::Failed,
    }
}

// Writes the script lines that add a device and its energy counters to `sunreg`.
fn print_lines<W: Write>(
    alloc: Global,
    chain: &Chain<'_>,
    list: &PointList,
    site: Site<'_>,
    output: &mut W,
) -> ExitStatus
    ensures { PrintsAs LinesPrint result (W.contents output.old) (W.contents output.new) }
{
    let mut text = Vec::new(alloc);
    if write_list(alloc, list, &mut text).is_err() {
        return ExitStatus::Failed;
    }
    let Ok(lines) = setup_text(alloc, chain, &text, site) else {
        return ExitStatus::Failed;
    };
    match output.write_all(&lines) {
        Ok(()) => ExitStatus::Fine,
        Err(_) => ExitStatus::Failed,
    }
}
