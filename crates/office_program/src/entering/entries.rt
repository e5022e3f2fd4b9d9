//! Parses an input line into a request, which other functions later feed to the office (the event
//! engine).
ghost use Rattle.std.specs.Prelude.{◌≡◌, Some, IfOk};
ghost use Rattle.script_text.specs.LineWords.Words.{words_of};
ghost use Rattle.office_program.specs.Entering.FileLines.{seen_line};
ghost use Rattle.office_program.specs.Entering.Lines as lines;
ghost use Rattle.office_program.specs.Entering.Lines.{ReadsCounter, ReadsEntry, ReadsFile, ReadsList, ReadsScript, ReadsUnnamed, ReadsWanted, reporting_of};

use crate::entering::file_line::{FileLine, file_line};
use crate::entering::files::NamedFiles;
use crate::entering::marks::{is_marked, unmarked};
use crate::entering::read_line::{ReadLine, ReadRequest, read_in};
use crate::entering::wanted::{Wanted, wanted_in};
use office_events::{Asked, Command, Name, Piece, PlannedList, PutList};
use point_list::{FaultyRows, ListFault, read_list};
use script_text::{LineFault, ScriptLine};
use std::alloc::{AllocError, Global};

/// The parsed form of an input line: a request, a request that needs a meter's counter reading, or
/// faulty rows of a point list.
#[derive(Drop)]
pub(crate) enum Entry {
    /// The input line is valid and makes this request.
    Ask(Asked),
    /// The input line makes the request that results from `ReadRequest` after the meter's counter
    /// has been read.
    Read(ReadRequest),
    /// The point list of the input line has these faulty rows.
    Faulty(FaultyRows),
}

// Parses the point list (the points to poll) of an input line. `request` has the bytes of the line
// that the store keeps.
fn list_entry(
    alloc: Global,
    caller: Option<Name>,
    number: u64,
    device: Option<Name>,
    text: &[u8],
    request: Piece,
) -> Result<Entry, LineFault>
    ensures { ReadsList caller number device text.now request result }
{
    match read_list(alloc, text) {
        Ok(points) => match PlannedList::new(alloc, points) {
            Ok(list) => Ok(Entry::Ask(Asked {
                caller,
                number,
                request,
                command: Command::PutList(PutList { device, list }),
            })),
            Err(_) => Err(LineFault::Memory),
        },
        Err(fault) => match fault {
            ListFault::Faults(faults) => Ok(Entry::Faulty(faults)),
            ListFault::Memory => Err(LineFault::Memory),
        },
    }
}

// Returns a copy of the input line. The store keeps these bytes to recognize a retry of the line's
// request.
fn kept_line(alloc: Global, line: &[u8]) -> Result<Piece, AllocError>
    ensures { IfOk result (λ kept. kept ≡ line.now) }
{
    Ok(Piece::new(Vec::from_slice(alloc, line)?))
}

// Returns the bytes that the store keeps for an input line that names a file: the line, a line
// feed, and the bytes of the file. A retry must have exactly the same bytes.
fn file_request(alloc: Global, line: &[u8], text: &[u8]) -> Result<Piece, AllocError>
    ensures { IfOk result (λ kept. kept ≡ lines.file_request line.now text.now) }
{
    let mut bytes = Vec::from_slice(alloc, line)?;
    bytes.push(b'\n')?;
    bytes.extend_from_slice(text)?;
    Ok(Piece::new(bytes))
}

// Returns the parsed form of a line of a script (a text of commands) that contains the request
// `want`. Returns the error `Bad` if the line contains no request.
fn wanted_entry(
    alloc: Global,
    caller: Option<Name>,
    line: &[u8],
    want: Wanted,
) -> Result<Entry, LineFault>
    ensures { ReadsWanted caller line.now want result }
{
    match kept_line(alloc, line) {
        Ok(request) => match want {
            Wanted::Command(number, command) => Ok(Entry::Ask(Asked {
                caller,
                number,
                request,
                command,
            })),
            Wanted::List(number, list) => list_entry(
                alloc,
                caller,
                number,
                list.device,
                list.text.as_slice(),
                request,
            ),
            Wanted::Nothing => Err(LineFault::Bad),
        },
        Err(_) => Err(LineFault::Memory),
    }
}

// Parses a line of a script (a text of commands), which may end with the mark ` !` (a confirmation
// of an entry by hand).
fn script_entry(alloc: Global, caller: Option<Name>, line: &[u8]) -> Result<Entry, LineFault>
    ensures { ReadsScript caller line.now result }
{
    match ScriptLine::read(alloc, unmarked(line)) {
        Ok(said) => wanted_entry(alloc, caller, line, wanted_in(is_marked(line), said)),
        Err(fault) => Err(fault),
    }
}

// Returns the parsed form of an input line that names a file. `text` has the bytes that were read
// from the file.
fn held_entry(
    alloc: Global,
    caller: Option<Name>,
    line: &[u8],
    named: &FileLine<'_>,
    text: &[u8],
) -> Result<Entry, LineFault>
    ensures { ReadsList caller named.now.number named.now.device text.now
        (lines.file_request line.now text.now) result }
{
    match file_request(alloc, line, text) {
        Ok(request) => list_entry(alloc, caller, named.number, named.device, text, request),
        Err(_) => Err(LineFault::Memory),
    }
}

// Reads the file that the input line names, and returns the parsed form of the line. Returns the
// error `Bad` if the file does not exist.
fn file_entry<F: NamedFiles>(
    alloc: Global,
    caller: Option<Name>,
    line: &[u8],
    named: &FileLine<'_>,
    files: &F,
) -> Result<Entry, LineFault>
    ensures { ReadsFile (reporting_of F.NamedFiles files.now)
        caller line.now (seen_line named.now) result }
{
    match files.read(alloc, named.name) {
        Ok(found) => match found {
            Some(text) => held_entry(alloc, caller, line, named, &text),
            None => Err(LineFault::Bad),
        },
        Err(_) => Err(LineFault::Memory),
    }
}

// Returns the parsed form of an input line with `@read`, a placeholder for the counter's reading.
// The meter's counter is read later.
fn read_entry(
    alloc: Global,
    caller: Option<Name>,
    line: &[u8],
    read: ReadLine,
) -> Result<Entry, LineFault>
    ensures { ReadsCounter caller line.now read result }
{
    match kept_line(alloc, line) {
        Ok(request) => Ok(Entry::Read(ReadRequest {
            caller,
            request,
            line: read,
        })),
        Err(_) => Err(LineFault::Memory),
    }
}

// Parses an input line that names no file.
fn unnamed_entry(alloc: Global, caller: Option<Name>, line: &[u8]) -> Result<Entry, LineFault>
    ensures { ReadsUnnamed caller line.now result }
{
    match read_in(line) {
        Some(read) => read_entry(alloc, caller, line, read),
        None => script_entry(alloc, caller, line),
    }
}

/// Parses an input line. If the line names a file, the file's contents are part of the parsed form.
pub(crate) fn entry_in<F: NamedFiles>(
    alloc: Global,
    caller: Option<Name>,
    line: &[u8],
    files: &F,
) -> Result<Entry, LineFault>
    ensures { ReadsEntry (reporting_of F.NamedFiles files.now) caller line.now result }
{
    match file_line(line) {
        Some(named) => file_entry(alloc, caller, line, &named, files),
        None => unnamed_entry(alloc, caller, line),
    }
}
