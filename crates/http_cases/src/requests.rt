//! Runs the requests of a golden test against a store in memory.
use crate::responses::{run, serve};
use crate::spelled::decode;
use interval_core::Zone;
use memory_books::ListBooks;
use office_core::Office;
use office_events::{Command, Event, PlannedList, PutList, StartPoll};
use point_list::read_list;
use script_text::{GivenList, GivenStart, ScriptLine};
use std::alloc::{AllocError, Global};

type MemoryOffice = Office<ListBooks>;

/// Returns the responses to the requests of a golden test, each followed by a line feed. Requests
/// to the command `serve` arrive in chunks of `piece` bytes.
pub(crate) fn play(alloc: Global, text: &str, piece: usize) -> Result<Vec<u8>, AllocError> {
    match open_office(alloc) {
        Some(mut office) => play_blocks(alloc, &mut office, text, piece),
        None => Vec::from_slice(alloc, b"no office\n"),
    }
}

fn open_office(alloc: Global) -> Option<MemoryOffice> {
    let zone = Zone::read("UTC0").ok()?;
    Office::open(alloc, ListBooks::new(alloc, zone), 0).ok()
}

fn play_blocks(
    alloc: Global,
    office: &mut MemoryOffice,
    text: &str,
    piece: usize,
) -> Result<Vec<u8>, AllocError> {
    let mut printed = Vec::new(alloc);
    let text = text.strip_suffix('\n').unwrap_or(text);
    for block in text.split("\n> ") {
        play_block(alloc, office, block, piece, &mut printed)?;
    }
    Ok(printed)
}

// Runs one block of a golden test. A block that begins with `serve MOMENT` or `run MOMENT` contains
// an HTTP request. Any other block contains lines of a setup script.
fn play_block(
    alloc: Global,
    office: &mut MemoryOffice,
    block: &str,
    piece: usize,
    printed: &mut Vec<u8>,
) -> Result<(), AllocError> {
    let (head, body) = block.split_once('\n').unwrap_or((block, ""));
    let (command, at) = head.split_once(' ').unwrap_or((head, ""));
    let at = at.parse::<u64>().unwrap_or(0);
    match command {
        "serve" => {
            let request = decode(alloc, body)?;
            serve(alloc, office, at, &request, piece, printed)?;
        }
        "run" => {
            let request = decode(alloc, body)?;
            run(alloc, office, at, &request, printed)?;
        }
        _ => return set_up(alloc, office, body, printed),
    }
    printed.push(b'\n')?;
    Ok(())
}

// Executes the lines of a golden test's setup script. Appends `rejected: LINE` for each line that
// is not accepted.
fn set_up(
    alloc: Global,
    office: &mut MemoryOffice,
    lines: &str,
    printed: &mut Vec<u8>,
) -> Result<(), AllocError> {
    for line in lines.split('\n') {
        let is_silent = line.is_empty() || line.starts_with('#');
        if !is_silent && !is_accepted(alloc, office, line.as_bytes()) {
            printed.extend_from_slice(b"rejected: ")?;
            printed.extend_from_slice(line.as_bytes())?;
            printed.push(b'\n')?;
        }
    }
    Ok(())
}

fn is_accepted(alloc: Global, office: &mut MemoryOffice, line: &[u8]) -> bool {
    match ScriptLine::read(alloc, line) {
        Ok(ScriptLine::Event { at, event }) => office.feed(at, &event).is_ok(),
        Ok(ScriptLine::List { at, list }) => is_list_accepted(alloc, office, at, &list),
        Ok(ScriptLine::Start { at, start }) => is_start_accepted(office, at, &start),
        _ => false,
    }
}

fn is_list_accepted(alloc: Global, office: &mut MemoryOffice, at: u64, list: &GivenList) -> bool {
    let Ok(points) = read_list(alloc, list.text.as_slice()) else {
        return false;
    };
    let Ok(planned) = PlannedList::new(alloc, points) else {
        return false;
    };
    let put = PutList {
        device: list.device,
        list: planned,
    };
    office
        .feed(at, &Event::Command(Command::PutList(put)))
        .is_ok()
}

fn is_start_accepted(office: &mut MemoryOffice, at: u64, start: &GivenStart) -> bool {
    let device = start.device;
    match start.span() {
        Some(span) => {
            let poll = Command::StartPoll(StartPoll { device, span });
            office.feed(at, &Event::Command(poll)).is_ok()
        }
        None => false,
    }
}
