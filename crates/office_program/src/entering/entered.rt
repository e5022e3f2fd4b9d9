//! Enters the lines of an input (a text of request lines) into an office (the event engine) that is
//! opened over a store.
ghost use Rattle.office_program.specs.Passing as rounds;
ghost use Rattle.office_program.specs.Texts.Passing.{Lasts};
ghost use Rattle.office_program.specs.Entering.Entered.{EntersOver, EntersTextOf};
ghost use Rattle.office_program.specs.Entering.Lines.{reporting_of};

use crate::command_end::CommandEnd;
use crate::entering::asking::enter_line;
use crate::entering::files::NamedFiles;
use crate::entering::progress::Progress;
use crate::texts::open_office;
use command_io::{ExitStatus, InputLines};
use mb_wire::sockets::{Clock, FixedClock};
use office_books::Books;
use office_core::Office;
use office_events::Name;
use std::alloc::Global;
use std::io::Write;

// Processes the lines of an input (a text of request lines) in order, until the first bad line. No
// line gets a timestamp before `first`.
fn enter_text<B: Books, C: Clock, F: NamedFiles, W: Write>(
    alloc: Global,
    office: &mut Office<B>,
    caller: &Option<Name>,
    first: u64,
    text: &[u8],
    files: &F,
    clock: &mut C,
    output: &mut W,
) -> ExitStatus
    ensures enters { EntersTextOf B.Books C.Clock W.Write (reporting_of F.NamedFiles files.now)
        caller.now text.now first office.old office.new clock.old clock.new
        output.old output.new result }
    ensures lasts { rounds.Lasts B.ledger office.old office.new }
{
    let mut progress = Progress::from(first);
    let mut lines = InputLines::new(text);
    while let Some(line) = lines.next_line() {
        match enter_line(alloc, office, caller, progress, line, files, clock, output) {
            Ok(next) => progress = next,
            Err(status) => return status,
        }
    }
    progress.status()
}

/// Opens an event engine over a store at the clock's time, and enters the lines of an input.
///
/// Each input line is a request. Its idempotency key is the caller and the line's first word, a
/// number. So a line that was executed earlier is answered `ok`, and is not executed again. The
/// timestamp of a line is the clock's time, or the timestamp of the previous line if that timestamp
/// is later.
///
/// For each line the command prints `ok` or `refused N`. For a faulty point list it prints `row R
/// fault N` for each faulty row, and then `refused 12`. `bad line N` ends the command: the
/// remaining lines are not executed.
///
/// A manual entry above the meter's ceiling (its greatest power) is not executed, unless its line
/// ends with ` !` (a confirmation). Instead, the command prints `doubted` and the energy in mWh
/// that the entry would record.
///
/// If opening the event engine is refused, the command `enter` prints only `refused N`. Each entry
/// is stored with the name of its caller; a name that breaks the rules for names makes each input
/// line a `bad line`. Returns the store.
pub fn enter_books<B: Books, C: Clock, F: NamedFiles, W: Write>(
    alloc: Global,
    books: B,
    caller: &str,
    text: &[u8],
    files: &F,
    clock: &mut C,
    output: &mut W,
) -> CommandEnd<B, ExitStatus>
    ensures reports { EntersOver B.Books C.Clock W.Write (reporting_of F.NamedFiles files.now)
        caller.now text.now books result.books clock.old clock.new
        output.old output.new result.end }
    ensures lasts { Lasts (B.ledger books) (B.ledger result.books) }
{
    let first = clock.now();
    let moments = [first];
    let mut opening = FixedClock::new(&moments);
    match open_office(alloc, books, &mut opening, output) {
        Ok(mut office) => {
            let caller = Name::new(caller.as_bytes());
            let end = enter_text(
                alloc,
                &mut office,
                &caller,
                first,
                text,
                files,
                clock,
                output,
            );
            CommandEnd {
                books: office.into_books(),
                end,
            }
        }
        Err(unopened) => CommandEnd {
            books: unopened.books,
            end: unopened.status,
        },
    }
}
