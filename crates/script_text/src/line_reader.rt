//! Parses a line of a script into an event, a command or a query.
ghost use Rattle.std.specs.Prelude.{◌≡◌, ◌∷◌, IfOk, IsErr, None};
ghost use Rattle.script_text.specs.LineReader.{SaysBytes, SaysPiece, device_bytes_said, line_said, said_by, said_from, timed_said};
ghost use Rattle.script_text.specs.LineWords.Words.{words_of};
ghost use Rattle.script_text.specs.declared.verbs.Verb.TheVariants as verb;

use crate::commands::{
    close, device, exchange, install, manual, register, rescale, reset, round, void_entry,
};
use crate::happenings::{asked, connect, failed, gone, start, tick};
use crate::line_fault::LineFault;
use crate::line_words::{Words, end_of_words, hex_bytes, next_name, number};
use crate::script::{GivenList, ScriptLine};
use crate::verbs::{Verb, question_of, verb_of};
use office_events::{Event, Name, Piece};
use std::alloc::{AllocError, Global};

impl ScriptLine {
    ghost use Rattle.script_text.specs.Seen.{Reads};

    /// Parses a line of a script. Parsing can fail with `Memory` (out of memory) only if the line
    /// contains bytes in hexadecimal.
    pub fn read(alloc: Global, line: &[u8]) -> Result<ScriptLine, LineFault>
        ensures { Reads (words_of line.now) result }
    {
        match line_in(alloc, line) {
            Ok(found) => match found {
                Some(said) => Ok(said),
                None => Err(LineFault::Bad),
            },
            Err(_) => Err(LineFault::Memory),
        }
    }
}

fn line_in(alloc: Global, line: &[u8]) -> Result<Option<ScriptLine>, AllocError>
    ensures value { IfOk result (λ found. found ≡ line_said (words_of line.now)) }
    ensures memory { IsErr result → SaysBytes (line_said (words_of line.now)) }
{
    let mut words = Words::new(line);
    match words.next_word() {
        Some(first) => line_from(alloc, first, &mut words),
        None => Ok(None),
    }
}

// Parses a script line, given its first word. The first word is a timestamp, or the verb of a
// query.
fn line_from(
    alloc: Global,
    first: &[u8],
    words: &mut Words<'_>,
) -> Result<Option<ScriptLine>, AllocError>
    ensures value { IfOk result (λ found. found ≡ line_said (first.now ∷ words.old)) }
    ensures memory { IsErr result → SaysBytes (line_said (first.now ∷ words.old)) }
{
    match number(first) {
        Some(at) => timed_line(alloc, at, words),
        None => Ok(question(first, words)),
    }
}

fn question(first: &[u8], words: &mut Words<'_>) -> Option<ScriptLine>
    ensures { result ≡ said_from None first.now words.old }
{
    asked(question_of(first)?, words)
}

fn timed_line(
    alloc: Global,
    at: u64,
    words: &mut Words<'_>,
) -> Result<Option<ScriptLine>, AllocError>
    ensures value { IfOk result (λ found. found ≡ timed_said at words.old) }
    ensures memory { IsErr result → SaysBytes (timed_said at words.old) }
{
    let Some(word) = words.next_word() else {
        return Ok(None);
    };
    match verb_of(word) {
        Some(verb) => line_by(alloc, verb, at, words),
        None => Ok(None),
    }
}

fn line_by(
    alloc: Global,
    verb: Verb,
    at: u64,
    words: &mut Words<'_>,
) -> Result<Option<ScriptLine>, AllocError>
    ensures value { IfOk result (λ found. found ≡ said_by verb at words.old) }
    ensures memory { IsErr result → SaysBytes (said_by verb at words.old) }
{
    match verb {
        Verb::Device => Ok(device(at, words)),
        Verb::List => list_line(alloc, at, words),
        Verb::Register => Ok(register(at, words)),
        Verb::Install => Ok(install(at, words)),
        Verb::Exchange => Ok(exchange(at, words)),
        Verb::Reset => Ok(reset(at, words)),
        Verb::Rescale => Ok(rescale(at, words)),
        Verb::Manual => Ok(manual(at, words)),
        Verb::Close => Ok(close(at, words)),
        Verb::Void => Ok(void_entry(at, words)),
        Verb::Connect => Ok(connect(at, words)),
        Verb::Start => Ok(start(at, words)),
        Verb::Round => Ok(round(at, words)),
        Verb::Bytes => bytes_line(alloc, at, words),
        Verb::Tick => Ok(tick(at, words)),
        Verb::Gone => Ok(gone(at, words)),
        Verb::Failed => Ok(failed(at, words)),
    }
}

// Parses `DEVICE HEX`, the words after `list` in a script line. These words describe a point list
// as the bytes of its CSV text.
fn list_line(
    alloc: Global,
    at: u64,
    words: &mut Words<'_>,
) -> Result<Option<ScriptLine>, AllocError>
    ensures value { IfOk result (λ found. found ≡ said_by verb.List at words.old) }
    ensures memory { IsErr result → SaysBytes (said_by verb.List at words.old) }
{
    match device_bytes(alloc, words)? {
        Some((device, text)) => Ok(Some(ScriptLine::List {
            at,
            list: GivenList { device, text },
        })),
        None => Ok(None),
    }
}

// Parses `DEVICE HEX`, the words after `bytes` in a script line. These words describe bytes that a
// device sent.
fn bytes_line(
    alloc: Global,
    at: u64,
    words: &mut Words<'_>,
) -> Result<Option<ScriptLine>, AllocError>
    ensures value { IfOk result (λ found. found ≡ said_by verb.Bytes at words.old) }
    ensures memory { IsErr result → SaysBytes (said_by verb.Bytes at words.old) }
{
    match device_bytes(alloc, words)? {
        Some((device, piece)) => Ok(Some(ScriptLine::Event {
            at,
            event: Event::Bytes(device, piece),
        })),
        None => Ok(None),
    }
}

// Parses a device's name and bytes in hexadecimal. If the hexadecimal word is missing, the list of
// bytes is empty.
fn device_bytes(
    alloc: Global,
    words: &mut Words<'_>,
) -> Result<Option<(Option<Name>, Piece)>, AllocError>
    ensures value { IfOk result (λ found. found ≡ device_bytes_said words.old) }
    ensures memory { IsErr result → SaysPiece (device_bytes_said words.old) }
{
    let Some(device) = next_name(words) else {
        return Ok(None);
    };
    let Some(hex) = words.next_word() else {
        return Ok(Some((device, Piece::new(Vec::new(alloc)))));
    };
    let Some(()) = end_of_words(words) else {
        return Ok(None);
    };
    match hex_bytes(alloc, hex)? {
        Some(bytes) => Ok(Some((device, Piece::new(bytes)))),
        None => Ok(None),
    }
}
