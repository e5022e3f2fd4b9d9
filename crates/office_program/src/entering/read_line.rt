//! Parses an input line with `@read`, which installs a meter at the present reading of its counter.
ghost use Rattle.std.specs.Prelude.{◌≡◌, MatchOption, not, option_map, pos};
ghost use Rattle.office_program.specs.Entering.ReadLines as spec;
ghost use Rattle.script_text.specs.LineWords.Words.{words_of};

use crate::entering::files::Shown;
use crate::entering::marks::{is_marked, unmarked};
use office_events::{Asked, Command, Exchange, Install, Name, Piece};
use script_text::{Words, end_of_words, next_name, next_number, next_range};

/// An input line with `@read` in place of a counter's reading. A name is `None` if the word in the
/// line is no valid name.
///
/// An input line with `@read` (the placeholder for a reading) has one of two forms:
///
/// - `NUMBER install REGISTER METER @read CEILING [RANGE]`
/// - `NUMBER exchange REGISTER LAST ROLLS METER @read CEILING [RANGE]`
#[derive(Clone, Copy, PartialEq, Eq)]
pub(crate) enum ReadLine {
    Install {
        number: u64,
        register: Option<Name>,
        meter: Option<Name>,
        ceiling: u64,
        range: u64,
    },
    Exchange {
        number: u64,
        register: Option<Name>,
        last: u64,
        rolls: u64,
        meter: Option<Name>,
        ceiling: u64,
        range: u64,
    },
}

// Reads the word `@read`, which an input line has in place of the counter's reading.
fn next_read(words: &mut Words<'_>) -> Option<()>
    ensures { option_map (λ none. words.new) result ≡ spec.read_word words.old }
{
    if words.next_word()? == b"@read".as_slice() {
        Some(())
    } else {
        None
    }
}

// Parses the words after `NUMBER install`: `REGISTER METER @read CEILING [RANGE]`.
fn install(number: u64, words: &mut Words<'_>) -> Option<ReadLine>
    ensures { result ≡ spec.install_said number words.old }
{
    let register = next_name(words)?;
    let meter = next_name(words)?;
    next_read(words)?;
    let ceiling = next_number(words)?;
    let range = next_range(words)?;
    end_of_words(words)?;
    Some(ReadLine::Install {
        number,
        register,
        meter,
        ceiling,
        range,
    })
}

// Parses the words after `NUMBER exchange`: `REGISTER LAST ROLLS METER @read CEILING [RANGE]`.
fn exchange(number: u64, words: &mut Words<'_>) -> Option<ReadLine>
    ensures { result ≡ spec.exchange_said number words.old }
{
    let register = next_name(words)?;
    let last = next_number(words)?;
    let rolls = next_number(words)?;
    let meter = next_name(words)?;
    next_read(words)?;
    let ceiling = next_number(words)?;
    let range = next_range(words)?;
    end_of_words(words)?;
    Some(ReadLine::Exchange {
        number,
        register,
        last,
        rolls,
        meter,
        ceiling,
        range,
    })
}

// Parses the words after the number and the verb of an input line. Returns `None` if the line is
// neither an installation nor an exchange with `@read` (the placeholder for a reading).
fn line_of(number: u64, verb: &[u8], words: &mut Words<'_>) -> Option<ReadLine>
    ensures { result ≡ spec.line_said number verb.now words.old }
{
    if verb == b"install".as_slice() {
        install(number, words)
    } else if verb == b"exchange".as_slice() {
        exchange(number, words)
    } else {
        None
    }
}

// Parses an input line with `@read` (the placeholder for a reading). The caller has removed the
// mark ` !` (a confirmation).
fn read_line(line: &[u8]) -> Option<ReadLine>
    ensures { result ≡ spec.read_said (words_of line.now) }
{
    let mut words = Words::new(line);
    let number = next_number(&mut words)?;
    let verb = words.next_word()?;
    line_of(number, verb, &mut words)
}

/// Parses an input line with `@read` (the placeholder for a reading). A line that makes an entry by
/// hand may end with the mark ` !` (a confirmation).
pub(crate) fn read_in(line: &[u8]) -> Option<ReadLine>
    ensures { MatchOption result (spec.IsNoRead line.now) (λ read. spec.IsRead line.now read) }
{
    match read_line(unmarked(line)) {
        Some(read) => {
            if read.may_end(is_marked(line)) {
                Some(read)
            } else {
                None
            }
        }
        None => None,
    }
}

impl ReadLine {
    // Returns false if the line installs a meter and has the mark ` !`, as `marked` says. The mark
    // confirms an entry by hand, and an installation makes no such entry. Otherwise returns true.
    fn may_end(&self, marked: bool) -> bool
        ensures { result ≡ spec.may_end marked self.now }
    {
        match *self {
            ReadLine::Install { .. } => !marked,
            ReadLine::Exchange { .. } => true,
        }
    }

    /// Returns the number of the input line's request. The number is a part of the request's
    /// idempotency key.
    pub(crate) fn number(&self) -> u64
        ensures { result ≡ spec.number_of self.now }
    {
        match *self {
            ReadLine::Install { number, .. } => number,
            ReadLine::Exchange { number, .. } => number,
        }
    }

    /// Returns the accounting register whose counter is to be read, or `None` if the register's
    /// name is invalid.
    pub(crate) fn register(&self) -> Option<Name>
        ensures { result ≡ spec.register_of self.now }
    {
        match *self {
            ReadLine::Install { register, .. } => register,
            ReadLine::Exchange { register, .. } => register,
        }
    }

    /// Returns the command of the line with `@read`, with the counter's reading in place of
    /// `@read`: the count `raw` and the scale factor `sf`.
    pub(crate) fn command(&self, raw: u64, sf: i64) -> Command
        ensures { result ≡ spec.command_at self.now raw sf }
    {
        match *self {
            ReadLine::Install {
                register,
                meter,
                ceiling,
                range,
                ..
            } => Command::Install(Install {
                register,
                meter,
                raw,
                sf,
                ceiling,
                range,
            }),
            ReadLine::Exchange {
                register,
                last,
                rolls,
                meter,
                ceiling,
                range,
                ..
            } => Command::Exchange(Exchange {
                register,
                last,
                rolls,
                meter,
                raw,
                sf,
                ceiling,
                range,
            }),
        }
    }
}

/// The request of an input line with `@read`, before the meter's counter is read. `@read` is the
/// placeholder for the reading.
#[derive(Drop)]
pub(crate) struct ReadRequest {
    pub(crate) caller: Option<Name>,
    pub(crate) request: Piece,
    pub(crate) line: ReadLine,
}

impl ReadRequest {
    /// Returns the request of an input line with `@read` (a placeholder for the counter's reading),
    /// where the reading `shown` replaces `@read`.
    pub(crate) fn asked(self, shown: Shown) -> Asked
        ensures { result ≡ spec.asked_at self shown.raw shown.sf }
    {
        let line = self.line;
        Asked {
            caller: self.caller,
            number: line.number(),
            request: self.request,
            command: line.command(u64::from(shown.raw), i64::from(shown.sf)),
        }
    }
}
