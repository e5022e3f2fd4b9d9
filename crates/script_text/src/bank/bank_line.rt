//! Parses the lines that set up a simulated device.
ghost use Rattle.std.specs.Prelude.{◌≡◌};
ghost use Rattle.script_text.specs.Bank.BankLine as said;
ghost use Rattle.script_text.specs.LineWords.Words.{words_of};

use crate::bank::bank::{BankLine, GivenArea, GivenCell};
use crate::line_words::{Words, end_of_words, meaning_in, next_number};
use mb_device::{Kind, Trick};

/// The greatest number of bytes to which the simulator can cut a response.
const MOST_CUT: u64 = 259;

const KINDS: &[(&str, Kind)] = &[
    ("coil", Kind::Coil),
    ("discrete", Kind::Discrete),
    ("holding", Kind::Holding),
    ("input", Kind::Input),
];

// The faults that the simulated device can inject and that take no argument, by name.
const TRICKS: &[(&str, Trick)] = &[
    ("drop", Trick::Drop),
    ("twice", Trick::Twice),
    ("later", Trick::Later),
    ("id", Trick::Id),
    ("unit", Trick::Unit),
    ("garble", Trick::Garble),
];

impl BankLine {
    ghost use Rattle.script_text.specs.Bank.Seen.{ReadsBank};

    /// Parses a line that sets up a simulated device, or returns `None` if the line is malformed.
    pub fn read(line: &[u8]) -> Option<BankLine>
        ensures { ReadsBank (words_of line.now) result }
    {
        line_in(line)
    }
}

fn line_in(line: &[u8]) -> Option<BankLine>
    ensures { result ≡ said.bank_said (words_of line.now) }
{
    let mut words = Words::new(line);
    let first = words.next_word()?;
    if first == b"area".as_slice() {
        area(&mut words)
    } else if first == b"set".as_slice() {
        cell(&mut words)
    } else if first == b"trick".as_slice() {
        frame(&mut words)
    } else {
        None
    }
}

// Parses `KIND START COUNT`, the words after `area` in a setup line. These words describe a range
// of Modbus addresses.
fn area(words: &mut Words<'_>) -> Option<BankLine>
    ensures { result ≡ said.area_said words.old }
{
    let (kind, start, count) = kind_and_numbers(words)?;
    Some(BankLine::Area(GivenArea { kind, start, count }))
}

// Parses `KIND ADDRESS VALUE`, the words after `set` in a setup line. These words describe the
// value at a Modbus address.
fn cell(words: &mut Words<'_>) -> Option<BankLine>
    ensures { result ≡ said.set_said words.old }
{
    let (kind, address, value) = kind_and_numbers(words)?;
    Some(BankLine::Set(GivenCell {
        kind,
        address,
        value,
    }))
}

// Parses `N FAULT` or `N cut K`, the words after `trick` in a setup line. These words describe a
// fault to inject into the response to frame N.
fn frame(words: &mut Words<'_>) -> Option<BankLine>
    ensures { result ≡ said.frame_said words.old }
{
    let frame = next_number(words)?;
    let trick = trick_in(words)?;
    Some(BankLine::Trick { frame, trick })
}

fn kind_and_numbers(words: &mut Words<'_>) -> Option<(Kind, u64, u64)>
    ensures { result ≡ said.three_said words.old }
{
    let kind = kind_of(words.next_word()?)?;
    let (first, second) = two(words)?;
    Some((kind, first, second))
}

fn two(words: &mut Words<'_>) -> Option<(u64, u64)>
    ensures { result ≡ said.two_said words.old }
{
    let first = next_number(words)?;
    let second = next_number(words)?;
    end_of_words(words)?;
    Some((first, second))
}

fn kind_of(word: &[u8]) -> Option<Kind>
    ensures { result ≡ said.kind_of word.now }
{
    meaning_in(KINDS, word)
}

fn trick_in(words: &mut Words<'_>) -> Option<Trick>
    ensures { result ≡ said.trick_said words.old }
{
    let word = words.next_word()?;
    if word == b"cut".as_slice() {
        return cut(words);
    }
    let trick = plain_of(word)?;
    end_of_words(words)?;
    Some(trick)
}

// Parses `K`, the word after `cut` in a setup line. K is the number of bytes that the simulator
// keeps of a cut response, 0 to 259.
fn cut(words: &mut Words<'_>) -> Option<Trick>
    ensures { result ≡ said.cut_said words.old }
{
    let count = next_number(words)?;
    end_of_words(words)?;
    if count <= MOST_CUT {
        Some(Trick::Cut(count as u16))
    } else {
        None
    }
}

fn plain_of(word: &[u8]) -> Option<Trick>
    ensures { result ≡ said.plain_of word.now }
{
    meaning_in(TRICKS, word)
}
