//! The lines of a text that a command reads as its input, without empty lines and without comments,
//! which begin with `#`.
ghost use Rattle.std.specs.Prelude.{◌≡◌};
ghost use Rattle.command_io.specs.Lines.{is_silent};

use bstr::ByteSlice;
use std::marker::Model;

/// A line of an input without its line end, and its number among all lines, from 1.
#[derive(Clone, Copy)]
pub struct InputLine<'a> {
    pub number: u64,
    pub text: &'a [u8],
}

/// An iterator over the lines of a text. It skips empty lines and lines that begin with `#`.
#[derive(Drop)]
pub struct InputLines<'a> {
    lines: bstr::Lines<'a>,
    // The number of the next line of the input. Skipped lines (empty, or beginning with `#`) count
    // too.
    number: u64,
}

impl<'a> Model for InputLines<'a> {
    ghost use Rattle.std.specs.Prelude.{◌+◌, ◌<◌, ◌^◌, List, length};
    ghost use Rattle.command_io.specs.Lines.{Line, speaking_from};

    ghost Value = { List Line };

    ghost view = { λ s. speaking_from s.number s.lines };

    ghost invariant = { λ s. s.number + length s.lines < 2 ^ 64 };
}

impl<'a> InputLines<'a> {
    ghost use Rattle.std.specs.Prelude.{[], ◌∷◌, MatchOption};
    ghost use Rattle.command_io.specs.Lines.{seen_line, speaking_lines};

    pub fn new(text: &'a [u8]) -> Self
        ensures { result ≡ speaking_lines text.now }
    {
        InputLines {
            lines: text.lines(),
            number: 1,
        }
    }

    /// Returns the next line that is not skipped (skipped lines are empty or begin with `#`).
    pub fn next_line(&mut self) -> Option<InputLine<'a>>
        ensures { MatchOption result ((self.old ≡ []) × (self.new ≡ []))
            (λ line. self.old ≡ seen_line line ∷ self.new) }
    {
        while let Some(text) = self.lines.next() {
            let number = self.number;
            self.number += 1;
            if !is_silent(text) {
                return Some(InputLine { number, text });
            }
        }
        None
    }
}

fn is_silent(line: &[u8]) -> bool
    ensures { result ≡ is_silent line.now }
{
    match line {
        [] => true,
        [first, ..] => *first == b'#',
    }
}
