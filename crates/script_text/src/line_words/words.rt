//! Splits a script line into words at single spaces.
ghost use Rattle.std.specs.Prelude.{◌≡◌, ◌==◌, position};

use std::marker::Model;

/// An iterator over the words of a line. A single space separates two words, so two adjacent spaces
/// enclose an empty word.
#[derive(Drop)]
pub struct Words<'a> {
    // The part of the line after the last word that the iterator returned and the space after this
    // word. `None` after the last word of the line.
    rest: Option<&'a [u8]>,
}

impl<'a> Model for Words<'a> {
    ghost use Rattle.std.specs.Prelude.{ℕ, List, option_copied};
    ghost use Rattle.script_text.specs.LineWords.Words.{words_left};

    ghost Value = { List (List ℕ) };

    ghost view = { λ s. words_left (option_copied s.rest) };
}

impl<'a> Words<'a> {
    ghost use Rattle.script_text.specs.LineWords.Words.{TakesFirst, words_of};

    /// Creates an iterator over the words of a line.
    pub fn new(line: &'a [u8]) -> Self
        ensures { result ≡ words_of line.now }
    {
        Words { rest: Some(line) }
    }

    /// Removes and returns the first remaining word of the line, or returns `None` if no word is
    /// left.
    pub fn next_word(&mut self) -> Option<&'a [u8]>
        ensures { TakesFirst self.old result self.new }
    {
        let rest = self.rest?;
        match first_space(rest) {
            Some(at) => {
                self.rest = Some(&rest[at + 1..]);
                Some(&rest[..at])
            }
            None => {
                self.rest = None;
                Some(rest)
            }
        }
    }
}

fn first_space(line: &[u8]) -> Option<usize>
    ensures { result ≡ position (λ byte. byte == 32) line.now }
{
    line.iter().position(|byte| *byte == b' ')
}
