//! Builds a line of text in a fixed buffer.
ghost use Rattle.std.specs.Prelude.{◌≡◌, ◌≤◌, ◌<◌, ◌+◌, ℕ, List, [], ◌++◌, length, replicate, take};
ghost use Rattle.interval_core.specs.Report.{right};
ghost use Rattle.jiff_fmt.specs.Text.{pad2};

use itoa::{Buffer, Integer};
use std::marker::Model;

/// A text of at most `N` bytes in an array of fixed size.
#[derive(Clone, Drop)]
pub struct Text<const N: usize> {
    room: [u8; N],
    filled: usize,
}

/// A text of at most 128 bytes, long enough for each line of a report.
pub type Line = Text<128>;

impl<const N: usize> Model for Text<N> {
    ghost Value = { List ℕ };

    ghost view = { λ text. take text.filled text.room };

    ghost invariant = { λ text. text.filled ≤ N };
}

impl<const N: usize> Text<N> {
    /// Creates an empty text in a buffer of `N` bytes.
    pub fn new() -> Text<N>
        ensures { result ≡ [] }
    {
        Text {
            room: [0; N],
            filled: 0,
        }
    }

    /// Returns the bytes that were appended to this line of text so far.
    pub fn bytes(&self) -> &[u8]
        ensures { result.now ≡ self.now }
    {
        &self.room[..self.filled]
    }

    /// Appends bytes, for which the buffer must have room.
    pub fn push(&mut self, bytes: &[u8])
        requires { length self.old + length bytes.now ≤ N }
        ensures bytes { self.new ≡ self.old ++ bytes.now }
        ensures size { length self.new ≡ length self.old + length bytes.now }
    {
        let end = self.filled + bytes.len();
        let room = &mut self.room[..];
        room[self.filled..end].copy_from_slice(bytes);
        self.filled = end;
    }

    /// Appends to the text the bytes `key`, and then a number in decimal digits.
    pub fn push_number<I: Integer>(&mut self, key: &[u8], number: I)
        requires { length self.old + length key.now + I.MAX_STR_LEN ≤ N }
        ensures bytes { self.new ≡ self.old ++ key.now ++ I.text number }
        ensures size { length self.new ≤ length self.old + length key.now + I.MAX_STR_LEN }
    {
        self.push(key);
        let mut buffer = Buffer::new();
        self.push(buffer.format(number).as_bytes());
    }

    /// Appends a number, right-aligned in `width` columns. `width` must be at most 24.
    pub fn push_right<I: Integer>(&mut self, width: usize, number: I)
        requires narrow { width ≤ 24 }
        requires room { length self.old + width + I.MAX_STR_LEN ≤ N }
        ensures bytes { self.new ≡ self.old ++ right width (I.text number) }
        ensures size { length self.new ≤ length self.old + width + I.MAX_STR_LEN }
    {
        let mut buffer = Buffer::new();
        let text = buffer.format(number).as_bytes();
        if text.len() < width {
            self.push_spaces(width - text.len());
        }
        self.push(text);
    }

    fn push_spaces(&mut self, count: usize)
        requires few { count ≤ 24 }
        requires room { length self.old + count ≤ N }
        ensures bytes { self.new ≡ self.old ++ replicate count 32 }
        ensures size { length self.new ≡ length self.old + count }
    {
        self.push(&[b' '; 24][..count]);
    }

    /// Appends a number below 100 in two digits, with a leading zero if needed.
    pub fn push_pair(&mut self, number: u8)
        requires few { number < 100 }
        requires room { length self.old + 2 ≤ N }
        ensures bytes { self.new ≡ self.old ++ pad2 number }
        ensures size { length self.new ≡ length self.old + 2 }
    {
        self.push(&[b'0' + number / 10, b'0' + number % 10]);
    }
}
