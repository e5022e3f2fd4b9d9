//! Texts in SunSpec registers, two bytes in each register.
ghost use Rattle.std.specs.Prelude.{◌≡◌, ◌≤◌, ◌+◌, ◌++◌, length};
ghost use Rattle.std.specs.List.{flat_map};
ghost use Rattle.arrayvec.specs.ArrayVec.{array_vec_len};
ghost use Rattle.sun_points.specs.Text.{shown_byte, shown_text, text_bytes};

use crate::digits::upper_digit;
use crate::sink::Sink;
use arrayvec::ArrayVec;
use std::io;

/// Appends bytes to a text. The precondition is that the text has room for them.
pub(crate) fn append<const N: usize>(text: &mut ArrayVec<u8, N>, more: &[u8])
    requires { array_vec_len text.old + length more.now ≤ N }
    ensures bytes { text.new.items ≡ text.old.items ++ more.now }
    ensures len { array_vec_len text.new ≡ array_vec_len text.old + length more.now }
{
    let _ = text.try_extend_from_slice(more);
}

const MOST_REGISTERS: usize = 125;

/// The printed form of a text: at most four characters for each of 250 bytes.
type ShownText = ArrayVec<u8, 1000>;

/// A text in registers, two bytes each, high byte first. The text ends before its first zero byte.
/// Only the first 125 registers are printed.
#[derive(Clone, Copy, PartialEq, Eq)]
pub struct Text<'a> {
    pub words: &'a [u16],
}

impl Text<'_> {
    /// Writes the text. Any byte that is not printable ASCII becomes `\x` and two upper-case hex
    /// digits.
    pub fn write<S: Sink>(&self, output: &mut S) -> io::Result<()>
        ensures { S.takes output.old (shown_text self.now.words.now) result output.new }
    {
        output.take_text(shown(self.words).as_slice())
    }
}

fn shown(words: &[u16]) -> ShownText
    ensures { result.items ≡ shown_text words.now }
{
    shown_registers(&words[..MOST_REGISTERS.min(words.len())])
}

fn shown_registers(words: &[u16]) -> ShownText
    requires { length words.now ≤ 125 }
    ensures { result.items ≡ flat_map shown_byte (text_bytes words.now) }
{
    let mut text = ShownText::new();
    for word in words {
        let [high, low] = word.to_be_bytes();
        if high == 0 {
            return text;
        }
        append_byte(&mut text, high);
        if low == 0 {
            return text;
        }
        append_byte(&mut text, low);
    }
    text
}

fn append_byte(text: &mut ShownText, byte: u8)
    requires { array_vec_len text.old + 4 ≤ 1000 }
    ensures shown { text.new.items ≡ text.old.items ++ shown_byte byte }
    ensures few { array_vec_len text.new ≤ array_vec_len text.old + 4 }
{
    match byte {
        b' '..=b'~' => text.push(byte),
        _ => append(
            text,
            &[b'\\', b'x', upper_digit(byte / 16), upper_digit(byte % 16)],
        ),
    }
}
