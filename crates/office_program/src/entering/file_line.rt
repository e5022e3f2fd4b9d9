//! Parses an input line that names the file of a point list.
ghost use Rattle.std.specs.Prelude.{◌≡◌, option_map};
ghost use Rattle.office_program.specs.Entering.FileLines as spec;
ghost use Rattle.script_text.specs.LineWords.Words.{words_of};

use office_events::Name;
use script_text::{Words, end_of_words, next_name, next_number};

/// An input line of the form `NUMBER list DEVICE @NAME`: the point list of a device is in the named
/// file.
#[derive(Clone, Copy)]
pub(crate) struct FileLine<'a> {
    pub(crate) number: u64,
    /// The device's name that an input line has, or `None` if the line's word for it is no valid
    /// name.
    pub(crate) device: Option<Name>,
    pub(crate) name: &'a [u8],
}

// Returns the file's name in a word that begins with `@`. Returns `None` for any other word.
fn file_in(word: &[u8]) -> Option<&[u8]>
    ensures { option_map (λ name. name.now) result ≡ spec.file_in word.now }
{
    match word {
        [b'@', name @ ..] => Some(name),
        _ => None,
    }
}

fn next_file<'a>(words: &mut Words<'a>) -> Option<&'a [u8]>
    ensures { option_map (λ name. (name.now, words.new)) result ≡ spec.file_word words.old }
{
    file_in(words.next_word()?)
}

fn next_list(words: &mut Words<'_>) -> Option<()>
    ensures { option_map (λ none. words.new) result ≡ spec.list_word words.old }
{
    if words.next_word()? == b"list".as_slice() {
        Some(())
    } else {
        None
    }
}

/// Parses an input line that names a file. Returns `None` for any other line.
pub(crate) fn file_line<'a>(line: &'a [u8]) -> Option<FileLine<'a>>
    ensures { option_map spec.seen_line result ≡ spec.file_said (words_of line.now) }
{
    let mut words = Words::new(line);
    let number = next_number(&mut words)?;
    next_list(&mut words)?;
    let device = next_name(&mut words)?;
    let name = next_file(&mut words)?;
    end_of_words(&mut words)?;
    Some(FileLine {
        number,
        device,
        name,
    })
}
