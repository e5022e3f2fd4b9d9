//! Finds the lines printed by a round that need an explanation, and writes the explanations. A
//! round is one poll for each read of a device's plan.
ghost use Rattle.std.specs.Prelude.{◌≡◌, OnOk, option_map};
ghost use Rattle.script_text.specs.LineWords.Words.{words_of};
ghost use Rattle.run_http.specs.Status.Advice.Sentences.{with_meaning, with_subject};
ghost use Rattle.stored_office.specs.Advice.Remarks as remarks;
ghost use Rattle.stored_office.specs.Advice.Remarks.{MayMean, Says};

use office_events::Name;
use printed_numbers::{Kind, Meaning, meaning_of};
use run_http::status::append_bytes;
use script_text::{Words, end_of_words, next_name, next_number};
use std::alloc::AllocError;

/// The parsed content (the numeric code, and the meter if there is one) of a line that a round of
/// polls printed and that needs an explanation.
#[derive(Clone, Copy)]
pub(crate) enum Remark {
    /// The line `refused N`: an event was refused for the reason with the numeric code N.
    Refused(u32),
    /// The line `held METER RAW cause N`: a reading of the meter was rejected for the cause with
    /// the numeric code N.
    Held(Name, u32),
}

fn small(number: u64) -> Option<u32>
    ensures { result ≡ remarks.small number }
{
    if number < 4_294_967_296 {
        Some(number as u32)
    } else {
        None
    }
}

// Reads the next word of a line, and checks that it is `wanted`. Returns None for another word, and
// at the end of the line.
fn next_exactly(words: &mut Words<'_>, wanted: &[u8]) -> Option<()>
    ensures { option_map (λ none. words.new) result ≡ remarks.exactly wanted.now words.old }
{
    if words.next_word()? == wanted {
        Some(())
    } else {
        None
    }
}

// Returns the refusal in a line `refused N`, or None for any other line.
fn refusal_in(line: &[u8]) -> Option<Remark>
    ensures { result ≡ remarks.refusal_of (words_of line.now) }
{
    let mut words = Words::new(line);
    next_exactly(&mut words, b"refused")?;
    let number = next_number(&mut words)?;
    end_of_words(&mut words)?;
    let number = small(number)?;
    Some(Remark::Refused(number))
}

// Returns the rejected reading in a line `held METER RAW cause N`, or None for any other line.
fn hold_in(line: &[u8]) -> Option<Remark>
    ensures { result ≡ remarks.hold_of (words_of line.now) }
{
    let mut words = Words::new(line);
    next_exactly(&mut words, b"held")?;
    let meter = next_name(&mut words)?;
    let _raw = next_number(&mut words)?;
    next_exactly(&mut words, b"cause")?;
    let number = next_number(&mut words)?;
    end_of_words(&mut words)?;
    let meter = meter?;
    let number = small(number)?;
    Some(Remark::Held(meter, number))
}

/// Returns the refusal or the rejected reading in a printed line, or None for any other line.
pub(crate) fn remark_in(line: &[u8]) -> Option<Remark>
    ensures { result ≡ remarks.remark_of (words_of line.now) }
{
    match refusal_in(line) {
        Some(remark) => Some(remark),
        None => hold_in(line),
    }
}

// Appends the beginning of an explanation to a text: the name of the device or meter, or `-` if
// there is no name.
fn write_subject(text: &mut Vec<u8>, name: &Option<Name>) -> Result<(), AllocError>
    ensures { OnOk result (text.new.items ≡ with_subject name.now text.old.items) }
{
    append_bytes(text, b"sunreg: ")?;
    match name {
        Some(name) => append_bytes(text, name.as_bytes()),
        None => append_bytes(text, b"-"),
    }
}

// Appends `before` to a text, then the meaning of a printed numeric code, and then its remedy.
fn append_meaning(text: &mut Vec<u8>, before: &[u8], meaning: &Meaning) -> Result<(), AllocError>
    ensures { OnOk result (text.new.items ≡ with_meaning before.now meaning.now text.old.items) }
{
    append_bytes(text, before)?;
    append_bytes(text, meaning.means.as_bytes())?;
    append_bytes(text, b"; ")?;
    append_bytes(text, meaning.remedy.as_bytes())?;
    append_bytes(text, b"\n")
}

// Appends a line with the meaning and the remedy of a printed numeric code to a text. Appends
// nothing if the program never prints this code for its kind, such as `refused`.
fn write_number_of(
    text: &mut Vec<u8>,
    subject: &Option<Name>,
    kind: Kind,
    before: &[u8],
    number: u32,
) -> Result<(), AllocError>
    ensures { OnOk result (MayMean subject.now kind before.now number
        text.old.items text.new.items) }
{
    match meaning_of(kind, number) {
        Some(meaning) => {
            write_subject(text, subject)?;
            append_meaning(text, before, meaning)
        }
        None => Ok(()),
    }
}

/// Appends a line with the meaning and the remedy of a refusal or rejected reading to a text.
/// Appends nothing if the numeric code has no meaning. If memory runs out, the line is incomplete.
pub(crate) fn write_remark(
    text: &mut Vec<u8>,
    device: &Option<Name>,
    remark: Remark,
) -> Result<(), AllocError>
    ensures { OnOk result (Says device.now remark text.old.items text.new.items) }
{
    match remark {
        Remark::Refused(number) => write_number_of(text, device, Kind::Refused, b": ", number),
        Remark::Held(meter, number) => write_number_of(
            text,
            &Some(meter),
            Kind::Held,
            b": reading rejected: ",
            number,
        ),
    }
}
