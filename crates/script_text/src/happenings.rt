//! Parses the words that follow the verb in the script line of an event or a query.
ghost use Rattle.std.specs.Prelude.{◌≡◌};
ghost use Rattle.script_text.specs.LineReader.{asked_by, said_by, said_last};
ghost use Rattle.script_text.specs.declared.script.ScriptLine.TheVariants as line;
ghost use Rattle.script_text.specs.declared.verbs.Verb.TheVariants as verb;

use crate::line_words::{Words, end_of_words, next_name, next_number};
use crate::script::{GivenStart, ScriptLine};
use crate::verbs::Question;
use office_events::Event;
use poll_core::Closing;

/// Returns the script line of an event, or `None` if words are left after the event's arguments.
pub(crate) fn event_line(at: u64, event: Event, words: &mut Words<'_>) -> Option<ScriptLine>
    ensures { result ≡ said_last (line.Event at event) words.old }
{
    end_of_words(words)?;
    Some(ScriptLine::Event { at, event })
}

// Parses `DEVICE FUNCTION ADDRESS COUNT`, the words after `start` in a script line. These words
// describe the start of a Modbus read.
pub(crate) fn start(at: u64, words: &mut Words<'_>) -> Option<ScriptLine>
    ensures { result ≡ said_by verb.Start at words.old }
{
    let start = GivenStart {
        device: next_name(words)?,
        function: next_number(words)?,
        address: next_number(words)?,
        count: next_number(words)?,
    };
    end_of_words(words)?;
    Some(ScriptLine::Start { at, start })
}

// Parses `DEVICE`, the word after `connect` in a script line. The line reports that the connection
// to the device was established.
pub(crate) fn connect(at: u64, words: &mut Words<'_>) -> Option<ScriptLine>
    ensures { result ≡ said_by verb.Connect at words.old }
{
    let event = Event::Connected(next_name(words)?);
    event_line(at, event, words)
}

pub(crate) fn tick(at: u64, words: &mut Words<'_>) -> Option<ScriptLine>
    ensures { result ≡ said_by verb.Tick at words.old }
{
    event_line(at, Event::Tick, words)
}

// Parses `DEVICE`, the word after `gone` in a script line. The line reports that the device closed
// its connection.
pub(crate) fn gone(at: u64, words: &mut Words<'_>) -> Option<ScriptLine>
    ensures { result ≡ said_by verb.Gone at words.old }
{
    let event = Event::Gone(next_name(words)?, Closing::Gone);
    event_line(at, event, words)
}

// Parses `DEVICE`, the word after `failed` in a script line. The line reports that a read or a
// write on the device's connection failed.
pub(crate) fn failed(at: u64, words: &mut Words<'_>) -> Option<ScriptLine>
    ensures { result ≡ said_by verb.Failed at words.old }
{
    let event = Event::Gone(next_name(words)?, Closing::Failed);
    event_line(at, event, words)
}

/// Parses the argument of a query: the name of a meter or an accounting register (a named counter),
/// or the number of a poll.
pub(crate) fn asked(question: Question, words: &mut Words<'_>) -> Option<ScriptLine>
    ensures { result ≡ asked_by question words.old }
{
    match question {
        Question::Meter => {
            let name = next_name(words)?;
            end_of_words(words)?;
            Some(ScriptLine::Meter { name })
        }
        Question::Intervals => {
            let name = next_name(words)?;
            end_of_words(words)?;
            Some(ScriptLine::Intervals { name })
        }
        Question::Days => {
            let name = next_name(words)?;
            end_of_words(words)?;
            Some(ScriptLine::Days { name })
        }
        Question::Poll => {
            let number = next_number(words)?;
            end_of_words(words)?;
            Some(ScriptLine::Poll { number })
        }
    }
}
