//! The verbs of script lines, and the tables that map words to verbs.
ghost use Rattle.std.specs.Prelude.{◌≡◌};
ghost use Rattle.script_text.specs.LineReader.{question_of, verb_of};

use crate::line_words::meaning_in;

/// The verb of an event or a command in a script. The line of an event or a command begins with a
/// timestamp.
#[derive(Clone, Copy)]
pub(crate) enum Verb {
    Device,
    List,
    Register,
    Install,
    Exchange,
    Reset,
    Rescale,
    Manual,
    Close,
    Void,
    Connect,
    Start,
    Round,
    Bytes,
    Tick,
    Gone,
    Failed,
}

/// The verb of a query in a script. The line of a query has no timestamp.
#[derive(Clone, Copy)]
pub(crate) enum Question {
    Meter,
    Intervals,
    Days,
    Poll,
}

const VERBS: &[(&str, Verb)] = &[
    ("device", Verb::Device),
    ("list", Verb::List),
    ("register", Verb::Register),
    ("install", Verb::Install),
    ("exchange", Verb::Exchange),
    ("reset", Verb::Reset),
    ("rescale", Verb::Rescale),
    ("manual", Verb::Manual),
    ("close", Verb::Close),
    ("void", Verb::Void),
    ("connect", Verb::Connect),
    ("start", Verb::Start),
    ("round", Verb::Round),
    ("bytes", Verb::Bytes),
    ("tick", Verb::Tick),
    ("gone", Verb::Gone),
    ("failed", Verb::Failed),
];

const QUESTIONS: &[(&str, Question)] = &[
    ("meter", Question::Meter),
    ("intervals", Question::Intervals),
    ("days", Question::Days),
    ("poll", Question::Poll),
];

pub(crate) fn verb_of(word: &[u8]) -> Option<Verb>
    ensures { result ≡ verb_of word.now }
{
    meaning_in(VERBS, word)
}

pub(crate) fn question_of(word: &[u8]) -> Option<Question>
    ensures { result ≡ question_of word.now }
{
    meaning_in(QUESTIONS, word)
}
