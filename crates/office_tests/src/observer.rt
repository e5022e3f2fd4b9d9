//! An observer, for tests, that records the events of an office (the core of `sunreg`) as letters.
use office_events::{Answer, Command, Event, Note, Observer, Refusal};
use poll_core::{Closing, Outcome};
use std::alloc::Global;

/// An observer for tests that writes a letter for each event and each ended poll that it observes.
///
/// For each event, the observer writes the index of the polled device, if any, and a letter. The
/// letters are C (connected), S (start), B (bytes), T (timer event), G (gone) and F (failed). `!`
/// follows if the event was refused. A letter for each ended poll follows: a (answered), s (timed
/// out) or l (lost).
#[derive(Drop)]
pub(crate) struct Seen {
    pub(crate) text: String,
    pub(crate) frames: usize,
}

impl Seen {
    pub(crate) fn new(alloc: Global) -> Seen {
        Seen {
            text: String::new(alloc),
            frames: 0,
        }
    }

    fn push(&mut self, letter: &str) {
        let _done = self.text.push_str(letter);
    }
}

fn letter(event: &Event) -> &'static str {
    match event {
        Event::Connected(_) => "C",
        Event::Command(Command::StartRound(_)) => "S",
        Event::Bytes(_, _) => "B",
        Event::Tick => "T",
        Event::Gone(_, Closing::Gone) => "G",
        Event::Gone(_, Closing::Failed) => "F",
        _ => "?",
    }
}

fn ending(note: &Note) -> &'static str {
    match note {
        Note::Outcome {
            outcome: Outcome::Answered,
            ..
        } => "a",
        Note::Outcome {
            outcome: Outcome::Silent,
            ..
        } => "s",
        Note::Outcome {
            outcome: Outcome::Lost(_),
            ..
        } => "l",
        _ => "?",
    }
}

fn place_letter(place: Option<usize>) -> &'static str {
    match place {
        None => "",
        Some(0) => "0",
        Some(1) => "1",
        Some(_) => "9",
    }
}

impl Observer for Seen {
    ghost sees = { λ _ _ _. Unit {0} };

    fn observe(
        &mut self,
        place: Option<usize>,
        _at: u64,
        event: &Event,
        answer: Result<Answer, Refusal>,
        notes: &[Note],
        frames: &[u8],
    ) {
        self.push(place_letter(place));
        self.push(letter(event));
        if answer.is_err() {
            self.push("!");
        }
        for note in notes {
            self.push(ending(note));
        }
        self.push(" ");
        self.frames = self.frames.saturating_add(frames.len());
    }
}
