//! The counts in `/status`: polls by outcome, accepted readings, rejected readings by cause, and
//! refusals.
use energy_core::Cause;
use office_events::Note;
use poll_core::Outcome;

/// The counts in `/status`. Each count stops at 2^64 - 1.
#[derive(Clone, Copy, PartialEq, Eq)]
pub struct Counts {
    /// The numbers of ended polls, one for each outcome of a poll: the fields `answered`,
    /// `exceptions`, `silent`, `malformed` and `lost`.
    pub answered: u64,
    pub exceptions: u64,
    pub silent: u64,
    pub malformed: u64,
    pub lost: u64,
    /// The number of readings that were accepted since the counts began at 0.
    pub readings: u64,
    /// The number of rejected readings for each cause. Index 0 belongs to the cause with number 1.
    pub held: [u64; 8],
    /// The number of events that the program refused.
    pub refusals: u64,
}

impl Counts {
    ghost use Rattle.std.specs.Prelude.{◌≡◌};
    ghost use Rattle.run_http.specs.Status.Status.Counts as counting;

    /// Makes counts of polls, readings and refusals that are all 0.
    pub fn new() -> Counts
        ensures { result ≡ counting.nothing }
    {
        Counts {
            answered: 0,
            exceptions: 0,
            silent: 0,
            malformed: 0,
            lost: 0,
            readings: 0,
            held: [0; 8],
            refusals: 0,
        }
    }

    // Counts a poll that ended with this outcome.
    fn count_outcome(&mut self, outcome: Outcome)
        ensures { self.new ≡ counting.ended outcome self.old }
    {
        match outcome {
            Outcome::Answered => self.answered = self.answered.saturating_add(1),
            Outcome::Exception(_) => self.exceptions = self.exceptions.saturating_add(1),
            Outcome::Silent => self.silent = self.silent.saturating_add(1),
            Outcome::Malformed(_) => self.malformed = self.malformed.saturating_add(1),
            Outcome::Lost(_) => self.lost = self.lost.saturating_add(1),
        }
    }

    // Counts a reading that was rejected for this cause.
    fn hold(&mut self, cause: Cause)
        ensures { self.new ≡ counting.held_for cause self.old }
    {
        let place = usize::from(cause.number()) - 1;
        self.held[place] = self.held[place].saturating_add(1);
    }

    fn note(&mut self, note: &Note)
        ensures { self.new ≡ counting.noted note.now self.old }
    {
        match *note {
            Note::Outcome { outcome, .. } => self.count_outcome(outcome),
            Note::Reading { .. } => self.readings = self.readings.saturating_add(1),
            Note::Held { cause, .. } => self.hold(cause),
        }
    }

    /// Counts the outcomes and readings in a list of notifications.
    pub fn note_all(&mut self, notes: &[Note])
        ensures { self.new ≡ counting.noted_all notes.now self.old }
    {
        for note in notes {
            self.note(note);
        }
    }

    /// Counts an event that the program refused.
    pub fn refuse(&mut self)
        ensures { self.new ≡ counting.refused self.old }
    {
        self.refusals = self.refusals.saturating_add(1);
    }
}
