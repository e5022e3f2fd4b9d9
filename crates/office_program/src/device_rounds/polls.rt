//! The pending polls of a polling round, and the counts of its ended polls.
ghost use Rattle.std.specs.Prelude.{◌≡◌, ◌==◌, ◌≤◌, ◌+◌, ◌++◌};
ghost use Rattle.std.specs.List.{filter, list_any};
ghost use Rattle.arrayvec.specs.ArrayVec.{array_vec_len};
ghost use Rattle.office_program.specs.DeviceRounds.Polls as specs;

use arrayvec::ArrayVec;
use office_events::Note;
use poll_core::Outcome;

/// The largest number of pending polls of a device at a time.
pub const MOST_WAITING: usize = 16;

/// The numbers of the pending polls of a polling round.
pub type Polls = ArrayVec<u64, 16>;

// Returns true if the notification (of a poll's outcome or of a reading) reports the outcome of the
// poll with number `poll`.
fn ends(note: &Note, poll: u64) -> bool
    ensures { result ≡ specs.ends poll note.now }
{
    match note {
        Note::Outcome { poll: ended, .. } => *ended == poll,
        Note::Reading { .. } => false,
        Note::Held { .. } => false,
    }
}

// Returns true if one of the notifications reports the outcome of the poll with number `poll`.
fn has_ended(notes: &[Note], poll: u64) -> bool
    ensures { result ≡ list_any (specs.ends poll) notes.now }
{
    notes.iter().any(|note| ends(note, poll))
}

fn waits(notes: &[Note], poll: u64) -> bool
    ensures { result ≡ specs.waits notes.now poll }
{
    !has_ended(notes, poll)
}

/// Returns the polls that are still pending, because none of the notifications reports their
/// outcome.
pub(crate) fn waiting_after(polls: &Polls, notes: &[Note]) -> Polls
    ensures { result.items ≡ filter (specs.waits notes.now) polls.now.items }
{
    let mut left = Polls::new();
    for poll in polls.as_slice() {
        if waits(notes, *poll) {
            left.push(*poll);
        }
    }
    left
}

/// Adds `count` polls with consecutive numbers, beginning with `first`, to the polling round's list
/// of pending polls.
pub(crate) fn add(polls: &mut Polls, first: u64, count: u64)
    requires { array_vec_len polls.old + count ≤ 16 }
    ensures { polls.new.items ≡ polls.old.items ++ specs.numbers first count }
{
    for k in 0..count {
        polls.push(first.saturating_add(k));
    }
}

/// The counts of a polling round's ended polls by outcome: answered, silent (timed out), or failed
/// otherwise.
///
/// Each count of ended polls saturates at 2^64 - 1.
#[derive(Clone, Copy, PartialEq, Eq)]
pub struct Sum {
    pub answered: u64,
    pub silent: u64,
    pub failed: u64,
}

impl Sum {
    ghost use Rattle.std.specs.Prelude.{◌≡◌};
    ghost use Rattle.office_program.specs.DeviceRounds.Sums as sums;

    /// Creates the counts of a polling round that has no ended polls.
    pub fn none() -> Sum
        ensures { result ≡ sums.none }
    {
        Sum {
            answered: 0,
            silent: 0,
            failed: 0,
        }
    }

    // Counts one poll that ended with the given outcome.
    fn count_outcome(&mut self, outcome: Outcome)
        ensures { self.new ≡ sums.ended outcome self.old }
    {
        match outcome {
            Outcome::Answered => self.answered = self.answered.saturating_add(1),
            Outcome::Exception(_) => self.failed = self.failed.saturating_add(1),
            Outcome::Silent => self.silent = self.silent.saturating_add(1),
            Outcome::Malformed(_) => self.failed = self.failed.saturating_add(1),
            Outcome::Lost(_) => self.failed = self.failed.saturating_add(1),
        }
    }

    // If the notification reports the outcome of one of the pending polls, counts this outcome.
    fn note(&mut self, polls: &Polls, note: &Note)
        ensures { self.new ≡ sums.noted polls.now.items note.now self.old }
    {
        match *note {
            Note::Outcome { poll, outcome } => {
                if is_among(polls, poll) {
                    self.count_outcome(outcome);
                }
            }
            Note::Reading { .. } => {}
            Note::Held { .. } => {}
        }
    }

    /// Counts, by outcome, those polls in `polls` whose outcomes the given notifications report.
    pub(crate) fn note_all(&mut self, polls: &Polls, notes: &[Note])
        ensures { self.new ≡ sums.noted_all polls.now.items notes.now self.old }
    {
        for note in notes {
            self.note(polls, note);
        }
    }
}

fn is_among(polls: &Polls, poll: u64) -> bool
    ensures { result ≡ list_any (λ one. one == poll) polls.now.items }
{
    polls.as_slice().iter().any(|one| *one == poll)
}
