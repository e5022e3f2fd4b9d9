//! The table of all polls by number, and the table of pending polls (without an outcome).
ghost use Rattle.std.specs.Prelude.{◌≡◌, [], List, length, IfOk};
ghost use Rattle.office_events.specs.declared.facts.Fact.{Fact};
ghost use Rattle.office_books.specs.Facts.{polls_in, pending_in};
ghost use Rattle.office_books.specs.Lawful.{AreLawful};
ghost use Rattle.office_books.specs.Readings.{poll_row_of};

use crate::tables::table::Table;
use office_events::{EndedPoll, Fact, Poll, PollRow};
use std::alloc::{AllocError, Global};

/// The table of all polls, each with its outcome if the poll has ended.
#[derive(Drop)]
pub(crate) struct Polls {
    rows: Vec<PollRow>,
}

impl Polls {
    ghost use Rattle.memory_books.specs.Tables.Polls.{ArePolls, EndsPoll};

    /// Creates an empty in-memory table of polls.
    pub fn new(alloc: Global) -> Polls
        ensures { ArePolls result [] }
    {
        Polls {
            rows: Vec::new(alloc),
        }
    }

    /// Stores the outcome of a poll in the poll's row, and ignores an outcome of an unknown poll.
    fn end_poll(&mut self, ended: &EndedPoll)
        ensures { EndsPoll ended.now self.old.rows.items self.new.rows.items }
    {
        if ended.poll >= 1 && ended.poll - 1 < self.rows.len() as u64 {
            let index = (ended.poll - 1) as usize;
            let mut row = self.rows[index];
            row.ended = Some(*ended);
            self.rows[index] = row;
        }
    }

    /// Returns the row of the poll with this number, or `None` if the table has no poll with this
    /// number.
    pub fn row(&self, number: u64) -> Option<PollRow>
        ensures { (known : List Fact) → AreLawful known → ArePolls self.now known
            → result ≡ poll_row_of known number }
    {
        if number >= 1 && number - 1 < self.rows.len() as u64 {
            Some(self.rows[(number - 1) as usize])
        } else {
            None
        }
    }

    /// Returns the number of polls in the in-memory table.
    pub fn count(&self) -> u64
        ensures { (known : List Fact) → ArePolls self.now known → result ≡ length (polls_in known) }
    {
        self.rows.len() as u64
    }
}

impl Table for Polls {
    ghost use Rattle.std.specs.Prelude.{None};
    ghost use Rattle.memory_books.specs.Tables.Polls.{ArePolls};

    ghost kind = { λ _. None };

    ghost says = { ArePolls };

    fn apply_record(&mut self, _place: usize, fact: &Fact) -> Result<(), AllocError> {
        match fact {
            Fact::Poll(poll) => {
                self.rows.push(PollRow {
                    poll: *poll,
                    ended: None,
                })?;
            }
            Fact::Outcome(ended) => self.end_poll(ended),
            Fact::Device(_)
            | Fact::List(_)
            | Fact::Register(_)
            | Fact::Opening(_)
            | Fact::Entry(_)
            | Fact::Hold(_)
            | Fact::Void(_)
            | Fact::Reply(_) => {}
        }
        Ok(())
    }
}

/// The in-memory table of the polls that have no outcome yet.
#[derive(Drop)]
pub(crate) struct Pending {
    polls: Vec<Poll>,
}

impl Pending {
    ghost use Rattle.memory_books.specs.Tables.Polls.{ArePending, polls_but};

    /// Creates an empty table of pending polls (without an outcome).
    pub fn new(alloc: Global) -> Pending
        ensures { ArePending result [] }
    {
        Pending {
            polls: Vec::new(alloc),
        }
    }

    fn remove_poll(&mut self, number: u64)
        ensures { self.new.polls.items ≡ polls_but number self.old.polls.items }
    {
        self.polls.retain(|poll| number != poll.number);
    }

    /// Returns the pending polls (without an outcome), in the order in which they were started.
    pub fn all(&self, alloc: Global) -> Result<Vec<Poll>, AllocError>
        ensures { (known : List Fact) → ArePending self.now known
            → IfOk result (λ v. v.items ≡ pending_in known) }
    {
        self.polls.as_slice().to_vec(alloc)
    }
}

impl Table for Pending {
    ghost use Rattle.std.specs.Prelude.{None};
    ghost use Rattle.memory_books.specs.Tables.Polls.{ArePending};

    ghost kind = { λ _. None };

    ghost says = { ArePending };

    fn apply_record(&mut self, _place: usize, fact: &Fact) -> Result<(), AllocError> {
        match fact {
            Fact::Poll(poll) => self.polls.push(*poll)?,
            Fact::Outcome(ended) => self.remove_poll(ended.poll),
            Fact::Device(_)
            | Fact::List(_)
            | Fact::Register(_)
            | Fact::Opening(_)
            | Fact::Entry(_)
            | Fact::Hold(_)
            | Fact::Void(_)
            | Fact::Reply(_) => {}
        }
        Ok(())
    }
}
