//! Caches pending polls (without an outcome) by their numbers, and the number of started polls.
ghost use Rattle.std.specs.Prelude.{◌≡◌, ℕ, None, Some};
ghost use Rattle.std.specs.Option.{option_copied};
ghost use Rattle.memory_books.specs.Kept.Polls.{waiting_at, MayWait, WaitsNoMore, GoesUp, PollsChange};

use office_events::{Fact, MAX_DEVICES, Poll};
use poll_core::MAX_WINDOW;
use std::alloc::Global;
use std::collections::BTreeMap;

/// The cached pending polls (without an outcome), and the number of started polls. The number is
/// `None` if it is not cached.
#[derive(Drop)]
pub(crate) struct Polls {
    waiting: BTreeMap<u64, Poll>,
    started: Option<u64>,
}

impl Polls {
    /// Creates an empty cache of polls.
    pub(crate) fn new(alloc: Global) -> Polls
        ensures waiting { (number : ℕ) → waiting_at result number ≡ None }
        ensures started { result.started ≡ None }
    {
        Polls {
            waiting: BTreeMap::new(alloc),
            started: None,
        }
    }

    /// Returns the pending poll (without an outcome) with this number, or `None` if the poll is not
    /// cached.
    pub(crate) fn get(&self, number: u64) -> Option<&Poll>
        ensures { option_copied result ≡ waiting_at self.now number }
    {
        self.waiting.get(&number)
    }

    /// Returns the number of started polls, or `None` if the number is not cached.
    pub(crate) fn started(&self) -> Option<u64>
        ensures { result ≡ self.now.started }
    {
        self.started
    }

    /// Caches `count`, the number of polls that the store's records say were started.
    pub(crate) fn keep_started(&mut self, count: u64)
        ensures waiting { self.new.waiting ≡ self.old.waiting }
        ensures started { self.new.started ≡ Some count }
    {
        self.started = Some(count);
    }

    /// Caches a started poll as pending, unless the cache is full or memory runs out. If the number
    /// of started polls is cached, the function increases this number by one.
    fn start(&mut self, poll: &Poll)
        ensures waiting { MayWait poll.now self.old self.new }
        ensures started { GoesUp self.old.started self.new.started }
    {
        self.started = match self.started {
            Some(count) => count.checked_add(1),
            None => None,
        };
        if self.waiting.len() < MAX_DEVICES * MAX_WINDOW {
            let _ = self.waiting.insert(poll.number, *poll);
        }
    }

    fn end_poll(&mut self, number: u64)
        ensures waiting { WaitsNoMore number self.old self.new }
        ensures started { self.new.started ≡ self.old.started }
    {
        let _ = self.waiting.remove(&number);
    }

    /// Updates the cached pending polls (without an outcome) and the cached number of started polls
    /// after one more record.
    pub(crate) fn apply_record(&mut self, fact: &Fact)
        ensures { PollsChange fact.now self.old self.new }
    {
        match fact {
            Fact::Poll(poll) => self.start(poll),
            Fact::Outcome(ended) => self.end_poll(ended.poll),
            Fact::Device(_)
            | Fact::List(_)
            | Fact::Register(_)
            | Fact::Opening(_)
            | Fact::Entry(_)
            | Fact::Hold(_)
            | Fact::Void(_)
            | Fact::Reply(_) => {}
        }
    }
}
