//! Counts the failures of a store.
ghost use Rattle.std.specs.Prelude.{◌≡◌};
ghost use Rattle.office_books.specs.Faults.{failed_by, faults_after, no_failures};

use crate::faults::BooksFault;

/// The number of failures of a store, and its last failure. The last failure may be a lack of
/// memory, which is not counted.
#[derive(Clone, Copy, PartialEq, Eq)]
pub struct Failures {
    /// The number of failures of the store, at most 2^64 - 1.
    pub count: u64,
    pub last: Option<BooksFault>,
}

impl Failures {
    /// Creates the failure counter of a store that never failed.
    pub fn new() -> Failures
        ensures { result ≡ no_failures }
    {
        Failures {
            count: 0,
            last: None,
        }
    }

    /// Records the failure of one call to the store. A lack of memory is recorded as the last
    /// failure, but not counted.
    fn note(&mut self, fault: BooksFault)
        ensures { self.new ≡ failed_by fault self.old }
    {
        if let BooksFault::Store(_) = fault {
            self.count = self.count.saturating_add(1);
        }
        self.last = Some(fault);
    }

    /// Counts the failure of a call, if the call failed, and returns the result of the call.
    pub fn noted<T>(&mut self, answer: Result<T, BooksFault>) -> Result<T, BooksFault>
        ensures answer { result ≡ answer }
        ensures noted { self.new ≡ faults_after answer self.old }
    {
        match answer {
            Ok(answer) => Ok(answer),
            Err(fault) => {
                self.note(fault);
                Err(fault)
            }
        }
    }
}
