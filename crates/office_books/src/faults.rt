//! The faults of a store, and their conversion to refusals.
use office_events::{Refusal, StoreCause};
use std::alloc::{AllocError, AllocFailed};
use std::error::Error;
use std::fmt;
use std::fmt::{Display, Formatter};

/// The kind of a store failure: the store rejected a record or its storage failed, or the store
/// contains inconsistent data.
#[derive(Clone, Copy, Debug, PartialEq, Eq)]
pub enum StoreFault {
    /// The store rejected a record, or its storage failed.
    Refused,
    /// The store contains inconsistent data.
    Damaged,
}

impl Display for StoreFault {
    fn fmt<W: fmt::Write>(&self, f: &mut Formatter<W>) -> fmt::Result {
        f.write_str(match self {
            StoreFault::Refused => "the store of the books refused or failed",
            StoreFault::Damaged => "the store of the books is damaged: it holds what cannot be",
        })
    }
}

impl Error for StoreFault {}

/// The cause of a failed call to the store: a failure of the store, or a lack of memory.
#[derive(Clone, Copy, Debug, PartialEq, Eq)]
pub enum BooksFault {
    Store(StoreFault),
    Memory,
}

impl Display for BooksFault {
    fn fmt<W: fmt::Write>(&self, f: &mut Formatter<W>) -> fmt::Result {
        match self {
            BooksFault::Store(fault) => write!(f, "{fault}"),
            BooksFault::Memory => write!(f, "memory ran out"),
        }
    }
}

impl Error for BooksFault {}

impl From<AllocError> for BooksFault {
    ghost use Rattle.std.specs.Prelude.{◌≡◌};
    ghost use Rattle.office_books.specs.declared.faults.BooksFault.TheVariants.{Memory};

    ghost from_gives = { λ _ e. e ≡ Memory };

    fn from(_error: AllocError) -> Self {
        BooksFault::Memory
    }
}

impl<T: Drop> From<AllocFailed<T>> for BooksFault {
    ghost use Rattle.std.specs.Prelude.{◌≡◌};
    ghost use Rattle.office_books.specs.declared.faults.BooksFault.TheVariants.{Memory};

    ghost from_gives = { λ _ e. e ≡ Memory };

    fn from(_error: AllocFailed<T>) -> Self {
        BooksFault::Memory
    }
}

impl From<StoreFault> for StoreCause {
    ghost use Rattle.std.specs.Prelude.{◌≡◌};
    ghost use Rattle.office_books.specs.Faults.{as_cause};

    ghost from_gives = { λ fault cause. cause ≡ as_cause fault };

    fn from(fault: StoreFault) -> Self {
        match fault {
            StoreFault::Refused => StoreCause::Refused,
            StoreFault::Damaged => StoreCause::Damaged,
        }
    }
}

impl From<BooksFault> for Refusal {
    ghost use Rattle.std.specs.Prelude.{◌≡◌};
    ghost use Rattle.office_books.specs.Faults.{as_refusal};

    ghost from_gives = { λ fault refusal. refusal ≡ as_refusal fault };

    fn from(fault: BooksFault) -> Self {
        match fault {
            BooksFault::Store(fault) => Refusal::Store(StoreCause::from(fault)),
            BooksFault::Memory => Refusal::Memory,
        }
    }
}
