//! Opens an office (the program's event engine) with a store and processes a list of events.
ghost use Rattle.std.specs.Prelude.{◌∷◌, Err, IfOk, IfErr};
ghost use Rattle.office_books.specs.History.{History, Opened};
ghost use Rattle.office_core.specs.Leaving.{BooksStand};
ghost use Rattle.office_core.specs.Reopening.{Passed};
ghost use Rattle.office_core.specs.EventRun.{AnswersEach, EndsInTurn, HandsBack, LeavesInTurn, Ran};
ghost use Rattle.office_core.specs.EventRun.{RecordsAccepted, StandsAfter};

use crate::office::Office;
use crate::results::Run;
use office_books::{Books, books_are_true};
use office_events::{Event, Refusal};
use std::alloc::Global;

/// Opens an office (the program's event engine) with a store and processes these events, each at
/// its timestamp.
///
/// Timestamps are in seconds since 1970-01-01 UTC. Each event of the run gets one answer. If every
/// wrong result of the store was detected, the store has the records of the accepted events after
/// the run. Each meter's recorded energy is then its last reading less its first, corrected for
/// rollovers, resets and rescales.
///
/// The run allocates memory for all answers before it opens the store. If the allocation or the
/// opening fails, the caller gets the store back.
pub fn run<B: Books>(
    alloc: Global,
    books: B,
    opened: u64,
    events: &[(u64, Event)],
) -> Result<Run<B>, (B, Refusal)>
    ensures headline { Ran B.ledger books result (RecordsAccepted B.ledger opened events.now) }
    ensures stands { Ran B.ledger books result
        (λ past run. StandsAfter B.ledger (Opened opened ∷ past) events.now run) }
    ensures leaves { Ran B.ledger books result (LeavesInTurn B.ledger books opened events.now) }
    ensures answers { Ran B.ledger books result
        (λ past run. AnswersEach B.ledger books (Opened opened ∷ past) events.now run) }
    ensures ends { IfOk result (λ run. EndsInTurn B.ledger books events.now run) }
    ensures refused { (past : History) → BooksStand (B.ledger books) past
        → IfErr result (HandsBack B.ledger books opened past) }
    ensures counted { IfErr result
        (λ e. Passed {T = B} (B.ledger books) (B.ledger e.0) (Err e.1)) }
{
    books_are_true();
    let Ok(mut results) = Vec::with_capacity(alloc, events.len()) else {
        return Err((books, Refusal::Memory));
    };
    let mut office = Office::open(alloc, books, opened)?;
    for (moment, event) in events {
        let result = office.feed(*moment, event);
        results.push_reserved(result);
    }
    Ok(Run { office, results })
}
