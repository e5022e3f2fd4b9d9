//! Processes a list of events over an empty store in memory.
ghost use Rattle.std.specs.Prelude.{[], IfOk};
ghost use Rattle.memory_books.specs.Listed.{ledger_of};
ghost use Rattle.office_core.specs.EventRun.{RecordsAccepted};

use interval_core::Zone;
use memory_books::ListBooks;
use office_core::{Run, run};
use office_events::{Event, Refusal};
use std::alloc::Global;

/// Processes a list of events over a new store in memory. The function's contract shows that the
/// theorem in `Headline.antt` (exactly the accepted energy is recorded) needs no precondition.
pub(crate) fn run_created(
    alloc: Global,
    zone: Zone,
    opened: u64,
    events: &[(u64, Event)],
) -> Result<Run<ListBooks>, Refusal>
    ensures { IfOk result (RecordsAccepted ledger_of opened events.now []) }
{
    match run(alloc, ListBooks::new(alloc, zone), opened, events) {
        Ok(done) => Ok(done),
        Err((_, why)) => Err(why),
    }
}
