//! Finds the polls that a device event ends, and records their outcomes and readings in one write.
ghost use Rattle.std.specs.Prelude.{◌≡◌, ◌≤◌, [], List, IsOk, OnErr};
ghost use Rattle.office_books.specs.Facts.{moment_limit};
ghost use Rattle.office_books.specs.History.{History, facts_of, slots_of, next_poll};
ghost use Rattle.office_events.specs.declared.facts.Fact.{Fact};
ghost use Rattle.office_books.specs.Lawful.{AreLawful};
ghost use Rattle.office_books.specs.Ledgers.{LedgerAfterCalls, Moves, with_facts};
ghost use Rattle.office_core.specs.Settling.Settling.{IsSettling, SettleNothing};
ghost use Rattle.office_core.specs.Settling.Events.{IsNext, IsQuiet, Settles};

use crate::sessions::Slot;
use crate::settling::drafts::PendingWrite;
use crate::settling::slots::settle_slots;
use office_books::{Books, BooksFault, facts_are_lawful};
use office_events::{Event, Fact, Note};
use std::alloc::Global;

/// Writes all of the given records to the store in one write. Does not call the store if no records
/// are given.
fn write_records<B: Books>(books: &mut B, facts: Vec<Fact>) -> Result<(), BooksFault>
    ensures moves { (known : List Fact) → let later = with_facts facts.items known in
        AreLawful later → Moves (B.ledger books.old) (B.ledger books.new) known later result }
    ensures refused { (known : List Fact) → (B.ledger books.old).holds known
        → OnErr result ((B.ledger books.new).holds known) }
    ensures quiet { facts.items ≡ [] → IsOk result × (books.new ≡ books.old) }
    ensures goes { LedgerAfterCalls (B.ledger books.old) (B.ledger books.new) result }
{
    if facts.is_empty() {
        return Ok(());
    }
    books.book(facts)
}

/// Applies a device event to the device connections, and records the event's poll outcomes and
/// readings in one write.
///
/// Returns a notification for each poll that ended, followed by notifications of the readings in
/// the poll's response. If an event ends no poll, the function makes no query of the store and
/// needs no memory.
///
/// If this function fails, it may have updated the Modbus sessions of some connections. The caller
/// must then discard all Modbus sessions.
pub fn settle_event<B: Books>(
    alloc: Global,
    slots: &mut [Slot],
    books: &mut B,
    moment: u64,
    event: &Event,
) -> Result<Vec<Note>, BooksFault>
    requires settling { IsSettling event.now }
    requires limit { moment ≤ moment_limit }
    ensures settles { (past : History) → IsNext past slots.old moment event.now
        → Settles past moment event.now (B.ledger books.old) (B.ledger books.new) slots.new result }
    ensures quiet { (past : History) → IsNext past slots.old moment event.now
        → SettleNothing (next_poll (facts_of past)) moment event.now (slots_of past)
        → IsQuiet books.old books.new result }
    ensures goes { LedgerAfterCalls (B.ledger books.old) (B.ledger books.new) result }
{
    facts_are_lawful();
    let mut draft = PendingWrite::new(alloc);
    settle_slots(slots, books, &mut draft, moment, event)?;
    let PendingWrite { facts, notes } = draft;
    write_records(books, facts)?;
    Ok(notes)
}
