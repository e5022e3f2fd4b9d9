//! Executes the commands that start polls, on the Modbus session of the command's device.
ghost use Rattle.std.specs.Prelude.{◌≡◌, ◌≤◌, true, OnErr};
ghost use Rattle.std.specs.Option.{option_to_list};
ghost use Rattle.office_books.specs.Refusals.{is_start};
ghost use Rattle.office_books.specs.Ledgers.{LedgerAfterCalls};
ghost use Rattle.office_core.specs.Commands.Effects.{WhereStarted, BooksStart, StandsStarted};
ghost use Rattle.office_core.specs.Commands.Effects.{AnswersStart, SendsStart};

use crate::commands::effects::Done;
use crate::commands::records::book;
use crate::commands::rounds::reads_by;
use crate::sessions::Slot;
use crate::starting::{polls_on, start_on};
use office_books::{Books, BooksFault};
use office_events::{Answer, Command, Fact, MAX_POLLS};
use poll_core::LAST_MOMENT;
use std::alloc::Global;

/// Records the polls that a command starts, and starts them on the Modbus session of the command's
/// device.
pub fn start<B: Books>(
    alloc: Global,
    slot: &mut Slot,
    books: &mut B,
    moment: u64,
    command: &Command,
    reply: Option<Fact>,
) -> Result<Done, BooksFault>
    requires start { is_start command.now ≡ true }
    requires limit { moment ≤ LAST_MOMENT }
    ensures books { WhereStarted slot.old (BooksStart moment command.now (option_to_list reply)
        (B.ledger books.old) (B.ledger books.new) result) }
    ensures stands { WhereStarted slot.old (StandsStarted moment command.now
        (B.ledger books.old) (B.ledger books.new) slot.new result) }
    ensures answer { WhereStarted slot.old (AnswersStart moment command.now
        (B.ledger books.old) (B.ledger books.new) result) }
    ensures sent { WhereStarted slot.old (SendsStart moment command.now
        (B.ledger books.old) (B.ledger books.new) result) }
    ensures goes { LedgerAfterCalls (B.ledger books.old) (B.ledger books.new) result }
    ensures unchanged { OnErr result (slot.new ≡ slot.old) }
{
    let reads = reads_by(alloc, books, command)?;
    let number = books.poll_count()?.min(MAX_POLLS) + 1;
    let facts = polls_on(alloc, slot, number, moment, &reads.spans)?;
    let count = facts.len() as u64;
    book(books, facts, reply)?;
    let outgoing = start_on(slot, number, moment, &reads.spans);
    Ok(Done {
        answer: Answer::Started {
            first: number,
            count,
            of: reads.of,
        },
        outgoing,
    })
}
