//! Writes the records of commands that change no existing device's connection.
ghost use Rattle.std.specs.Prelude.{◌≡◌, ◌++◌, [], false, List, Option, IfOk};
ghost use Rattle.std.specs.Option.{option_to_list};
ghost use Rattle.office_events.specs.declared.facts.Fact.{Fact};
ghost use Rattle.office_events.specs.declared.answers.Answer.TheVariants as answers;
ghost use Rattle.office_books.specs.Lawful.{AreLawful};
ghost use Rattle.office_books.specs.Sessions as sessions;
ghost use Rattle.office_books.specs.History.{kind_of};
ghost use Rattle.office_books.specs.Refusals.{is_start};
ghost use Rattle.office_core.specs.Sessions.Ranges.{IsCommandInRange};
ghost use Rattle.office_books.specs.Ledgers.{LedgerAfterCalls, Moves};
ghost use Rattle.office_core.specs.Commands.Effects.{MovesOnBy, Tries};

use crate::commands::additions::facts_by;
use crate::commands::effects::Done;
use crate::commands::replies::kind_of;
use crate::starting::Outgoing;
use office_books::{Books, BooksFault};
use office_events::{Answer, Command, Fact};
use std::alloc::{AllocError, Global};

/// Returns the records of a command, followed by the stored answer to its request, if any.
fn with_reply(facts: Vec<Fact>, reply: Option<Fact>) -> Result<Vec<Fact>, AllocError>
    ensures { IfOk result (λ all. all.items ≡ facts.items ++ option_to_list reply) }
{
    let mut all = facts;
    if let Some(reply) = reply {
        all.push(reply)?;
    }
    Ok(all)
}

/// Writes the records of a command, and the stored answer to its request, if any, to the store.
pub fn book<B: Books>(
    books: &mut B,
    facts: Vec<Fact>,
    reply: Option<Fact>,
) -> Result<(), BooksFault>
    ensures { Tries (B.ledger books.old) (B.ledger books.new)
        (facts.items ++ option_to_list reply) result }
{
    let all = with_reply(facts, reply)?;
    books.book(all)
}

/// Writes the records of a command that starts no polls to the store. If the command adds a device,
/// the caller adds the slot for the device's connection.
pub fn record<B: Books>(
    alloc: Global,
    books: &mut B,
    moment: u64,
    command: &Command,
    reply: Option<Fact>,
) -> Result<Done, BooksFault>
    requires range { IsCommandInRange moment command.now }
    requires no_start { is_start command.now ≡ false }
    ensures books { MovesOnBy moment command.now (option_to_list reply) (B.ledger books.old)
        (B.ledger books.new) result }
    ensures goes { LedgerAfterCalls (B.ledger books.old) (B.ledger books.new) result }
    ensures answer { IfOk result (λ done. done.answer ≡ answers.Done (kind_of command.now)) }
    ensures sent { IfOk result (λ done. done.outgoing ≡ []) }
{
    let facts = facts_by(alloc, books, moment, command)?;
    book(books, facts, reply)?;
    Ok(Done {
        answer: Answer::Done(kind_of(command)),
        outgoing: Outgoing::none(),
    })
}
