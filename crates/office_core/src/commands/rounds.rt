//! Finds the Modbus reads that a command starts.
ghost use Rattle.std.specs.Prelude.{◌≡◌, true, [], ◌∷◌, IfOk};
ghost use Rattle.office_books.specs.History.{spans_by};
ghost use Rattle.office_books.specs.Refusals.{is_start, reads_in_all};
ghost use Rattle.office_events.specs.declared.commands.Command.TheVariants as command;
ghost use Rattle.office_books.specs.Ledgers.{Finds, Consults};

use mb_wire::ReadSpan;
use office_books::{Books, BooksFault, read_count_at, reads_at};
use office_events::{Command, StartRound};
use std::alloc::{AllocError, Global};

/// The Modbus reads that a command requests, and the total number of reads in the device's plan
/// (the reads that cover its points). For a single poll, the total is 1.
#[derive(Drop)]
pub struct Reads {
    pub spans: Vec<ReadSpan>,
    pub of: u64,
}

/// Returns the reads of the device's plan (the reads that cover its registers), beginning at the
/// index that the command gives.
fn reads_of_round<B: Books>(
    alloc: Global,
    books: &mut B,
    round: &StartRound,
) -> Result<Reads, BooksFault>
    ensures spans { Finds (B.ledger books.old) (B.ledger books.new) result
        (λ known reads. reads.spans.items ≡ spans_by known (command.StartRound round.now)) }
    ensures all { Finds (B.ledger books.old) (B.ledger books.new) result
        (λ known reads. reads.of ≡ reads_in_all known (command.StartRound round.now)) }
    ensures reads { Consults (B.ledger books.old) (B.ledger books.new) result }
{
    let Some(of) = read_count_at(books, &round.device)? else {
        return Ok(Reads {
            spans: Vec::new(alloc),
            of: 0,
        });
    };
    let spans = reads_at(alloc, books, &round.device, round.from, of)?;
    Ok(Reads {
        spans,
        of: of as u64,
    })
}

/// Returns the single read of a poll command, as a list.
fn only(alloc: Global, span: ReadSpan) -> Result<Reads, AllocError>
    ensures spans { IfOk result (λ reads. reads.spans.items ≡ span ∷ []) }
    ensures all { IfOk result (λ reads. reads.of ≡ 1) }
{
    let mut spans = Vec::new(alloc);
    spans.push(span)?;
    Ok(Reads { spans, of: 1 })
}

/// Returns the Modbus reads that a command requests.
pub fn reads_by<B: Books>(
    alloc: Global,
    books: &mut B,
    command: &Command,
) -> Result<Reads, BooksFault>
    requires { is_start command.now ≡ true }
    ensures spans { Finds (B.ledger books.old) (B.ledger books.new) result
        (λ known reads. reads.spans.items ≡ spans_by known command.now) }
    ensures all { Finds (B.ledger books.old) (B.ledger books.new) result
        (λ known reads. reads.of ≡ reads_in_all known command.now) }
    ensures reads { Consults (B.ledger books.old) (B.ledger books.new) result }
{
    match command {
        Command::StartPoll(start) => Ok(only(alloc, start.span)?),
        Command::StartRound(round) => reads_of_round(alloc, books, round),
        _ => unreachable!(),
    }
}
