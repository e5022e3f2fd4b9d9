//! Adds the outcomes of ended polls, and the readings in their responses, to a pending write
//! (records not yet stored).
ghost use Rattle.std.specs.Prelude.{◌≡◌, OnOk, IfErr};
ghost use Rattle.poll_core.specs.Reporting.{settled_of, LendsReply};
ghost use Rattle.office_books.specs.Readings as readings;
ghost use Rattle.office_books.specs.Facts.{poll_of};
ghost use Rattle.office_books.specs.History as history;
ghost use Rattle.office_books.specs.Notes as notes;
ghost use Rattle.office_books.specs.declared.faults.BooksFault.TheVariants.{Memory};
ghost use Rattle.office_books.specs.Ledgers.{Consults};
ghost use Rattle.office_books.specs.Ranges.{IsSound};
ghost use Rattle.office_core.specs.Settling.Drafts.{HasMore, Adds};
ghost use Rattle.office_core.specs.Settling.Replies.{words_of};

use crate::settling::drafts::PendingWrite;
use crate::settling::following::open_installation;
use crate::settling::readings::reading_of;
use energy_core::{Entry, Reading, Verdict};
use mb_wire::Reply;
use office_books::{Books, BooksFault, is_read_by, verdict_at};
use office_events::{
    BookedEntry, EndedPoll, EntryKind, Fact, HeldReading, Installation, Name, Note, Poll, Register,
};
use poll_core::Settled;

/// Returns the record and the notification of a reading that was accepted or rejected. If the
/// reading is accepted, the record is a meter entry. Otherwise it is a rejected reading with its
/// cause.
fn record_of_reading(meter: Name, poll: u64, reading: &Reading, verdict: Verdict) -> (Fact, Note)
    ensures fact { result.0 ≡ readings.as_fact meter poll reading.now verdict }
    ensures note { result.1 ≡ notes.as_note meter reading.now verdict }
{
    match verdict {
        Verdict::Accepted { rolls, step } => (
            Fact::Entry(BookedEntry {
                meter,
                kind: EntryKind::Reading,
                entry: Entry::Step {
                    at: reading.at,
                    raw: reading.raw,
                    rolls,
                },
            }),
            Note::Reading {
                meter,
                raw: reading.raw,
                rolls,
                step,
            },
        ),
        Verdict::Held(cause) => (
            Fact::Hold(HeldReading {
                meter,
                poll,
                at: reading.at,
                raw: reading.raw,
                sf: reading.sf,
                cause,
            }),
            Note::Held {
                meter,
                raw: reading.raw,
                cause,
            },
        ),
    }
}

/// Accepts or rejects a reading of an installed meter, and adds the reading's record and
/// notification to the pending write (records not yet stored).
fn add_judged(
    draft: &mut PendingWrite,
    row: &Installation,
    poll: u64,
    reading: &Reading,
) -> Result<(), BooksFault>
    requires { IsSound row.now }
    ensures ok { OnOk result (HasMore draft.old draft.new
        (readings.reading_fact poll reading.now row.now) (notes.reading_note reading.now row.now)) }
    ensures err { IfErr result (λ fault. fault ≡ Memory) }
{
    let verdict = verdict_at(row, reading);
    let (fact, note) = record_of_reading(row.opening.meter, poll, reading, verdict);
    draft.add(fact, note)
}

/// Adds the reading of an accounting register (a named energy counter) in a poll's response to the
/// pending write (records not yet stored).
///
/// Adds no reading to the pending write if the poll's Modbus read does not cover the register's
/// counter and scale factor, or if no meter is open at the register.
fn add_reading<B: Books>(
    books: &mut B,
    draft: &mut PendingWrite,
    at: u64,
    poll: &Poll,
    reply: &Reply,
    register: &Register,
) -> Result<(), BooksFault>
    ensures adds { Adds (B.ledger books.old) (B.ledger books.new) draft.old draft.new result
        (readings.with_register at poll.now (words_of reply.now) register.now)
        (notes.register_notes at poll.now (words_of reply.now) register.now) }
    ensures reads { Consults (B.ledger books.old) (B.ledger books.new) result }
{
    if !is_read_by(poll.span, register) {
        return Ok(());
    }
    let Some(row) = open_installation(books, draft, &register.name)? else {
        return Ok(());
    };
    let reading = reading_of(at, poll.span, reply, register);
    add_judged(draft, &row, poll.number, &reading)
}

/// Adds the readings of several accounting registers (named energy counters) in one response to the
/// pending write (records not yet stored), in the order of the registers.
fn add_readings<B: Books>(
    books: &mut B,
    draft: &mut PendingWrite,
    at: u64,
    poll: &Poll,
    reply: &Reply,
    registers: &[Register],
) -> Result<(), BooksFault>
    ensures adds { Adds (B.ledger books.old) (B.ledger books.new) draft.old draft.new result
        (readings.with_registers at poll.now (words_of reply.now) registers.now)
        (notes.registers_notes at poll.now (words_of reply.now) registers.now) }
    ensures reads { Consults (B.ledger books.old) (B.ledger books.new) result }
{
    for register in registers {
        add_reading(books, draft, at, poll, reply, register)?;
    }
    Ok(())
}

/// Adds the readings in a poll's response to the pending write (records not yet stored), one for
/// each accounting register (a named energy counter) that the read covers.
fn add_reply<B: Books>(
    books: &mut B,
    draft: &mut PendingWrite,
    at: u64,
    number: u64,
    reply: &Reply,
) -> Result<(), BooksFault>
    ensures adds { Adds (B.ledger books.old) (B.ledger books.new) draft.old draft.new result
        (λ facts. readings.with_reply at (poll_of facts number) (words_of reply.now) facts)
        (λ facts. notes.reply_notes at (poll_of facts number) (words_of reply.now) facts) }
    ensures reads { Consults (B.ledger books.old) (B.ledger books.new) result }
{
    let Some(row) = books.poll(number)? else {
        return Ok(());
    };
    let registers = books.registers_read(&row.poll.device, row.poll.span)?;
    add_readings(books, draft, at, &row.poll, reply, &registers)
}

/// Adds the outcome of a poll to the pending write (records not yet stored). If the device
/// responded, adds the readings in its response too.
pub fn add_outcome<B: Books>(
    books: &mut B,
    draft: &mut PendingWrite,
    at: u64,
    settled: &Settled,
) -> Result<(), BooksFault>
    requires { LendsReply settled.now }
    ensures adds { Adds (B.ledger books.old) (B.ledger books.new) draft.old draft.new result
        (history.with_outcome at (settled_of settled.now))
        (notes.outcome_notes at (settled_of settled.now)) }
    ensures reads { Consults (B.ledger books.old) (B.ledger books.new) result }
{
    let ended = EndedPoll {
        poll: settled.poll,
        at,
        outcome: settled.outcome,
    };
    let note = Note::Outcome {
        poll: settled.poll,
        outcome: settled.outcome,
    };
    draft.add(Fact::Outcome(ended), note)?;
    match &settled.reply {
        None => Ok(()),
        Some(reply) => add_reply(books, draft, at, settled.poll, reply),
    }
}
