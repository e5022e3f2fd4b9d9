//! Writes polls, their outcomes, rejected readings and accepted requests (stored to detect retries)
//! to the tables.
ghost use Rattle.sqlite.specs.Held.{state};
ghost use Rattle.store_tables.specs.Steps.{IsSameBorrow};
ghost use Rattle.office_events.specs.declared.facts.Fact.TheVariants as fact;
ghost use Rattle.office_store.specs.Going.{Goes};
ghost use Rattle.office_store.specs.Recording.{Records};

use crate::bookings::places::next_hold;
use crate::{hold_row, outcome_row, poll_row, text};
use office_books::holds_change_nothing;
use office_events::{EndedPoll, HeldReading, MAX_REQUEST, Poll, Reply};
use sqlite::{Alter, Transaction};
use store_tables::{
    GREATEST_PLACE, LATEST_MOMENT, RowFault, insert_kept_request, insert_outcome, insert_poll,
    insert_rejected,
};

/// Writes a started poll to the table `polls`.
pub fn enter_poll<S: Alter>(tx: &mut Transaction<'_, S>, poll: &Poll) -> Result<(), RowFault>
    ensures same_reference { IsSameBorrow tx.old.conn tx.new.conn }
    ensures does { Goes (state S.Store tx.old.conn.now) (state S.Store tx.new.conn.now) result
        (Records (fact.Poll poll.now)) }
{
    if poll.number < 1 || GREATEST_PLACE < poll.number || LATEST_MOMENT < poll.at {
        return Err(RowFault::Damaged);
    }
    let device = text(&poll.device)?;
    insert_poll(tx, device, poll_row(*poll))?;
    Ok(())
}

/// Writes the outcome of a poll to the table `outcomes`.
pub fn enter_outcome<S: Alter>(
    tx: &mut Transaction<'_, S>,
    ended: &EndedPoll,
) -> Result<(), RowFault>
    ensures same_reference { IsSameBorrow tx.old.conn tx.new.conn }
    ensures does { Goes (state S.Store tx.old.conn.now) (state S.Store tx.new.conn.now) result
        (Records (fact.Outcome ended.now)) }
{
    if ended.poll < 1 || GREATEST_PLACE < ended.poll || LATEST_MOMENT < ended.at {
        return Err(RowFault::Damaged);
    }
    insert_outcome(tx, outcome_row(*ended))?;
    Ok(())
}

/// Writes a rejected reading to the table `holds`, with the index after the last rejected reading.
pub fn enter_hold<S: Alter>(tx: &mut Transaction<'_, S>, held: &HeldReading) -> Result<(), RowFault>
    ensures same_reference { IsSameBorrow tx.old.conn tx.new.conn }
    ensures does { Goes (state S.Store tx.old.conn.now) (state S.Store tx.new.conn.now) result
        (Records (fact.Hold held.now)) }
{
    holds_change_nothing();
    if held.poll < 1 || GREATEST_PLACE < held.poll || LATEST_MOMENT < held.at {
        return Err(RowFault::Damaged);
    }
    let meter = text(&held.meter)?;
    let place = next_hold(tx)?;
    insert_rejected(tx, meter, hold_row(*held, place))?;
    Ok(())
}

/// Stores an accepted request under its idempotency key, so that a retry of the request has no
/// second effect.
pub fn enter_reply<S: Alter>(tx: &mut Transaction<'_, S>, reply: &Reply) -> Result<(), RowFault>
    ensures same_reference { IsSameBorrow tx.old.conn tx.new.conn }
    ensures does { Goes (state S.Store tx.old.conn.now) (state S.Store tx.new.conn.now) result
        (Records (fact.Reply reply.now)) }
{
    if MAX_REQUEST < reply.number || LATEST_MOMENT < reply.at {
        return Err(RowFault::Damaged);
    }
    let caller = text(&reply.caller)?;
    insert_kept_request(
        tx,
        caller,
        reply.number,
        reply.request.as_slice(),
        reply.kind,
        reply.at,
    )?;
    Ok(())
}
