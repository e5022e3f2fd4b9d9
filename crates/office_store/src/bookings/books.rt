//! Writes several metering records to the tables of the store in one transaction.
ghost use Rattle.std.specs.Prelude.{◌≡◌, ℕ, List, false};
ghost use Rattle.sqlite.specs.Held.{state};
ghost use Rattle.store_tables.specs.Steps.{IsSameBorrow};
ghost use Rattle.office_store.specs.Going.{Goes, Commits};
ghost use Rattle.office_store.specs.Holding.{BooksFacts};
ghost use Rattle.office_store.specs.Recording.{Records, RecordsAll};

use crate::bookings::devices::enter_device;
use crate::bookings::lists::enter_list;
use crate::bookings::meter_entries::enter_entry;
use crate::bookings::meters::enter_opening;
use crate::bookings::polls::{enter_hold, enter_outcome, enter_poll, enter_reply};
use crate::bookings::registers::enter_register;
use crate::bookings::voids::enter_void;
use office_events::Fact;
use sqlite::{Alter, Connection, Transaction};
use std::alloc::Global;
use store_tables::{RowFault, check_open};

/// Writes one record, for example a meter entry, to the tables of the store.
fn enter_fact<S: Alter>(
    alloc: Global,
    tx: &mut Transaction<'_, S>,
    fact: &Fact,
) -> Result<(), RowFault>
    ensures same_reference { IsSameBorrow tx.old.conn tx.new.conn }
    ensures does { Goes (state S.Store tx.old.conn.now) (state S.Store tx.new.conn.now) result
        (Records fact.now) }
{
    match fact {
        Fact::Device(device) => enter_device(tx, device),
        Fact::List(put) => enter_list(alloc, tx, put),
        Fact::Register(register) => enter_register(tx, register),
        Fact::Opening(opening) => enter_opening(tx, opening),
        Fact::Entry(booked) => enter_entry(tx, booked),
        Fact::Hold(held) => enter_hold(tx, held),
        Fact::Void(voided) => enter_void(tx, voided),
        Fact::Poll(poll) => enter_poll(tx, poll),
        Fact::Outcome(ended) => enter_outcome(tx, ended),
        Fact::Reply(reply) => enter_reply(tx, reply),
    }
}

/// Writes records to the tables of the store, one after another.
fn enter_facts<S: Alter>(
    alloc: Global,
    tx: &mut Transaction<'_, S>,
    facts: &[Fact],
) -> Result<(), RowFault>
    ensures same_reference { IsSameBorrow tx.old.conn tx.new.conn }
    ensures does { Goes (state S.Store tx.old.conn.now) (state S.Store tx.new.conn.now) result
        (RecordsAll facts.now) }
{
    for fact in facts {
        enter_fact(alloc, tx, fact)?;
    }
    Ok(())
}

/// Writes records and commits all of them, or none. The commit is the last database call.
fn commit_facts<S: Alter>(
    alloc: Global,
    conn: &mut Connection<S>,
    facts: &[Fact],
) -> Result<(), RowFault>
    requires autocommit { conn.old.in_transaction ≡ false }
    ensures autocommit { conn.new.in_transaction ≡ false }
    ensures does { Commits (state S.Store conn.old) (state S.Store conn.new) result
        (RecordsAll facts.now) }
{
    let mut tx = conn.transaction();
    enter_facts(alloc, &mut tx, facts)?;
    tx.commit()?;
    Ok(())
}

/// Appends records to the stored records, if the rules for records accept them (for example, device
/// names are unique). Stores either all given records or none, even after a crash. The commit is
/// the last database call. If the list of records is empty, the function makes no database call.
pub fn book_facts<S: Alter>(
    alloc: Global,
    conn: &mut Connection<S>,
    facts: &[Fact],
) -> Result<(), RowFault>
    requires autocommit { conn.old.in_transaction ≡ false }
    ensures autocommit { conn.new.in_transaction ≡ false }
    ensures books { (zone : List ℕ)
        → BooksFacts S.Store zone facts.now conn.old conn.new result }
{
    if facts.is_empty() {
        return Ok(());
    }
    check_open(conn)?;
    commit_facts(alloc, conn, facts)
}
