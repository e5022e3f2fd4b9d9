//! Tables in which a search by key finds the indices of records in the list of all records.
ghost use Rattle.std.specs.Prelude.{◌≡◌, List, [], reverse, OnOk, OnErr};
ghost use Rattle.office_events.specs.declared.facts.Fact.{Fact};
ghost use Rattle.memory_books.specs.Tables.Keys as keys;
ghost use Rattle.memory_books.specs.Tables.Places as places;

use crate::tables::keys::Key;
use crate::tables::table::Table;
use office_events::{DeviceList, Fact, Name, Opening, Register, Reply};
use std::alloc::{AllocError, Global};
use std::collections::BTreeMap;

/// The kind of an in-memory table of record indices. The kind determines which records the table
/// indexes, and by which key.
#[derive(Clone, Copy)]
pub(crate) enum Kind {
    /// A map in memory that finds point lists (the Modbus registers to read) by the name of their
    /// device.
    DeviceLists,
    /// The lookup table finds accounting registers (named energy counters) by their own names.
    Registers,
    /// A kind of lookup table of a store in memory: it finds accounting registers (named energy
    /// counters) by the name of their device.
    DeviceRegisters,
    /// The lookup table finds openings (installations of meters) by the name of their accounting
    /// register (a named energy counter).
    RegisterOpenings,
    /// A map in memory that finds stored responses to requests by idempotency key.
    Replies,
}

/// Returns the key for a lookup by a name alone. It has the name, and 0 in place of a number.
pub(crate) fn named(name: &Name) -> Key
    ensures { result ≡ keys.named name.now }
{
    Key {
        name: *name,
        number: 0,
    }
}

fn list_key(kind: Kind, put: &DeviceList) -> Option<Key>
    ensures { result ≡ places.list_key kind put.now }
{
    match kind {
        Kind::DeviceLists => Some(named(&put.device)),
        Kind::Registers | Kind::DeviceRegisters | Kind::RegisterOpenings | Kind::Replies => None,
    }
}

fn register_key(kind: Kind, register: &Register) -> Option<Key>
    ensures { result ≡ places.register_key kind register.now }
{
    match kind {
        Kind::Registers => Some(named(&register.name)),
        Kind::DeviceRegisters => Some(named(&register.device)),
        Kind::DeviceLists | Kind::RegisterOpenings | Kind::Replies => None,
    }
}

fn opening_key(kind: Kind, opening: &Opening) -> Option<Key>
    ensures { result ≡ places.opening_key kind opening.now }
{
    match kind {
        Kind::RegisterOpenings => Some(named(&opening.register)),
        Kind::DeviceLists | Kind::Registers | Kind::DeviceRegisters | Kind::Replies => None,
    }
}

fn reply_key(kind: Kind, reply: &Reply) -> Option<Key>
    ensures { result ≡ places.reply_key kind reply.now }
{
    match kind {
        Kind::Replies => Some(Key {
            name: reply.caller,
            number: reply.number,
        }),
        Kind::DeviceLists | Kind::Registers | Kind::DeviceRegisters | Kind::RegisterOpenings => {
            None
        }
    }
}

fn key_in(kind: Kind, fact: &Fact) -> Option<Key>
    ensures { result ≡ places.key_in kind fact.now }
{
    match fact {
        Fact::List(put) => list_key(kind, put),
        Fact::Register(register) => register_key(kind, register),
        Fact::Opening(opening) => opening_key(kind, opening),
        Fact::Reply(reply) => reply_key(kind, reply),
        Fact::Device(_)
        | Fact::Entry(_)
        | Fact::Hold(_)
        | Fact::Void(_)
        | Fact::Poll(_)
        | Fact::Outcome(_) => None,
    }
}

/// An in-memory table in which a search by key (such as a name) finds the indices of the records of
/// one kind in the store's list of records.
#[derive(Drop)]
pub(crate) struct Places {
    alloc: Global,
    kind: Kind,
    places: BTreeMap<Key, Vec<usize>>,
}

impl Places {
    ghost use Rattle.memory_books.specs.Tables.Places.{ArePlaces, ArePlacesOf, AreUnchanged, HaveOneMore, places_of, latest_place, has_key};
    ghost use Rattle.memory_books.specs.declared.tables.places.Kind.{Kind};

    /// Creates an empty table of record indices. `kind` determines which records the table indexes,
    /// and by which key.
    pub(crate) fn new(alloc: Global, kind: Kind) -> Places
        ensures places { ArePlaces result [] }
        ensures kind { result.kind ≡ kind }
    {
        Places {
            alloc,
            kind,
            places: BTreeMap::new(alloc),
        }
    }

    fn add(&mut self, key: Key, place: usize) -> Result<(), AllocError>
        ensures ok { OnOk result (HaveOneMore key place self.old self.new) }
        ensures err { OnErr result (AreUnchanged self.old self.new) }
        ensures kind { self.new.kind ≡ self.old.kind }
    {
        if let Some(places) = self.places.get_mut(&key) {
            places.push(place)?;
            return Ok(());
        }
        let mut places = Vec::new(self.alloc);
        places.push(place)?;
        self.places.insert(key, places)?;
        Ok(())
    }

    /// Returns the indices of the records with the lookup key `key` (a name, or a name and a
    /// number), in the order in which the records were added.
    pub(crate) fn all(&self, key: Key) -> &[usize]
        ensures { (kind : Kind) (known : List Fact) → ArePlacesOf kind self.now known
            → result.now ≡ reverse (places_of (has_key kind key) known) }
    {
        match self.places.get(&key) {
            Some(places) => places.as_slice(),
            None => &[],
        }
    }

    /// Returns the index of the latest record with this key, or `None` if the table indexes no
    /// record with this key.
    pub(crate) fn latest(&self, key: Key) -> Option<usize>
        ensures { (kind : Kind) (known : List Fact) → ArePlacesOf kind self.now known
            → result ≡ latest_place (has_key kind key) known }
    {
        self.all(key).last().copied()
    }
}

impl Table for Places {
    ghost use Rattle.std.specs.Prelude.{Some};
    ghost use Rattle.memory_books.specs.Tables.Places.{ArePlaces};

    ghost kind = { λ places. Some places.kind };

    ghost says = { ArePlaces };

    fn apply_record(&mut self, place: usize, fact: &Fact) -> Result<(), AllocError> {
        match key_in(self.kind, fact) {
            Some(key) => self.add(key, place),
            None => Ok(()),
        }
    }
}
