//! The cache of a store's lookup results, and how new records change it.
ghost use Rattle.std.specs.Prelude.{◌≡◌, ◌∷◌, List, length, IfSome, Some};
ghost use Rattle.std.specs.List.{filter};
ghost use Rattle.office_events.specs.declared.facts.Fact.{Fact};
ghost use Rattle.office_books.specs.Facts.{list_of, polls_in, registers_of};
ghost use Rattle.office_books.specs.Lawful.{AreLawful};
ghost use Rattle.office_books.specs.Meters.{installation_at};
ghost use Rattle.office_books.specs.Ranges.{IsSound};
ghost use Rattle.office_books.specs.Readings.{is_read_by, poll_row_of};
ghost use Rattle.office_books.specs.Ledgers.{with_facts};
ghost use Rattle.office_books.specs.Plans.{read_count_of, reads_from};

use crate::kept::answers::Answers;
use crate::kept::polls::Polls;
use crate::kept::standing::advance_installation;
use mb_wire::ReadSpan;
use office_books::{
    entries_move_on, holds_change_nothing, installations_are_in_range, is_sound, other_meters_stay,
    read_count, reads_from, registers_read,
};
use office_events::{
    Fact, Installation, MAX_DEVICES, MAX_INSTALLATIONS, MAX_REGISTERS, Name, PlannedList, PollRow,
    Register,
};
use std::alloc::Global;

/// The cached results of all kinds of lookups in a store: point lists, accounting registers (named
/// energy counters), states of meters, and polls.
#[derive(Drop)]
pub(crate) struct Known {
    alloc: Global,
    /// The point list (the Modbus registers to read) of each device, by the device's name.
    lists: Answers<PlannedList>,
    /// The accounting registers (named energy counters) of each device, by the device's name.
    registers: Answers<Vec<Register>>,
    /// The states of meters, by the meter's name. A meter has a state here only if it was installed
    /// last at its accounting register (a named energy counter).
    standing: Answers<Installation>,
    /// The name of the meter that was installed last at each accounting register (a named energy
    /// counter) when the name was cached, by the register's name. The name is not updated when
    /// another meter is installed later.
    meters: Answers<Name>,
    /// The cached pending polls (without an outcome), and the cached number of started polls.
    polls: Polls,
}

impl Known {
    ghost use Rattle.memory_books.specs.Kept.Changes.{Changes};
    ghost use Rattle.memory_books.specs.Kept.Known.{AreTrue};

    /// Creates an empty cache for the results of lookups in a store: point lists, accounting
    /// registers (named energy counters), states of meters, and polls.
    pub(crate) fn new(alloc: Global) -> Known
        ensures { (known : List Fact) → AreTrue result known }
    {
        Known {
            alloc,
            lists: Answers::new(alloc, MAX_DEVICES),
            registers: Answers::new(alloc, MAX_DEVICES),
            standing: Answers::new(alloc, MAX_INSTALLATIONS),
            meters: Answers::new(alloc, MAX_DEVICES * MAX_REGISTERS),
            polls: Polls::new(alloc),
        }
    }

    /// Returns a copy of the cached point list (the Modbus registers to read) of a device, or
    /// `None` if no list is cached or memory runs out.
    pub(crate) fn list(&self, device: &Name) -> Option<PlannedList>
        ensures { (known : List Fact) → AreTrue self.now known
            → IfSome result (λ list. list_of known device.now ≡ Some list) }
    {
        let Some(list) = self.lists.get(device) else {
            return None;
        };
        match list.clone() {
            Ok(copy) => Some(copy),
            Err(_) => None,
        }
    }

    /// Returns the number of Modbus reads in a device's plan, or `None` if the device's point list
    /// is not cached. The plan has the reads that cover the point list.
    pub(crate) fn read_count(&self, device: &Name) -> Option<usize>
        ensures { (known : List Fact) → AreTrue self.now known
            → IfSome result (λ n. read_count_of (list_of known device.now) ≡ Some n) }
    {
        match self.lists.get(device) {
            Some(list) => Some(read_count(list)),
            None => None,
        }
    }

    /// Returns at most `most` Modbus reads of the device's plan from index `from` on. The plan has
    /// the reads that cover the point list. Returns `None` if the point list is not cached or
    /// memory runs out.
    pub(crate) fn reads(&self, device: &Name, from: u64, most: usize) -> Option<Vec<ReadSpan>>
        ensures { (known : List Fact) → AreTrue self.now known
            → IfSome result (λ v. v.items ≡ reads_from from most (list_of known device.now)) }
    {
        let Some(list) = self.lists.get(device) else {
            return None;
        };
        match reads_from(self.alloc, list, from, most) {
            Ok(spans) => Some(spans),
            Err(_) => None,
        }
    }

    /// Caches the point list (the Modbus registers to read) of a device, unless the device has no
    /// point list or memory runs out.
    pub(crate) fn keep_list(&mut self, device: &Name, found: &Option<PlannedList>)
        ensures { (known : List Fact) → found.now ≡ list_of known device.now
            → AreTrue self.old known → AreTrue self.new known }
    {
        let Some(list) = found else {
            return;
        };
        if let Ok(copy) = list.clone() {
            self.lists.insert(device, copy);
        }
    }

    /// Returns a copy of the cached accounting registers (named energy counters) of a device, or
    /// `None` if they are not cached or memory runs out.
    pub(crate) fn registers(&self, device: &Name) -> Option<Vec<Register>>
        ensures { (known : List Fact) → AreTrue self.now known
            → IfSome result (λ v. v.items ≡ registers_of known device.now) }
    {
        let Some(registers) = self.registers.get(device) else {
            return None;
        };
        match registers.as_slice().to_vec(self.alloc) {
            Ok(copy) => Some(copy),
            Err(_) => None,
        }
    }

    /// Returns copies of the cached accounting registers (named energy counters) of a device.
    /// Registers that the Modbus read does not cover are left out.
    ///
    /// Returns `None` if the cache does not contain the device's accounting registers (named energy
    /// counters), or if memory runs out for the copies.
    pub(crate) fn registers_read(&self, device: &Name, span: ReadSpan) -> Option<Vec<Register>>
        ensures { (known : List Fact) → AreTrue self.now known
            → IfSome result (λ v.
            v.items ≡ filter (is_read_by span) (registers_of known device.now)) }
    {
        let Some(registers) = self.registers.get(device) else {
            return None;
        };
        match registers_read(self.alloc, registers, span) {
            Ok(read) => Some(read),
            Err(_) => None,
        }
    }

    /// Returns the number of accounting registers (named energy counters) of a device, or `None` if
    /// the registers are not cached.
    pub(crate) fn register_count(&self, device: &Name) -> Option<usize>
        ensures { (known : List Fact) → AreTrue self.now known
            → IfSome result (λ n. n ≡ length (registers_of known device.now)) }
    {
        match self.registers.get(device) {
            Some(registers) => Some(registers.len()),
            None => None,
        }
    }

    /// Caches the accounting registers (named energy counters) of a device, unless the device has
    /// none or memory runs out.
    pub(crate) fn keep_registers(&mut self, device: &Name, found: &[Register])
        ensures { (known : List Fact) → found.now ≡ registers_of known device.now
            → AreTrue self.old known → AreTrue self.new known }
    {
        if found.is_empty() {
            return;
        }
        if let Ok(copy) = found.to_vec(self.alloc) {
            self.registers.insert(device, copy);
        }
    }

    /// Returns the cached state of the meter whose name is cached for an accounting register (a
    /// named energy counter). The caller must check that this meter was installed at this register.
    fn standing_at(&self, register: &Name) -> Option<&Installation>
        ensures { (known : List Fact) → AreTrue self.now known
            → IfSome result (λ row. installation_at known row.now.opening.register ≡ Some row.now) }
    {
        match self.meters.get(register) {
            Some(meter) => self.standing.get(meter),
            None => None,
        }
    }

    /// Returns the state of the meter that was installed last at an accounting register (a named
    /// energy counter). Returns `None` if the state is not cached.
    pub(crate) fn installation(&self, register: &Name) -> Option<Installation>
        ensures found { (known : List Fact) → AreTrue self.now known
            → IfSome result (λ row. installation_at known register.now ≡ Some row) }
        ensures sound { IfSome result IsSound }
    {
        match self.standing_at(register) {
            Some(row) => {
                if row.opening.register.is(register) && is_sound(row) {
                    Some(*row)
                } else {
                    None
                }
            }
            None => None,
        }
    }

    /// Caches the state of the meter that was installed last at an accounting register (a named
    /// energy counter). Does nothing if no meter was installed there or memory runs out.
    pub(crate) fn keep_installation(&mut self, register: &Name, found: &Option<Installation>)
        ensures { (known : List Fact) → found.now ≡ installation_at known register.now
            → AreTrue self.old known → AreTrue self.new known }
    {
        if let Some(row) = found {
            self.meters.remove(register);
            self.meters.insert(register, row.opening.meter);
            self.standing.insert(&row.opening.meter, *row);
        }
    }

    /// Returns the pending poll (without an outcome) with this number, or `None` if the poll is not
    /// cached.
    pub(crate) fn poll(&self, number: u64) -> Option<PollRow>
        ensures { (known : List Fact) → AreTrue self.now known
            → IfSome result (λ row. poll_row_of known number ≡ Some row) }
    {
        match self.polls.get(number) {
            Some(poll) => Some(PollRow {
                poll: *poll,
                ended: None,
            }),
            None => None,
        }
    }

    /// Returns the number of started polls, or `None` if the number is not cached.
    pub(crate) fn poll_count(&self) -> Option<u64>
        ensures { (known : List Fact) → AreTrue self.now known
            → IfSome result (λ n. n ≡ length (polls_in known)) }
    {
        self.polls.started()
    }

    /// Caches the number of started polls.
    pub(crate) fn keep_poll_count(&mut self, found: u64)
        ensures { (known : List Fact) → found ≡ length (polls_in known)
            → AreTrue self.old known → AreTrue self.new known }
    {
        self.polls.keep_started(found);
    }

    /// Updates the cached point lists, registers and states of meters after one more record.
    fn change(&mut self, fact: &Fact)
        ensures changes { Changes fact.now self.old self.new }
        ensures polls { self.new.polls ≡ self.old.polls }
    {
        match fact {
            Fact::List(put) => {
                self.lists.remove(&put.device);
            }
            Fact::Register(register) => {
                self.registers.remove(&register.device);
            }
            Fact::Opening(_) => self.standing.clear(),
            Fact::Entry(booked) => advance_installation(&mut self.standing, booked),
            Fact::Void(voided) => {
                self.standing.remove(&voided.meter);
            }
            Fact::Device(_) | Fact::Hold(_) | Fact::Poll(_) | Fact::Outcome(_) | Fact::Reply(_) =>
                {}
        }
    }

    fn add(&mut self, fact: &Fact)
        ensures { (known : List Fact) → AreLawful (fact.now ∷ known)
            → AreTrue self.old known → AreTrue self.new (fact.now ∷ known) }
    {
        other_meters_stay();
        holds_change_nothing();
        entries_move_on();
        installations_are_in_range();
        self.change(fact);
        self.polls.apply_record(fact);
    }

    /// Updates the cache of lookup results after the records `facts` were added to the store.
    pub(crate) fn add_all(&mut self, facts: &[Fact])
        ensures { (known : List Fact) → AreLawful (with_facts facts.now known)
            → AreTrue self.old known → AreTrue self.new (with_facts facts.now known) }
    {
        for fact in facts {
            self.add(fact);
        }
    }
}
