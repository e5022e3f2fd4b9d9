//! Implements the store in memory: a list of records, with maps in memory that find records by a
//! name or an idempotency key.
ghost use Rattle.std.specs.Prelude.{◌≡◌, List, [], ◌++◌, OnOk, OnErr, IsOk};
ghost use Rattle.office_books.specs.Faults.{faults_after};
ghost use Rattle.office_events.specs.declared.facts.Fact.{Fact};
ghost use Rattle.memory_books.specs.Tables.Whole.{AreWhole};
ghost use Rattle.memory_books.specs.Listed.{AreListed};
ghost use Rattle.memory_books.specs.Looking.{failures_in, reported};

use crate::figures::Figures;
use crate::lookups;
use crate::tables::Tables;
use interval_core::{Share, Zone};
use mb_wire::ReadSpan;
use office_books::{Books, BooksFault, MeterEntry, Repeat, RowSink, Span};
use office_events::{
    Device, EntryContext, Fact, HeldReading, Installation, Name, PlannedList, Poll, PollRow,
    Register,
};
use std::alloc::{AllocError, Global};

/// A store in memory, which is a list of records in the order in which they were added, with tables
/// for lookups. A call fails only if memory runs out. A failed call changes no record, and the
/// store remembers the failure.
#[derive(Drop)]
pub struct ListBooks {
    facts: Vec<Fact>,
    zone: Zone,
    tables: Tables,
    figures: Figures,
    /// The store's last failure, if any, which is that memory ran out.
    last_failure: Option<BooksFault>,
}

impl ListBooks {
    ghost use Rattle.office_books.specs.Faults.{no_failures};
    ghost use Rattle.office_books.specs.Ledgers.{KeepsFacts, OnlyReads};
    ghost use Rattle.memory_books.specs.Listed.{ledger_of, FiguresFollow};

    /// Creates an empty store in memory with the time zone of its civil days.
    pub fn new(alloc: Global, zone: Zone) -> ListBooks
        ensures empty { AreListed result [] }
        ensures zone { result.zone ≡ zone }
        ensures failures { (ledger_of result).failures ≡ no_failures }
    {
        ListBooks {
            facts: Vec::new(alloc),
            zone,
            tables: Tables::new(alloc),
            figures: Figures::new(),
            last_failure: None,
        }
    }

    /// Adds to each lookup table (an in-memory index of the records) the records that it lacks. If
    /// memory runs out, some tables remain incomplete.
    fn catch_up(&mut self) -> Result<(), AllocError>
        ensures keeps { KeepsFacts (ledger_of self.old) (ledger_of self.new) }
        ensures whole { (known : List Fact) → AreListed self.old known
            → OnOk result (AreWhole self.new.tables known) }
        ensures facts { self.new.facts ≡ self.old.facts }
        ensures figures { self.new.figures ≡ self.old.figures }
        ensures zone { self.new.zone ≡ self.old.zone }
        ensures failure { self.new.last_failure ≡ self.old.last_failure }
    {
        self.tables.catch_up(&self.facts)
    }

    /// Updates all lookup tables for the records that they lack, before a lookup. Fails if memory
    /// runs out.
    fn ready(&mut self) -> Result<(), BooksFault>
        ensures reads { OnlyReads (ledger_of self.old) (ledger_of self.new) result }
        ensures whole { (known : List Fact) → AreListed self.old known
            → OnOk result (AreWhole self.new.tables known) }
        ensures facts { self.new.facts ≡ self.old.facts }
        ensures figures { self.new.figures ≡ self.old.figures }
    {
        let done = self.catch_up();
        note_failure(&mut self.last_failure, done)
    }

    /// Adds all of the records to the store, or none if memory runs out.
    fn add(&mut self, facts: Vec<Fact>) -> Result<(), AllocError>
        ensures ok { OnOk result (self.new.facts.items ≡ self.old.facts.items ++ facts.items) }
        ensures figures { OnOk result (FiguresFollow facts.items self.old self.new) }
        ensures err { OnErr result (self.new.facts.items ≡ self.old.facts.items) }
        ensures same_figures { OnErr result (self.new.figures ≡ self.old.figures) }
        ensures zone { self.new.zone ≡ self.old.zone }
        ensures tables { self.new.tables ≡ self.old.tables }
        ensures failure { self.new.last_failure ≡ self.old.last_failure }
        ensures nothing { facts.items ≡ [] → IsOk result }
    {
        let figures = self.figures.after_all(&facts);
        let mut more = facts;
        self.facts.append(&mut more)?;
        self.figures = figures;
        Ok(())
    }
}

/// Converts the result of a call of the store in memory. If memory ran out, stores this as the
/// store's last failure.
fn note_failure<T>(
    last_failure: &mut Option<BooksFault>,
    done: Result<T, AllocError>,
) -> Result<T, BooksFault>
    ensures answer { result ≡ reported done }
    ensures noted { failures_in last_failure.new
        ≡ faults_after result (failures_in last_failure.old) }
{
    match done {
        Ok(answer) => Ok(answer),
        Err(_) => {
            *last_failure = Some(BooksFault::Memory);
            Err(BooksFault::Memory)
        }
    }
}

impl Books for ListBooks {
    ghost use Rattle.memory_books.specs.Listed.{ledger_of};

    ghost ledger = { ledger_of };

    fn faults(&self) -> u64 {
        0
    }

    fn zone(&self) -> Zone {
        self.zone
    }

    fn tables_are_known(&self) {}

    fn devices(&mut self) -> Result<Vec<Device>, BooksFault> {
        let alloc = *self.facts.allocator();
        let found = lookups::devices(alloc, &self.facts);
        note_failure(&mut self.last_failure, found)
    }

    fn list(&mut self, device: &Name) -> Result<Option<PlannedList>, BooksFault> {
        self.ready()?;
        let found = self.tables.list(&self.facts, device);
        note_failure(&mut self.last_failure, found)
    }

    fn read_count(&mut self, device: &Name) -> Result<Option<usize>, BooksFault> {
        self.ready()?;
        Ok(self.tables.read_count(&self.facts, device))
    }

    fn reads(
        &mut self,
        device: &Name,
        from: u64,
        most: usize,
    ) -> Result<Vec<ReadSpan>, BooksFault> {
        self.ready()?;
        let alloc = *self.facts.allocator();
        let found = self.tables.reads(alloc, &self.facts, device, from, most);
        note_failure(&mut self.last_failure, found)
    }

    fn register(&mut self, name: &Name) -> Result<Option<Register>, BooksFault> {
        self.ready()?;
        Ok(self.tables.register(&self.facts, name))
    }

    fn registers(&mut self, device: &Name) -> Result<Vec<Register>, BooksFault> {
        self.ready()?;
        let alloc = *self.facts.allocator();
        let found = self.tables.registers(alloc, &self.facts, device);
        note_failure(&mut self.last_failure, found)
    }

    fn registers_read(
        &mut self,
        device: &Name,
        span: ReadSpan,
    ) -> Result<Vec<Register>, BooksFault> {
        self.ready()?;
        let alloc = *self.facts.allocator();
        let found = self.tables.registers_read(alloc, &self.facts, device, span);
        note_failure(&mut self.last_failure, found)
    }

    fn register_count(&mut self, device: &Name) -> Result<usize, BooksFault> {
        self.ready()?;
        Ok(self.tables.register_count(device))
    }

    fn meter(&mut self, name: &Name) -> Result<Option<Installation>, BooksFault> {
        self.ready()?;
        Ok(self.tables.meter(name))
    }

    fn installation(&mut self, register: &Name) -> Result<Option<Installation>, BooksFault> {
        self.ready()?;
        Ok(self.tables.installation(&self.facts, register))
    }

    fn meters(&mut self, register: &Name) -> Result<Vec<Installation>, BooksFault> {
        self.ready()?;
        let alloc = *self.facts.allocator();
        let found = self.tables.installations(alloc, &self.facts, register);
        note_failure(&mut self.last_failure, found)
    }

    fn installation_count(&mut self) -> Result<usize, BooksFault> {
        Ok(self.figures.installations)
    }

    fn entry(&mut self, meter: &Name, place: u64) -> Result<Option<EntryContext>, BooksFault> {
        self.ready()?;
        Ok(self.tables.entry(meter, place))
    }

    fn entry_near(&mut self, meter: &Name, place: u64) -> Result<Option<EntryContext>, BooksFault> {
        self.ready()?;
        Ok(self.tables.entry_near(meter, place))
    }

    fn entries(
        &mut self,
        meter: &Name,
        from: u64,
        most: u32,
    ) -> Result<Vec<MeterEntry>, BooksFault> {
        self.ready()?;
        let alloc = *self.facts.allocator();
        let found = self.tables.entries(alloc, meter, from, most);
        note_failure(&mut self.last_failure, found)
    }

    fn poll(&mut self, number: u64) -> Result<Option<PollRow>, BooksFault> {
        self.ready()?;
        Ok(self.tables.poll(number))
    }

    fn poll_count(&mut self) -> Result<u64, BooksFault> {
        self.ready()?;
        Ok(self.tables.poll_count())
    }

    fn pending(&mut self) -> Result<Vec<Poll>, BooksFault> {
        self.ready()?;
        let alloc = *self.facts.allocator();
        let found = self.tables.pending(alloc);
        note_failure(&mut self.last_failure, found)
    }

    fn latest(&mut self) -> Result<u64, BooksFault> {
        Ok(self.figures.latest)
    }

    fn repeat(
        &mut self,
        caller: &Name,
        number: u64,
        request: &[u8],
    ) -> Result<Option<Repeat>, BooksFault> {
        self.ready()?;
        Ok(self.tables.repeat(&self.facts, caller, number, request))
    }

    fn intervals<K: RowSink<Share>>(
        &mut self,
        meter: &Name,
        span: Span,
        sink: &mut K,
    ) -> Result<(), BooksFault> {
        self.ready()?;
        self.tables.intervals(meter, span, sink);
        Ok(())
    }

    fn register_intervals<K: RowSink<Share>>(
        &mut self,
        register: &Name,
        span: Span,
        sink: &mut K,
    ) -> Result<(), BooksFault> {
        self.ready()?;
        self.tables
            .register_intervals(&self.facts, register, span, sink);
        Ok(())
    }

    fn holds<K: RowSink<HeldReading>>(
        &mut self,
        meter: &Name,
        span: Span,
        sink: &mut K,
    ) -> Result<(), BooksFault> {
        lookups::hand_holds(&self.facts, meter, span, sink);
        Ok(())
    }

    fn book(&mut self, facts: Vec<Fact>) -> Result<(), BooksFault> {
        match self.add(facts) {
            Ok(()) => {
                // The new records are stored even if memory runs out while the lookup tables
                // (in-memory indexes of the records) are updated. The next lookup adds the missing
                // records to the tables.
                let _ = self.catch_up();
                Ok(())
            }
            Err(lacks) => note_failure(&mut self.last_failure, Err(lacks)),
        }
    }
}
