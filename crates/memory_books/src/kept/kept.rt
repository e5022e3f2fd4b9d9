//! A store that caches the lookup results of another store.
ghost use Rattle.std.specs.Prelude.{◌≡◌};
ghost use Rattle.memory_books.specs.Kept.Keeping.{StandsAs, beneath, ledger_over};

use crate::kept::known::Known;
use interval_core::{Share, Zone};
use mb_wire::ReadSpan;
use office_books::{
    Books, BooksFault, MeterEntry, Repeat, RowSink, Span, read_count, retain_covered,
};
use office_events::{
    Device, EntryContext, Fact, HeldReading, Installation, Name, PlannedList, Poll, PollRow,
    Register,
};
use std::alloc::Global;

/// A store that caches the lookup results of another store. A repeated lookup does not query the
/// other store. New records update the cache or remove results from it, and a failed write empties
/// the cache.
#[derive(Drop)]
pub struct CachedBooks<B> {
    alloc: Global,
    books: B,
    known: Known,
}

impl<B: Books> CachedBooks<B> {
    /// Creates a store with an empty cache of the lookup results of the store `books`.
    pub fn new(alloc: Global, books: B) -> CachedBooks<B>
        ensures books { beneath result ≡ books }
        ensures stands { StandsAs (B.ledger books) (ledger_over B.ledger result) }
    {
        CachedBooks {
            alloc,
            books,
            known: Known::new(alloc),
        }
    }

    /// Returns the store whose lookup results are cached.
    pub fn into_books(self) -> B
        ensures books { result ≡ beneath self }
        ensures stands { StandsAs (ledger_over B.ledger self) (B.ledger result) }
    {
        self.books
    }
}

impl<B: Books> Books for CachedBooks<B> {
    ghost use Rattle.memory_books.specs.Kept.Keeping.{ledger_over};

    ghost ledger = { ledger_over B.ledger };

    fn faults(&self) -> u64 {
        self.books.faults()
    }

    fn zone(&self) -> Zone {
        self.books.zone()
    }

    fn tables_are_known(&self) {
        self.books.tables_are_known();
    }

    fn devices(&mut self) -> Result<Vec<Device>, BooksFault> {
        self.books.devices()
    }

    fn list(&mut self, device: &Name) -> Result<Option<PlannedList>, BooksFault> {
        if let Some(list) = self.known.list(device) {
            return Ok(Some(list));
        }
        let found = self.books.list(device)?;
        self.known.keep_list(device, &found);
        Ok(found)
    }

    fn read_count(&mut self, device: &Name) -> Result<Option<usize>, BooksFault> {
        if let Some(count) = self.known.read_count(device) {
            return Ok(Some(count));
        }
        let found = self.books.list(device)?;
        self.known.keep_list(device, &found);
        match &found {
            Some(list) => Ok(Some(read_count(list))),
            None => Ok(None),
        }
    }

    fn reads(
        &mut self,
        device: &Name,
        from: u64,
        most: usize,
    ) -> Result<Vec<ReadSpan>, BooksFault> {
        match self.known.reads(device, from, most) {
            Some(spans) => Ok(spans),
            None => self.books.reads(device, from, most),
        }
    }

    fn register(&mut self, name: &Name) -> Result<Option<Register>, BooksFault> {
        self.books.register(name)
    }

    fn registers(&mut self, device: &Name) -> Result<Vec<Register>, BooksFault> {
        if let Some(registers) = self.known.registers(device) {
            return Ok(registers);
        }
        let found = self.books.registers(device)?;
        self.known.keep_registers(device, &found);
        Ok(found)
    }

    fn registers_read(
        &mut self,
        device: &Name,
        span: ReadSpan,
    ) -> Result<Vec<Register>, BooksFault> {
        if let Some(read) = self.known.registers_read(device, span) {
            return Ok(read);
        }
        let mut found = self.books.registers(device)?;
        self.known.keep_registers(device, &found);
        retain_covered(&mut found, span);
        Ok(found)
    }

    fn register_count(&mut self, device: &Name) -> Result<usize, BooksFault> {
        match self.known.register_count(device) {
            Some(count) => Ok(count),
            None => self.books.register_count(device),
        }
    }

    fn meter(&mut self, name: &Name) -> Result<Option<Installation>, BooksFault> {
        self.books.meter(name)
    }

    fn installation(&mut self, register: &Name) -> Result<Option<Installation>, BooksFault> {
        if let Some(row) = self.known.installation(register) {
            return Ok(Some(row));
        }
        let found = self.books.installation(register)?;
        self.known.keep_installation(register, &found);
        Ok(found)
    }

    fn meters(&mut self, register: &Name) -> Result<Vec<Installation>, BooksFault> {
        self.books.meters(register)
    }

    fn installation_count(&mut self) -> Result<usize, BooksFault> {
        self.books.installation_count()
    }

    fn entry(&mut self, meter: &Name, place: u64) -> Result<Option<EntryContext>, BooksFault> {
        self.books.entry(meter, place)
    }

    fn entry_near(&mut self, meter: &Name, place: u64) -> Result<Option<EntryContext>, BooksFault> {
        self.books.entry_near(meter, place)
    }

    fn entries(
        &mut self,
        meter: &Name,
        from: u64,
        most: u32,
    ) -> Result<Vec<MeterEntry>, BooksFault> {
        self.books.entries(meter, from, most)
    }

    fn poll(&mut self, number: u64) -> Result<Option<PollRow>, BooksFault> {
        match self.known.poll(number) {
            Some(row) => Ok(Some(row)),
            None => self.books.poll(number),
        }
    }

    fn poll_count(&mut self) -> Result<u64, BooksFault> {
        if let Some(count) = self.known.poll_count() {
            return Ok(count);
        }
        let count = self.books.poll_count()?;
        self.known.keep_poll_count(count);
        Ok(count)
    }

    fn pending(&mut self) -> Result<Vec<Poll>, BooksFault> {
        self.books.pending()
    }

    fn latest(&mut self) -> Result<u64, BooksFault> {
        self.books.latest()
    }

    fn repeat(
        &mut self,
        caller: &Name,
        number: u64,
        request: &[u8],
    ) -> Result<Option<Repeat>, BooksFault> {
        self.books.repeat(caller, number, request)
    }

    fn intervals<K: RowSink<Share>>(
        &mut self,
        meter: &Name,
        span: Span,
        sink: &mut K,
    ) -> Result<(), BooksFault> {
        self.books.intervals(meter, span, sink)
    }

    fn register_intervals<K: RowSink<Share>>(
        &mut self,
        register: &Name,
        span: Span,
        sink: &mut K,
    ) -> Result<(), BooksFault> {
        self.books.register_intervals(register, span, sink)
    }

    fn holds<K: RowSink<HeldReading>>(
        &mut self,
        meter: &Name,
        span: Span,
        sink: &mut K,
    ) -> Result<(), BooksFault> {
        self.books.holds(meter, span, sink)
    }

    fn book(&mut self, facts: Vec<Fact>) -> Result<(), BooksFault> {
        if facts.is_empty() {
            return self.books.book(facts);
        }
        self.known.add_all(&facts);
        match self.books.book(facts) {
            Ok(()) => Ok(()),
            Err(fault) => {
                self.known = Known::new(self.alloc);
                Err(fault)
            }
        }
    }
}
