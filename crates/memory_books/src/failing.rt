//! A store in memory for tests, which fails at one chosen call.
ghost use Rattle.std.specs.Prelude.{◌≡◌, IfErr};
ghost use Rattle.office_books.specs.Faults.{faults_after, no_failures};
ghost use Rattle.office_books.specs.declared.faults.BooksFault.TheVariants.{Store};
ghost use Rattle.office_books.specs.declared.faults.StoreFault.TheVariants.{Refused};

use crate::ListBooks;
use interval_core::{Share, Zone};
use mb_wire::ReadSpan;
use office_books::{Books, BooksFault, Failures, MeterEntry, Repeat, RowSink, Span, StoreFault};
use office_events::{
    Device, EntryContext, Fact, HeldReading, Installation, Name, PlannedList, Poll, PollRow,
    Register,
};

/// A store in memory for tests, which fails at one chosen call. Every other call fails only if
/// memory runs out.
#[derive(Drop)]
pub struct FailingBooks {
    pub(crate) books: ListBooks,
    pub(crate) calls: u64,
    pub(crate) failing: u64,
    pub(crate) failures: Failures,
    /// True if a failing query that passes rows to a sink (a consumer of rows) first passes all of
    /// its rows. Otherwise the query fails at once.
    pub(crate) fails_after_rows: bool,
}

impl FailingBooks {
    ghost use Rattle.std.specs.Prelude.{◌≡◌, List};
    ghost use Rattle.office_events.specs.declared.facts.Fact.{Fact};
    ghost use Rattle.memory_books.specs.Listed.{ledger_of};

    /// Creates a store that fails its call number `failing`, where the first call has number 1.
    /// Calls that cannot fail and writes of no records are not counted.
    pub fn new(books: ListBooks, failing: u64) -> FailingBooks
        ensures holds { (known : List Fact) → (ledger_of books).holds known
            → (⟦<FailingBooks as Books>⟧.ledger result).holds known }
        ensures zone { (⟦<FailingBooks as Books>⟧.ledger result).zone ≡ (ledger_of books).zone }
        ensures failures { (⟦<FailingBooks as Books>⟧.ledger result).failures ≡ no_failures }
    {
        FailingBooks {
            books,
            calls: 0,
            failing,
            failures: Failures::new(),
            fails_after_rows: false,
        }
    }

    /// Counts a call of the store, and returns an error if this is the call that must fail.
    fn called(&mut self) -> Result<(), BooksFault>
        ensures books { self.new.books ≡ self.old.books }
        ensures holds { (known : List Fact) → (ledger_of self.old.books).holds known
            → (ledger_of self.new.books).holds known }
        ensures zone { (ledger_of self.new.books).zone ≡ (ledger_of self.old.books).zone }
        ensures noted { self.new.failures ≡ faults_after result self.old.failures }
        ensures refused { IfErr result (λ fault. fault ≡ Store Refused) }
    {
        self.calls = self.calls.saturating_add(1);
        if self.calls == self.failing {
            let refused = BooksFault::Store(StoreFault::Refused);
            return self.failures.noted(Err(refused));
        }
        Ok(())
    }
}

impl Books for FailingBooks {
    ghost use Rattle.memory_books.specs.Listed.{ledger_of};
    ghost use Rattle.memory_books.specs.Refusing.{refusing};

    ghost ledger = { λ failing. refusing (ledger_of failing.books) failing.failures };

    fn faults(&self) -> u64 {
        self.failures.count
    }

    fn zone(&self) -> Zone {
        self.books.zone()
    }

    fn tables_are_known(&self) {
        self.books.tables_are_known();
    }

    fn devices(&mut self) -> Result<Vec<Device>, BooksFault> {
        self.called()?;
        let found = self.books.devices();
        self.failures.noted(found)
    }

    fn list(&mut self, device: &Name) -> Result<Option<PlannedList>, BooksFault> {
        self.called()?;
        let found = self.books.list(device);
        self.failures.noted(found)
    }

    fn read_count(&mut self, device: &Name) -> Result<Option<usize>, BooksFault> {
        self.called()?;
        let found = self.books.read_count(device);
        self.failures.noted(found)
    }

    fn reads(
        &mut self,
        device: &Name,
        from: u64,
        most: usize,
    ) -> Result<Vec<ReadSpan>, BooksFault> {
        self.called()?;
        let found = self.books.reads(device, from, most);
        self.failures.noted(found)
    }

    fn register(&mut self, name: &Name) -> Result<Option<Register>, BooksFault> {
        self.called()?;
        let found = self.books.register(name);
        self.failures.noted(found)
    }

    fn registers(&mut self, device: &Name) -> Result<Vec<Register>, BooksFault> {
        self.called()?;
        let found = self.books.registers(device);
        self.failures.noted(found)
    }

    fn registers_read(
        &mut self,
        device: &Name,
        span: ReadSpan,
    ) -> Result<Vec<Register>, BooksFault> {
        self.called()?;
        let found = self.books.registers_read(device, span);
        self.failures.noted(found)
    }

    fn register_count(&mut self, device: &Name) -> Result<usize, BooksFault> {
        self.called()?;
        let found = self.books.register_count(device);
        self.failures.noted(found)
    }

    fn meter(&mut self, name: &Name) -> Result<Option<Installation>, BooksFault> {
        self.called()?;
        let found = self.books.meter(name);
        self.failures.noted(found)
    }

    fn installation(&mut self, register: &Name) -> Result<Option<Installation>, BooksFault> {
        self.called()?;
        let found = self.books.installation(register);
        self.failures.noted(found)
    }

    fn meters(&mut self, register: &Name) -> Result<Vec<Installation>, BooksFault> {
        self.called()?;
        let found = self.books.meters(register);
        self.failures.noted(found)
    }

    fn installation_count(&mut self) -> Result<usize, BooksFault> {
        self.called()?;
        let found = self.books.installation_count();
        self.failures.noted(found)
    }

    fn entry(&mut self, meter: &Name, place: u64) -> Result<Option<EntryContext>, BooksFault> {
        self.called()?;
        let found = self.books.entry(meter, place);
        self.failures.noted(found)
    }

    fn entry_near(&mut self, meter: &Name, place: u64) -> Result<Option<EntryContext>, BooksFault> {
        self.called()?;
        let found = self.books.entry_near(meter, place);
        self.failures.noted(found)
    }

    fn entries(
        &mut self,
        meter: &Name,
        from: u64,
        most: u32,
    ) -> Result<Vec<MeterEntry>, BooksFault> {
        self.called()?;
        let found = self.books.entries(meter, from, most);
        self.failures.noted(found)
    }

    fn poll(&mut self, number: u64) -> Result<Option<PollRow>, BooksFault> {
        self.called()?;
        let found = self.books.poll(number);
        self.failures.noted(found)
    }

    fn poll_count(&mut self) -> Result<u64, BooksFault> {
        self.called()?;
        let found = self.books.poll_count();
        self.failures.noted(found)
    }

    fn pending(&mut self) -> Result<Vec<Poll>, BooksFault> {
        self.called()?;
        let found = self.books.pending();
        self.failures.noted(found)
    }

    fn latest(&mut self) -> Result<u64, BooksFault> {
        self.called()?;
        let found = self.books.latest();
        self.failures.noted(found)
    }

    fn repeat(
        &mut self,
        caller: &Name,
        number: u64,
        request: &[u8],
    ) -> Result<Option<Repeat>, BooksFault> {
        self.called()?;
        let found = self.books.repeat(caller, number, request);
        self.failures.noted(found)
    }

    fn intervals<K: RowSink<Share>>(
        &mut self,
        meter: &Name,
        span: Span,
        sink: &mut K,
    ) -> Result<(), BooksFault> {
        if self.fails_after_rows {
            let handed = self.books.intervals(meter, span, sink);
            self.failures.noted(handed)?;
            return self.called();
        }
        self.called()?;
        let found = self.books.intervals(meter, span, sink);
        self.failures.noted(found)
    }

    fn register_intervals<K: RowSink<Share>>(
        &mut self,
        register: &Name,
        span: Span,
        sink: &mut K,
    ) -> Result<(), BooksFault> {
        if self.fails_after_rows {
            let handed = self.books.register_intervals(register, span, sink);
            self.failures.noted(handed)?;
            return self.called();
        }
        self.called()?;
        let found = self.books.register_intervals(register, span, sink);
        self.failures.noted(found)
    }

    fn holds<K: RowSink<HeldReading>>(
        &mut self,
        meter: &Name,
        span: Span,
        sink: &mut K,
    ) -> Result<(), BooksFault> {
        if self.fails_after_rows {
            let handed = self.books.holds(meter, span, sink);
            self.failures.noted(handed)?;
            return self.called();
        }
        self.called()?;
        let found = self.books.holds(meter, span, sink);
        self.failures.noted(found)
    }

    fn book(&mut self, facts: Vec<Fact>) -> Result<(), BooksFault> {
        if facts.is_empty() {
            let done = self.books.book(facts);
            return self.failures.noted(done);
        }
        match self.called() {
            Ok(()) => {
                let done = self.books.book(facts);
                self.failures.noted(done)
            }
            Err(fault) => Err(fault),
        }
    }
}
