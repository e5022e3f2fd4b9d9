//! Implements the trait `Books`, the interface of a store of metering records, over the tables of a
//! database.
use crate::books::SqlBooks;
use crate::fault_counts::answered;
use crate::laws::databases_give_their_records;
use interval_core::{Share, Zone};
use mb_wire::ReadSpan;
use office_books::{Books, BooksFault, MeterEntry, Repeat, RowSink, Span};
use office_events::{
    Device, EntryContext, Fact, HeldReading, Installation, Name, PlannedList, Poll, PollRow,
    Register,
};
use sqlite::Alter;

impl<S: Alter + Drop> Books for SqlBooks<S> {
    ghost use Rattle.office_store.specs.Stored.{ledger_of};

    ghost ledger = { λ books. ledger_of S.Store books.connection books.failures books.zone };

    fn faults(&self) -> u64 {
        self.failures.count
    }

    fn zone(&self) -> Zone {
        self.zone
    }

    fn tables_are_known(&self) {
        databases_give_their_records();
    }

    fn devices(&mut self) -> Result<Vec<Device>, BooksFault> {
        let found = crate::devices(&mut self.connection);
        answered(&mut self.failures, found)
    }

    fn list(&mut self, device: &Name) -> Result<Option<PlannedList>, BooksFault> {
        let found = crate::list(self.alloc, &mut self.connection, device);
        answered(&mut self.failures, found)
    }

    fn read_count(&mut self, device: &Name) -> Result<Option<usize>, BooksFault> {
        let found = crate::read_count(self.alloc, &mut self.connection, device);
        answered(&mut self.failures, found)
    }

    fn reads(
        &mut self,
        device: &Name,
        from: u64,
        most: usize,
    ) -> Result<Vec<ReadSpan>, BooksFault> {
        let found = crate::reads(self.alloc, &mut self.connection, device, from, most);
        answered(&mut self.failures, found)
    }

    fn register(&mut self, name: &Name) -> Result<Option<Register>, BooksFault> {
        let found = crate::register(&mut self.connection, name);
        answered(&mut self.failures, found)
    }

    fn registers(&mut self, device: &Name) -> Result<Vec<Register>, BooksFault> {
        let found = crate::registers(&mut self.connection, device);
        answered(&mut self.failures, found)
    }

    fn registers_read(
        &mut self,
        device: &Name,
        span: ReadSpan,
    ) -> Result<Vec<Register>, BooksFault> {
        let found = crate::registers_read(&mut self.connection, device, span);
        answered(&mut self.failures, found)
    }

    fn register_count(&mut self, device: &Name) -> Result<usize, BooksFault> {
        let found = crate::register_count(&mut self.connection, device);
        answered(&mut self.failures, found)
    }

    fn meter(&mut self, name: &Name) -> Result<Option<Installation>, BooksFault> {
        let found = crate::meter(&mut self.connection, name);
        answered(&mut self.failures, found)
    }

    fn installation(&mut self, register: &Name) -> Result<Option<Installation>, BooksFault> {
        let found = crate::installation(&mut self.connection, register);
        answered(&mut self.failures, found)
    }

    fn meters(&mut self, register: &Name) -> Result<Vec<Installation>, BooksFault> {
        let found = crate::meters_at(self.alloc, &mut self.connection, register);
        answered(&mut self.failures, found)
    }

    fn installation_count(&mut self) -> Result<usize, BooksFault> {
        let found = crate::installation_count(&mut self.connection);
        answered(&mut self.failures, found)
    }

    fn entry(&mut self, meter: &Name, place: u64) -> Result<Option<EntryContext>, BooksFault> {
        let found = crate::entry(self.alloc, &mut self.connection, meter, place);
        answered(&mut self.failures, found)
    }

    fn entry_near(&mut self, meter: &Name, place: u64) -> Result<Option<EntryContext>, BooksFault> {
        let found = crate::entry_near(self.alloc, &mut self.connection, meter, place);
        answered(&mut self.failures, found)
    }

    fn entries(
        &mut self,
        meter: &Name,
        from: u64,
        most: u32,
    ) -> Result<Vec<MeterEntry>, BooksFault> {
        let found = crate::meter_entries(self.alloc, &mut self.connection, meter, from, most);
        answered(&mut self.failures, found)
    }

    fn poll(&mut self, number: u64) -> Result<Option<PollRow>, BooksFault> {
        let found = crate::poll(&mut self.connection, number);
        answered(&mut self.failures, found)
    }

    fn poll_count(&mut self) -> Result<u64, BooksFault> {
        let found = crate::poll_count(&mut self.connection);
        answered(&mut self.failures, found)
    }

    fn pending(&mut self) -> Result<Vec<Poll>, BooksFault> {
        let found = crate::pending(&mut self.connection);
        answered(&mut self.failures, found)
    }

    fn latest(&mut self) -> Result<u64, BooksFault> {
        let found = crate::latest(&mut self.connection);
        answered(&mut self.failures, found)
    }

    fn repeat(
        &mut self,
        caller: &Name,
        number: u64,
        request: &[u8],
    ) -> Result<Option<Repeat>, BooksFault> {
        let found = crate::repeat(&mut self.connection, caller, number, request);
        answered(&mut self.failures, found)
    }

    fn intervals<K: RowSink<Share>>(
        &mut self,
        meter: &Name,
        span: Span,
        sink: &mut K,
    ) -> Result<(), BooksFault> {
        let found = crate::intervals(&mut self.connection, meter, span, sink);
        answered(&mut self.failures, found)
    }

    fn register_intervals<K: RowSink<Share>>(
        &mut self,
        register: &Name,
        span: Span,
        sink: &mut K,
    ) -> Result<(), BooksFault> {
        let found = crate::register_intervals(&mut self.connection, register, span, sink);
        answered(&mut self.failures, found)
    }

    fn holds<K: RowSink<HeldReading>>(
        &mut self,
        meter: &Name,
        span: Span,
        sink: &mut K,
    ) -> Result<(), BooksFault> {
        let found = crate::holds(&mut self.connection, meter, span, sink);
        answered(&mut self.failures, found)
    }

    fn book(&mut self, facts: Vec<Fact>) -> Result<(), BooksFault> {
        databases_give_their_records();
        let done = crate::bookings::book_facts(self.alloc, &mut self.connection, &facts);
        answered(&mut self.failures, done)
    }
}
